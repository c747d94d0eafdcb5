//! What a success is replied by: its HTTP status, its body in JSON, and its line.
#![tactic(auto)]

mod showing;

pub use showing::{
    Written, array_text, body_text, comma_if, day_text, line_text, list_text, quoted_text, status,
    sums_text, text_in,
};
