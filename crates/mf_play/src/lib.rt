//! The play of a journal: its lines, answered again one after the other.
#![tactic(auto)]

pub mod laws;
mod playing;
mod stop;
mod told;

pub use playing::{play_line, play_lines};
pub use stop::Stop;
pub use told::first_untold;
