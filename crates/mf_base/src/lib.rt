//! What every crate of the loan desk shares: the numbered refusals and the faults of a stream, days and their texts,
//! money texts, names, rounding and splitting into parts, and reading and writing of texts.
#![tactic(auto)]

mod choice;
mod day;
mod digits;
mod fault;
mod frequency;
pub mod laws;
mod money;
mod rounding;
mod text;
mod texts;

pub use choice::Choice;
pub use day::{Day, Freq};
pub use digits::{is_digits, parse_digits, value_of_digits};
pub use fault::{Cause, Fault, StreamFault};
pub use money::{MONEY_LIMIT, money_text, parse_money};
pub use rounding::{half_even, split};
pub use text::{Name, Text};
pub use texts::{push_right, split_once};
