//! What an audit prints: which row breaks which condition, or what the rows of a sound institution come to.
#![tactic(auto)]

mod archives;
mod catalogue;
mod entries;
mod journal;
pub mod laws;
mod line;
mod loans;
mod names;
mod offices;
mod played;
mod quoted;
mod sums;
mod text;
mod unread;

pub use archives::unread_archive_text;
pub use played::head_text;
pub use text::{audit_text, verdict_text};
