//! Copies in memory of files that hold an institution: what is done over one changes no file.
#![tactic(auto)]

mod copying;
mod memory;

pub use copying::{connect_in_memory, copy_in_memory};
