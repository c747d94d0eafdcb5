//! Commits over tables that hold an institution: the writes of a change in one transaction, with the journal's line
//! that notes it where one is kept. Contracts speak of a connection; what is known beside its tables is `mf_store`'s.
#![tactic(auto)]

mod beginning;
mod journal;
pub mod laws;
mod noted;
mod upgrading;
mod writing;

pub use beginning::{JOURNALED_SCHEMA, begin_journal, found_journaled, founding_head};
pub use journal::Place;
pub use mf_store_journal::Journal;
pub use upgrading::{begin_upgraded, upgrading_head};
pub use writing::write_kept;
