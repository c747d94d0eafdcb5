//! The desk of the lists: it answers what is asked of the lists, by a store of the institution.
#![tactic(auto)]

mod answering;
mod previews;
mod sight;
mod store;

pub use answering::answer;
pub use store::Lists;
