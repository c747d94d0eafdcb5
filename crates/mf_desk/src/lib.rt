//! The desk: it answers requests by a store of the institution, and says who may do what.
#![tactic(auto)]

mod answering;
mod arrears;
mod catalogue;
mod decision;
mod entering;
mod entries;
mod lending;
mod loans;
mod numbers;
mod offices;
mod products;
mod repaying;
mod reversing;
mod roles;
mod routes;
mod sight;
mod stages;
mod statements;

pub use answering::{answer, commit_noted, decide};
pub use arrears::arrears_lines;
pub use decision::Decision;
pub use mf_model::{OfficeList, Reply, Request};
