//! Stores over tables that were found, such as those of a file.
#![tactic(auto)]

mod adopted;
mod closing;
mod files;
pub mod laws;
mod upgraded;

pub use adopted::{Refused, Unjournaled, adopt, adopt_existing, adopt_journaled};
pub use closing::close;
pub use files::{
    open, open_existing, open_existing_with, open_journaled, open_journaled_with, open_with,
};
