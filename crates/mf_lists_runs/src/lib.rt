//! Request lines and HTTP messages over an institution, where lists may be asked for or may not.
#![tactic(auto)]

mod answering;
pub mod laws;
mod running;
mod serving;

pub use answering::ListDesk;
pub use running::run;
pub use serving::serve_one;
