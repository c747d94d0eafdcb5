//! Request lines, HTTP messages and collection sheets that are answered over a file, up to what a stop leaves of it.
#![tactic(auto)]

mod batch;
mod closing;
mod handing;
mod serving;
mod sheet;

pub use batch::{batch_over, run_over};
pub use closing::{collect_and_close, run_and_close, serve_and_close};
pub use handing::{give_up, hand_back};
pub use serving::serve_over;
pub use sheet::collect_over;
