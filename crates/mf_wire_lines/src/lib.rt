//! A stream of request lines, answered one by one: which lines it holds, and the bytes that are written for each.
//!
//! What answers a line is any `LineDesk`. Readers and writers count their faults, so that each fault that is reported
//! was theirs, and of that call. The texts of refusals stand here too, since a line that is too long is refused before
//! any desk hears it.
#![tactic(auto)]

mod line_buffer;
mod lines;
mod refusals;
mod sinks;
mod sources;
mod told;
mod writing;

pub use lines::{LONGEST_LINE, LineDesk, run_lines};
pub use refusals::fault_text;
pub use sinks::{Sink, WatchedWriter, WriteFault};
pub use sources::{ReadFault, Source, WatchedReader};
pub use told::{LONGEST_TOLD, may_be_told};
pub use writing::put;
