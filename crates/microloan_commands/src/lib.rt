//! What the program's commands do: request lines and HTTP messages are answered, sheets are collected, reports and
//! schedules are made.
#![tactic(auto)]

mod batch;
mod connections;
mod first;
mod listening;
mod printing;
mod reporting;
mod serving;
mod sheets;

pub use batch::answer_lines;
pub use first::in_memory;
pub use listening::{Listener, SocketListener};
pub use printing::schedule;
pub use reporting::report;
pub use serving::serve_connections;
pub use sheets::{SheetFault, collect_sheet};
