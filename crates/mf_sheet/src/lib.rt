//! Collection sheets over an institution: each line answered as a repayment, and the sheet of their results written.
#![tactic(auto)]

mod answering;
mod begun;
mod collecting;
pub mod laws;

pub use answering::answer_line;
pub use collecting::collect;
pub use mf_sheet_lines::{
    LONGEST, Sheet, SheetLine, SheetRepayment, SheetResult, SheetRow, read_sheet, result_sheet,
};
pub use mf_wire_lines::{Sink, WatchedWriter, WriteFault};
