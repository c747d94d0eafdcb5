//! Collection sheets: what their lines ask for, and the sheet of their results.
#![tactic(auto)]

mod fields;
pub mod laws;
mod line;
mod records;
mod results;
mod sheet;

pub use line::{SheetLine, SheetRepayment};
pub use results::{BegunRecord, SheetResult, heading, result_sheet};
pub use sheet::{LONGEST, Sheet, SheetRow, read_sheet};
