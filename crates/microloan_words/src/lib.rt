//! The command line: what the program's words ask for.
#![tactic(auto)]

mod asked;
mod asking;
mod options;
mod reading;
mod refusal;
mod values;

pub use asked::{
    ArchiveWords, AuditWords, BatchWords, CollectWords, Command, DaySpan, FilePath, FileWords,
    LedgerForm, LedgerWords, PortionsWords, ScheduleWords, ServeWords, StaffWords, ToldText,
    UpgradeWords, Words,
};
pub use asking::command;
pub use values::default_day;
