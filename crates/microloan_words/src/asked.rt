//! What the program's words ask for.

use mf_base::{Day, Freq};
use mf_catalog::Method;
use mf_office::Caller;
use std::alloc::{AllocError, AllocFailed};
use std::marker::Model;

/// What the program is asked to do.
#[derive(Drop)]
pub enum Command<'a> {
    /// Answer the request lines on standard input.
    Batch(BatchWords<'a>),
    /// Answer HTTP messages, one a connection.
    Serve(ServeWords<'a>),
    /// Answer the collection sheet on standard input, and write the sheet of its results.
    Collect(CollectWords<'a>),
    /// Print the report of arrears.
    Report(StaffWords<'a>),
    /// Print a schedule.
    Schedule(ScheduleWords),
    /// Say what stands in a file, and whether it would be opened.
    Why(FileWords<'a>),
    /// Say what the institution in a file comes to, or which row of it breaks which condition.
    Audit(AuditWords<'a>),
    /// Bring the file of an institution to today's schema, and begin a journal.
    Upgrade(UpgradeWords<'a>),
    /// Move lines of a journal to a file of their own.
    Archive(ArchiveWords<'a>),
    /// Write the books of an institution that keeps a journal.
    Ledger(LedgerWords<'a>),
    /// Add up what loans come to by portion, or what it moved on a span of days.
    Portions(PortionsWords<'a>),
}

/// The path of a file, as it stands in the words. Contracts see its bytes.
#[derive(Drop)]
pub struct FilePath<'a> {
    text: &'a str,
}

impl<'a> Model for FilePath<'a> {
    ghost use Rattle.std.specs.Prelude.{ℕ, List};

    ghost Value = { List ℕ };

    ghost view = { λ path. path.text.now };
}

impl<'a> FilePath<'a> {
    ghost use Rattle.std.specs.Prelude.{◌≡◌};

    /// The path that a text is.
    pub fn new(text: &'a str) -> FilePath<'a>
        ensures { result ≡ text.entry.now }
    {
        FilePath { text }
    }

    /// The path as a text.
    pub fn as_str(&self) -> &'a str
        ensures { result.now ≡ self.now }
    {
        self.text
    }
}

/// What is told of the lines of a sheet, as it stands in the words. Contracts see its bytes.
#[derive(Drop)]
pub struct ToldText<'a> {
    text: &'a str,
}

impl<'a> Model for ToldText<'a> {
    ghost use Rattle.std.specs.Prelude.{ℕ, List};

    ghost Value = { List ℕ };

    ghost view = { λ told. told.text.now };
}

impl<'a> ToldText<'a> {
    ghost use Rattle.std.specs.Prelude.{◌≡◌};

    /// The text as it is told.
    pub fn new(text: &'a str) -> ToldText<'a>
        ensures { result ≡ text.entry.now }
    {
        ToldText { text }
    }

    /// What is told, as bytes.
    pub fn as_bytes(&self) -> &'a [u8]
        ensures { result.now ≡ self.now }
    {
        self.text.as_bytes()
    }
}

/// The options of `batch`.
#[derive(Drop)]
pub struct BatchWords<'a> {
    /// The file that holds the institution, or None for a new one in memory.
    pub file: Option<FilePath<'a>>,
    /// The first business day of an institution that is new.
    pub day: Day,
    /// Whether a file without an institution is refused. Then a file is named.
    pub existing: bool,
    /// Whether the institution keeps a journal: a new one begins one, and a file whose institution keeps none is
    /// refused. Then a file is named.
    pub journal: bool,
    /// Whether the first word of each line is told of it. Then a journal is kept.
    pub told: bool,
    /// Whether the readings under `/lists/` are answered too. Then a file is named.
    pub lists: bool,
}

/// The options of `serve`.
#[derive(Drop)]
pub struct ServeWords<'a> {
    /// The file that holds the institution.
    pub file: FilePath<'a>,
    /// The port on 127.0.0.1, from 1 to 65,535.
    pub port: u16,
    /// How many connections are served; 2^64 - 1 where the words ask for no end.
    pub count: u64,
    /// How many seconds a silent client is waited for, from 1 to 3,600.
    pub patience: u32,
    /// The first business day of an institution that is new.
    pub day: Day,
    /// Whether a file without an institution is refused.
    pub existing: bool,
    /// Whether the institution keeps a journal: a new one begins one, and a file whose institution keeps none is
    /// refused.
    pub journal: bool,
    /// Whether the readings under `/lists/` are answered too.
    pub lists: bool,
}

/// The options of `collect`.
#[derive(Drop)]
pub struct CollectWords<'a> {
    /// The file that holds the institution.
    pub file: FilePath<'a>,
    /// The member of staff who asks.
    pub staff: Caller,
    /// Whether a file without an institution is refused.
    pub existing: bool,
    /// Whether the institution keeps a journal: a new one begins one, and a file whose institution keeps none is
    /// refused.
    pub journal: bool,
    /// What is told of each line of the sheet: 1 to 100 printed characters of ASCII. Then a journal is kept.
    pub told: Option<ToldText<'a>>,
}

/// The options of `report`.
#[derive(Drop)]
pub struct StaffWords<'a> {
    /// The file that holds the institution.
    pub file: FilePath<'a>,
    /// The member of staff who asks.
    pub staff: Caller,
    /// Whether a file without an institution is refused.
    pub existing: bool,
}

/// The options of a command over a file that no member of staff asks for.
#[derive(Drop)]
pub struct FileWords<'a> {
    /// The file that may hold an institution.
    pub file: FilePath<'a>,
}

/// The options of `audit`.
#[derive(Drop)]
pub struct AuditWords<'a> {
    /// The file that may hold an institution.
    pub file: FilePath<'a>,
    /// Whether each row that breaks a condition is told, and not the first alone.
    pub all: bool,
    /// The copy from which the journal is played, where one is named.
    pub from: Option<FilePath<'a>>,
    /// The folder with the archives of the journal's first lines, where one is named. Then no copy is.
    pub archives: Option<FilePath<'a>>,
}

/// The options of `upgrade`.
#[derive(Drop)]
pub struct UpgradeWords<'a> {
    /// The file that holds the institution.
    pub file: FilePath<'a>,
    /// Whether `--existing` is given. A file without an institution is refused either way.
    pub existing: bool,
    /// Whether a journal is begun, where the institution keeps none.
    pub journal: bool,
}

/// The options of `archive`.
#[derive(Drop)]
pub struct ArchiveWords<'a> {
    /// The file that holds the institution.
    pub file: FilePath<'a>,
    /// Whether `--existing` is given. A file without an institution is refused either way.
    pub existing: bool,
    /// The last business day whose lines are moved.
    pub to: Day,
    /// The file of the archive, which is to be made.
    pub into: FilePath<'a>,
}

/// What reads the books.
#[derive(Clone, Copy, PartialEq, Eq)]
pub enum LedgerForm {
    /// hledger or ledger, as a journal.
    Hledger,
    /// beancount, as a journal.
    Beancount,
    /// A spreadsheet, as comma-separated values.
    Sheet,
}

/// The options of `ledger`.
#[derive(Drop)]
pub struct LedgerWords<'a> {
    /// The file that holds the institution.
    pub file: FilePath<'a>,
    /// Whether `--existing` is given. A file without an institution is refused either way.
    pub existing: bool,
    /// The first business day whose transactions are written.
    pub first: Day,
    /// The last one, which isn't before it.
    pub last: Day,
    pub form: LedgerForm,
    /// Whether `--accrual` is given: interest, fees and penalties are income once they fall due.
    pub accrual: bool,
    /// The file with the names of accounts, where one is named.
    pub names: Option<FilePath<'a>>,
    /// The file as it was when its journal was begun over its rows; none where the journal begins at a founding.
    pub copy: Option<FilePath<'a>>,
}

/// A span of days, the first and the last included.
#[derive(Clone, Copy, PartialEq, Eq)]
pub struct DaySpan {
    pub first: Day,
    /// It isn't before the first.
    pub last: Day,
}

/// The options of `portions`.
#[derive(Drop)]
pub struct PortionsWords<'a> {
    /// The file that holds the institution.
    pub file: FilePath<'a>,
    /// Whether `--existing` is given. A file without an institution is refused either way.
    pub existing: bool,
    /// The business days whose movement is asked for; none where it is what stands there now.
    pub span: Option<DaySpan>,
}

/// The options of `schedule`.
#[derive(Clone, Copy, PartialEq, Eq)]
pub struct ScheduleWords {
    /// How interest and principal are planned.
    pub method: Method,
    /// The principal in cents, from 1 to 10^12.
    pub principal: u64,
    /// The annual rate in hundredths of a percent, from 0 to 100,000.
    pub rate: u32,
    /// How many instalments, from 1 to 360.
    pub periods: u32,
    /// The day of disbursement.
    pub day: Day,
    /// Whether a period is counted in weeks or in months.
    pub frequency: Freq,
    /// How many of these a period has: 1 to 52 weeks, or 1 to 12 months.
    pub every: u32,
    /// How many first instalments carry no principal, from 0 to 359.
    pub principal_grace: u32,
    /// How many first instalments carry no interest, from 0 to 359.
    pub interest_grace: u32,
}

/// Why the words ask for nothing that the program does.
#[derive(Drop)]
pub enum Words {
    /// They are wrong: a line that says what is, and how to ask for help.
    Bad(String),
    /// They ask for help: its text.
    Help(String),
    /// They ask for the version: its text.
    Version(String),
    /// Out of memory.
    Memory,
}

impl From<AllocError> for Words {
    fn from(_error: AllocError) -> Words {
        Words::Memory
    }
}
