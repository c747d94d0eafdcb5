//! The program's commands and options, as clap takes them and shows them in its help.

ghost use Rattle.std.specs.Prelude.{◌≡◌, codes, IfOk, false, fold};
ghost use Rattle.clap.specs.Words.{App, app_of, rule_of, new_app, with_subcommand};
ghost use Rattle.clap.specs.declared.Command.TheViews.{out-Command as fields_of};
ghost use Rattle.microloan_words.specs.Options.{rule_for, with_declared, batch_app, serve_app, collect_app, report_app};
ghost use Rattle.microloan_words.specs.Options.{schedule_app, file_app, audit_app, upgrade_app, bare_app, desk_app};
ghost use Rattle.microloan_words.specs.Options.{archive_app, ledger_app, portions_app, microloan_app};

use crate::values::DEFAULT_DAY;
use clap::{Arg, ArgAction, Command};
use std::alloc::{AllocError, Global};

/// This release, and the schema of the files that it writes.
const VERSION: &str = "1.13.0 (schema 2)";

/// Whether an option must be given, has a text that stands where it isn't, or is a flag.
pub(crate) enum Need {
    Optional,
    Required,
    Default(&'static str),
    /// It has no value.
    Flag,
}

/// An option of a command, by its long name, with one value unless it is a flag.
pub(crate) struct CommandOption {
    id: &'static str,
    value_name: &'static str,
    help: &'static str,
    need: Need,
}

/// The file of an institution, which must be given.
const FILE: CommandOption = CommandOption {
    id: "file",
    value_name: "PATH",
    help: "The file that holds the institution",
    need: Need::Required,
};

/// The day on which a new institution begins.
const FIRST_DAY: CommandOption = CommandOption {
    id: "day",
    value_name: "DAY",
    help: "First day of a new institution",
    need: Need::Default(DEFAULT_DAY),
};

/// That no new institution is made.
const EXISTING: CommandOption = CommandOption {
    id: "existing",
    value_name: "",
    help: "Refuse a file without an institution",
    need: Need::Flag,
};

/// That the institution keeps a journal.
const JOURNAL: CommandOption = CommandOption {
    id: "journal",
    value_name: "",
    help: "Ask for a journal; a new institution gets one",
    need: Need::Flag,
};

/// That the readings under `/lists/` are answered.
const LISTS: CommandOption = CommandOption {
    id: "lists",
    value_name: "",
    help: "Answer the readings under /lists/ too",
    need: Need::Flag,
};

/// The options of `batch`.
const BATCH_OPTIONS: [CommandOption; 6] = [
    CommandOption {
        id: "file",
        value_name: "PATH",
        help: "The file that holds the institution; none: memory",
        need: Need::Optional,
    },
    FIRST_DAY,
    EXISTING,
    JOURNAL,
    CommandOption {
        id: "told",
        value_name: "",
        help: "The journal notes the first word of each line",
        need: Need::Flag,
    },
    LISTS,
];

/// The options of `serve`.
const SERVE_OPTIONS: [CommandOption; 8] = [
    FILE,
    CommandOption {
        id: "port",
        value_name: "PORT",
        help: "The port on 127.0.0.1: 1 to 65535",
        need: Need::Required,
    },
    CommandOption {
        id: "count",
        value_name: "COUNT",
        help: "Connections to serve; 0: without end",
        need: Need::Default("0"),
    },
    CommandOption {
        id: "patience",
        value_name: "SECONDS",
        help: "Wait for a silent client: 1 to 3600",
        need: Need::Default("10"),
    },
    FIRST_DAY,
    EXISTING,
    JOURNAL,
    LISTS,
];

/// The member of staff who asks.
const STAFF: CommandOption = CommandOption {
    id: "staff",
    value_name: "STAFF",
    help: "Who asks: an office, a slash and a member of its staff",
    need: Need::Required,
};

/// The options of `collect`.
const COLLECT_OPTIONS: [CommandOption; 5] = [
    FILE,
    STAFF,
    EXISTING,
    JOURNAL,
    CommandOption {
        id: "told",
        value_name: "TEXT",
        help: "The journal notes it with each line",
        need: Need::Optional,
    },
];

/// The options of `report`.
const REPORT_OPTIONS: [CommandOption; 3] = [FILE, STAFF, EXISTING];

/// The options of a command over a file that no member of staff asks for.
const FILE_OPTIONS: [CommandOption; 1] = [FILE];

/// The options of `audit`.
const AUDIT_OPTIONS: [CommandOption; 4] = [
    FILE,
    CommandOption {
        id: "all",
        value_name: "",
        help: "Tell each row that breaks a condition",
        need: Need::Flag,
    },
    CommandOption {
        id: "from",
        value_name: "COPY",
        help: "The copy over which the journal was begun",
        need: Need::Optional,
    },
    CommandOption {
        id: "archives",
        value_name: "FOLDER",
        help: "The folder with the archives of its first lines",
        need: Need::Optional,
    },
];

/// The options of `upgrade`.
const UPGRADE_OPTIONS: [CommandOption; 3] = [
    FILE,
    EXISTING,
    CommandOption {
        id: "journal",
        value_name: "",
        help: "Begin a journal, where the institution keeps none",
        need: Need::Flag,
    },
];

/// The options of `archive`.
const ARCHIVE_OPTIONS: [CommandOption; 4] = [
    FILE,
    EXISTING,
    CommandOption {
        id: "to",
        value_name: "DAY",
        help: "The last business day whose lines are moved",
        need: Need::Required,
    },
    CommandOption {
        id: "into",
        value_name: "PATH",
        help: "The archive, a file that isn't there",
        need: Need::Required,
    },
];

/// The options of `ledger`.
const LEDGER_OPTIONS: [CommandOption; 9] = [
    FILE,
    EXISTING,
    CommandOption {
        id: "from",
        value_name: "DAY",
        help: "The first business day that is written",
        need: Need::Required,
    },
    CommandOption {
        id: "to",
        value_name: "DAY",
        help: "The last business day that is written",
        need: Need::Required,
    },
    CommandOption {
        id: "csv",
        value_name: "",
        help: "Comma-separated values, for spreadsheets",
        need: Need::Flag,
    },
    CommandOption {
        id: "beancount",
        value_name: "",
        help: "A journal of beancount",
        need: Need::Flag,
    },
    CommandOption {
        id: "accrual",
        value_name: "",
        help: "Income once it falls due; see below",
        need: Need::Flag,
    },
    CommandOption {
        id: "names",
        value_name: "PATH",
        help: "A file with the names of accounts; see below",
        need: Need::Optional,
    },
    CommandOption {
        id: "from-copy",
        value_name: "PATH",
        help: "The file as it was before it got its journal",
        need: Need::Optional,
    },
];

/// The options of `portions`.
const PORTIONS_OPTIONS: [CommandOption; 4] = [
    FILE,
    EXISTING,
    CommandOption {
        id: "from",
        value_name: "DAY",
        help: "The first business day whose movement is asked for",
        need: Need::Optional,
    },
    CommandOption {
        id: "to",
        value_name: "DAY",
        help: "The last business day whose movement is asked for",
        need: Need::Optional,
    },
];

/// The options of `schedule`.
const SCHEDULE_OPTIONS: [CommandOption; 9] = [
    CommandOption {
        id: "method",
        value_name: "METHOD",
        help: "The plan of principal and interest; see below",
        need: Need::Required,
    },
    CommandOption {
        id: "principal",
        value_name: "CENTS",
        help: "Amount lent in whole cents: 1 to 1000000000000",
        need: Need::Required,
    },
    CommandOption {
        id: "rate",
        value_name: "RATE",
        help: "Hundredths of a percent a year: 0 to 100000",
        need: Need::Required,
    },
    CommandOption {
        id: "periods",
        value_name: "COUNT",
        help: "Number of instalments: 1 to 360",
        need: Need::Required,
    },
    CommandOption {
        id: "day",
        value_name: "DAY",
        help: "Disbursement: 2000-01-01 to 2099-12-31",
        need: Need::Required,
    },
    CommandOption {
        id: "frequency",
        value_name: "UNIT",
        help: "Period in weeks or months",
        need: Need::Default("months"),
    },
    CommandOption {
        id: "every",
        value_name: "COUNT",
        help: "Length: 1-52 weeks or 1-12 months",
        need: Need::Default("1"),
    },
    CommandOption {
        id: "principal-grace",
        value_name: "COUNT",
        help: "Instalments without principal",
        need: Need::Default("0"),
    },
    CommandOption {
        id: "interest-grace",
        value_name: "COUNT",
        help: "Instalments without interest",
        need: Need::Default("0"),
    },
];

/// An option as `clap` takes it.
fn arg_of<'a>(alloc: Global, option: &CommandOption) -> Arg<'a>
    ensures rule { rule_of result ≡ rule_for option.now }
    ensures local { result.global ≡ false }
{
    let arg = Arg::new(alloc, option.id).long(option.id).help(option.help);
    match option.need {
        Need::Optional => arg.value_name(option.value_name),
        Need::Required => arg.value_name(option.value_name).required(true),
        Need::Default(text) => arg.value_name(option.value_name).default_value(text),
        Need::Flag => arg.action(ArgAction::SetTrue),
    }
}

/// The command with one more option.
fn with_option<'a>(
    alloc: Global,
    command: Command<'a>,
    option: &CommandOption,
) -> Result<Command<'a>, AllocError>
    requires { (fields_of command).has_globals ≡ false }
    ensures app { IfOk result (λ c. app_of c ≡ with_declared (app_of command.entry) option.now) }
    ensures local { IfOk result (λ c. (fields_of c).has_globals ≡ false) }
{
    command.arg(arg_of(alloc, option))
}

/// The command with more options.
fn with_options<'a>(
    alloc: Global,
    command: Command<'a>,
    options: &[CommandOption],
) -> Result<Command<'a>, AllocError>
    requires { (fields_of command).has_globals ≡ false }
    ensures app { IfOk result (λ c. app_of c ≡ fold with_declared (app_of command.entry) options.now) }
    ensures local { IfOk result (λ c. (fields_of c).has_globals ≡ false) }
{
    let mut command = command;
    for option in options {
        command = with_option(alloc, command, option)?;
    }
    Ok(command)
}

/// A command with its line in help, and the text behind its options.
fn command_with_help<'a>(
    alloc: Global,
    name: &'a str,
    about: &'a str,
    after: &'a str,
) -> Command<'a>
    ensures app { app_of result ≡ new_app name.entry.now }
    ensures local { (fields_of result).has_globals ≡ false }
{
    Command::new(alloc, name).about(about).after_help(after)
}

/// The command `batch`.
fn batch_command<'a>(alloc: Global) -> Result<Command<'a>, AllocError>
    ensures app { IfOk result (λ c. app_of c ≡ batch_app) }
    ensures local { IfOk result (λ c. (fields_of c).has_globals ≡ false) }
{
    let command = command_with_help(
        alloc,
        "batch",
        "Answer request lines",
        "Each line of standard input is `caller method path`, then a space and a JSON\n\
         body where the request has one. Each reply is a status, a space and a body.\n\
         docs/routes.md has every request with its members and replies.\n\n\
         A file that is missing or empty gets a new institution. Days are 2000-01-01 to\n\
         2099-12-31.\n\n\
         Example:\n  echo '1/1 POST /clients {\"office\":1,\"name\":\"Amina\"}' | microloan batch",
    );
    with_options(alloc, command, BATCH_OPTIONS.as_slice())
}

/// The command `serve`.
fn serve_command<'a>(alloc: Global) -> Result<Command<'a>, AllocError>
    ensures app { IfOk result (λ c. app_of c ≡ serve_app) }
    ensures local { IfOk result (λ c. (fields_of c).has_globals ≡ false) }
{
    let command = command_with_help(
        alloc,
        "serve",
        "Answer HTTP messages, one a connection",
        "Each message names who asks in its field X-Staff, as 1/1. Connections are served\n\
         one after the other, so a slow client holds up the others.\n\n\
         A file that is missing or empty gets a new institution. Days are 2000-01-01 to\n\
         2099-12-31.\n\n\
         Example:\n  microloan serve --file desk.db --port 8080\n  \
         curl -H 'X-Staff: 1/1' http://127.0.0.1:8080/offices",
    );
    with_options(alloc, command, SERVE_OPTIONS.as_slice())
}

/// The command `collect`.
fn collect_command<'a>(alloc: Global) -> Result<Command<'a>, AllocError>
    ensures app { IfOk result (λ c. app_of c ≡ collect_app) }
    ensures local { IfOk result (λ c. (fields_of c).has_globals ≡ false) }
{
    let command = command_with_help(
        alloc,
        "collect",
        "Enter the repayments of a collection sheet",
        "Standard input is the sheet, CSV with the columns receipt,loan,date,amount, at\n\
         most 1048576 bytes. Standard output is the sheet with a fifth column, result:\n\
         entered, repeated or the number of a refusal. A sheet may be sent again.\n\n\
         Example:\n  microloan collect --file desk.db --staff 1/1 < sheet.csv > results.csv",
    );
    with_options(alloc, command, COLLECT_OPTIONS.as_slice())
}

/// The command `report`.
fn report_command<'a>(alloc: Global) -> Result<Command<'a>, AllocError>
    ensures app { IfOk result (λ c. app_of c ≡ report_app) }
    ensures local { IfOk result (λ c. (fields_of c).has_globals ≡ false) }
{
    let command = command_with_help(
        alloc,
        "report",
        "Print the report of arrears",
        "A line for the office of the one who asks and for each office below it, by\n\
         number, and a line for all. The columns: office, active loans, outstanding\n\
         principal, then that of loans 1-30, 31-60, 61-90 and over 90 days overdue, and\n\
         the percentage more than 30 days overdue.\n\nExample:\n  microloan report --file desk.db --staff 1/1",
    );
    with_options(alloc, command, REPORT_OPTIONS.as_slice())
}

/// `schedule` with its texts and no options.
fn schedule_named<'a>(alloc: Global) -> Command<'a>
    ensures app { app_of result ≡ new_app (codes "schedule") }
    ensures local { (fields_of result).has_globals ≡ false }
{
    let command = command_with_help(
        alloc,
        "schedule",
        "Print the schedule of a loan, without charges",
        "Methods:\n  \
         flat                         equal principal, interest on the whole principal\n  \
         declining-equal-principal    equal principal, interest on what is left\n  \
         declining-equal-instalments  equal instalments, interest on what is left\n\n\
         Each grace is 0 to 359 first instalments, and less than their number.\n\n\
         Example: 1000.00 at 12 percent a year over three months\n  \
         microloan schedule --method declining-equal-principal \\\n    \
         --principal 100000 --rate 1200 --periods 3 --day 2024-01-31",
    );
    command.override_usage(
        "microloan schedule --method <METHOD> --principal <CENTS> --rate <RATE>\n           \
         --periods <COUNT> --day <DAY> [OPTIONS]",
    )
}

/// The command `schedule`.
fn schedule_command<'a>(alloc: Global) -> Result<Command<'a>, AllocError>
    ensures app { IfOk result (λ c. app_of c ≡ schedule_app) }
    ensures local { IfOk result (λ c. (fields_of c).has_globals ≡ false) }
{
    with_options(alloc, schedule_named(alloc), SCHEDULE_OPTIONS.as_slice())
}

/// The command `why`.
fn why_command<'a>(alloc: Global) -> Result<Command<'a>, AllocError>
    ensures app { IfOk result (λ c. app_of c ≡ file_app (codes "why")) }
    ensures local { IfOk result (λ c. (fields_of c).has_globals ≡ false) }
{
    let command = command_with_help(
        alloc,
        "why",
        "Say what stands in a file, and why it isn't opened",
        "One line of standard output says what the other commands would find: an\n\
         institution, or why there is none to open. Nothing is changed. The status is 0\n\
         where the file would be opened as the institution that it holds, else 1.\n\n\
         Example:\n  microloan why --file desk.db",
    );
    with_options(alloc, command, FILE_OPTIONS.as_slice())
}

/// The command `audit`.
fn audit_command<'a>(alloc: Global) -> Result<Command<'a>, AllocError>
    ensures app { IfOk result (λ c. app_of c ≡ audit_app) }
    ensures local { IfOk result (λ c. (fields_of c).has_globals ≡ false) }
{
    let command = command_with_help(
        alloc,
        "audit",
        "Check a file, and add up what it holds",
        "Where the file holds a sound institution, standard output has its clients,\n\
         loans, entries and balances, by office and in all, and the word sound: the\n\
         status is 0. Where it doesn't, a line says which row breaks which condition: the\n\
         status is 1. A journal is played, too: its lines are answered again in memory,\n\
         and a line says which row they don't give, or which of them doesn't play.\n\
         Where upgrade --journal began it, --from names the copy of before, to play it\n\
         over. Where its first lines were archived, --archives names the folder with the\n\
         archives. Nothing is changed. Audit a copy: the file is held meanwhile.\n\n\
         Example:\n  microloan audit --file copy.db\n  \
         microloan audit --file copy.db --from before-the-journal.db\n  \
         microloan audit --file copy.db --archives archives",
    );
    with_options(alloc, command, AUDIT_OPTIONS.as_slice())
}

/// The command `upgrade`.
fn upgrade_command<'a>(alloc: Global) -> Result<Command<'a>, AllocError>
    ensures app { IfOk result (λ c. app_of c ≡ upgrade_app) }
    ensures local { IfOk result (λ c. (fields_of c).has_globals ≡ false) }
{
    let command = command_with_help(
        alloc,
        "upgrade",
        "Bring a file up to date, or give it a journal",
        "A file of schema 1 becomes one of schema 2. With --journal, an institution that\n\
         keeps no journal gets one, in one commit, and its file is of schema 3.\n\n\
         Older programs refuse the file afterwards: back it up before.\n\n\
         Example:\n  microloan upgrade --file desk.db --journal",
    );
    with_options(alloc, command, UPGRADE_OPTIONS.as_slice())
}

/// The command `archive`.
fn archive_command<'a>(alloc: Global) -> Result<Command<'a>, AllocError>
    ensures app { IfOk result (λ c. app_of c ≡ archive_app) }
    ensures local { IfOk result (λ c. (fields_of c).has_globals ≡ false) }
{
    let command = command_with_help(
        alloc,
        "archive",
        "Move lines of closed days to an archive",
        "The journal's lines of business days up to and with DAY move to a new file,\n\
         whole, and then leave the institution's. DAY is before the business day. The\n\
         line on standard output has the numbers of the lines and the chain after the\n\
         last: note it elsewhere, and keep the archive.\n\n\
         Example:\n  microloan archive --existing --file desk.db --to 2024-12-31 --into 2024.db",
    );
    with_options(alloc, command, ARCHIVE_OPTIONS.as_slice())
}

/// The command `ledger`.
fn ledger_command<'a>(alloc: Global) -> Result<Command<'a>, AllocError>
    ensures app { IfOk result (λ c. app_of c ≡ ledger_app) }
    ensures local { IfOk result (λ c. (fields_of c).has_globals ≡ false) }
{
    let command = command_with_help(
        alloc,
        "ledger",
        "Write the books of a span of days",
        "Standard output is a journal of hledger: what each change moved on cash,\n\
         principal, income and the other accounts, dated with the business day on which\n\
         it was accepted. It is read off the institution's journal, and a day that is\n\
         closed never moves. docs/books.md tells the accounts.\n\n\
         Interest, fees and penalties are income once they are paid. With --accrual they\n\
         are once they fall due; what is due, waived or written off has accounts.\n\n\
         Where the journal was given later, by upgrade, the books begin with the balances\n\
         of the copy of the file that was kept before; --from-copy names it.\n\n\
         A line of the file of names gives an account its name in your chart:\n  \
         assets:cash=1010 Cash\n\n\
         Example:\n  microloan ledger --file desk.db --from 2024-01-01 --to 2024-01-31",
    );
    with_options(alloc, command, LEDGER_OPTIONS.as_slice())
}

/// The command `portions`.
fn portions_command<'a>(alloc: Global) -> Result<Command<'a>, AllocError>
    ensures app { IfOk result (λ c. app_of c ≡ portions_app) }
    ensures local { IfOk result (λ c. (fields_of c).has_globals ≡ false) }
{
    let command = command_with_help(
        alloc,
        "portions",
        "Add up interest, fees, penalties and principal",
        "Standard output is a table of comma-separated values: by office, product and\n\
         portion what is owed, paid, waived, written off and outstanding. Of principal,\n\
         what is owed is what was lent. A line without amounts is left out.\n\n\
         With --from and --to it is the movement of these business days, by the\n\
         institution's journal: what stood there after the last, less what stood there\n\
         before the first. What was taken back counts where it was taken back.\n\n\
         Example:\n  microloan portions --file desk.db --from 2024-01-01 --to 2024-01-31",
    );
    with_options(alloc, command, PORTIONS_OPTIONS.as_slice())
}

/// The program with one more command. That may have failed to be made, so that it is this call alone that drops a
/// program.
fn with_command<'a>(
    program: Command<'a>,
    command: Result<Command<'a>, AllocError>,
) -> Result<Command<'a>, AllocError>
    requires program { (fields_of program).has_globals ≡ false }
    requires command { IfOk command (λ c. (fields_of c).has_globals ≡ false) }
    ensures app { (app : App) → IfOk command.entry (λ c. app_of c ≡ app)
        → IfOk result (λ c. app_of c ≡ with_subcommand (app_of program.entry) app.top) }
    ensures local { IfOk result (λ c. (fields_of c).has_globals ≡ false) }
{
    program.subcommand(command?)
}

/// The program without commands, one of which it wants.
fn bare_program<'a>(alloc: Global) -> Command<'a>
    ensures app { app_of result ≡ bare_app }
    ensures local { (fields_of result).has_globals ≡ false }
{
    let texts = command_with_help(
        alloc,
        "microloan",
        "The loan desk of a microfinance institution",
        "A command's options: microloan batch --help, and so on\n\n\
         Exit status: 0 done (refused requests included), 1 a fault, 2 wrong words.",
    );
    texts
        .version(VERSION)
        .subcommand_required(true)
        .disable_help_subcommand(true)
}

/// The program with the commands over an institution.
fn desk_program<'a>(alloc: Global) -> Result<Command<'a>, AllocError>
    ensures app { IfOk result (λ c. app_of c ≡ desk_app) }
    ensures local { IfOk result (λ c. (fields_of c).has_globals ≡ false) }
{
    let program = with_command(bare_program(alloc), batch_command(alloc))?;
    let program = with_command(program, serve_command(alloc))?;
    let program = with_command(program, collect_command(alloc))?;
    with_command(program, report_command(alloc))
}

/// The program with its commands.
pub(crate) fn microloan_command<'a>(alloc: Global) -> Result<Command<'a>, AllocError>
    ensures app { IfOk result (λ c. app_of c ≡ microloan_app) }
    ensures local { IfOk result (λ c. (fields_of c).has_globals ≡ false) }
{
    let program = with_command(desk_program(alloc)?, schedule_command(alloc))?;
    let program = with_command(program, why_command(alloc))?;
    let program = with_command(program, audit_command(alloc))?;
    let program = with_command(program, upgrade_command(alloc))?;
    let program = with_command(program, archive_command(alloc))?;
    let program = with_command(program, ledger_command(alloc))?;
    with_command(program, portions_command(alloc))
}
