//! The loan desk's program: reads its words, and does what they ask for.
#![tactic(auto)]

mod archiving;
mod auditing;
mod copies;
mod following;
mod ledger;
mod places;
mod telling;
mod why;
mod working;

ghost use Rattle.std.specs.Prelude.{◌≡◌, ◌≤◌, IfSome};
ghost use Rattle.mf_base.specs.DayText.{last_entered_day};
ghost use Rattle.microloan_words.specs.Asked.{IsWithinLimits, IsServeWithinLimits};
ghost use Rattle.microloan_commands.specs.Printed.{HasLongGrace};
ghost use Rattle.microloan.specs.Status.{IsPrintStatus};

use crate::archiving::Archiving;
use crate::auditing::{say_audit, say_audit_from, say_audit_over};
use crate::following::Following;
use crate::ledger::{basis_asked, copy_asked, form_asked, names_in};
use crate::places::place_at;
use crate::telling::{
    print_made, refuse_words, tell_cause, tell_checking, tell_fault, tell_no_institution,
    tell_no_journal, tell_reading, tell_refusal,
};
use crate::why::say_why;
use crate::working::{Served, Work, answer_input_in_memory, work_on};
use mf_base::{Day, Fault};
use mf_ledger_play::BooksAsked;
use mf_store_files::{Refused, Unjournaled, open, open_existing, open_journaled};
use microloan_commands::schedule;
use microloan_words::{
    ArchiveWords, AuditWords, BatchWords, CollectWords, Command, LedgerWords, PortionsWords,
    ScheduleWords, ServeWords, StaffWords, UpgradeWords, Words, command, default_day,
};
use std::process::ExitCode;
use std::{env, io};

fn main(rt: HostRuntime) -> ExitCode {
    let status = match given_words(&rt) {
        Ok(words) => obey(&rt, &words),
        Err(words) => refuse_words(&rt, words),
    };
    ExitCode::from(status)
}

/// The words that the program is given. They are bad where one of them is no text.
fn given_words(rt: &HostRuntime) -> Result<Vec<String>, Words> {
    let alloc = rt.alloc();
    match env::args(rt) {
        Ok(words) => Ok(words.collect(alloc)?),
        Err(error) if error.kind() == io::ErrorKind::InvalidData => {
            let line = "microloan: a word is not UTF-8; see 'microloan --help'";
            Err(Words::Bad(String::from_str(alloc, line)?))
        }
        Err(_) => Err(Words::Memory),
    }
}

/// Does what the words ask for, and gives the program's status.
fn obey(rt: &HostRuntime, words: &[String]) -> u8 {
    match command(rt.alloc(), words) {
        Ok(Command::Batch(asked)) => batch(rt, &asked),
        Ok(Command::Serve(asked)) => serve(rt, &asked),
        Ok(Command::Collect(asked)) => collect(rt, &asked),
        Ok(Command::Report(asked)) => report(rt, &asked),
        Ok(Command::Schedule(asked)) => print_schedule(rt, &asked),
        Ok(Command::Why(asked)) => say_why(rt, asked.file.as_str()),
        Ok(Command::Audit(asked)) => audit(rt, &asked),
        Ok(Command::Upgrade(asked)) => upgrade(rt, &asked),
        Ok(Command::Archive(asked)) => archive(rt, &asked),
        Ok(Command::Ledger(asked)) => print_ledger(rt, &asked),
        Ok(Command::Portions(asked)) => portions(rt, &asked),
        Err(words) => refuse_words(rt, words),
    }
}

/// Audits a file, and plays its journal from its founding, or from the copy that is named, or over the archives in the
/// folder that is named.
fn audit(rt: &HostRuntime, asked: &AuditWords<'_>) -> u8
    ensures { IsPrintStatus result }
{
    let file = asked.file.as_str();
    match (&asked.from, &asked.archives) {
        (Some(copy), _) => say_audit_from(rt, file, copy.as_str(), asked.all),
        (None, Some(folder)) => say_audit_over(rt, file, folder.as_str(), asked.all),
        (None, None) => say_audit(rt, file, asked.all),
    }
}

/// What is asked of the institution in a file.
#[derive(Clone, Copy)]
struct Wanted {
    /// Whether a file without an institution is refused.
    existing: bool,
    /// Whether the institution keeps a journal: a new one begins one, and one that keeps none is refused.
    journal: bool,
    /// The first business day of an institution that is new.
    day: Day,
}

/// Answers request lines over the file that is named, or over a new institution in memory.
fn batch(rt: &HostRuntime, asked: &BatchWords<'_>) -> u8
    requires { asked.now.day ≤ last_entered_day }
    ensures { IsPrintStatus result }
{
    let wanted = Wanted {
        existing: asked.existing,
        journal: asked.journal,
        day: asked.day,
    };
    match &asked.file {
        None => {
            tell_reading(rt);
            answer_input_in_memory(rt, asked.day)
        }
        Some(file) => {
            let work = Work::Answer {
                told: asked.told,
                lists: asked.lists,
            };
            work_where(rt, file.as_str(), wanted, work, &[])
        }
    }
}

/// Serves HTTP over a file, which is opened before the port. Where the institution is to keep a journal, something may
/// be told of each message.
fn serve(rt: &HostRuntime, asked: &ServeWords<'_>) -> u8
    requires { IsServeWithinLimits asked.now }
    ensures { IsPrintStatus result }
{
    let work = Work::Serve(Served {
        port: asked.port,
        connections: asked.count,
        patience: asked.patience,
        told: asked.journal,
        lists: asked.lists,
    });
    let wanted = Wanted {
        existing: asked.existing,
        journal: asked.journal,
        day: asked.day,
    };
    tell_checking(rt, asked.file.as_str());
    work_where(rt, asked.file.as_str(), wanted, work, &[])
}

/// Collects the sheet on standard input over a file; a missing file becomes a new institution on the default day,
/// unless it is to hold one.
fn collect(rt: &HostRuntime, asked: &CollectWords<'_>) -> u8
    ensures { IsPrintStatus result }
{
    let wanted = Wanted {
        existing: asked.existing,
        journal: asked.journal,
        day: default_day(),
    };
    let told = match &asked.told {
        Some(told) => told.as_bytes(),
        None => [].as_slice(),
    };
    let work = Work::Collect(asked.staff);
    work_where(rt, asked.file.as_str(), wanted, work, told)
}

/// Prints the report of arrears over a file, which becomes a new institution as that of `collect` does.
fn report(rt: &HostRuntime, asked: &StaffWords<'_>) -> u8
    ensures { IsPrintStatus result }
{
    let wanted = Wanted {
        existing: asked.existing,
        journal: false,
        day: default_day(),
    };
    let work = Work::Report(asked.staff);
    work_where(rt, asked.file.as_str(), wanted, work, &[])
}

/// Brings a file up to date, which must hold an institution, and begins a journal where one is asked for and none kept.
fn upgrade(rt: &HostRuntime, asked: &UpgradeWords<'_>) -> u8
    ensures { IsPrintStatus result }
{
    let wanted = Wanted {
        existing: true,
        journal: false,
        day: default_day(),
    };
    let work = Work::Upgrade {
        journal: asked.journal,
    };
    work_where(rt, asked.file.as_str(), wanted, work, &[])
}

/// Moves lines of the journal of a file to an archive; the file must hold an institution that keeps one.
fn archive(rt: &HostRuntime, asked: &ArchiveWords<'_>) -> u8
    ensures { IsPrintStatus result }
{
    let wanted = Wanted {
        existing: true,
        journal: true,
        day: default_day(),
    };
    let work = Work::Archive(Archiving {
        to: asked.to,
        into: asked.into.as_str(),
    });
    work_where(rt, asked.file.as_str(), wanted, work, &[])
}

/// Writes the books of a span of days, of an institution that keeps a journal: from its founding, or from the copy that
/// is named.
fn print_ledger(rt: &HostRuntime, asked: &LedgerWords<'_>) -> u8
    ensures { IsPrintStatus result }
{
    let names = match names_in(rt, &asked.names) {
        Ok(names) => names,
        Err(cause) => return tell_cause(rt, cause),
    };
    let Ok(copy) = copy_asked(rt, &asked.copy) else {
        return tell_fault(rt, "the copy can't be read");
    };
    let work = Work::Ledger {
        asked: BooksAsked {
            form: form_asked(asked.form),
            basis: basis_asked(asked.accrual),
            first: asked.first,
            last: asked.last,
            names,
        },
        copy,
    };
    let wanted = Wanted {
        existing: true,
        journal: true,
        day: default_day(),
    };
    work_where(rt, asked.file.as_str(), wanted, work, &[])
}

/// Prints what loans come to by portion, or what moved on a span of days, where the institution must keep a journal.
fn portions(rt: &HostRuntime, asked: &PortionsWords<'_>) -> u8
    ensures { IsPrintStatus result }
{
    let wanted = Wanted {
        existing: true,
        journal: asked.span.is_some(),
        day: default_day(),
    };
    let work = match asked.span {
        None => Work::Portions,
        Some(span) => Work::Moved(span),
    };
    work_where(rt, asked.file.as_str(), wanted, work, &[])
}

/// Says why a file is not opened, and gives the program's status, where opening would put a new institution in the
/// place of something, or make one where one is to be there.
fn refuse_place(rt: &HostRuntime, file: &str, existing: bool) -> Option<u8>
    ensures { IfSome result IsPrintStatus }
{
    let place = place_at(rt, file);
    if place.is_vacant() && existing {
        Some(tell_no_institution(rt))
    } else if place.is_vacant() || place.is_taken() {
        None
    } else {
        Some(tell_refusal(rt, Fault::F20))
    }
}

/// Works over a file unless it is refused for what stands there, and gives the program's status. This is told of each
/// line of a sheet.
fn work_where(rt: &HostRuntime, file: &str, wanted: Wanted, work: Work<'_>, told: &[u8]) -> u8
    requires { wanted.day ≤ last_entered_day }
    ensures { IsPrintStatus result }
{
    match refuse_place(rt, file, wanted.existing) {
        Some(status) => status,
        None => work_over(rt, file, wanted, work, told),
    }
}

/// Opens a file, works over the institution that it holds, closes it, and gives the program's status. The only function
/// that holds a store of a known type: the prover reads all of `sqlite` for each.
fn work_over(rt: &HostRuntime, file: &str, wanted: Wanted, work: Work<'_>, told: &[u8]) -> u8
    requires { wanted.day ≤ last_entered_day }
    ensures { IsPrintStatus result }
{
    let mut following = Following::new(rt, file);
    let opened = if wanted.journal {
        let founds = if wanted.existing {
            None
        } else {
            Some(wanted.day)
        };
        open_journaled(rt, file, founds, &mut following)
    } else if wanted.existing {
        open_existing(rt, file, &mut following).map_err(Unjournaled::Refused)
    } else {
        open(rt, file, wanted.day, &mut following).map_err(failed)
    };
    match opened {
        Ok(store) => work_on(rt, file, store, work, told),
        Err(Unjournaled::NoJournal) => tell_no_journal(rt),
        Err(Unjournaled::Refused(Refused::NoInstitution)) => tell_no_institution(rt),
        Err(Unjournaled::Refused(Refused::Failed(fault))) => tell_refusal(rt, fault),
    }
}

/// That a file could not be opened for a fault.
fn failed(fault: Fault) -> Unjournaled {
    Unjournaled::Refused(Refused::Failed(fault))
}

/// Prints the schedule that the words ask for, and gives the program's status.
fn print_schedule<R: Print + Eprint + AllocGlobal>(rt: &R, asked: &ScheduleWords) -> u8
    requires { IsWithinLimits asked.now }
    ensures status { IsPrintStatus result }
    ensures long_grace { HasLongGrace asked.now → result ≡ 1 }
{
    print_made(rt, schedule(rt.alloc(), asked))
}
