//! The commands over a store, between standard input and output or on a port.

ghost use Rattle.std.specs.Prelude.{◌≤◌};
ghost use Rattle.mf_base.specs.DayText.{last_entered_day};
ghost use Rattle.microloan.specs.Status.{IsPrintStatus};

use crate::archiving::{Archiving, archive_into};
use crate::copies::FileCopy;
use crate::ledger::{print_portions, write_ledger, write_ledger_from, write_moved};
use crate::telling::{
    print_line, print_made, tell_cause, tell_end, tell_person, tell_reading, tell_refusal,
    tell_sheet,
};
use crate::why::{WITH_JOURNAL, WITHOUT_JOURNAL};
use mf_base::{Cause, Day, Fault};
use mf_ledger_play::BooksAsked;
use mf_office::Caller;
use mf_store::Store;
use mf_store_files::close;
use mf_store_lists::StoreLists;
use mf_wire_lines::{WatchedReader, WatchedWriter};
use microloan_commands::{SocketListener, answer_lines, report};
use microloan_files::{collect_and_close, run_and_close, serve_and_close};
use microloan_words::DaySpan;
use sqlite::{FileStore, Files};
use sqlite_disk::Disk;
use std::io;
use std::net::{Ipv4Addr, TcpListener};

/// How HTTP messages are served.
#[derive(Clone, Copy)]
pub struct Served {
    pub port: u16,
    pub connections: u64,
    /// How many seconds a silent client is waited for.
    pub patience: u32,
    /// Whether something is told of each message.
    pub told: bool,
    /// Whether lists may be asked for.
    pub lists: bool,
}

/// What is done over a file.
#[derive(Drop)]
pub enum Work<'a> {
    /// Request lines on standard input are answered; the first word of each may be told of it, and lists may be asked
    /// for.
    Answer {
        told: bool,
        lists: bool,
    },
    /// HTTP messages on a port of this machine are answered, one a connection.
    Serve(Served),
    /// The sheet on standard input is collected, for this member of staff.
    Collect(Caller),
    /// The report of arrears is printed, as this member of staff sees it.
    Report(Caller),
    /// It is said what the file holds, once a journal was begun where one is asked for and none kept.
    Upgrade {
        journal: bool,
    },
    /// Lines of the journal are moved to an archive.
    Archive(Archiving<'a>),
    /// The books of the institution are written, from a copy where one is given.
    Ledger {
        asked: BooksAsked,
        copy: Option<FileCopy>,
    },
    /// What its loans come to by portion is printed.
    Portions,
    /// What moved on a span of business days is printed.
    Moved(DaySpan),
}

/// Works over the store of a file, closes it (`mf_store_files::close`), and gives the program's status. Where closing
/// fails, the file and its log hold the institution together, and the status is the same.
pub fn work_on<D: Disk + Drop>(
    rt: &HostRuntime,
    file: &str,
    store: Store<FileStore<D>>,
    work: Work<'_>,
    told: &[u8],
) -> u8
    ensures { IsPrintStatus result }
{
    match work {
        Work::Answer { told: hears, lists } => {
            tell_reading(rt);
            answer_input(rt, store, hears, lists)
        }
        Work::Serve(served) => serve_port(rt, file, store, served),
        Work::Collect(staff) => collect_input(rt, store, staff, told),
        Work::Report(staff) => print_report(rt, store, staff),
        Work::Upgrade { journal } => upgrade_store(rt, file, store, journal),
        Work::Archive(archiving) => archive_into(rt, file, store, archiving),
        Work::Ledger { asked, copy } => match &copy {
            None => write_ledger(rt, store, &asked),
            Some(copy) => write_ledger_from(rt, file, store, &asked, copy),
        },
        Work::Portions => print_portions(rt, store),
        Work::Moved(span) => write_moved(rt, store, span),
    }
}

/// Answers the request lines on standard input over a new institution in memory, and gives the program's status.
pub fn answer_input_in_memory<R: Print + Eprint + Input + AllocGlobal>(rt: &R, day: Day) -> u8
    requires { day ≤ last_entered_day }
    ensures { IsPrintStatus result }
{
    let mut source = WatchedReader::new(rt.reader());
    let mut sink = WatchedWriter::new(io::writer(rt));
    let ended = answer_lines(rt.alloc(), day, &mut source, &mut sink);
    tell_end(rt, &ended)
}

/// Answers the request lines on standard input, with lists or without, and gives the program's status.
fn answer_input<R: Print + Eprint + Input + AllocGlobal, D: Disk + Drop>(
    rt: &R,
    store: Store<FileStore<D>>,
    told: bool,
    lists: bool,
) -> u8
    ensures { IsPrintStatus result }
{
    let all = StoreLists;
    let lists = all.where_asked(lists);
    let mut source = WatchedReader::new(rt.reader());
    let mut sink = WatchedWriter::new(io::writer(rt));
    let (ended, closed) = run_and_close(rt.alloc(), lists, told, store, &mut source, &mut sink);
    let_go(closed);
    tell_end(rt, &ended)
}

/// Answers the HTTP messages of so many connections to a port of this machine, and gives the program's status. A port
/// that can't be had can't be read.
fn serve_port<D: Disk + Drop>(
    rt: &HostRuntime,
    file: &str,
    store: Store<FileStore<D>>,
    served: Served,
) -> u8
    ensures { IsPrintStatus result }
{
    let Served {
        port,
        connections,
        patience,
        told,
        lists,
    } = served;
    let Ok(listener) = TcpListener::bind(rt, (Ipv4Addr::LOCALHOST, port)) else {
        let_go(close(store));
        return tell_cause(rt, Cause::Read);
    };
    tell_person(rt, format_args!("serving {file} on 127.0.0.1:{port}"));
    let all = StoreLists;
    let lists = all.where_asked(lists);
    let mut sockets = SocketListener::new(&listener, rt, patience);
    let (ended, closed) = serve_and_close(
        rt.alloc(),
        lists,
        told,
        store,
        &mut sockets,
        connections,
    );
    let_go(closed);
    tell_end(rt, &ended)
}

/// Collects the sheet on standard input, and gives the program's status.
fn collect_input<R: Print + Eprint + Input + AllocGlobal, D: Disk + Drop>(
    rt: &R,
    store: Store<FileStore<D>>,
    staff: Caller,
    told: &[u8],
) -> u8
    ensures { IsPrintStatus result }
{
    let mut source = WatchedReader::new(rt.reader());
    let mut sink = WatchedWriter::new(io::writer(rt));
    let (ended, closed) = collect_and_close(rt.alloc(), store, told, staff, &mut source, &mut sink);
    let_go(closed);
    tell_sheet(rt, &ended)
}

/// Prints the report of arrears, and gives the program's status.
fn print_report<R: Print + Eprint + AllocGlobal, D: Disk + Drop>(
    rt: &R,
    mut store: Store<FileStore<D>>,
    staff: Caller,
) -> u8
    ensures { IsPrintStatus result }
{
    let made = report(rt.alloc(), &mut store, staff);
    let_go(close(store));
    print_made(rt, made)
}

/// Begins a journal where one is asked for and none kept, says what the file holds, and gives the program's status.
fn upgrade_store<R: Print + Eprint + AllocGlobal, D: Disk + Drop>(
    rt: &R,
    file: &str,
    mut store: Store<FileStore<D>>,
    journal: bool,
) -> u8
    ensures { IsPrintStatus result }
{
    let begun = if journal {
        store.begin_journal(rt.alloc())
    } else {
        Ok(())
    };
    let is_journaled = store.keeps_journal();
    let_go(close(store));
    match begun {
        Ok(()) if is_journaled => print_line(rt, format_args!("{file}: {WITH_JOURNAL}")),
        Ok(()) => print_line(rt, format_args!("{file}: {WITHOUT_JOURNAL}")),
        Err(fault) => tell_refusal(rt, fault),
    }
}

/// Lets go of files that are closed, or of what is left of a store that could not be closed: of either, what a stop
/// leaves is told by the call that gave it. A function of its own, since the prover writes out the drop of a store
/// field by field wherever one is dropped.
pub fn let_go<D: Disk + Drop>(_closed: Result<Files<D>, (Fault, FileStore<D>)>) {}
