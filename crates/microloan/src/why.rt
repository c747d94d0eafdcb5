//! What stands in a file, in words: the institution that it holds, or why none is opened.

ghost use Rattle.microloan.specs.Status.{IsPrintStatus};

use crate::places::{Place, has_checksums, place_at};
use crate::telling::{FAULT, print_line};
use mf_store_schema::{Version, has_log};
use mf_store_sound::{Finding, look};
use mf_store_verdict::head_of_file;
use microloan_audit::head_text;

/// What is said of a file with an institution that keeps no journal.
pub const WITHOUT_JOURNAL: &str = "a sound institution, schema 2";
/// What is said of a file with an institution that keeps a journal.
pub const WITH_JOURNAL: &str = "a sound institution with a journal, schema 3";
/// What is said of a sound institution in a file whose pages don't end in checksums.
pub const WITHOUT_CHECKSUMS: &str =
    "its pages have no checksums, so a bit that turned on the disk may go unnoticed";

/// Says in a line what opening a file would find, and gives the program's status: 0 where it is opened as the
/// institution that it holds. Nothing is made and nothing is changed.
pub fn say_why(rt: &HostRuntime, file: &str) -> u8
    ensures { IsPrintStatus result }
{
    match place_at(rt, file) {
        Place::Database => say_database(rt, file, look(rt, file)),
        place => {
            let _said = say(rt, file, words_of_place(place), "");
            FAULT
        }
    }
}

/// Says a line of a file, and gives the status of printing it.
fn say(rt: &HostRuntime, file: &str, words: &str, more: &str) -> u8
    ensures { IsPrintStatus result }
{
    print_line(rt, format_args!("{file}: {words}{more}"))
}

/// Says where the journal of an institution stands, behind what is said of its file, and gives the status of printing
/// it.
fn say_journaled(rt: &HostRuntime, file: &str) -> u8
    ensures { IsPrintStatus result }
{
    let told = match head_of_file(rt, file) {
        Ok(Some(head)) => head_text(rt.alloc(), head).ok(),
        _ => None,
    };
    match told {
        Some(head) => {
            let head = head.as_str();
            print_line(rt, format_args!("{file}: {WITH_JOURNAL} ({head})"))
        }
        None => say(rt, file, WITH_JOURNAL, ""),
    }
}

/// Whether a file holds an institution that keeps a journal.
fn is_journaled(found: Finding) -> bool {
    matches!(
        found,
        Finding::KnownTables {
            version: Version::Third,
            sound: true,
        }
    )
}

/// Says what was found in a database and, where it is a sound institution, if its pages have no checksums. Gives the
/// program's status.
fn say_database(rt: &HostRuntime, file: &str, found: Finding) -> u8
    ensures { IsPrintStatus result }
{
    let said = say_found(rt, file, found);
    if !is_opened(found) || has_checksums(rt, file) {
        return said;
    }
    match said {
        0 => say(rt, file, WITHOUT_CHECKSUMS, ""),
        _ => FAULT,
    }
}

/// Says what was found in a database, and gives the program's status.
fn say_found(rt: &HostRuntime, file: &str, found: Finding) -> u8
    ensures { IsPrintStatus result }
{
    if is_journaled(found) {
        return say_journaled(rt, file);
    }
    let by_log = is_torn(found) && matches!(has_log(rt, file), Ok(true));
    let more = if by_log {
        "; the log beside it may be another file's"
    } else {
        ""
    };
    let said = say(rt, file, words_of(found), more);
    if is_opened(found) { said } else { FAULT }
}

/// Whether a file is opened as the institution that it holds.
fn is_opened(found: Finding) -> bool {
    match found {
        Finding::KnownTables { sound, .. } => sound,
        _ => false,
    }
}

/// Whether the parts of a file don't fit together, as where a log is another file's.
fn is_torn(found: Finding) -> bool {
    matches!(found, Finding::NoDatabase | Finding::Damaged)
}

/// What is said of a place where there is nothing to look into.
pub fn words_of_place(place: Place) -> &'static str {
    match place {
        Place::Missing => "there is no file; a new institution would be made",
        Place::Empty => "an empty file; a new institution would be made",
        Place::LogAlone =>
            "there is no file, but its log is there and holds commits; put the file back beside it",
        Place::LogBesideEmpty =>
            "an empty file beside a log that holds commits; put the log's file back",
        Place::NoFile => "a folder or a device, and not a file",
        Place::Forbidden => "no permission to read it",
        Place::Untold => "the system doesn't tell what stands there",
        Place::Foreign => "not a database",
        Place::Begun =>
            "begun by a program that was stopped before its first commit, or not a database",
        Place::Database => "a database",
    }
}

/// What is said of what was found in a database.
pub fn words_of(found: Finding) -> &'static str {
    match found {
        Finding::NoMemory => "out of memory",
        Finding::Locked => "another process has it open",
        Finding::Unopened =>
            "no permission to write it or its folder, or a second name or a journal of it is there",
        Finding::NoDatabase =>
            "damaged, or not a database: its pages, schema and rows don't fit together",
        Finding::Damaged => "damaged: a page is not as it was written",
        Finding::DiskFailed => "the disk failed while it was read",
        Finding::Unread => "not read to its end: out of memory, or the disk failed",
        Finding::NoTables => "a database without tables; a new institution would be made",
        Finding::OtherTables => "a database of something else",
        Finding::KnownTables {
            version: Version::First,
            sound: true,
        } => "a sound institution, schema 1; opening it brings it to schema 2",
        Finding::KnownTables {
            version: Version::First,
            sound: false,
        } => "schema 1, but no sound institution has these rows",
        Finding::KnownTables {
            version: Version::Second,
            sound: true,
        } => WITHOUT_JOURNAL,
        Finding::KnownTables {
            version: Version::Second,
            sound: false,
        } => "schema 2, but no sound institution has these rows",
        Finding::KnownTables {
            version: Version::Third,
            sound: true,
        } => WITH_JOURNAL,
        Finding::KnownTables {
            version: Version::Third,
            sound: false,
        } => "schema 3, but no sound institution has these rows, or its journal is broken",
    }
}
