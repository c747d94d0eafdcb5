//! A file audited, and what is found printed.

ghost use Rattle.std.specs.Prelude.{◌≡◌};
ghost use Rattle.mf_store_verdict.specs.Verdict.{Passes};
ghost use Rattle.microloan.specs.Status.{IsPrintStatus};

use crate::copies::{read_copy, words_of_copy};
use crate::following::Following;
use crate::places::{Place, has_checksums, place_at};
use crate::telling::{
    FAULT, print_line, print_made, tell_no_institution, tell_no_journal, tell_refusal,
};
use crate::why::{WITHOUT_CHECKSUMS, words_of, words_of_place};
use mf_base::Fault;
use mf_store_archived::Unread;
use mf_store_audit::Audit;
use mf_store_verdict::{
    Unaudited, Unopened, Verdict, audit_file, audit_from_copy, audit_over_archives, holds_up,
    passes, read_archives,
};
use microloan_audit::{unread_archive_text, verdict_text};
use std::rt::HostRuntime;

/// Prints what an institution's rows come to and what the play of its journal says of them, or which row breaks which
/// condition, and gives the program's status: 0 where the file holds a sound institution, and its journal leads there,
/// where it is played. Nothing is made and nothing is changed.
pub fn say_audit(rt: &HostRuntime, file: &str, all: bool) -> u8
    ensures { IsPrintStatus result }
{
    match place_at(rt, file) {
        Place::Database => say_rows(rt, file, all),
        place if place.is_vacant() => tell_no_institution(rt),
        place => refuse(rt, words_of_place(place)),
    }
}

/// Says why a file isn't audited, and gives the program's status.
fn refuse(rt: &HostRuntime, words: &str) -> u8
    ensures { IsPrintStatus result }
{
    let _said = print_line(rt, format_args!("audit: {words}"));
    tell_refusal(rt, Fault::F20)
}

/// Prints the verdict on a database, and gives the program's status.
fn say_rows(rt: &HostRuntime, file: &str, all: bool) -> u8
    ensures { IsPrintStatus result }
{
    match audit_file(rt, file, all, &mut Following::new(rt, file)) {
        Ok(verdict) => say(rt, file, &verdict),
        Err(finding) => refuse(rt, words_of(finding)),
    }
}

/// The same, but the journal is played from a copy of the file over which it was begun. A file that keeps no journal is
/// refused then.
pub fn say_audit_from(rt: &HostRuntime, file: &str, copy: &str, all: bool) -> u8
    ensures { IsPrintStatus result }
{
    match place_at(rt, file) {
        Place::Database => say_rows_from(rt, file, copy, all),
        place if place.is_vacant() => tell_no_institution(rt),
        place => refuse(rt, words_of_place(place)),
    }
}

/// Prints the verdict on a database whose journal is played from a copy, and gives the program's status.
fn say_rows_from(rt: &HostRuntime, file: &str, copy: &str, all: bool) -> u8
    ensures { IsPrintStatus result }
{
    let Ok(copy) = read_copy(rt, copy) else {
        return refuse(rt, "the copy can't be read");
    };
    match audit_from_copy(
        rt,
        file,
        &copy.log,
        &copy.db,
        all,
        &mut Following::new(rt, file),
    ) {
        Ok(verdict) if is_unplayed(&verdict) => tell_no_journal(rt),
        Ok(verdict) => say(rt, file, &verdict),
        Err(Unaudited::Copy(refused)) => refuse(rt, words_of_copy(refused)),
        Err(Unaudited::File(finding)) => refuse(rt, words_of(finding)),
    }
}

/// The same, but the lines of the archives in a folder are played before the file's own. A file that keeps no journal
/// is refused then.
pub fn say_audit_over(rt: &HostRuntime, file: &str, folder: &str, all: bool) -> u8
    ensures { IsPrintStatus result }
{
    match place_at(rt, file) {
        Place::Database => say_rows_over(rt, file, folder, all),
        place if place.is_vacant() => tell_no_institution(rt),
        place => refuse(rt, words_of_place(place)),
    }
}

/// Prints the verdict on a database whose journal is played over archives, and gives the program's status.
fn say_rows_over(rt: &HostRuntime, file: &str, folder: &str, all: bool) -> u8
    ensures { IsPrintStatus result }
{
    let archives = match read_archives(rt, folder) {
        Ok(archives) => archives,
        Err(unopened) => return refuse_archives(rt, folder, &unopened),
    };
    match audit_over_archives(rt, file, &archives, all, &mut Following::new(rt, file)) {
        Ok(verdict) if is_unplayed(&verdict) => tell_no_journal(rt),
        Ok(verdict) => say(rt, file, &verdict),
        Err(finding) => refuse(rt, words_of(finding)),
    }
}

/// Says why the archives in a folder aren't read, and gives the program's status.
fn refuse_archives(rt: &HostRuntime, folder: &str, unopened: &Unopened) -> u8
    ensures { IsPrintStatus result }
{
    match unopened {
        Unopened::Folder => refuse(rt, "the folder of the archives can't be read"),
        Unopened::File { name, why: None } => {
            let name = name.as_str();
            let _said = print_line(rt, format_args!("audit: {folder}/{name}: it can't be read"));
            tell_refusal(rt, Fault::F20)
        }
        Unopened::File {
            name,
            why: Some(why),
        } => say_unread(rt, folder, name.as_str(), *why),
    }
}

/// Says why no archive is made of a file in a folder, and gives the program's status.
fn say_unread(rt: &HostRuntime, folder: &str, name: &str, why: Unread) -> u8
    ensures { IsPrintStatus result }
{
    let Ok(words) = unread_archive_text(rt.alloc(), why) else {
        return tell_refusal(rt, Fault::F20);
    };
    let words = words.as_str();
    let _said = print_line(rt, format_args!("audit: {folder}/{name}: {words}"));
    match why {
        Unread::Failed(_) => tell_refusal(rt, Fault::F20),
        _ => FAULT,
    }
}

/// Whether a sound institution keeps no journal.
fn is_unplayed(verdict: &Verdict) -> bool {
    matches!(verdict.audit, Audit::Sound { .. }) && verdict.played.is_none()
}

/// Prints a verdict on a file, and before it if the pages of a sound one have no checksums. Gives the program's status.
fn say(rt: &HostRuntime, file: &str, verdict: &Verdict) -> u8
    ensures status { IsPrintStatus result }
    ensures fails { ¬ Passes verdict.now → result ≡ 1 }
{
    if matches!(verdict.audit, Audit::NoTables) {
        return tell_no_institution(rt);
    }
    let noted = note_checksums(rt, file, verdict);
    let said = print_made(rt, verdict_text(rt.alloc(), verdict));
    if passes(verdict) && noted == 0 {
        said
    } else {
        FAULT
    }
}

/// Says if the pages of a file with a sound institution have no checksums, and gives the status of printing it.
fn note_checksums(rt: &HostRuntime, file: &str, verdict: &Verdict) -> u8
    ensures { IsPrintStatus result }
{
    if !holds_up(verdict) || has_checksums(rt, file) {
        return 0;
    }
    print_line(rt, format_args!("audit: {WITHOUT_CHECKSUMS}"))
}
