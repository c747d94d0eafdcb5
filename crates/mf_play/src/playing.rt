//! Lines of a journal, played on the institution that a store stands for.

ghost use Rattle.std.specs.Prelude.{◌≡◌, ◌==◌, map, IfErr};
ghost use Rattle.mf_base.specs.declared.fault.Fault.TheVariants.{F20};
ghost use Rattle.mf_journal.specs.Chain.{line_of_row};
ghost use Rattle.mf_model.specs.Sound.{IsInRange};
ghost use Rattle.mf_model.specs.Store.{Reads};
ghost use Rattle.mf_model.specs.Unseen.{call_from};
ghost use Rattle.mf_play.specs.Play.{text_told};
ghost use Rattle.mf_play.specs.Playing.{PlaysCall, PlaysLine, PlaysLines};

use crate::stop::Stop;
use crate::told::{Sent, call_told, names_as_told};
use mf_base::Fault;
use mf_desk::{Decision, commit_noted, decide};
use mf_journal::JournalRow;
use mf_model::{InstitutionStore, ReceivedText, Request, RequestText, laws};
use mf_office::Caller;
use mf_wire_requests::Routes;
use std::alloc::Global;

/// Whether a row's day is the business day.
fn is_of_today<S: InstitutionStore>(
    alloc: Global,
    store: &mut S,
    row: JournalRow<'_>,
) -> Result<bool, Fault>
    ensures { Reads S.stands S.clean S.leaves (λ i. (line_of_row row.entry).day == i.catalogue.day) store.old
        store.new result }
{
    match store.business_day(alloc) {
        Ok(today) => Ok(u64::from(today.number()) == row.day),
        Err(fault) => Err(fault),
    }
}

/// Answers the request that a row tells, as the desk answers it, but changes nothing where the row doesn't play.
fn play_request<S: InstitutionStore>(
    alloc: Global,
    store: &mut S,
    row: JournalRow<'_>,
    caller: Caller,
    request: Request,
) -> Result<Result<(), Stop>, Fault>
    requires in_range { IsInRange request }
    ensures plays { PlaysCall S.InstitutionStore (line_of_row row.entry)
        (call_from caller request (text_told (line_of_row row.entry))) store.old store.new result }
    ensures gives_up { IfErr result (λ fault. fault ≡ F20) }
{
    laws::soundness();
    let Decision { reply, commit } = match decide(alloc, store, &caller, request) {
        Ok(decision) => decision,
        Err(Fault::F20) => return Err(Fault::F20),
        Err(_) => return Ok(Err(Stop::Refused)),
    };
    let names = reply.names();
    drop(reply);
    let Some(commit) = commit else {
        return Ok(Err(Stop::ChangesNothing));
    };
    if !names_as_told(names, row) {
        return Ok(Err(Stop::NamesOther));
    }
    let text = RequestText::Received(ReceivedText {
        told: row.told,
        method: row.method,
        path: row.path,
        body: row.body,
    });
    match commit_noted(alloc, store, commit, caller, &text, names) {
        Ok(()) => Ok(Ok(())),
        Err(fault) => Err(fault),
    }
}

/// Plays a line of a journal: answers the request that it tells again, as the desk answers it.
///
/// The line played where its request is accepted on its business day and changes something, and its reply names what
/// the line names; then the store stands for the institution after it, which has the line in its journal where it
/// keeps one. Else it is said why the line doesn't play, and nothing is changed. The error is F20: out of memory, or
/// the store gave up; then too nothing is changed.
pub fn play_line<S: InstitutionStore>(
    alloc: Global,
    routes: &Routes,
    store: &mut S,
    row: JournalRow<'_>,
) -> Result<Result<(), Stop>, Fault>
    ensures plays { PlaysLine S.InstitutionStore (line_of_row row.entry) store.old store.new result }
    ensures gives_up { IfErr result (λ fault. fault ≡ F20) }
{
    let Sent { caller, request } = match call_told(alloc, routes, row) {
        Ok(Some(sent)) => sent,
        Ok(None) => return Ok(Err(Stop::NoRequest)),
        Err(fault) => return Err(fault),
    };
    match is_of_today(alloc, store, row) {
        Ok(true) => play_request(alloc, store, row, caller, request),
        Ok(false) => Ok(Err(Stop::OtherDay)),
        Err(fault) => Err(fault),
    }
}

/// Plays the lines of a journal one after the other, until one doesn't play or the store gives up. It says the place of
/// that line, and why it doesn't play; the lines before it played. The error is F20; then too the lines before some
/// place played.
pub fn play_lines<S: InstitutionStore>(
    alloc: Global,
    routes: &Routes,
    store: &mut S,
    rows: &[JournalRow<'_>],
) -> Result<Result<(), (usize, Stop)>, Fault>
    ensures plays { PlaysLines S.InstitutionStore (map line_of_row rows.now) store.old store.new result }
    ensures gives_up { IfErr result (λ fault. fault ≡ F20) }
{
    for place in 0..rows.len() {
        let row = rows[place];
        match play_line(alloc, routes, store, row) {
            Ok(Ok(())) => {}
            Ok(Err(why)) => return Ok(Err((place, why))),
            Err(fault) => return Err(fault),
        }
    }
    Ok(Ok(()))
}
