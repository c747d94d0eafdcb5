//! What a line of a journal tells: who sent a request, and what its text asks.

ghost use Rattle.std.specs.Prelude.{◌≡◌, ◌↔◌, IsTrue, IfErr, IfOk, IfNone, IfSome, map, option_map};
ghost use Rattle.mf_base.specs.declared.fault.Fault.TheVariants.{F20};
ghost use Rattle.mf_journal.specs.Chain.{line_of_row};
ghost use Rattle.mf_model.specs.Sound.{IsInRange};
ghost use Rattle.mf_model.specs.Unseen.{call_from};
ghost use Rattle.mf_play.specs.Play.{asked_by_text, call_told, caller_told, names_told, text_told};
ghost use Rattle.mf_play.specs.Play.{AllTellRequests, IsFirstUntold};

use mf_base::{Day, Fault};
use mf_journal::JournalRow;
use mf_model::{Names, Request};
use mf_office::{Caller, OfficeNo, StaffNo};
use mf_wire_requests::{Routes, read_request};
use std::alloc::Global;

/// A request, and who sends it.
#[derive(Drop)]
pub(crate) struct Sent {
    pub caller: Caller,
    pub request: Request,
}

/// Who a row says sent it, where a member of staff may have such numbers.
fn caller_told(row: JournalRow<'_>) -> Option<Caller>
    ensures { result ≡ caller_told (line_of_row row.entry) }
{
    if row.office > 9999 || row.staff > 9999 {
        return None;
    }
    let office = OfficeNo::new(row.office as u32)?;
    let staff = StaffNo::new(row.staff as u32)?;
    Some(Caller { office, staff })
}

/// What a row's text asks, or None where it reads as no request. The error is F20.
fn request_told(
    alloc: Global,
    routes: &Routes,
    row: JournalRow<'_>,
) -> Result<Option<Request>, Fault>
    ensures request { IfOk result (λ asked. asked ≡ asked_by_text (text_told (line_of_row row.entry))) }
    ensures in_range { IfOk result (λ asked. IfSome asked IsInRange) }
    ensures gives_up { IfErr result (λ fault. fault ≡ F20) }
{
    match read_request(alloc, routes, row.method, row.path, row.body) {
        Ok(Request::Unreadable(_)) => Ok(None),
        Ok(request) => Ok(Some(request)),
        Err(Fault::F20) => Err(Fault::F20),
        Err(_) => Ok(None),
    }
}

/// The request that a row tells, and who sends it; None where it tells no caller or reads as no request. The error is
/// F20.
pub(crate) fn call_told(
    alloc: Global,
    routes: &Routes,
    row: JournalRow<'_>,
) -> Result<Option<Sent>, Fault>
    ensures call { IfOk result (λ sent. option_map (λ s. call_from s.caller s.request
        (text_told (line_of_row row.entry))) sent ≡ call_told (line_of_row row.entry)) }
    ensures in_range { IfOk result (λ sent. IfSome sent (λ s. IsInRange s.request)) }
    ensures gives_up { IfErr result (λ fault. fault ≡ F20) }
{
    let Some(caller) = caller_told(row) else {
        return Ok(None);
    };
    match request_told(alloc, routes, row) {
        Ok(Some(request)) => Ok(Some(Sent { caller, request })),
        Ok(None) => Ok(None),
        Err(fault) => Err(fault),
    }
}

/// The place of the first row that tells no request: it tells no caller, or its text reads as no request. None where
/// each tells one. The error is F20.
pub fn first_untold(
    alloc: Global,
    routes: &Routes,
    rows: &[JournalRow<'_>],
) -> Result<Option<usize>, Fault>
    ensures first { IfOk result (λ found. IfSome found (IsFirstUntold (map line_of_row rows.now))) }
    ensures none { IfOk result (λ found. IfNone found (AllTellRequests (map line_of_row rows.now))) }
    ensures gives_up { IfErr result (λ fault. fault ≡ F20) }
{
    for place in 0..rows.len() {
        match call_told(alloc, routes, rows[place]) {
            Ok(Some(_)) => {}
            Ok(None) => return Ok(Some(place)),
            Err(fault) => return Err(fault),
        }
    }
    Ok(None)
}

/// Whether a reply names what a row names.
pub(crate) fn names_as_told(names: Names, row: JournalRow<'_>) -> bool
    ensures { IsTrue result ↔ (names_told (line_of_row row.entry) ≡ names) }
{
    u64::from(names.office) == row.named_office && u64::from(names.loan) == row.named_loan
}
