//! The first line of a journal's table that tells no request, searched a page of rows at a time.

ghost use Rattle.std.specs.Prelude.{◌≡◌, ◌+◌, List, map, false, IsTrue, OnOk, IfOk, IfErr, IfNone, IfSome};
ghost use Rattle.mf_base.specs.declared.fault.Fault.TheVariants.{F20};
ghost use Rattle.sqlite.specs.Held.{state};
ghost use Rattle.sqlite.specs.State.{HasCleanDisk};
ghost use Rattle.mf_store_schema.specs.Schemas.{IsUnchangedUnder};
ghost use Rattle.mf_journal.specs.declared.following.Head.{Head};
ghost use Rattle.mf_model.specs.Institution.{JournalLine};
ghost use Rattle.mf_play.specs.Play.{AllTellRequests, IsFirstUntold};
ghost use Rattle.mf_store_sql.specs.Numbered.{shown_filed};
ghost use Rattle.mf_store_journal.specs.Reading.{IsThird};
ghost use Rattle.mf_store_journal.specs.Rows.{filed_after};
ghost use Rattle.mf_store_journal.specs.Written.{KeepsJournalFrom};
ghost use Rattle.mf_store_told.specs.Told.{IsUntold};

use mf_base::Fault;
use mf_journal::Head;
use mf_play::first_untold;
use mf_store_journal::{lines_told, number_after, rows_after};
use mf_wire_requests::Routes;
use sqlite::{Alter, Connection, Row};
use std::alloc::Global;

/// The number of the line at a place among those after a number. The error is F20.
pub fn number_at(number: u32, place: usize) -> Result<u64, Fault>
    ensures number { IfOk result (λ found. found ≡ number + place + 1) }
    ensures gives_up { IfErr result (λ fault. fault ≡ F20) }
{
    match number_after(number, place) {
        Ok(before) => Ok(u64::from(before) + 1),
        Err(fault) => Err(fault),
    }
}

/// The number in 32 bits, as the table keeps it. The error is F20.
pub fn narrow(number: u64) -> Result<u32, Fault>
    ensures same { IfOk result (λ narrow. narrow ≡ number) }
    ensures gives_up { IfErr result (λ fault. fault ≡ F20) }
{
    match u32::try_from(number) {
        Ok(narrow) => Ok(narrow),
        Err(_) => Err(Fault::F20),
    }
}

/// The place of the first of these rows whose line tells no request. The error is F20.
fn untold_in_page(alloc: Global, routes: &Routes, rows: &[Row]) -> Result<Option<usize>, Fault>
    ensures first { (h : Head) (lines : List JournalLine) → rows.now ≡ map shown_filed (filed_after h lines)
        → IfOk result (λ found. IfSome found (IsFirstUntold lines)) }
    ensures none { (h : Head) (lines : List JournalLine) → rows.now ≡ map shown_filed (filed_after h lines)
        → IfOk result (λ found. IfNone found (AllTellRequests lines)) }
    ensures gives_up { IfErr result (λ fault. fault ≡ F20) }
{
    match lines_told(alloc, rows) {
        Ok(told) => first_untold(alloc, routes, &told),
        Err(fault) => Err(fault),
    }
}

/// The number of the first line after a number that tells no request: it tells no caller, or its text reads as no
/// request. None where each line tells one. The error is F20.
fn first_untold_after<S: Alter>(
    alloc: Global,
    routes: &Routes,
    connection: &mut Connection<S>,
    after: u32,
) -> Result<Option<u64>, Fault>
    requires alone { connection.old.in_transaction ≡ false }
    ensures kept { IsUnchangedUnder IsThird (state S.Store connection.old) (state S.Store connection.new) }
    ensures gives_up { IfErr result (λ fault. fault ≡ F20) }
    ensures open { HasCleanDisk (state S.Store connection.new)
        → OnOk result (IsTrue (state S.Store connection.new).is_open) }
    ensures untold { HasCleanDisk (state S.Store connection.new) → IsThird (state S.Store connection.old).now.schema
        → (begins : Head) (lines : List JournalLine) → begins.number ≡ after
        → KeepsJournalFrom begins (state S.Store connection.old).now.trees lines
        → IfOk result (IsUntold after lines) }
    ensures mode { connection.new.in_transaction ≡ false }
{
    let mut number = after;
    'pages: for _ in 0..u64::MAX {
        let rows = rows_after(connection, number)?;
        if rows.is_empty() {
            return Ok(None);
        }
        match untold_in_page(alloc, routes, &rows) {
            Ok(None) => {}
            Ok(Some(place)) => {
                let found = number_at(number, place)?;
                return Ok(Some(found));
            }
            Err(fault) => return Err(fault),
        }
        number = number_after(number, rows.len())?;
    }
    Err(Fault::F20)
}

/// The number of the first line of a journal that begins here which tells no request: it tells no caller, or its text
/// reads as no request. None where each line tells one. It reads 1,000 rows at a time. The error is F20.
pub fn first_untold_line<S: Alter>(
    alloc: Global,
    connection: &mut Connection<S>,
    begins: Head,
) -> Result<Option<u64>, Fault>
    requires alone { connection.old.in_transaction ≡ false }
    ensures kept { IsUnchangedUnder IsThird (state S.Store connection.old) (state S.Store connection.new) }
    ensures gives_up { IfErr result (λ fault. fault ≡ F20) }
    ensures open { HasCleanDisk (state S.Store connection.new)
        → OnOk result (IsTrue (state S.Store connection.new).is_open) }
    ensures untold { HasCleanDisk (state S.Store connection.new) → IsThird (state S.Store connection.old).now.schema
        → (lines : List JournalLine) → KeepsJournalFrom begins (state S.Store connection.old).now.trees lines
        → IfOk result (IsUntold begins.number lines) }
    ensures mode { connection.new.in_transaction ≡ false }
{
    let after = narrow(begins.number)?;
    let Ok(routes) = Routes::new(alloc) else {
        return Err(Fault::F20);
    };
    first_untold_after(alloc, &routes, connection, after)
}
