//! The movement of business days by portion, by the journal that a table keeps.

ghost use Rattle.std.specs.Prelude.{◌≡◌, ◌≤◌, ◌+◌, List, false, IsTrue, OnOk, IfOk, IfErr};
ghost use Rattle.mf_base.specs.DayText.{last_entered_day};
ghost use Rattle.mf_base.specs.declared.fault.Fault.TheVariants.{F20};
ghost use Rattle.sqlite.specs.Held.{state};
ghost use Rattle.sqlite.specs.State.{HasCleanDisk};
ghost use Rattle.mf_journal.specs.declared.following.Head.{Head};
ghost use Rattle.mf_model.specs.Institution.{JournalLine};
ghost use Rattle.mf_store_schema.specs.Schemas.{IsUnchangedUnder};
ghost use Rattle.mf_store_journal.specs.Reading.{IsThird};
ghost use Rattle.mf_store_journal.specs.Written.{KeepsJournalFrom};
ghost use Rattle.mf_store_played.specs.Played.{IsFounding};
ghost use Rattle.mf_store_ledger.specs.Movement.{AreLinesBefore, IsMovedFrom, IsMovement, IsMovementOf};

use crate::answer::Books;
use crate::ends::end_pages;
use mf_base::{Day, Fault};
use mf_play::Stop;
use mf_portions::{PortionLine, table_text};
use mf_portions_play::read_portions;
use mf_store_journal::{Journal, read_journal};
use mf_store_played::{found_in_memory, founding_day};
use mf_wire_requests::Routes;
use sqlite::{Alter, Connection};
use std::alloc::Global;

/// The lines by portion before a business day, of a journal that begins at the founding on this day; or the number of a
/// line before it that doesn't play, and why.
fn lines_before<S: Alter>(
    alloc: Global,
    routes: &Routes,
    connection: &mut Connection<S>,
    day: Day,
    until: u64,
) -> Result<Result<Vec<PortionLine>, (u64, Stop)>, Fault>
    requires alone { connection.old.in_transaction ≡ false }
    requires early { day ≤ last_entered_day }
    ensures kept { IsUnchangedUnder IsThird (state S.Store connection.old) (state S.Store connection.new) }
    ensures gives_up { IfErr result (λ fault. fault ≡ F20) }
    ensures open { HasCleanDisk (state S.Store connection.new)
        → OnOk result (IsTrue (state S.Store connection.new).is_open) }
    ensures lines { HasCleanDisk (state S.Store connection.new) → IsThird (state S.Store connection.old).now.schema
        → (begins : Head) (lines : List JournalLine) → begins.number ≡ 0
        → KeepsJournalFrom begins (state S.Store connection.old).now.trees lines
        → IfOk result (AreLinesBefore until day lines) }
    ensures mode { connection.new.in_transaction ≡ false }
{
    let mut store = found_in_memory(alloc, day)?;
    match end_pages(alloc, routes, connection, &mut store, until) {
        Ok(Ok(())) => {}
        Ok(Err(stop)) => return Ok(Err(stop)),
        Err(fault) => return Err(fault),
    }
    match read_portions(alloc, &mut store) {
        Ok(lines) => Ok(Ok(lines)),
        Err(fault) => Err(fault),
    }
}

/// What a journal that begins at the founding on this day leads to before a business day, less these lines.
fn movement_since<S: Alter>(
    alloc: Global,
    routes: &Routes,
    connection: &mut Connection<S>,
    day: Day,
    before: &[PortionLine],
    until: u64,
) -> Result<Books, Fault>
    requires alone { connection.old.in_transaction ≡ false }
    requires early { day ≤ last_entered_day }
    ensures kept { IsUnchangedUnder IsThird (state S.Store connection.old) (state S.Store connection.new) }
    ensures gives_up { IfErr result (λ fault. fault ≡ F20) }
    ensures open { HasCleanDisk (state S.Store connection.new)
        → OnOk result (IsTrue (state S.Store connection.new).is_open) }
    ensures answer { HasCleanDisk (state S.Store connection.new) → IsThird (state S.Store connection.old).now.schema
        → (begins : Head) (lines : List JournalLine) → begins.number ≡ 0
        → KeepsJournalFrom begins (state S.Store connection.old).now.trees lines
        → IfOk result (IsMovedFrom before.now until day lines) }
    ensures mode { connection.new.in_transaction ≡ false }
{
    match lines_before(alloc, routes, connection, day, until) {
        Ok(Ok(lines)) => {
            let text = table_text(alloc, before, &lines)?;
            Ok(Books::Written(text))
        }
        Ok(Err((number, why))) => Ok(Books::Stops { number, why }),
        Err(fault) => Err(fault),
    }
}

/// The number of a day.
fn number_of(day: Day) -> u64
    ensures { result ≡ day }
{
    u64::from(day.number())
}

/// The number of the day after a day.
fn day_after(day: Day) -> u64
    ensures { result ≡ day + 1 }
{
    u64::from(day.number()) + 1
}

/// The movement of a journal that begins at the founding on this day.
fn movement_from<S: Alter>(
    alloc: Global,
    connection: &mut Connection<S>,
    first: Day,
    last: Day,
    journal: Journal,
    day: Day,
) -> Result<Books, Fault>
    requires alone { connection.old.in_transaction ≡ false }
    requires founds { IsFounding journal.begins day }
    ensures kept { IsUnchangedUnder IsThird (state S.Store connection.old) (state S.Store connection.new) }
    ensures gives_up { IfErr result (λ fault. fault ≡ F20) }
    ensures open { HasCleanDisk (state S.Store connection.new)
        → OnOk result (IsTrue (state S.Store connection.new).is_open) }
    ensures answer { HasCleanDisk (state S.Store connection.new) → IsThird (state S.Store connection.old).now.schema
        → (lines : List JournalLine) → KeepsJournalFrom journal.begins (state S.Store connection.old).now.trees lines
        → IfOk result (IsMovement first last journal.begins lines) }
    ensures mode { connection.new.in_transaction ≡ false }
{
    let Ok(routes) = Routes::new(alloc) else {
        return Err(Fault::F20);
    };
    let until = day_after(last);
    match lines_before(alloc, &routes, connection, day, number_of(first)) {
        Ok(Ok(before)) => movement_since(alloc, &routes, connection, day, &before, until),
        Ok(Err((number, why))) => Ok(Books::Stops { number, why }),
        Err(fault) => Err(fault),
    }
}

/// The movement of a journal.
fn journal_movement<S: Alter>(
    alloc: Global,
    connection: &mut Connection<S>,
    first: Day,
    last: Day,
    journal: Journal,
) -> Result<Books, Fault>
    requires alone { connection.old.in_transaction ≡ false }
    ensures kept { IsUnchangedUnder IsThird (state S.Store connection.old) (state S.Store connection.new) }
    ensures gives_up { IfErr result (λ fault. fault ≡ F20) }
    ensures open { HasCleanDisk (state S.Store connection.new) → IsTrue (state S.Store connection.old).is_open
        → OnOk result (IsTrue (state S.Store connection.new).is_open) }
    ensures answer { HasCleanDisk (state S.Store connection.new) → IsThird (state S.Store connection.old).now.schema
        → (lines : List JournalLine) → KeepsJournalFrom journal.begins (state S.Store connection.old).now.trees lines
        → IfOk result (IsMovement first last journal.begins lines) }
    ensures mode { connection.new.in_transaction ≡ false }
{
    match founding_day(journal.begins) {
        Ok(Some(day)) => movement_from(alloc, connection, first, last, journal, day),
        Ok(None) => Ok(Books::NoFounding),
        Err(fault) => Err(fault),
    }
}

/// The movement by portion of the business days from a first to a last one, by the journal that a table keeps: by
/// office, product and portion what its lines lead to after the last, less what they lead to before the first. Where a
/// line before that doesn't play, its number, and why; and it is told where the journal doesn't begin at the founding
/// of an institution. It plays in memory, twice, and changes nothing. The error is F20.
///
/// The answer speaks of tables of the third version that keep a journal. It is F20 too where no journal can be read,
/// which no such tables have.
pub fn write_movement<S: Alter>(
    alloc: Global,
    connection: &mut Connection<S>,
    first: Day,
    last: Day,
) -> Result<Books, Fault>
    requires alone { connection.old.in_transaction ≡ false }
    ensures kept { IsUnchangedUnder IsThird (state S.Store connection.old) (state S.Store connection.new) }
    ensures gives_up { IfErr result (λ fault. fault ≡ F20) }
    ensures open { HasCleanDisk (state S.Store connection.new)
        → OnOk result (IsTrue (state S.Store connection.new).is_open) }
    ensures answer { HasCleanDisk (state S.Store connection.new) → IsThird (state S.Store connection.old).now.schema
        → IfOk result (IsMovementOf first last (state S.Store connection.old).now.trees) }
    ensures mode { connection.new.in_transaction ≡ false }
{
    match read_journal(connection) {
        Ok(Some(journal)) => journal_movement(alloc, connection, first, last, journal),
        Ok(None) => Err(Fault::F20),
        Err(fault) => Err(fault),
    }
}
