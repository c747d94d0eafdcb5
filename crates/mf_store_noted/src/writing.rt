//! The writes of a change in one commit, with the line that notes its request where a journal is kept.

ghost use Rattle.std.specs.Prelude.{◌≡◌, ◌<◌, length, None, Some, false, IfOk, IfErr};
ghost use Rattle.mf_base.specs.declared.fault.Fault.TheVariants.{F20};
ghost use Rattle.mf_journal.specs.Chain.{line_of_row};
ghost use Rattle.mf_model.specs.Institution.{noted_line};
ghost use Rattle.mf_model.specs.Notes.{noted_as, noted_now, received_now};
ghost use Rattle.mf_model.specs.declared.note.RequestText.TheVariants.{Received, Repayment};
ghost use Rattle.mf_store_noted.specs.Kept.{journal_at};
ghost use Rattle.mf_store_noted.specs.Writing.{MakesWrites, day_at};

use crate::journal::Place;
use crate::noted::with_line;
use mf_base::{Day, Fault};
use mf_journal::{JournalRow, KeptRow, repayment_body, repayment_path};
use mf_model::{Names, Note, ReceivedText, RepaymentText, RequestText};
use mf_office::Caller;
use mf_store_journal::{Journal, has_room};
use mf_store_schema::StoreWrite;
use mf_store_sql::apply;
use sqlite::{Alter, Connection};
use std::alloc::Global;

/// Makes the writes in one commit, where no journal is kept.
fn write_alone<S: Alter>(
    connection: &mut Connection<S>,
    writes: &[StoreWrite],
) -> Result<Option<Journal>, Fault>
    requires alone { connection.old.in_transaction ≡ false }
    requires some { 0 < length writes.now }
    ensures makes { (line : _) → MakesWrites S.Store None writes.now line connection.old connection.new result }
    ensures mode { connection.new.in_transaction ≡ false }
{
    match apply(connection, writes) {
        Ok(()) => Ok(None),
        Err(_) => Err(Fault::F20),
    }
}

/// The row of the line that notes a request which came in this text.
fn row_of<'a>(day: u64, caller: Caller, names: Names, text: ReceivedText<'a>) -> JournalRow<'a>
    ensures { line_of_row result ≡ noted_line day (noted_as caller (received_now (Received text.entry)) names) }
{
    JournalRow {
        day,
        office: caller.office.get() as u64,
        staff: caller.staff.get() as u64,
        told: text.told,
        method: text.method,
        path: text.path,
        body: text.body,
        named_office: names.office as u64,
        named_loan: names.loan as u64,
    }
}

/// Makes the writes in one commit with this row of the journal. F20 tells too that the journal has no room for it.
fn write_row<'a, S: Alter>(
    alloc: Global,
    connection: &mut Connection<S>,
    writes: &'a [StoreWrite],
    journal: Journal,
    row: JournalRow<'a>,
) -> Result<Option<Journal>, Fault>
    requires alone { connection.old.in_transaction ≡ false }
    ensures makes { MakesWrites S.Store (Some journal) writes.now (line_of_row row.entry) connection.old connection.new
        result }
    ensures mode { connection.new.in_transaction ≡ false }
{
    let Some(head) = journal.head.add(row) else {
        return Err(Fault::F20);
    };
    let chain = head.chain;
    let kept = KeptRow {
        number: head.number,
        row,
        chain,
    };
    if !has_room(kept) {
        return Err(Fault::F20);
    }
    let noted = with_line(alloc, writes, kept)?;
    match apply(connection, &noted) {
        Ok(()) => Ok(Some(Journal {
            begins: journal.begins,
            head,
        })),
        Err(_) => Err(Fault::F20),
    }
}

/// Makes the writes in one commit with the line that notes a request which came in this text.
fn write_text<S: Alter>(
    alloc: Global,
    connection: &mut Connection<S>,
    writes: &[StoreWrite],
    place: Place,
    caller: Caller,
    names: Names,
    text: &ReceivedText<'_>,
) -> Result<Option<Journal>, Fault>
    requires alone { connection.old.in_transaction ≡ false }
    ensures makes { MakesWrites S.Store (Some place.journal) writes.now (noted_line place.day
        (noted_as caller (received_now (Received text.now)) names)) connection.old connection.new result }
    ensures mode { connection.new.in_transaction ≡ false }
{
    let today = u64::from(place.day.number());
    let row = row_of(today, caller, names, *text);
    write_row(alloc, connection, writes, place.journal, row)
}

/// The same of a repayment, which came as a line of a sheet.
fn write_repayment<S: Alter>(
    alloc: Global,
    connection: &mut Connection<S>,
    writes: &[StoreWrite],
    place: Place,
    caller: Caller,
    names: Names,
    repayment: &RepaymentText<'_>,
) -> Result<Option<Journal>, Fault>
    requires alone { connection.old.in_transaction ≡ false }
    ensures makes { MakesWrites S.Store (Some place.journal) writes.now (noted_line place.day
        (noted_as caller (received_now (Repayment repayment.now)) names)) connection.old connection.new result }
    ensures mode { connection.new.in_transaction ≡ false }
{
    let path = repayment_path(alloc, repayment.loan)?;
    let receipt = repayment.receipt.as_str().as_bytes();
    let body = repayment_body(alloc, repayment.amount, repayment.day, receipt)?;
    let text = ReceivedText {
        told: repayment.told,
        method: b"POST",
        path: path.as_bytes(),
        body: &body,
    };
    write_text(alloc, connection, writes, place, caller, names, &text)
}

/// Makes the writes in one commit, with the line that notes the request where a journal is kept, whose next line has
/// this place; or none of it. The result is the journal as it stands then. F20 tells too that the journal has no room.
pub fn write_kept<S: Alter>(
    alloc: Global,
    connection: &mut Connection<S>,
    writes: &[StoreWrite],
    place: Option<Place>,
    note: &Note<'_>,
) -> Result<Option<Journal>, Fault>
    requires alone { connection.old.in_transaction ≡ false }
    requires some { 0 < length writes.now }
    ensures makes { MakesWrites S.Store (journal_at place) writes.now (noted_line (day_at place) (noted_now note.now))
        connection.old connection.new result }
    ensures mode { connection.new.in_transaction ≡ false }
{
    let Some(place) = place else {
        return write_alone(connection, writes);
    };
    let caller = note.caller;
    let names = note.names;
    match note.text {
        RequestText::Received(text) => write_text(
            alloc, connection, writes, place, caller, names, text,
        ),
        RequestText::Repayment(repayment) => write_repayment(
            alloc, connection, writes, place, caller, names, repayment,
        ),
    }
}
