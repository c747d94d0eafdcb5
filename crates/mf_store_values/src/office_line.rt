//! An office's line of arrears, by one query over the instalments of its loans.

ghost use Rattle.std.specs.Prelude.{◌≡◌, false, List, filter, IsTrue, OnOk, IfOk, IfErr};
ghost use Rattle.mf_arrears.specs.Line.{line_of_loans};
ghost use Rattle.sqlite.specs.Order.{Row};
ghost use Rattle.sqlite.specs.Given.{IsPlain};
ghost use Rattle.sqlite.specs.Held.{state};
ghost use Rattle.sqlite.specs.Listing.{understood};
ghost use Rattle.sqlite.specs.State.{HasCleanDisk, Survives, Shown, Begins, CommitsShowing};
ghost use Rattle.sqlite.specs.Values.{bound};
ghost use Rattle.mf_store_schema.specs.Calls.{IsAsBefore, IsKeeping};
ghost use Rattle.mf_store_schema.specs.Rows.{Lists, is_instalment_in};
ghost use Rattle.mf_store_values.specs.Arrears.{NumberedLoan, AreAbove, AreWholeLoans, rows_of_office, aged_loans};
ghost use Rattle.mf_store_values.specs.Arrears.{IsLineOf};
ghost use Rattle.mf_store_values.specs.Folding.{AreWithinSums, IsOver};

use crate::fold::{NoLine, fold_instalments};
use mf_arrears::OfficeLine;
use mf_base::Day;
use mf_office::OfficeNo;
use sqlite::{Alter, Connection, params};
use sqlite_value::value::ValueRef;

/// Makes of a new line that of the loans whose instalments' rows a query gives.
fn fold_answer<S: Alter>(
    connection: &mut Connection<S>,
    sql: &str,
    params: &[ValueRef<'_>],
    today: Day,
    line: &mut OfficeLine,
) -> Result<(), NoLine>
    ensures line { HasCleanDisk (state S.Store connection.new) → IsPlain (understood connection.old.schema sql.now)
        → OnOk result ((taken : List Row) × Shown sql.now (bound params.now) (state S.Store connection.old)
        (state S.Store connection.new) taken × IsLineOf today taken line.old line.new) }
    ensures same { HasCleanDisk (state S.Store connection.new) → IsPlain (understood connection.old.schema sql.now)
        → (IsTrue (state S.Store connection.old).is_open → (state S.Store connection.old).now
        ≡ (state S.Store connection.old).committed)
        → IsTrue (state S.Store connection.new).is_open → (state S.Store connection.new).now
        ≡ (state S.Store connection.old).now }
    ensures open { HasCleanDisk (state S.Store connection.new)
        → OnOk result (IsTrue (state S.Store connection.new).is_open) }
    ensures sums { HasCleanDisk (state S.Store connection.new) → IsPlain (understood connection.old.schema sql.now)
        → IfErr result (λ why. why ≡ NoLine.TooGreat → (taken : List Row) × Begins sql.now (bound params.now)
        (state S.Store connection.old) taken × IsOver taken line.old) }
    ensures mode { connection.old.in_transaction ≡ false → connection.new.in_transaction ≡ false }
    ensures survives { Survives (state S.Store connection.old) (state S.Store connection.new)
        (CommitsShowing sql.now (bound params.now) (state S.Store connection.old)) }
{
    match connection.query(sql, params) {
        Ok(mut rows) => fold_instalments(&mut rows, today, line),
        Err(_) => Err(NoLine::Unread),
    }
}

/// The line of an office's loans on a day, from the instalments that are kept of them. It is never `TooGreat` for an
/// office that has at most 999,999 loans, none of over 10^12 cents.
pub fn line_of_office<S: Alter>(
    connection: &mut Connection<S>,
    office: OfficeNo,
    today: Day,
) -> Result<OfficeLine, NoLine>
    requires alone { connection.old.in_transaction ≡ false }
    ensures kept { IsAsBefore (state S.Store connection.old) (state S.Store connection.new) }
    ensures sums { HasCleanDisk (state S.Store connection.new) → (lists : Lists)
        → IsKeeping (state S.Store connection.old) lists → (loans : List NumberedLoan) → AreAbove 0 loans
        → AreWholeLoans loans → AreWithinSums loans
        → filter (is_instalment_in office) lists.instalments ≡ rows_of_office office loans
        → IfErr result (λ why. why ≡ NoLine.Unread) }
    ensures open { HasCleanDisk (state S.Store connection.new)
        → OnOk result (IsTrue (state S.Store connection.new).is_open) }
    ensures line { HasCleanDisk (state S.Store connection.new) → (lists : Lists)
        → IsKeeping (state S.Store connection.old) lists → (loans : List NumberedLoan) → AreAbove 0 loans
        → AreWholeLoans loans
        → filter (is_instalment_in office) lists.instalments ≡ rows_of_office office loans
        → IfOk result (λ line. line ≡ line_of_loans office (aged_loans today loans)) }
    ensures mode { connection.new.in_transaction ≡ false }
{
    // With nothing to commit a stop leaves just the tables as they are; the call brings that into the proof.
    let _settled = connection.is_autocommit();
    // An empty statement is refused where the connection is shut, so from here on it is open.
    if connection.prepare("").is_err() {
        return Err(NoLine::Unread);
    }
    let mut line = OfficeLine::new(office);
    let number = office.get();
    fold_answer(
        connection,
        "SELECT office, loan, number, due, owed_penalty, paid_penalty, waived_penalty, written_off_penalty, \
         owed_fee, paid_fee, waived_fee, written_off_fee, owed_interest, paid_interest, waived_interest, \
         written_off_interest, owed_principal, paid_principal, waived_principal, \
         written_off_principal FROM instalments WHERE office = ?1 ORDER BY office, loan, number",
        params![number],
        today,
        &mut line,
    )?;
    Ok(line)
}
