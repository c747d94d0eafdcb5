//! An office's line of arrears from the rows of its loans' instalments, which a query gives by loan and number: one row
//! is held at a time.

ghost use Rattle.std.specs.Prelude.{◌≡◌, false, IsTrue, OnOk, OnErr, IfOk, IfErr};
ghost use Rattle.mf_base.specs.declared.fault.Fault.TheVariants.{F20};
ghost use Rattle.sqlite.specs.State.{HasCleanDisk, IsUnchanged, Survives};
ghost use Rattle.sqlite.specs.Held.{state};
ghost use Rattle.mf_store_values.specs.declared.fold.NoLine.TheVariants.{TooGreat};
ghost use Rattle.mf_store_values.specs.Folding.{IsReadAs, IsKept, Takes, Refuses, Folds, IsTooGreat};

use crate::instalments::instalment_from;
use mf_arrears::{LoanSoFar, OfficeLine, TooMuch};
use mf_base::{Day, Fault};
use mf_store_schema::{InstalmentRow, read_row};
use sqlite::{Alter, Row, Rows};

/// Why no line is made of an office's rows.
#[derive(Clone, Copy)]
pub enum NoLine {
    /// They could not be read.
    Unread,
    /// They come to more than a line of arrears sums.
    TooGreat,
}

impl From<TooMuch> for NoLine {
    ghost from_gives = { λ _ why. why ≡ TooGreat };

    fn from(_too_much: TooMuch) -> NoLine {
        NoLine::TooGreat
    }
}

/// The instalment of a row as the tables give it, with the number of its loan.
fn placed_in_row(row: &Row) -> Result<(u32, mf_alloc::Instalment), Fault>
    ensures row { IfOk result (λ found. IsReadAs row.now found) }
    ensures gives_up { IfErr result (λ fault. fault ≡ F20) }
{
    let found = read_row::<InstalmentRow>(row)?;
    let instalment = instalment_from(&found)?;
    Ok((found.loan, instalment))
}

/// The next instalment with the number of its loan, or none past the last.
fn next_instalment<S: Alter>(
    rows: &mut Rows<'_, S>,
) -> Result<Option<(u32, mf_alloc::Instalment)>, NoLine>
    ensures same_reference { rows.new.conn.ghost_name ≡ rows.old.conn.ghost_name }
    ensures takes { IfOk result (λ found. Takes S.Store rows.old.conn.now rows.new.conn.now found) }
    ensures refuses { OnErr result (Refuses S.Store rows.old.conn.now rows.new.conn.now) }
    ensures same { HasCleanDisk (state S.Store rows.new.conn.now)
        → OnOk result (IsUnchanged (state S.Store rows.old.conn.now) (state S.Store rows.new.conn.now)) }
    ensures kept { HasCleanDisk (state S.Store rows.new.conn.now) → IsKept S.Store rows.old.conn.now rows.new.conn.now }
    ensures unread { IfErr result (λ why. why ≡ NoLine.Unread) }
    ensures mode { rows.old.conn.now.in_transaction ≡ false → rows.new.conn.now.in_transaction ≡ false }
    ensures survives { Survives (state S.Store rows.old.conn.now) (state S.Store rows.new.conn.now) (λ _. ⊥) }
{
    let Ok(()) = rows.advance() else {
        return Err(NoLine::Unread);
    };
    let Some(row) = rows.get() else {
        return Ok(None);
    };
    match placed_in_row(row) {
        Ok(found) => Ok(Some(found)),
        Err(_) => Err(NoLine::Unread),
    }
}

/// Makes of a new line the line of an office's loans on a day, from the rows of its instalments by loan and number,
/// none of which was taken. It takes them one at a time. At an error it takes no more, and the line says nothing.
pub(crate) fn fold_instalments<S: Alter>(
    rows: &mut Rows<'_, S>,
    day: Day,
    line: &mut OfficeLine,
) -> Result<(), NoLine>
    ensures same_reference { rows.new.conn.ghost_name ≡ rows.old.conn.ghost_name }
    ensures folds { Folds S.Store day rows.old.conn.now rows.new.conn.now line.old line.new result }
    ensures kept { HasCleanDisk (state S.Store rows.new.conn.now) → IsKept S.Store rows.old.conn.now rows.new.conn.now }
    ensures open { HasCleanDisk (state S.Store rows.new.conn.now)
        → OnOk result (IsTrue (state S.Store rows.new.conn.now).is_open) }
    ensures sums { IfErr result (IsTooGreat S.Store rows.old.conn.now rows.new.conn.now line.old) }
    ensures mode { rows.old.conn.now.in_transaction ≡ false → rows.new.conn.now.in_transaction ≡ false }
    ensures survives { Survives (state S.Store rows.old.conn.now) (state S.Store rows.new.conn.now) (λ _. ⊥) }
{
    let mut read = LoanSoFar::new(0);
    'rows: for _ in 0..u64::MAX {
        match next_instalment(rows)? {
            None => {
                read.count(day, line)?;
                return Ok(());
            }
            Some(found) => read.take(found, day, line)?,
        }
    }
    Err(NoLine::Unread)
}

/// The same, which answers F20 at either error.
pub fn fold_loans<S: Alter>(
    rows: &mut Rows<'_, S>,
    day: Day,
    line: &mut OfficeLine,
) -> Result<(), Fault>
    ensures same_reference { rows.new.conn.ghost_name ≡ rows.old.conn.ghost_name }
    ensures folds { Folds S.Store day rows.old.conn.now rows.new.conn.now line.old line.new result }
    ensures kept { HasCleanDisk (state S.Store rows.new.conn.now) → IsKept S.Store rows.old.conn.now rows.new.conn.now }
    ensures open { HasCleanDisk (state S.Store rows.new.conn.now)
        → OnOk result (IsTrue (state S.Store rows.new.conn.now).is_open) }
    ensures gives_up { IfErr result (λ fault. fault ≡ F20) }
    ensures mode { rows.old.conn.now.in_transaction ≡ false → rows.new.conn.now.in_transaction ≡ false }
    ensures survives { Survives (state S.Store rows.old.conn.now) (state S.Store rows.new.conn.now) (λ _. ⊥) }
{
    match fold_instalments(rows, day, line) {
        Ok(()) => Ok(()),
        Err(NoLine::Unread | NoLine::TooGreat) => Err(Fault::F20),
    }
}
