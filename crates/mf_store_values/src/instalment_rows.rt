//! The rows of instalments, made of those of an account.

ghost use Rattle.std.specs.Prelude.{◌≡◌, ◌++◌, map, OnOk, IfOk, IfErr};
ghost use Rattle.mf_alloc.specs.Rows.{place_in_row};
ghost use Rattle.mf_base.specs.declared.fault.Fault.TheVariants.{F20};
ghost use Rattle.mf_store_values.specs.Flat.{instalment_in, numbered_from, sums_at};

use crate::numbers::to_signed;
use mf_alloc::{Instalment, Portion};
use mf_base::Fault;
use mf_store_schema::{InstalmentRow, PortionSums, Text};
use std::alloc::Global;

/// The sums of a portion of an instalment.
fn sums_of(row: &Instalment, portion: Portion) -> Result<PortionSums, Fault>
    ensures sums { IfOk result (λ made. made ≡ sums_at row.now (place_in_row portion)) }
    ensures gives_up { IfErr result (λ fault. fault ≡ F20) }
{
    let place = portion.index();
    Ok(PortionSums {
        owed: to_signed(row.owed[place])?,
        paid: to_signed(row.paid[place])?,
        waived: to_signed(row.waived[place])?,
        written_off: to_signed(row.written_off[place])?,
    })
}

/// The row of an instalment as it stands, with its number.
pub fn instalment_row(
    alloc: Global,
    office: u32,
    loan: u32,
    number: u32,
    row: &Instalment,
) -> Result<InstalmentRow, Fault>
    ensures row { IfOk result (λ made. made ≡ instalment_in office loan (number, row.now)) }
    ensures gives_up { IfErr result (λ fault. fault ≡ F20) }
{
    Ok(InstalmentRow {
        office,
        loan,
        number,
        penalty: sums_of(row, Portion::Penalty)?,
        fee: sums_of(row, Portion::Fee)?,
        interest: sums_of(row, Portion::Interest)?,
        principal: sums_of(row, Portion::Principal)?,
        due: Text::new(row.due.text(alloc)?),
    })
}

/// Adds the rows of these instalments, by number from 1.
pub(crate) fn add_instalments(
    alloc: Global,
    office: u32,
    loan: u32,
    rows: &[Instalment],
    made: &mut Vec<InstalmentRow>,
) -> Result<(), Fault>
    ensures added { OnOk result (made.new.items ≡ made.old.items ++ map (instalment_in office loan)
        (numbered_from (λ number row. (number, row)) 1 rows.now)) }
    ensures gives_up { IfErr result (λ fault. fault ≡ F20) }
{
    let mut number = 0;
    for row in rows {
        if number == u32::MAX {
            return Err(Fault::F20);
        }
        number += 1;
        let kept = instalment_row(alloc, office, loan, number, row)?;
        made.push(kept)?;
    }
    Ok(())
}
