//! What the rows of a loan's instalments stand for. What can be no instalment's is F20.

ghost use Rattle.std.specs.Prelude.{◌≡◌, ◌+◌, ◌≤◌, ◌<◌, ℕ, List, map, pos, IfOk, IfErr};
ghost use Rattle.mf_base.specs.declared.fault.Fault.TheVariants.{F20};
ghost use Rattle.std.specs.List.{AllByRecursion, list_any};
ghost use Rattle.mf_alloc.specs.Sums.{Instalment, AreWhole, AreWithin, IsRowWithin, IsWhole, is_open};
ghost use Rattle.mf_store_schema.specs.Rows.{instalment_row};
ghost use Rattle.mf_store_values.specs.Decoded.{IsNoInstalment};
ghost use Rattle.mf_store_values.specs.Flat.{instalment_in};

use crate::loans::day_from;
use crate::values::to_unsigned;
use mf_base::Fault;
use mf_store_schema::{InstalmentRow, PortionSums, read_row};
use sqlite::Row;
use std::alloc::Global;

/// The sums of a portion as amounts in cents.
#[derive(Clone, Copy)]
pub(crate) struct PortionAmounts {
    pub(crate) owed: u64,
    pub(crate) paid: u64,
    pub(crate) waived: u64,
    pub(crate) written_off: u64,
}

/// The sums of a portion as amounts; F20 where one is negative, or more is settled than owed.
pub(crate) fn amounts_from(sums: PortionSums) -> Result<PortionAmounts, Fault>
    ensures amounts { IfOk result (λ amounts. sums ≡ record {
      owed = pos amounts.owed;
      paid = pos amounts.paid;
      waived = pos amounts.waived;
      written_off = pos amounts.written_off;
    }) }
    ensures within { IfOk result (λ amounts. amounts.paid + amounts.waived + amounts.written_off ≤ amounts.owed) }
    ensures none { IfErr result (λ _. (owed paid waived written_off : ℕ) → sums ≡ record {
      owed = pos owed;
      paid = pos paid;
      waived = pos waived;
      written_off = pos written_off;
    } → owed < paid + waived + written_off) }
    ensures gives_up { IfErr result (λ fault. fault ≡ F20) }
{
    let owed = to_unsigned(sums.owed)?;
    let paid = to_unsigned(sums.paid)?;
    let waived = to_unsigned(sums.waived)?;
    let written_off = to_unsigned(sums.written_off)?;
    if paid > owed || waived > owed - paid || written_off > owed - paid - waived {
        return Err(Fault::F20);
    }
    Ok(PortionAmounts {
        owed,
        paid,
        waived,
        written_off,
    })
}

/// The instalment of a row; F20 where that can be none.
pub fn instalment_from(row: &InstalmentRow) -> Result<mf_alloc::Instalment, Fault>
    ensures row { IfOk result (λ found. (office loan number : ℕ) (sums : Instalment) → IsWhole sums
        → row.now ≡ instalment_in office loan (number, sums) → found ≡ sums) }
    ensures within { IfOk result (λ found. IsWhole found × IsRowWithin found) }
    ensures none { IfErr result (λ _. IsNoInstalment row.now) }
    ensures gives_up { IfErr result (λ fault. fault ≡ F20) }
{
    let penalty = amounts_from(row.penalty)?;
    let fee = amounts_from(row.fee)?;
    let interest = amounts_from(row.interest)?;
    let principal = amounts_from(row.principal)?;
    let due = day_from(&row.due)?;
    Ok(mf_alloc::Instalment {
        due,
        owed: [penalty.owed, fee.owed, interest.owed, principal.owed],
        paid: [penalty.paid, fee.paid, interest.paid, principal.paid],
        waived: [
            penalty.waived,
            fee.waived,
            interest.waived,
            principal.waived,
        ],
        written_off: [
            penalty.written_off,
            fee.written_off,
            interest.written_off,
            principal.written_off,
        ],
    })
}

/// The instalment of a row as the tables give it.
fn instalment_in_row(row: &Row) -> Result<mf_alloc::Instalment, Fault>
    ensures row { IfOk result (λ found. (office loan number : ℕ) (sums : Instalment) → IsWhole sums
        → row.now ≡ instalment_row (instalment_in office loan (number, sums)) → found ≡ sums) }
    ensures within { IfOk result (λ found. IsWhole found × IsRowWithin found) }
    ensures gives_up { IfErr result (λ fault. fault ≡ F20) }
{
    let found = read_row::<InstalmentRow>(row)?;
    instalment_from(&found)
}

/// The instalments of the rows, in order.
pub fn instalments_from(alloc: Global, rows: &[Row]) -> Result<Vec<mf_alloc::Instalment>, Fault>
    ensures rows { IfOk result (λ list. (office loan : ℕ) (all : List (ℕ × Instalment))
        → AllByRecursion (λ item. IsWhole item.1) all
        → rows.now ≡ map (λ item. instalment_row (instalment_in office loan item)) all
        → list.items ≡ map (λ item. item.1) all) }
    ensures whole { IfOk result (λ list. AreWhole list.items) }
    ensures within { IfOk result (λ list. AreWithin list.items) }
    ensures gives_up { IfErr result (λ fault. fault ≡ F20) }
{
    let mut instalments = Vec::new(alloc);
    for row in rows {
        instalments.push(instalment_in_row(row)?)?;
    }
    Ok(instalments)
}

/// Whether anything is outstanding in one of the instalments.
pub fn is_active(rows: &[mf_alloc::Instalment]) -> bool
    ensures { result ≡ list_any is_open rows.now }
{
    rows.iter().any(|row| row.is_open())
}
