//! What the rows of a loan's shares stand for. What can be no share's is F20.

ghost use Rattle.std.specs.Prelude.{◌≡◌, ℕ, Some, List, map, IfOk, IfErr};
ghost use Rattle.mf_base.specs.declared.fault.Fault.TheVariants.{F20};
ghost use Rattle.mf_account.specs.declared.settled.SettledPart.{SettledPart};
ghost use Rattle.mf_store_schema.specs.Rows.{share_row};
ghost use Rattle.mf_store_values.specs.Flat.{share_in};
ghost use Rattle.mf_store_values.specs.Kept.{part_told};

use crate::numbers::amount_from;
use crate::values::or_give_up;
use mf_account::{How, SettledPart};
use mf_alloc::{Cell, Portion};
use mf_base::{Choice, Fault};
use mf_store_schema::{ShareRow, read_row};
use sqlite::Row;
use std::alloc::Global;

/// The part of a cell whose row this is, or None where it is that of none.
fn part_of(row: &ShareRow) -> Option<SettledPart>
    ensures part { (office loan : ℕ) (placed : ℕ × (ℕ × SettledPart)) → share_in office loan placed ≡ row.now
        → result ≡ Some (part_told placed) }
{
    Some(SettledPart {
        seq: row.seq,
        place: row.place,
        cell: Cell {
            instalment: row.instalment,
            portion: Portion::from_number(row.portion)?,
        },
        how: How::from_number(row.how)?,
        amount: amount_from(row.amount)?,
    })
}

/// The part of a row as the tables give it.
fn part_in_row(row: &Row) -> Result<SettledPart, Fault>
    ensures part { IfOk result (λ part. (office loan : ℕ) (placed : ℕ × (ℕ × SettledPart))
        → row.now ≡ share_row (share_in office loan placed) → part ≡ part_told placed) }
    ensures gives_up { IfErr result (λ fault. fault ≡ F20) }
{
    let found = read_row::<ShareRow>(row)?;
    or_give_up(part_of(&found))
}

/// The parts of the rows, in order.
pub fn parts_from(alloc: Global, rows: &[Row]) -> Result<Vec<SettledPart>, Fault>
    ensures parts { IfOk result (λ list. (office loan : ℕ) (all : List (ℕ × (ℕ × SettledPart)))
        → rows.now ≡ map (λ item. share_row (share_in office loan item)) all → list.items ≡ map part_told all) }
    ensures gives_up { IfErr result (λ fault. fault ≡ F20) }
{
    let mut parts = Vec::new(alloc);
    for row in rows {
        parts.push(part_in_row(row)?)?;
    }
    Ok(parts)
}
