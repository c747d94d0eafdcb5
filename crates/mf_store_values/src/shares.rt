//! The rows of shares, made of what an account's entries settle.

ghost use Rattle.std.specs.Prelude.{◌≡◌, ◌≤◌, ◌^◌, ◌++◌, ℕ, length, map, OnOk, IfOk, IfErr};
ghost use Rattle.std.specs.List.Sorted.{IsSortedByKey, IsPermutation};
ghost use Rattle.std.specs.Ordering.{nat_cmp};
ghost use Rattle.mf_base.specs.declared.fault.Fault.TheVariants.{F20};
ghost use Rattle.mf_account.specs.Change.{settled_in};
ghost use Rattle.mf_account.specs.declared.settled.SettledPart.{SettledPart};
ghost use Rattle.mf_store_values.specs.Flat.{share_in, parts_from};
ghost use Rattle.mf_store_values.specs.Kept.{next_place, placed_from};

use crate::numbers::to_signed;
use mf_account::{LoanAccount, SettledPart};
use mf_base::{Choice, Fault};
use mf_store_schema::ShareRow;
use std::alloc::Global;

/// The row of what an entry settles in a cell, with the entry's number and its place within the entry.
pub fn share_row(
    office: u32,
    loan: u32,
    seq: u32,
    place: u32,
    part: &SettledPart,
) -> Result<ShareRow, Fault>
    ensures row { IfOk result (λ made. made ≡ share_in office loan (seq, (place, part.now))) }
    ensures too_great { IfErr result (λ _. 2 ^ 63 ≤ part.now.amount) }
    ensures gives_up { IfErr result (λ fault. fault ≡ F20) }
{
    let amount = to_signed(part.amount)?;
    Ok(ShareRow {
        office,
        loan,
        seq,
        place,
        instalment: part.cell.instalment,
        portion: part.cell.portion.number(),
        how: part.how.number(),
        amount,
    })
}

/// The place of a part within its entry, after a part with this entry's number and place. One that 32 bits don't hold
/// is F20.
fn next_place(seq: u32, place: u32, part: &SettledPart) -> Result<u32, Fault>
    ensures place { IfOk result (λ next. next ≡ next_place seq place part.now) }
    ensures gives_up { IfErr result (λ fault. fault ≡ F20) }
{
    if part.seq != seq {
        return Ok(1);
    }
    match place.checked_add(1) {
        Some(next) => Ok(next),
        None => Err(Fault::F20),
    }
}

/// Adds the rows of these parts, which stand by entry.
fn add_placed(
    office: u32,
    loan: u32,
    parts: &[SettledPart],
    made: &mut Vec<ShareRow>,
) -> Result<(), Fault>
    ensures added { OnOk result (made.new.items ≡ made.old.items ++ map (share_in office loan)
        (placed_from 0 0 parts.now)) }
    ensures gives_up { IfErr result (λ fault. fault ≡ F20) }
{
    let mut seq = 0;
    let mut place = 0;
    for part in parts {
        place = next_place(seq, place, part)?;
        seq = part.seq;
        let kept = share_row(office, loan, seq, place, part)?;
        made.push(kept)?;
    }
    Ok(())
}

/// The parts by entry; those of one entry stay in their order.
fn by_entry(alloc: Global, parts: &[SettledPart]) -> Result<Vec<SettledPart>, Fault>
    ensures sorted { IfOk result (λ sorted. IsSortedByKey (λ (part : SettledPart). part.seq) nat_cmp sorted.items) }
    ensures permutation { IfOk result (λ sorted. IsPermutation parts.now sorted.items) }
    ensures same { IfOk result (λ sorted. (seq : ℕ) → settled_in seq sorted.items ≡ settled_in seq parts.now) }
    ensures gives_up { IfErr result (λ fault. fault ≡ F20) }
{
    let mut sorted = Vec::from_slice(alloc, parts)?;
    sorted.sort_by_key(|part| part.seq)?;
    Ok(sorted)
}

/// Adds the rows of what an account's entries settle, by entry and place.
pub(crate) fn add_shares(
    alloc: Global,
    office: u32,
    loan: u32,
    account: &LoanAccount,
    made: &mut Vec<ShareRow>,
) -> Result<(), Fault>
    ensures added { OnOk result (made.new.items ≡ made.old.items ++ map (share_in office loan)
        (parts_from (λ seq. settled_in seq account.now.settled) 1 (length account.now.loan.entries))) }
    ensures gives_up { IfErr result (λ fault. fault ≡ F20) }
{
    let parts = by_entry(alloc, account.settled_parts())?;
    add_placed(office, loan, &parts, made)
}
