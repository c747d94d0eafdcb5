//! The steps that an entry's effect is made of: charging, settling, clearing, money in and out.

ghost use Rattle.std.specs.Prelude.{◌≡◌, ℕ, ◌+◌, ◌-◌, ◌*◌, ◌<◌, ◌≤◌, ◌^◌, ◌++◌, IfOk, OnOk, IsOkUnless, length};
ghost use Rattle.std.specs.Prelude.{vec_len, map, filter, [], ◌∷◌};
ghost use Rattle.std.specs.List.{range_with_len};
ghost use Rattle.mf_alloc.specs.Order.{order_at};
ghost use Rattle.mf_alloc.specs.Rows.{IsCell, outstanding};
ghost use Rattle.mf_account.specs.Kinds.{money_in, money_out};
ghost use Rattle.mf_account.specs.Effect.{with_charge, settle, with_settled, parts_by, parts_cleared};
ghost use Rattle.mf_account.specs.Effect.{whole_part, is_some_part};
ghost use Rattle.mf_account.specs.AtOnce.{with_cleared, paid_part};
ghost use Rattle.mf_account.specs.Account.{parts_numbered, part_of};
ghost use Rattle.mf_account.specs.Applicable.{HasRow, HasCell, IsSettleable};

use crate::entry::{Entry, Kind};
use crate::settled::{How, SettledPart};
use mf_alloc::{Cell, Instalment, Portion, Share, Strategy, due_by, outstanding};
use mf_base::Fault;
use std::alloc::Global;

/// Adds a fee or penalty to what its cell owes.
pub(crate) fn charge(rows: &mut [Instalment], entry: &Entry)
    requires { HasRow entry.now.kind entry.now rows.old }
    ensures { rows.new ≡ with_charge entry.now.kind entry.now rows.old }
{
    match entry.kind {
        Kind::Fee => {
            let row = &mut rows[(entry.instalment - 1) as usize];
            row.owed[Portion::Fee.index()] += entry.amount;
        }
        Kind::Penalty => {
            let row = &mut rows[(entry.instalment - 1) as usize];
            row.owed[Portion::Penalty.index()] += entry.amount;
        }
        Kind::Repay | Kind::Waive | Kind::WriteOff | Kind::Refund => {}
    }
}

/// Settles one part.
fn settle(rows: &mut [Instalment], part: SettledPart)
    requires there { IsCell (length rows.old) part.cell }
    requires fits { part.amount ≤ outstanding rows.old part.cell }
    ensures { rows.new ≡ settle rows.old (part_of part) }
{
    let row = &mut rows[(part.cell.instalment - 1) as usize];
    let p = part.cell.portion.index();
    match part.how {
        How::Paid => row.paid[p] += part.amount,
        How::Waived => row.waived[p] += part.amount,
        How::WrittenOff => row.written_off[p] += part.amount,
    }
}

/// Settles all parts, first to last.
pub(crate) fn settle_all(rows: &mut [Instalment], parts: &[SettledPart])
    requires { IsSettleable rows.old (map part_of parts.now) }
    ensures { rows.new ≡ with_settled rows.old (map part_of parts.now) }
{
    for part in parts {
        settle(rows, *part);
    }
}

/// What an entry brings.
pub(crate) fn money_in(kind: Kind, amount: u64) -> u64
    ensures { result ≡ money_in kind amount }
{
    match kind {
        Kind::Repay => amount,
        Kind::Fee | Kind::Penalty | Kind::Waive | Kind::WriteOff | Kind::Refund => 0,
    }
}

/// What a refund gives back.
pub(crate) fn money_out(kind: Kind, overpaid: u64) -> u64
    ensures value { result ≡ money_out kind overpaid }
    ensures most { result ≤ overpaid }
{
    match kind {
        Kind::Refund => overpaid,
        Kind::Repay | Kind::Fee | Kind::Penalty | Kind::Waive | Kind::WriteOff => 0,
    }
}

/// Adds a part with all that is outstanding in a cell, if there is any.
fn push_whole(
    parts: &mut Vec<SettledPart>,
    seq: u32,
    how: How,
    rows: &[Instalment],
    cell: Cell,
) -> Result<(), Fault>
    requires there { IsCell (length rows.now) cell }
    requires few { vec_len parts.old ≤ 1440 }
    ensures parts { OnOk result (parts.new.items ≡ parts.old.items ++ parts_numbered seq (1 + length parts.old.items)
        (filter is_some_part (whole_part how rows.now cell ∷ []))) }
    ensures few { vec_len parts.new ≤ vec_len parts.old + 1 }
    ensures only { IsOkUnless result Fault.F20 }
{
    let amount = outstanding(rows, cell);
    if amount > 0 {
        let place = parts.len() as u32 + 1;
        parts.push(SettledPart {
            seq,
            place,
            cell,
            how,
            amount,
        })?;
    }
    Ok(())
}

/// Writes off every cell.
fn write_off<T: Strategy>(
    alloc: Global,
    strategy: &T,
    rows: &[Instalment],
    entry: &Entry,
) -> Result<Vec<SettledPart>, Fault>
    requires { length rows.now ≤ 360 }
    ensures few { IfOk result (λ parts. vec_len parts ≤ 4 * length rows.now) }
    ensures only { IsOkUnless result Fault.F20 }
    ensures settleable { IfOk result (λ parts. IsSettleable rows.now (map part_of parts.items)) }
    ensures parts { IfOk result (λ parts. parts.items ≡ parts_numbered entry.now.seq 1
        (parts_by Kind.WriteOff (order_at (T.cell_at strategy.now) rows.now entry.now.day) entry.now rows.now)) }
{
    let n = rows.len() as u32;
    let due = due_by(rows, entry.day);
    let mut parts = Vec::new(alloc);
    for k in 0..4 * n {
        let cell = strategy.cell(n, due, k);
        push_whole(&mut parts, entry.seq, How::WrittenOff, rows, cell)?;
    }
    Ok(parts)
}

/// What an entry clears.
pub(crate) fn clear<T: Strategy>(
    alloc: Global,
    strategy: &T,
    rows: &[Instalment],
    entry: &Entry,
) -> Result<Vec<SettledPart>, Fault>
    requires few { length rows.now ≤ 360 }
    requires row { HasCell entry.now.kind entry.now (length rows.now) }
    ensures parts { IfOk result (λ parts. parts.items ≡ parts_numbered entry.now.seq 1
        (parts_cleared (order_at (T.cell_at strategy.now) rows.now entry.now.day) entry.now rows.now)) }
    ensures settleable { IfOk result (λ parts. IsSettleable rows.now (map part_of parts.items)) }
    ensures few { IfOk result (λ parts. vec_len parts ≤ 1440) }
    ensures only { IsOkUnless result Fault.F20 }
{
    match entry.kind {
        Kind::WriteOff => write_off(alloc, strategy, rows, entry),
        Kind::Waive => {
            let cell = Cell {
                instalment: entry.instalment,
                portion: entry.portion,
            };
            let mut parts = Vec::new(alloc);
            push_whole(&mut parts, entry.seq, How::Waived, rows, cell)?;
            Ok(parts)
        }
        Kind::Repay | Kind::Fee | Kind::Penalty | Kind::Refund => Ok(Vec::new(alloc)),
    }
}

/// Adds the parts of a payment.
pub(crate) fn add_paid(
    parts: &mut Vec<SettledPart>,
    seq: u32,
    shares: &[Share],
) -> Result<(), Fault>
    requires few { vec_len parts.old + length shares.now < 2 ^ 31 }
    ensures parts { OnOk result (parts.new.items ≡ parts.old.items ++ parts_numbered seq (1 + length parts.old.items)
        (map paid_part shares.now)) }
    ensures only { IsOkUnless result Fault.F20 }
{
    for share in shares {
        let place = parts.len() as u32 + 1;
        parts.push(SettledPart {
            seq,
            place,
            cell: share.cell,
            how: How::Paid,
            amount: share.amount,
        })?;
    }
    Ok(())
}

/// Charges what an entry charges and clears what it clears.
pub(crate) fn charge_and_clear<T: Strategy>(
    alloc: Global,
    strategy: &T,
    rows: &mut [Instalment],
    entry: &Entry,
) -> Result<Vec<SettledPart>, Fault>
    requires few { length rows.old ≤ 360 }
    requires row { HasRow entry.now.kind entry.now rows.old }
    ensures rows { OnOk result (rows.new ≡ with_cleared (order_at (T.cell_at strategy.now) rows.old entry.now.day)
        entry.now (with_charge entry.now.kind entry.now rows.old)) }
    ensures parts { IfOk result (λ parts. parts.items ≡ parts_numbered entry.now.seq 1
        (parts_cleared (order_at (T.cell_at strategy.now) rows.old entry.now.day) entry.now (with_charge entry.now.kind
        entry.now rows.old))) }
    ensures few { IfOk result (λ parts. vec_len parts ≤ 1440) }
    ensures only { IsOkUnless result Fault.F20 }
{
    charge(rows, entry);
    let parts = clear(alloc, strategy, rows, entry)?;
    settle_all(rows, &parts);
    Ok(parts)
}
