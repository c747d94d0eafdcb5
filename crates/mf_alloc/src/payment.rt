//! A payment laid on the cells of a loan in a strategy's order, and taken back.

ghost use Rattle.std.specs.Prelude.{◌≡◌, ℕ, ◌+◌, ◌*◌, ◌≤◌, IfOk, OnErr, IsOkUnless, length, vec_len, All};
ghost use Rattle.mf_alloc.specs.Rows.{IsCell, outstanding, pay_into, with_paid, without_paid, take_out};
ghost use Rattle.mf_alloc.specs.Rows.{IsPayable};
ghost use Rattle.mf_alloc.specs.Order.{due_by, order_at};
ghost use Rattle.mf_alloc.specs.Payment.{shares_of, rest_of, amount_of_shares};

use crate::row::{Cell, Instalment, Share};
use crate::strategy::Strategy;
use mf_base::{Day, Fault};
use std::alloc::Global;

/// What is outstanding in a cell, in whole cents.
pub fn outstanding(rows: &[Instalment], cell: Cell) -> u64
    requires { IsCell (length rows.now) cell }
    ensures { result ≡ outstanding rows.now cell }
{
    let row = &rows[(cell.instalment - 1) as usize];
    row.outstanding(cell.portion)
}

/// How many instalments are due by a day: those whose due day is on or before it.
pub fn due_by(rows: &[Instalment], day: Day) -> u32
    requires { length rows.now ≤ 360 }
    ensures value { result ≡ due_by day rows.now }
    ensures most { result ≤ length rows.now }
{
    rows.iter()
        .map(|row| row.due)
        .filter(|due| *due <= day)
        .count() as u32
}

/// Pays a share into its cell.
fn credit(rows: &mut [Instalment], share: Share)
    requires there { IsCell (length rows.old) share.cell }
    requires fits { share.amount ≤ outstanding rows.old share.cell }
    ensures { rows.new ≡ pay_into rows.old share }
{
    let row = &mut rows[(share.cell.instalment - 1) as usize];
    let p = share.cell.portion.index();
    row.paid[p] += share.amount;
}

/// Takes a share out of its cell.
fn debit(rows: &mut [Instalment], share: Share)
    requires { IsCell (length rows.old) share.cell }
    ensures { rows.new ≡ take_out rows.old share }
{
    let row = &mut rows[(share.cell.instalment - 1) as usize];
    let p = share.cell.portion.index();
    row.paid[p] = row.paid[p].saturating_sub(share.amount);
}

/// Pays each share into its cell.
fn credit_all(rows: &mut [Instalment], shares: &[Share])
    requires { IsPayable rows.old shares.now }
    ensures paid { rows.new ≡ with_paid rows.old shares.now }
    ensures back { without_paid rows.new shares.now ≡ rows.old }
{
    for share in shares {
        credit(rows, *share);
    }
}

/// The shares of an amount where so many instalments are due, and the rest.
fn shares_of<T: Strategy>(
    alloc: Global,
    strategy: &T,
    rows: &[Instalment],
    due: u32,
    amount: u64,
) -> Result<(Vec<Share>, u64), Fault>
    requires few { length rows.now ≤ 360 }
    requires due { due ≤ length rows.now }
    ensures shares { IfOk result (λ answer. answer.0.items ≡ shares_of (T.cell_at strategy.now (length rows.now) due)
        rows.now amount) }
    ensures rest { IfOk result (λ answer. answer.1 ≡ rest_of (T.cell_at strategy.now (length rows.now) due) rows.now
        amount) }
    ensures whole { IfOk result (λ answer. amount_of_shares answer.0.items + answer.1 ≡ amount) }
    ensures payable { IfOk result (λ answer. IsPayable rows.now answer.0.items) }
    ensures cells { IfOk result (λ answer. All (λ share. IsCell (length rows.now) share.cell) answer.0.items) }
    ensures few { IfOk result (λ answer. vec_len answer.0 ≤ 4 * length rows.now) }
    ensures only { IsOkUnless result Fault.F20 }
{
    let n = rows.len() as u32;
    let mut shares = Vec::new(alloc);
    let mut rest = amount;
    for k in 0..4 * n {
        let cell = strategy.cell(n, due, k);
        let share = outstanding(rows, cell).min(rest);
        if share > 0 {
            shares.push(Share {
                cell,
                amount: share,
            })?;
            rest -= share;
        }
    }
    Ok((shares, rest))
}

/// Pays an amount into the rows on a day, and answers the shares in the strategy's order at that day, zero ones left
/// out, and the rest.
pub fn pay<T: Strategy>(
    alloc: Global,
    strategy: &T,
    rows: &mut Vec<Instalment>,
    amount: u64,
    day: Day,
) -> Result<(Vec<Share>, u64), Fault>
    requires { vec_len rows.old ≤ 360 }
    ensures shares { IfOk result (λ answer. answer.0.items ≡ shares_of (order_at (T.cell_at strategy.now)
        rows.old.items day) rows.old.items amount) }
    ensures rest { IfOk result (λ answer. answer.1 ≡ rest_of (order_at (T.cell_at strategy.now) rows.old.items day)
        rows.old.items amount) }
    ensures whole { IfOk result (λ answer. amount_of_shares answer.0.items + answer.1 ≡ amount) }
    ensures few { IfOk result (λ answer. vec_len answer.0 ≤ 4 * vec_len rows.old) }
    ensures cells { IfOk result (λ answer. All (λ share. IsCell (vec_len rows.old) share.cell) answer.0.items) }

    // Each cell's paid rises by its share and nothing else changes, so taking the shares out gives the rows back.
    ensures rows { IfOk result (λ answer. rows.new.items ≡ with_paid rows.old.items answer.0.items) }
    ensures back { IfOk result (λ answer. without_paid rows.new.items answer.0.items ≡ rows.old.items) }
    ensures only { IsOkUnless result Fault.F20 }
    ensures err { OnErr result (rows.new.items ≡ rows.old.items) }
{
    let due = due_by(rows, day);
    let (shares, rest) = shares_of(alloc, strategy, rows, due, amount)?;
    credit_all(rows, &shares);
    Ok((shares, rest))
}

/// Takes shares out again, the last first.
fn debit_all(rows: &mut [Instalment], shares: &[Share])
    requires { All (λ share. IsCell (length rows.old) share.cell) shares.now }
    ensures { rows.new ≡ without_paid rows.old shares.now }
{
    let mut k = shares.len();
    while k > 0 {
        k -= 1;
        debit(rows, shares[k]);
    }
}

/// Lowers what is paid by the shares and changes nothing else. It takes no memory.
pub fn undo(rows: &mut Vec<Instalment>, shares: &[Share])
    requires { All (λ share. IsCell (vec_len rows.old) share.cell) shares.now }
    ensures { rows.new.items ≡ without_paid rows.old.items shares.now }
{
    debit_all(rows, shares);
}
