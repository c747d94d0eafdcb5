//! What a change of a loan's account writes beside the entry: the rows of its instalments, and what its entries settle.

ghost use Rattle.std.specs.Prelude.{◌≡◌, ◌++◌, map, OnOk, IfOk, IfErr};
ghost use Rattle.mf_base.specs.declared.fault.Fault.TheVariants.{F20};
ghost use Rattle.mf_alloc.specs.Rows.{row_at};
ghost use Rattle.mf_store_schema.specs.declared.writes.StoreWrite.TheVariants.{PutShare};
ghost use Rattle.mf_store_values.specs.Flat.{instalment_in, numbered_from, share_in, placed_parts};
ghost use Rattle.mf_store_commits.specs.ChangeWrites.{schedule_put, instalments_put, shares_replaced, shares_put};
ghost use Rattle.mf_store_commits.specs.ChangeWrites.{change_writes};

use mf_account::{LoanAccount, SettledPart};
use mf_alloc::Instalment;
use mf_base::Fault;
use mf_store_schema::{EntryKey, InstalmentRow, StoreWrite};
use mf_store_values::{instalment_row, share_row};
use std::alloc::Global;

/// Adds the puts of all instalments of a loan.
pub fn put_schedule(
    alloc: Global,
    office: u32,
    loan: u32,
    rows: &[Instalment],
    writes: &mut Vec<StoreWrite>,
) -> Result<(), Fault>
    ensures writes { OnOk result (writes.new.items ≡ writes.old.items
        ++ schedule_put office loan (numbered_from (λ n row. (n, row)) 1 rows.now)) }
    ensures gives_up { IfErr result (λ fault. fault ≡ F20) }
{
    let mut number = 0;
    for row in rows {
        if number == u32::MAX {
            return Err(Fault::F20);
        }
        number += 1;
        let put = instalment_row(alloc, office, loan, number, row)?;
        writes.push(StoreWrite::PutInstalment(put))?;
    }
    Ok(())
}

/// The row of the instalment of a number; F20 where there is none.
fn instalment_at(
    alloc: Global,
    office: u32,
    loan: u32,
    number: u32,
    rows: &[Instalment],
) -> Result<InstalmentRow, Fault>
    ensures row { IfOk result (λ stored. stored ≡ instalment_in office loan (number, row_at rows.now number)) }
    ensures gives_up { IfErr result (λ fault. fault ≡ F20) }
{
    if number == 0 || rows.len() < number as usize {
        return Err(Fault::F20);
    }
    let row = &rows[number as usize - 1];
    instalment_row(alloc, office, loan, number, row)
}

/// Adds the puts of the instalments with these numbers.
fn put_instalments(
    alloc: Global,
    office: u32,
    loan: u32,
    rows: &[Instalment],
    numbers: &[u32],
    writes: &mut Vec<StoreWrite>,
) -> Result<(), Fault>
    ensures writes { OnOk result (writes.new.items ≡ writes.old.items ++ instalments_put office loan rows.now
        numbers.now) }
    ensures gives_up { IfErr result (λ fault. fault ≡ F20) }
{
    for number in numbers {
        let row = instalment_at(alloc, office, loan, *number, rows)?;
        writes.push(StoreWrite::PutInstalment(row))?;
    }
    Ok(())
}

/// Adds the puts of what an entry settles.
fn put_parts(
    office: u32,
    loan: u32,
    seq: u32,
    parts: &[SettledPart],
    writes: &mut Vec<StoreWrite>,
) -> Result<(), Fault>
    ensures writes { OnOk result (writes.new.items ≡ writes.old.items
        ++ map (λ placed. PutShare (share_in office loan placed)) (placed_parts seq parts.now)) }
    ensures gives_up { IfErr result (λ fault. fault ≡ F20) }
{
    let mut place = 0;
    for part in parts {
        if place == u32::MAX {
            return Err(Fault::F20);
        }
        place += 1;
        let row = share_row(office, loan, seq, place, part)?;
        writes.push(StoreWrite::PutShare(row))?;
    }
    Ok(())
}

/// Adds the writes that bring what an entry settles to what the account says.
fn replace_shares(
    alloc: Global,
    office: u32,
    loan: u32,
    account: &LoanAccount,
    seq: u32,
    writes: &mut Vec<StoreWrite>,
) -> Result<(), Fault>
    ensures writes { OnOk result (writes.new.items ≡ writes.old.items ++ shares_replaced office loan account.now.settled
        seq) }
    ensures gives_up { IfErr result (λ fault. fault ≡ F20) }
{
    let parts = account.settled_in(alloc, seq)?;
    writes.push(StoreWrite::RemoveShares(EntryKey { office, loan, seq }))?;
    put_parts(office, loan, seq, &parts, writes)
}

/// The same for each of these entries.
fn put_shares(
    alloc: Global,
    office: u32,
    loan: u32,
    account: &LoanAccount,
    seqs: &[u32],
    writes: &mut Vec<StoreWrite>,
) -> Result<(), Fault>
    ensures writes { OnOk result (writes.new.items ≡ writes.old.items ++ shares_put office loan account.now.settled
        seqs.now) }
    ensures gives_up { IfErr result (λ fault. fault ≡ F20) }
{
    for seq in seqs {
        replace_shares(alloc, office, loan, account, *seq, writes)?;
    }
    Ok(())
}

/// Adds the writes of what the account's last entry or reversal changed: the instalments whose rows differ, and the
/// entries that settle otherwise.
pub fn put_change(
    alloc: Global,
    office: u32,
    loan: u32,
    account: &LoanAccount,
    writes: &mut Vec<StoreWrite>,
) -> Result<(), Fault>
    ensures writes { OnOk result (writes.new.items ≡ writes.old.items ++ change_writes office loan account.now) }
    ensures gives_up { IfErr result (λ fault. fault ≡ F20) }
{
    let change = account.change();
    put_instalments(alloc, office, loan, account.rows(), &change.rows, writes)?;
    put_shares(alloc, office, loan, account, &change.seqs, writes)
}
