//! What is shown of a loan's entries: amounts, and the shares that they settled.

ghost use Rattle.std.specs.Prelude.{◌≡◌, ◌+◌, ◌-◌, ◌<◌, ◌^◌, [], length, map, slice_set, slice_index_or, IfOk, OnOk};
ghost use Rattle.std.specs.Prelude.{IsOkUnless};
ghost use Rattle.std.specs.List.{zip};
ghost use Rattle.mf_account.specs.Told.{settled_amount, IsNumberedTo, AreNumberedTo};
ghost use Rattle.mf_statement.specs.Lines.{cleared_by_part, amount_told, entries_kept};
ghost use Rattle.mf_statement.specs.Parts.{no_parts, with_part, table, line_with};

use crate::lines::{EntryLine, EntryList};
use crate::listing::Listing;
use mf_account::{Entry, How, Kind, LoanAccount, SettledPart};
use mf_alloc::Share;
use mf_base::Fault;
use std::alloc::Global;

/// What the parts of one entry come to.
#[derive(Drop)]
struct EntryParts {
    /// Whole cents: what they waive or write off.
    cleared: u64,
    shares: Listing<Share>,
}

/// What a part waives or writes off.
fn cleared_by_part(part: &SettledPart) -> u64
    ensures { result ≡ cleared_by_part part.now }
{
    match part.how {
        How::Paid => 0,
        How::Waived | How::WrittenOff => part.amount,
    }
}

/// The amount that an entry is told with.
fn amount(entry: &Entry, cleared: u64, refunded: u64) -> u64
    ensures { result ≡ amount_told entry.now.kind entry.now cleared refunded }
{
    match entry.kind {
        Kind::Repay | Kind::Fee | Kind::Penalty => entry.amount,
        Kind::Waive | Kind::WriteOff => cleared,
        Kind::Refund if entry.reversed => 0,
        Kind::Refund => refunded,
    }
}

/// An entry as it is told, with what its parts come to.
fn entry_line(entry: Entry, own: EntryParts, refunded: u64) -> EntryLine
    ensures { result ≡ line_with refunded entry own }
{
    EntryLine {
        amount: amount(&entry, own.cleared, refunded),
        shares: own.shares,
        entry,
    }
}

/// So many entries without parts.
fn without_parts(alloc: Global, count: u32) -> Result<Vec<EntryParts>, Fault>
    ensures each { IfOk result (λ all. all.items ≡ table [] count) }
    ensures only { IsOkUnless result Fault.F20 }
{
    let mut all = Vec::new(alloc);
    for _ in 0..count {
        all.push(EntryParts {
            cleared: 0,
            shares: Listing::new(Vec::new(alloc)),
        })?;
    }
    Ok(all)
}

/// Adds a part to its entry's.
fn add_part(all: &mut [EntryParts], part: &SettledPart) -> Result<(), Fault>
    requires number { IsNumberedTo (length all.old) part.now }
    requires small { (slice_index_or all.old (part.now.seq - 1) no_parts).cleared + part.now.amount < 2 ^ 64 }
    ensures added { OnOk result (all.new ≡ slice_set all.old (part.now.seq - 1)
        (with_part (slice_index_or all.old (part.now.seq - 1) no_parts) part.now)) }
    ensures only { IsOkUnless result Fault.F20 }
{
    let own = &mut all[(part.seq - 1) as usize];
    own.cleared += cleared_by_part(part);
    own.shares.push(part.share())
}

/// Adds parts to their entries', which have none.
fn add_parts(all: &mut [EntryParts], parts: &[SettledPart]) -> Result<(), Fault>
    requires none { all.old ≡ table [] (length all.old) }
    requires small { settled_amount parts.now < 2 ^ 64 }
    requires numbers { AreNumberedTo (length all.old) parts.now }
    ensures added { OnOk result (all.new ≡ table parts.now (length all.old)) }
    ensures only { IsOkUnless result Fault.F20 }
{
    for part in parts {
        add_part(all, part)?;
    }
    Ok(())
}

/// What the parts of each of so many entries come to, by the entries' numbers.
fn parts_by_entry(
    alloc: Global,
    parts: &[SettledPart],
    count: u32,
) -> Result<Vec<EntryParts>, Fault>
    requires small { settled_amount parts.now < 2 ^ 64 }
    requires numbers { AreNumberedTo count parts.now }
    ensures each { IfOk result (λ all. all.items ≡ table parts.now count) }
    ensures only { IsOkUnless result Fault.F20 }
{
    let mut all = without_parts(alloc, count)?;
    add_parts(&mut all, parts)?;
    Ok(all)
}

/// Entries as they are told, each with what its parts come to.
fn lines_with(
    alloc: Global,
    entries: Vec<Entry>,
    parts: Vec<EntryParts>,
    refunded: u64,
) -> Result<Vec<EntryLine>, Fault>
    ensures lines { IfOk result (λ lines. lines.items ≡ map (λ both. line_with refunded both.0 both.1)
        (zip entries.items parts.items)) }
    ensures only { IsOkUnless result Fault.F20 }
{
    let lines = entries
        .into_iter()
        .zip(parts)
        .map(|(entry, own)| entry_line(entry, own, refunded))
        .collect(alloc)?;
    Ok(lines)
}

/// The entries of an account as they stand, by number. The only error is F20, out of memory.
pub fn entry_lines(alloc: Global, account: LoanAccount) -> Result<EntryList, Fault>
    ensures lines { IfOk result (λ lines. lines ≡ entries_kept account) }
    ensures only { IsOkUnless result Fault.F20 }
{
    let parts = parts_by_entry(alloc, account.settled_parts(), account.entry_count())?;
    let refunded = account.balances().refunded;
    let lines = lines_with(alloc, account.into_entries(), parts, refunded)?;
    Ok(Listing::new(lines))
}
