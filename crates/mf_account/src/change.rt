//! Which instalments and which entries one change of an account made other than they were.

ghost use Rattle.std.specs.Prelude.{◌≡◌, ◌≢◌, ℕ, ◌<◌, ◌≤◌, ◌↔◌, ◌⊎◌, true, IfOk, IsOkUnless, length, drop};
ghost use Rattle.std.specs.Prelude.{slice_index_or};
ghost use Rattle.std.specs.List.Sorted.{IsNonDecreasingBy};
ghost use Rattle.mf_account.specs.declared.settled.SettledPart.{SettledPart};
ghost use Rattle.mf_account.specs.Change.{AreThose, AreAll, HasOtherRow, HasOtherParts, settled_in, no_change};
ghost use Rattle.mf_account.specs.Applicable.{no_settled};

use crate::settled::{Book, SettledPart};
use mf_alloc::Instalment;
use mf_base::Fault;
use std::alloc::Global;
use std::marker::Model;

/// What the last entry or reversal changed: the numbers of the instalments whose rows differ, and of the entries that
/// settle otherwise, each ascending.
pub struct Change {
    pub rows: Vec<u32>,
    pub seqs: Vec<u32>,
}

// By hand, since a derived drop is proved again in each function that may drop one.
impl Drop for Change {
    fn drop(self) {
        let Change { rows: _, seqs: _ } = self;
    }
}

impl Model for Change {
    ghost use Rattle.mf_account.specs.Change.{ChangedNumbers};

    ghost Value = { ChangedNumbers };

    ghost view = { λ change. record { rows = change.rows.items; seqs = change.seqs.items } };
}

/// No change.
pub(crate) fn no_change(alloc: Global) -> Change
    ensures { result ≡ no_change }
{
    Change {
        rows: Vec::new(alloc),
        seqs: Vec::new(alloc),
    }
}

/// Whether two rows are the same.
fn is_same_row(before: &Instalment, after: &Instalment) -> bool
    ensures { (result ≡ true) ↔ (before.now ≡ after.now) }
{
    before == after
}

/// Whether an instalment's rows differ.
fn has_other_row(before: &[Instalment], after: &[Instalment], instalment: u32) -> bool
    requires first { 1 ≤ instalment }
    requires before { instalment ≤ length before.now }
    requires after { instalment ≤ length after.now }
    ensures { (result ≡ true) ↔ HasOtherRow before.now after.now instalment }
{
    let k = (instalment - 1) as usize;
    !is_same_row(&before[k], &after[k])
}

/// The instalments whose rows differ.
pub(crate) fn changed_rows(
    alloc: Global,
    before: &[Instalment],
    after: &[Instalment],
) -> Result<Vec<u32>, Fault>
    requires few { length before.now ≤ 360 }
    requires size { length after.now ≡ length before.now }
    ensures rows { IfOk result (λ rows. AreThose (length before.now) (HasOtherRow before.now after.now) rows.items) }
    ensures only { IsOkUnless result Fault.F20 }
{
    let mut changed = Vec::new(alloc);
    for k in 0..before.len() {
        let instalment = k as u32 + 1;
        if has_other_row(before, after, instalment) {
            changed.push(instalment)?;
        }
    }
    Ok(changed)
}

/// The place of an entry's next part, from a place on.
fn next_own(parts: &[SettledPart], from: usize, seq: u32) -> usize
    requires { from ≤ length parts.now }
    ensures from { from ≤ result }
    ensures within { result ≤ length parts.now }
    ensures none { settled_in seq (drop from parts.now) ≡ settled_in seq (drop result parts.now) }
    ensures own { result < length parts.now → (slice_index_or parts.now result no_settled).seq ≡ seq }
{
    let mut k = from;
    while k < parts.len() && parts[k].seq != seq {
        k += 1;
    }
    k
}

/// Whether two parts are the same.
fn is_same_part(before: &SettledPart, after: &SettledPart) -> bool
    ensures { (result ≡ true) ↔ (before.now ≡ after.now) }
{
    before == after
}

/// Whether the parts at two places are the same.
fn is_same_at(before: &[SettledPart], i: usize, after: &[SettledPart], k: usize) -> bool
    requires before { i < length before.now }
    requires after { k < length after.now }
    ensures { (result ≡ true) ↔ (slice_index_or before.now i no_settled ≡ slice_index_or after.now k no_settled) }
{
    is_same_part(&before[i], &after[k])
}

/// Whether an entry has the same parts in two lists.
fn has_same_parts(before: &[SettledPart], after: &[SettledPart], seq: u32) -> bool
    ensures { (result ≡ true) ↔ (settled_in seq before.now ≡ settled_in seq after.now) }
{
    let mut i = next_own(before, 0, seq);
    let mut k = next_own(after, 0, seq);
    while i < before.len() && k < after.len() {
        if !is_same_at(before, i, after, k) {
            return false;
        }
        i = next_own(before, i + 1, seq);
        k = next_own(after, k + 1, seq);
    }
    i == before.len() && k == after.len()
}

/// Parts by the numbers of their entries, those of one entry in the order that they had.
fn by_entry(alloc: Global, parts: &[SettledPart]) -> Result<Vec<SettledPart>, Fault>
    ensures same { IfOk result (λ sorted. (seq : ℕ) → settled_in seq sorted.items ≡ settled_in seq parts.now) }
    ensures ascend { IfOk result (λ sorted. IsNonDecreasingBy (λ (s : SettledPart). s.seq) sorted.items) }
    ensures only { IsOkUnless result Fault.F20 }
{
    let mut sorted = Vec::from_slice(alloc, parts)?;
    sorted.sort_by_key(|part| part.seq)?;
    Ok(sorted)
}

/// The least number that a part has, from a place on in one or the other of two lists by entry.
fn least_seq(before: &[SettledPart], i: usize, after: &[SettledPart], k: usize) -> u32
    requires before { IsNonDecreasingBy (λ (s : SettledPart). s.seq) before.now }
    requires after { IsNonDecreasingBy (λ (s : SettledPart). s.seq) after.now }
    requires some { length before.now ≤ i → k < length after.now }
    ensures before { (j : ℕ) → i ≤ j → j < length before.now → result ≤ (slice_index_or before.now j no_settled).seq }
    ensures after { (j : ℕ) → k ≤ j → j < length after.now → result ≤ (slice_index_or after.now j no_settled).seq }
    ensures one { ((i < length before.now) × ((slice_index_or before.now i no_settled).seq ≡ result))
        ⊎ ((k < length after.now) × ((slice_index_or after.now k no_settled).seq ≡ result)) }
{
    if i < before.len() {
        if k < after.len() && after[k].seq < before[i].seq {
            return after[k].seq;
        }
        return before[i].seq;
    }
    after[k].seq
}

/// Where the parts of an entry end, from a place on.
fn own_end(parts: &[SettledPart], from: usize, seq: u32) -> usize
    requires { from ≤ length parts.now }
    ensures from { from ≤ result }
    ensures within { result ≤ length parts.now }
    ensures own { (j : ℕ) → from ≤ j → j < result → (slice_index_or parts.now j no_settled).seq ≡ seq }
    ensures last { result < length parts.now → (slice_index_or parts.now result no_settled).seq ≢ seq }
{
    let mut end = from;
    while end < parts.len() && parts[end].seq == seq {
        end += 1;
    }
    end
}

/// The entries whose parts differ between two lists by entry.
fn differing_seqs(
    alloc: Global,
    before: &[SettledPart],
    after: &[SettledPart],
) -> Result<Vec<u32>, Fault>
    requires before { IsNonDecreasingBy (λ (s : SettledPart). s.seq) before.now }
    requires after { IsNonDecreasingBy (λ (s : SettledPart). s.seq) after.now }
    ensures seqs { IfOk result (λ seqs. AreAll (HasOtherParts before.now after.now) seqs.items) }
    ensures only { IsOkUnless result Fault.F20 }
{
    let mut changed = Vec::new(alloc);
    let mut i = 0;
    let mut k = 0;
    while i < before.len() || k < after.len() {
        let seq = least_seq(before, i, after, k);
        let next_i = own_end(before, i, seq);
        let next_k = own_end(after, k, seq);
        if !has_same_parts(&before[i..next_i], &after[k..next_k], seq) {
            changed.push(seq)?;
        }
        i = next_i;
        k = next_k;
    }
    Ok(changed)
}

/// The entries whose parts differ. Only the parts given are gone over, so it costs what they come to and no more.
pub(crate) fn changed_seqs(
    alloc: Global,
    before: &[SettledPart],
    after: &[SettledPart],
) -> Result<Vec<u32>, Fault>
    ensures seqs { IfOk result (λ seqs. AreAll (HasOtherParts before.now after.now) seqs.items) }
    ensures only { IsOkUnless result Fault.F20 }
{
    let before_by_entry = by_entry(alloc, before)?;
    let after_by_entry = by_entry(alloc, after)?;
    differing_seqs(alloc, &before_by_entry, &after_by_entry)
}

/// What differs between two books and their parts.
pub(crate) fn change_between(
    alloc: Global,
    before: &Book,
    settled_before: &[SettledPart],
    after: &Book,
    settled_after: &[SettledPart],
) -> Result<Change, Fault>
    requires few { length before.now.rows ≤ 360 }
    requires size { length after.now.rows ≡ length before.now.rows }
    ensures rows { IfOk result (λ change. AreThose (length before.now.rows) (HasOtherRow before.now.rows after.now.rows)
        change.rows) }
    ensures seqs { IfOk result (λ change. AreAll (HasOtherParts settled_before.now settled_after.now) change.seqs) }
    ensures only { IsOkUnless result Fault.F20 }
{
    let rows = changed_rows(alloc, &before.rows, &after.rows)?;
    let seqs = changed_seqs(alloc, settled_before, settled_after)?;
    Ok(Change { rows, seqs })
}
