//! Whether what is kept of an account leaves room for more, so that no sum of it overflows whatever its entries say.

ghost use Rattle.std.specs.Prelude.{◌≡◌, ◌≢◌, ℕ, ◌+◌, ◌<◌, ◌≤◌, ◌↔◌, ◌++◌, None, IsTrue, IfSome};
ghost use Rattle.mf_alloc.specs.Rows.{IsCell};
ghost use Rattle.mf_account.specs.Account.{sum_at};
ghost use Rattle.mf_account.specs.Applicable.{AreInRows};
ghost use Rattle.mf_account.specs.Safe.{most_kept, IsShaped, IsBounded, ArePlaced};
ghost use Rattle.mf_account.specs.Told.{settled_amount, IsNumberedTo, AreNumberedTo};

use crate::settled::{Book, SettledPart};
use mf_alloc::Instalment;

/// The most cents that are kept of what all instalments owe of a portion, of what is overpaid and refunded, and of all
/// parts. A sound loan comes to far less.
const MOST_KEPT: u64 = 1_000_000_000_000_000_000;

/// Whether what the instalments owe of a portion, by its place, comes to no more than is kept.
fn is_owed_within(rows: &[Instalment], p: usize) -> bool
    requires { p < 4 }
    ensures within { IsTrue result → sum_at (λ row. row.owed) p rows.now ≤ most_kept }
    ensures exact { sum_at (λ row. row.owed) p rows.now ≤ most_kept → IsTrue result }
{
    let mut room = MOST_KEPT;
    for row in rows {
        let owed = row.owed[p];
        if room < owed {
            return false;
        }
        room -= owed;
    }
    true
}

/// The same of each portion.
pub(crate) fn are_owed_within(rows: &[Instalment]) -> bool
    ensures within { IsTrue result → (p : ℕ) → p < 4 → sum_at (λ row. row.owed) p rows.now ≤ most_kept }
    ensures exact { ((p : ℕ) → p < 4 → sum_at (λ row. row.owed) p rows.now ≤ most_kept) → IsTrue result }
{
    for p in 0..4 {
        if !is_owed_within(rows, p) {
            return false;
        }
    }
    true
}

/// Whether a state comes to no more than is kept.
pub(crate) fn is_bounded(book: &Book) -> bool
    ensures bounded { (n : ℕ) → IsShaped n book.now → IsTrue result → IsBounded n most_kept book.now }
    ensures exact { (n : ℕ) → IsBounded n most_kept book.now → IsTrue result }
{
    if !are_owed_within(&book.rows) {
        return false;
    }
    let money = book.overpaid.saturating_add(book.refunded);
    money <= MOST_KEPT
}

/// What is left of so many cents beside parts. None where the parts come to more.
fn room_beside(room: u64, parts: &[SettledPart]) -> Option<u64>
    ensures left { IfSome result (λ left. left + settled_amount parts.now ≡ room) }
    ensures some { settled_amount parts.now ≤ room → result ≢ None }
{
    let mut left = room;
    for part in parts {
        if left < part.amount {
            return None;
        }
        left -= part.amount;
    }
    Some(left)
}

/// Whether parts, those of two lists together, come to no more than is kept.
pub(crate) fn is_amount_within(kept: &[SettledPart], more: &[SettledPart]) -> bool
    ensures { IsTrue result ↔ (settled_amount (kept.now ++ more.now) ≤ most_kept) }
{
    match room_beside(MOST_KEPT, kept) {
        None => false,
        Some(room) => room_beside(room, more).is_some(),
    }
}

/// Whether a part is of one of so many entries.
fn is_numbered_to(part: &SettledPart, entries: usize) -> bool
    ensures { IsTrue result ↔ IsNumberedTo entries part.now }
{
    1 <= part.seq && part.seq as usize <= entries
}

/// Whether each part is of one of so many entries.
pub(crate) fn are_numbered_to(parts: &[SettledPart], entries: usize) -> bool
    ensures { IsTrue result ↔ AreNumberedTo entries parts.now }
{
    parts.iter().all(|part| is_numbered_to(part, entries))
}

/// Whether a part is of a cell of so many instalments, and of one of so many entries.
fn is_placed(part: &SettledPart, instalments: usize, entries: usize) -> bool
    ensures { IsTrue result ↔ (IsCell instalments part.now.cell × IsNumberedTo entries part.now) }
{
    1 <= part.cell.instalment
        && part.cell.instalment as usize <= instalments
        && is_numbered_to(part, entries)
}

/// Whether each part is of a cell of so many instalments, and of one of so many entries, and all come to no more than
/// is kept.
pub(crate) fn are_placed(parts: &[SettledPart], instalments: usize, entries: usize) -> bool
    ensures { IsTrue result ↔ ArePlaced instalments entries parts.now }
{
    parts
        .iter()
        .all(|part| is_placed(part, instalments, entries))
        && is_amount_within(parts, &[])
}
