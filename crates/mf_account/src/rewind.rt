//! Entries undone from the last one back to a place in their order.

ghost use Rattle.std.specs.Prelude.{◌≡◌, ◌≢◌, ℕ, ◌+◌, ◌-◌, ◌<◌, ◌≤◌, ◌^◌, ◌↔◌, None, IsTrue, IfSome, length, map};
ghost use Rattle.std.specs.Prelude.{slice_index_or, All};
ghost use Rattle.mf_alloc.specs.declared.row.Cell.{Cell};
ghost use Rattle.mf_alloc.specs.Sums.{IsRowWithin, AreWithin};
ghost use Rattle.mf_alloc.specs.Rows.{IsCell, place_in_row};
ghost use Rattle.mf_account.specs.declared.entry.Entry.{Entry};
ghost use Rattle.mf_account.specs.Undo.{unowe_row, without_charge, unsettle, without_settled};
ghost use Rattle.mf_account.specs.Undo.{before_entry, paid_by, paid_in};
ghost use Rattle.mf_account.specs.Account.{part_of, Orders};
ghost use Rattle.mf_account.specs.Effect.{State};
ghost use Rattle.mf_account.specs.Rewind.{IsRewindable, IsBack};
ghost use Rattle.mf_account.specs.Standing.{entries_at, entry_at};
ghost use Rattle.mf_account.specs.Applicable.{HasCharge, no_settled, AreInRows};
ghost use Rattle.mf_account.specs.Safe.{IsBounded};
ghost use Rattle.mf_account.specs.Told.{settled_amount};

use crate::effect::money_in;
use crate::entry::{Entry, Kind};
use crate::settled::{Book, How, SettledPart};
use mf_alloc::{Instalment, Portion};

/// Takes a charge back from what a portion of a row owes. False where more is settled of it than would be owed: the row
/// is then as it was.
fn lower_owed(row: &mut Instalment, portion: Portion, amount: u64) -> bool
    ensures whether { IsTrue result ↔ IsRowWithin (unowe_row (place_in_row portion) amount row.old) }
    ensures lowered { IsTrue result → row.new ≡ unowe_row (place_in_row portion) amount row.old }
{
    let p = portion.index();
    let owed = row.owed[p].saturating_sub(amount);
    if owed < row.paid[p] + row.waived[p] + row.written_off[p] {
        return false;
    }
    row.owed[p] = owed;
    true
}

/// Takes a fee or penalty back. False where more is settled of it than would be owed.
fn uncharge(rows: &mut [Instalment], entry: &Entry) -> bool
    requires there { HasCharge entry.now.kind entry.now (length rows.old) }
    ensures whether { AreWithin (without_charge entry.now.kind entry.now rows.old) → IsTrue result }
    ensures back { IsTrue result → rows.new ≡ without_charge entry.now.kind entry.now rows.old }
    ensures apart { IsTrue result → AreWithin rows.old → AreWithin (without_charge entry.now.kind entry.now rows.old) }
{
    match entry.kind {
        Kind::Fee => {
            let row = &mut rows[(entry.instalment - 1) as usize];
            lower_owed(row, Portion::Fee, entry.amount)
        }
        Kind::Penalty => {
            let row = &mut rows[(entry.instalment - 1) as usize];
            lower_owed(row, Portion::Penalty, entry.amount)
        }
        Kind::Repay | Kind::Waive | Kind::WriteOff | Kind::Refund => true,
    }
}

/// Takes one part back.
fn unsettle(rows: &mut [Instalment], part: SettledPart)
    requires { IsCell (length rows.old) part.cell }
    ensures { rows.new ≡ unsettle rows.old (part_of part) }
{
    let row = &mut rows[(part.cell.instalment - 1) as usize];
    let p = part.cell.portion.index();
    match part.how {
        How::Paid => row.paid[p] = row.paid[p].saturating_sub(part.amount),
        How::Waived => row.waived[p] = row.waived[p].saturating_sub(part.amount),
        How::WrittenOff => row.written_off[p] = row.written_off[p].saturating_sub(part.amount),
    }
}

/// Takes parts back, the last first.
fn unsettle_all(rows: &mut [Instalment], parts: &[SettledPart])
    requires { AreInRows (length rows.old) parts.now }
    ensures { rows.new ≡ without_settled rows.old (map part_of parts.now) }
{
    let mut k = parts.len();
    while k > 0 {
        k -= 1;
        unsettle(rows, parts[k]);
    }
}

/// What a part paid.
fn paid_by(part: SettledPart) -> u64
    ensures { result ≡ paid_by part.how part.amount }
{
    match part.how {
        How::Paid => part.amount,
        How::Waived | How::WrittenOff => 0,
    }
}

/// What parts paid.
fn paid_all(parts: &[SettledPart]) -> u64
    requires { paid_in (map part_of parts.now) < 2 ^ 64 }
    ensures { result ≡ paid_in (map part_of parts.now) }
{
    parts.iter().map(|part| paid_by(*part)).sum()
}

/// Takes an entry's parts and its charge back. False where more is settled than would be owed.
fn take_back_rows(rows: &mut [Instalment], entry: &Entry, own: &[SettledPart]) -> bool
    requires charge { HasCharge entry.now.kind entry.now (length rows.old) }
    requires cells { AreInRows (length rows.old) own.now }
    ensures whether { AreWithin (without_charge entry.now.kind entry.now
        (without_settled rows.old (map part_of own.now))) → IsTrue result }
    ensures back { IsTrue result → rows.new ≡ without_charge entry.now.kind entry.now
        (without_settled rows.old (map part_of own.now)) }
    ensures apart { IsTrue result → AreWithin rows.old
        → AreWithin (without_charge entry.now.kind entry.now (without_settled rows.old (map part_of own.now))) }
{
    unsettle_all(rows, own);
    uncharge(rows, entry)
}

/// Takes an entry back by what it settled. False where more is settled than would be owed: the book is then given up.
fn take_back(book: &mut Book, entry: &Entry, own: &[SettledPart]) -> bool
    requires charge { HasCharge entry.now.kind entry.now (length book.old.rows) }
    requires cells { AreInRows (length book.old.rows) own.now }
    requires money { book.old.overpaid + paid_in (map part_of own.now) + book.old.refunded < 2 ^ 64 }
    ensures whether { AreWithin (without_charge entry.now.kind entry.now (without_settled book.old.rows
        (map part_of own.now))) → IsTrue result }
    ensures back { IsTrue result → book.new ≡ before_entry entry.now (map part_of own.now) book.old }
    ensures apart { IsTrue result → AreWithin book.old.rows
        → AreWithin (without_charge entry.now.kind entry.now (without_settled book.old.rows (map part_of own.now))) }
{
    let paid = paid_all(own);
    if !take_back_rows(&mut book.rows, entry, own) {
        return false;
    }
    let money = money_in(entry.kind, entry.amount);
    book.overpaid = (book.overpaid + paid + book.refunded).saturating_sub(money);
    book.refunded = 0;
    true
}

/// Where the last run of parts with a number begins.
fn own_start(settled: &[SettledPart], end: usize, seq: u32) -> usize
    requires { end ≤ length settled.now }
    ensures within { result ≤ end }
    ensures own { (j : ℕ) → result ≤ j → j < end → (slice_index_or settled.now j no_settled).seq ≡ seq }
    ensures first { 0 < result → (slice_index_or settled.now (result - 1) no_settled).seq ≢ seq }
{
    let mut start = end;
    while start > 0 && settled[start - 1].seq == seq {
        start -= 1;
    }
    start
}

/// Takes entries back from a book, the last first, by what they settled. See `Book::rewind`.
pub(crate) fn rewind_book(book: &mut Book, tail: &[Entry], settled: &[SettledPart])
    requires { (orders : Orders) × (places : Entry → Cell → ℕ) × (from : State)
        × IsRewindable orders places from tail.now settled.now book.old }
    ensures { (orders : Orders) (places : Entry → Cell → ℕ) (from : State)
        → IsRewindable orders places from tail.now settled.now book.old → book.new ≡ from }
{
    let mut k = settled.len();
    let mut i = tail.len();
    while i > 0 {
        i -= 1;
        let start = own_start(settled, k, tail[i].seq);
        let _back = take_back(book, &tail[i], &settled[start..k]);
        k = start;
    }
}

/// An entry of an order.
fn entry_in<'a>(entries: &'a [Entry], order: &[usize], i: usize) -> &'a Entry
    requires within { All (λ at. at < length entries.now) order.now }
    requires there { i < length order.now }
    ensures { result.now ≡ entry_at (entries_at entries.now order.now) i }
{
    &entries[order[i]]
}

/// Takes back the entries from a place of an order on, the last first, and answers where their parts begin. None where
/// more is settled of an instalment than would be owed: the book is then given up. Neither the entries before that
/// place nor their parts are looked at.
pub(crate) fn rewind_to(
    book: &mut Book,
    entries: &[Entry],
    order: &[usize],
    place: usize,
    settled: &[SettledPart],
) -> Option<usize>
    requires within { All (λ at. at < length entries.now) order.now }
    requires there { place ≤ length order.now }
    requires charges { All (λ (e : Entry). HasCharge e.kind e (length book.old.rows))
        (entries_at entries.now order.now) }
    requires cells { AreInRows (length book.old.rows) settled.now }
    requires money { book.old.overpaid + book.old.refunded + settled_amount settled.now < 2 ^ 64 }
    ensures within { IfSome result (λ kept. kept ≤ length settled.now) }
    ensures bounded { (n most : ℕ) → IsBounded n most book.old
        → IfSome result (λ kept. IsBounded n (most + settled_amount settled.now) book.new) }
    ensures back { (orders : Orders) (places : Entry → Cell → ℕ) (from : State)
        → IsRewindable orders places from (entries_at entries.now order.now) settled.now book.old
        → IfSome result (λ kept. IsBack orders from (entries_at entries.now order.now) settled.now place kept
        book.new) }
    ensures some { (orders : Orders) (places : Entry → Cell → ℕ) (from : State)
        → IsRewindable orders places from (entries_at entries.now order.now) settled.now book.old → result ≢ None }
{
    let mut k = settled.len();
    let mut i = order.len();
    while i > place {
        i -= 1;
        let entry = entry_in(entries, order, i);
        let start = own_start(settled, k, entry.seq);
        if !take_back(book, entry, &settled[start..k]) {
            return None;
        }
        k = start;
    }
    Some(k)
}

impl Book {
    /// Takes entries back, the last first, by what they settled, and with nothing known of the state before them: it
    /// leaves that state, which may be any that a book can hold with nothing refunded. It takes no memory.
    pub fn rewind(&mut self, tail: &[Entry], settled: &[SettledPart])
        requires { (orders : Orders) × (places : Entry → Cell → ℕ) × (from : State)
            × IsRewindable orders places from tail.now settled.now self.old }
        ensures { (orders : Orders) (places : Entry → Cell → ℕ) (from : State)
            → IsRewindable orders places from tail.now settled.now self.old → self.new ≡ from }
    {
        rewind_book(self, tail, settled);
    }
}
