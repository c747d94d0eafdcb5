//! The order of the standing entries, and the account as their replay on the fresh schedule.

ghost use Rattle.std.specs.Prelude.{◌≡◌, ◌≢◌, ℕ, ◌+◌, ◌-◌, ◌<◌, ◌≤◌, ◌∷◌, [], ◌++◌, None, IfOk, IfSome, OnOk};
ghost use Rattle.std.specs.Prelude.{IsOkUnless, length, map, All, insert, slice_index};
ghost use Rattle.std.specs.List.{Contains};
ghost use Rattle.mf_account.specs.Account.{row_of, first_state, state_of, settled_of, after_entries};
ghost use Rattle.mf_account.specs.Account.{settled_by, orders_by};
ghost use Rattle.mf_account.specs.Standing.{is_before, order_with, standing_entries, entry_at};
ghost use Rattle.mf_account.specs.Standing.{entries_at, IsInOrder, places_from, AreDistinct};
ghost use Rattle.mf_account.specs.Applicable.{AreApplicable};
ghost use Rattle.mf_account.specs.declared.replay.Place.{Place};
ghost use Rattle.mf_account.specs.declared.replay.Standing.{Standing};
ghost use Rattle.mf_account.specs.declared.settled.SettledPart.{SettledPart};
ghost use Rattle.mf_account.specs.Change.{settled_in};
ghost use Rattle.mf_account.specs.Loan.{DisbursedLoan, IsSoundDisbursed, settled_of_loan};
ghost use Rattle.mf_account.specs.Safe.{ArePlaced};
ghost use Rattle.mf_account.specs.Told.{AreNumberedTo};

use crate::apply::apply_entry;
use crate::entry::Entry;
use crate::safe::{are_numbered_to, are_placed};
use crate::settled::{Book, SettledPart};
use mf_alloc::{Instalment, Strategy};
use mf_base::{Day, Fault};
use mf_schedule::FreshInstalment;
use std::alloc::Global;

/// Whether an entry comes before another.
pub(crate) fn is_before(a: &Entry, b: &Entry) -> bool
    ensures { result ≡ is_before a.now b.now }
{
    a.day < b.day || (a.day == b.day && a.seq < b.seq)
}

/// Where an entry belongs among others in order. It looks from the last one on, since most entries come last.
pub(crate) fn position(entries: &[Entry], order: &[usize], entry: &Entry) -> usize
    requires within { All (λ i. i < length entries.now) order.now }
    requires ordered { IsInOrder (entries_at entries.now order.now) }
    ensures within { result ≤ length order.now }
    ensures place { order_with entry.now (entries_at entries.now order.now) ≡ insert (entries_at entries.now order.now)
        result entry.now }
{
    let mut k = order.len();
    while k > 0 {
        if is_before(entry, &entries[order[k - 1]]) {
            k -= 1;
        } else {
            return k;
        }
    }
    0
}

/// Where an order has the entry at a place among the entries. It looks from the last one on.
pub(crate) fn place_in(order: &[usize], at: usize) -> usize
    requires { Contains order.now at }
    ensures within { result < length order.now }
    ensures there { slice_index order.now result ≡ at }
{
    let mut k = order.len();
    while k > 0 {
        k -= 1;
        if order[k] == at {
            return k;
        }
    }
    0
}

/// A standing entry's day, and where it is among all entries.
#[derive(Clone, Copy)]
struct Place {
    day: Day,
    at: usize,
}

/// The places of the standing entries, in the order of their numbers.
fn standing_places(alloc: Global, entries: &[Entry]) -> Result<Vec<Place>, Fault>
    ensures places { IfOk result (λ places. places.items ≡ places_from 0 entries.now) }
    ensures only { IsOkUnless result Fault.F20 }
{
    let mut places = Vec::new(alloc);
    for k in 0..entries.len() {
        if !entries[k].reversed {
            places.push(Place {
                day: entries[k].day,
                at: k,
            })?;
        }
    }
    Ok(places)
}

/// Where places are among all entries.
fn all_at(alloc: Global, places: &[Place]) -> Result<Vec<usize>, Fault>
    ensures all { IfOk result (λ order. order.items ≡ map (λ (place : Place). place.at) places.now) }
    ensures only { IsOkUnless result Fault.F20 }
{
    let order = places.iter().map(|place| place.at).collect(alloc)?;
    Ok(order)
}

/// The places of the standing entries, in their order. It sorts them by day, so that no entry is held against all
/// others.
pub(crate) fn standing_order(alloc: Global, entries: &[Entry]) -> Result<Vec<usize>, Fault>
    requires numbers { (i : ℕ) → i < length entries.now → (entry_at entries.now i).seq ≡ i + 1 }
    ensures within { IfOk result (λ order. All (λ i. i < length entries.now) order.items) }
    ensures order { IfOk result (λ order. entries_at entries.now order.items ≡ standing_entries entries.now) }
    ensures only { IsOkUnless result Fault.F20 }
{
    let mut places = standing_places(alloc, entries)?;
    places.sort_by_key(|place| place.day)?;
    let order = all_at(alloc, &places)?;
    Ok(order)
}

/// A part of an entry, and where the entry stands in an order.
#[derive(Clone, Copy)]
struct Standing {
    place: usize,
    part: SettledPart,
}

/// Where each of so many entries stands in an order; 0 for those that it leaves out.
fn places_in(alloc: Global, order: &[usize], entries: usize) -> Result<Vec<usize>, Fault>
    requires within { All (λ at. at < entries) order.now }
    ensures size { IfOk result (λ places. length places.items ≡ entries) }
    ensures places { AreDistinct order.now → IfOk result (λ places. (k : ℕ) → k < length order.now
        → slice_index places.items (slice_index order.now k) ≡ k) }
    ensures only { IsOkUnless result Fault.F20 }
{
    let mut places = Vec::new(alloc);
    places.resize(entries, 0)?;
    for k in 0..order.len() {
        places[order[k]] = k;
    }
    Ok(places)
}

/// The parts, each with the place of its entry.
fn parts_placed(
    alloc: Global,
    places: &[usize],
    settled: &[SettledPart],
) -> Result<Vec<Standing>, Fault>
    requires numbers { AreNumberedTo (length places.now) settled.now }
    ensures placed { IfOk result (λ placed. placed.items
        ≡ map (λ (s : SettledPart). record { place = slice_index places.now (s.seq - 1); part = s }) settled.now) }
    ensures only { IsOkUnless result Fault.F20 }
{
    let mut placed = Vec::new(alloc);
    for part in settled {
        placed.push(Standing {
            place: places[part.seq as usize - 1],
            part: *part,
        })?;
    }
    Ok(placed)
}

/// The parts alone.
fn parts_of(alloc: Global, placed: &[Standing]) -> Result<Vec<SettledPart>, Fault>
    ensures parts { IfOk result (λ parts. parts.items ≡ map (λ (s : Standing). s.part) placed.now) }
    ensures only { IsOkUnless result Fault.F20 }
{
    let parts = placed.iter().map(|standing| standing.part).collect(alloc)?;
    Ok(parts)
}

/// Parts in the order of their entries; those of one entry stay as they stand.
fn sorted_parts(
    alloc: Global,
    order: &[usize],
    entries: usize,
    settled: &[SettledPart],
) -> Result<Vec<SettledPart>, Fault>
    requires within { All (λ at. at < entries) order.now }
    requires numbers { AreNumberedTo entries settled.now }
    ensures loan { (loan : DisbursedLoan) → IsSoundDisbursed loan → length loan.entries ≡ entries
        → entries_at loan.entries order.now
        ≡ standing_entries loan.entries
        → ((seq : ℕ) → settled_in seq settled.now ≡ settled_in seq (settled_of_loan loan))
        → IfOk result (λ sorted. sorted.items ≡ settled_of_loan loan) }
    ensures only { IsOkUnless result Fault.F20 }
{
    let places = places_in(alloc, order, entries)?;
    let mut placed = parts_placed(alloc, &places, settled)?;
    placed.sort_by_key(|standing| standing.place)?;
    parts_of(alloc, &placed)
}

/// Parts that are kept, in the order of their entries. None where one is of none of so many instalments or entries, or
/// where they come to more than is kept.
pub(crate) fn in_order(
    alloc: Global,
    order: &[usize],
    entries: usize,
    instalments: usize,
    settled: &[SettledPart],
) -> Result<Option<Vec<SettledPart>>, Fault>
    requires within { All (λ at. at < entries) order.now }
    ensures placed { IfOk result (λ found. IfSome found (λ parts. ArePlaced instalments entries parts.items)) }
    ensures loan { (loan : DisbursedLoan) → IsSoundDisbursed loan → length loan.entries ≡ entries
        → entries_at loan.entries order.now
        ≡ standing_entries loan.entries
        → ((seq : ℕ) → settled_in seq settled.now ≡ settled_in seq (settled_of_loan loan))
        → IfOk result (λ found. IfSome found (λ parts. parts.items ≡ settled_of_loan loan)) }
    ensures some { (loan : DisbursedLoan) → IsSoundDisbursed loan → length loan.entries ≡ entries
        → loan.periods ≡ instalments
        → entries_at loan.entries order.now ≡ standing_entries loan.entries → ((seq : ℕ) → settled_in seq settled.now
        ≡ settled_in seq (settled_of_loan loan))
        → IfOk result (λ found. found ≢ None) }
    ensures only { IsOkUnless result Fault.F20 }
{
    if !are_numbered_to(settled, entries) {
        return Ok(None);
    }
    let parts = sorted_parts(alloc, order, entries, settled)?;
    if !are_placed(&parts, instalments, entries) {
        return Ok(None);
    }
    Ok(Some(parts))
}

/// An instalment of the fresh schedule, with nothing paid.
fn row_of(instalment: &FreshInstalment) -> Instalment
    ensures { result ≡ row_of instalment.now }
{
    Instalment::fresh(
        instalment.due,
        [
            0,
            instalment.fees,
            instalment.interest,
            instalment.principal,
        ],
    )
}

/// The fresh rows.
fn first_rows(alloc: Global, schedule: &[FreshInstalment]) -> Result<Vec<Instalment>, Fault>
    ensures rows { IfOk result (λ rows. rows.items ≡ map row_of schedule.now) }
    ensures only { IsOkUnless result Fault.F20 }
{
    let rows = schedule
        .iter()
        .map(|instalment| row_of(instalment))
        .collect(alloc)?;
    Ok(rows)
}

/// A book with nothing paid.
fn first_book(alloc: Global, schedule: &[FreshInstalment]) -> Result<Book, Fault>
    ensures state { IfOk result (λ book. book ≡ first_state schedule.now) }
    ensures only { IsOkUnless result Fault.F20 }
{
    let rows = first_rows(alloc, schedule)?;
    Ok(Book {
        rows,
        overpaid: 0,
        refunded: 0,
    })
}

/// Applies entries in an order to a book, and answers what they settle. After an error the book is given up.
pub(crate) fn apply_all<T: Strategy>(
    alloc: Global,
    strategy: &T,
    book: &mut Book,
    entries: &[Entry],
    order: &[usize],
) -> Result<Vec<SettledPart>, Fault>
    requires few { length book.old.rows ≤ 360 }
    requires within { All (λ i. i < length entries.now) order.now }
    requires fits { AreApplicable (orders_by (T.cell_at strategy.now) book.old.rows) (entries_at entries.now order.now)
        book.old }
    ensures state { OnOk result (book.new ≡ after_entries (orders_by (T.cell_at strategy.now) book.old.rows)
        (entries_at entries.now order.now) book.old) }
    ensures parts { IfOk result (λ parts. parts.items ≡ settled_by (orders_by (T.cell_at strategy.now) book.old.rows)
        (entries_at entries.now order.now) book.old) }
    ensures only { IsOkUnless result Fault.F20 }
{
    let mut settled = Vec::new(alloc);
    for k in 0..order.len() {
        let parts = apply_entry(alloc, strategy, book, &entries[order[k]])?;
        settled.extend_from_slice(&parts)?;
    }
    Ok(settled)
}

/// Applies an entry to a book, and then later ones in an order. After an error the book is given up.
pub(crate) fn apply_with<T: Strategy>(
    alloc: Global,
    strategy: &T,
    book: &mut Book,
    entry: &Entry,
    entries: &[Entry],
    later: &[usize],
) -> Result<Vec<SettledPart>, Fault>
    requires few { length book.old.rows ≤ 360 }
    requires within { All (λ i. i < length entries.now) later.now }
    requires fits { AreApplicable (orders_by (T.cell_at strategy.now) book.old.rows)
        (entry.now ∷ entries_at entries.now later.now) book.old }
    ensures state { OnOk result (book.new ≡ after_entries (orders_by (T.cell_at strategy.now) book.old.rows)
        (entry.now ∷ entries_at entries.now later.now) book.old) }
    ensures parts { IfOk result (λ parts. parts.items ≡ settled_by (orders_by (T.cell_at strategy.now) book.old.rows)
        (entry.now ∷ entries_at entries.now later.now) book.old) }
    ensures only { IsOkUnless result Fault.F20 }
{
    let mut parts = apply_entry(alloc, strategy, book, entry)?;
    let rest = apply_all(alloc, strategy, book, entries, later)?;
    parts.extend_from_slice(&rest)?;
    Ok(parts)
}

/// The state and the settled parts of a fresh schedule and entries: the effects of the standing entries, whose places
/// are given in their order.
pub(crate) fn replay_entries<T: Strategy>(
    alloc: Global,
    strategy: &T,
    schedule: &[FreshInstalment],
    entries: &[Entry],
    order: &[usize],
) -> Result<(Book, Vec<SettledPart>), Fault>
    requires few { length schedule.now ≤ 360 }
    requires within { All (λ i. i < length entries.now) order.now }
    requires order { entries_at entries.now order.now ≡ standing_entries entries.now }
    requires fits { AreApplicable (orders_by (T.cell_at strategy.now) (first_state schedule.now).rows)
        (standing_entries entries.now) (first_state schedule.now) }
    ensures state { IfOk result (λ both. both.0 ≡ state_of (orders_by (T.cell_at strategy.now)
        (first_state schedule.now).rows) schedule.now entries.now) }
    ensures settled { IfOk result (λ both. both.1.items ≡ settled_of (orders_by (T.cell_at strategy.now)
        (first_state schedule.now).rows) schedule.now entries.now) }
    ensures only { IsOkUnless result Fault.F20 }
{
    let mut book = first_book(alloc, schedule)?;
    let settled = apply_all(alloc, strategy, &mut book, entries, order)?;
    Ok((book, settled))
}
