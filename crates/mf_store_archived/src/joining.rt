//! Archives put together, back from where the journal of a file begins.

ghost use Rattle.std.specs.Prelude.{◌≡◌, ◌<◌, ◌↔◌, ◌∷◌, IsTrue, OnOk, IfOk, IfErr, IfSome, IfNone, length, slice_get};
ghost use Rattle.std.specs.Prelude.{Some, take};
ghost use Rattle.std.specs.List.{AllByRecursion};
ghost use Rattle.mf_base.specs.declared.fault.Fault.TheVariants.{F20};
ghost use Rattle.mf_store_archived.specs.Joining.{AreArchives, EndsAt, EndsWith, IsGap, IsJoined, NoneEnds};
ghost use Rattle.mf_store_archived.specs.Joining.{last_before};
ghost use Rattle.mf_store_archived.specs.declared.archive.Archive.{Archive};

use crate::archive::Archive;
use mf_base::Fault;
use mf_journal::Head;
use std::alloc::Global;

/// Archives that lead to where the journal of a file begins.
#[derive(Drop)]
pub struct Joined {
    /// Where the first of them begins; where the file's journal begins, if none ends there.
    pub begins: Head,
    /// Their places among all, the earliest first.
    pub places: Vec<usize>,
}

/// Why no archive ends where lines go on.
#[derive(Clone, Copy)]
pub enum Gap {
    /// None ends with the line before: the lines of these numbers are missing.
    Missing { from: u64, to: u64 },
    /// One does, that of the lines of these numbers, and the day or the chain at its end is another.
    Unjoined { from: u64, to: u64 },
}

/// Whether an archive has lines, and ends where a journal stands so.
fn ends_at(archive: &Archive, head: Head) -> bool
    ensures { IsTrue result ↔ EndsAt head archive.now }
{
    let is_after = archive.begins.number < head.number;
    let is_there = archive.ends.number == head.number && archive.ends.day == head.day;
    is_after && is_there && archive.ends.chain == head.chain
}

/// The place of the first archive that ends where a journal stands so.
fn ending_at(archives: &[Archive], head: Head) -> Option<usize>
    ensures some { IfSome result (λ place. AllByRecursion (λ (a : Archive). ¬ EndsAt head a)
        (take place archives.now)) }
    ensures there { IfSome result (λ place. (a : Archive) × (slice_get archives.now place ≡ Some a) × EndsAt head a) }
    ensures within { IfSome result (λ place. place < length archives.now) }
    ensures none { IfNone result (NoneEnds head archives.now) }
{
    for place in 0..archives.len() {
        if ends_at(&archives[place], head) {
            return Some(place);
        }
    }
    None
}

/// Puts a place before the others. The error is F20.
fn put_first(places: &mut Vec<usize>, place: usize) -> Result<(), Fault>
    ensures first { OnOk result (places.new.items ≡ place ∷ places.old.items) }
    ensures gives_up { IfErr result (λ fault. fault ≡ F20) }
{
    match places.insert(0, place) {
        Ok(()) => Ok(()),
        Err(_) => Err(Fault::F20),
    }
}

/// The archives that lead to where the journal of a file begins, back from there, as far as there are some: always the
/// first that ends there. The error is F20.
pub fn join(alloc: Global, archives: &[Archive], to: Head) -> Result<Joined, Fault>
    ensures joined { IfOk result (λ joined. AreArchives archives.now → IsJoined archives.now to joined) }
    ensures gives_up { IfErr result (λ fault. fault ≡ F20) }
{
    let mut places = Vec::new(alloc);
    let mut begins = to;
    'back: for _ in 0..u64::MAX {
        match ending_at(archives, begins) {
            Some(place) => {
                put_first(&mut places, place)?;
                begins = archives[place].begins;
            }
            None => return Ok(Joined { begins, places }),
        }
    }
    Err(Fault::F20)
}

/// Whether an archive has lines, and ends with the line of a number.
fn ends_with(archive: &Archive, number: u64) -> bool
    ensures { IsTrue result ↔ EndsWith number archive.now }
{
    archive.begins.number < number && archive.ends.number == number
}

/// The place of the first archive that ends with the line of a number.
fn ending_with(archives: &[Archive], number: u64) -> Option<usize>
    ensures some { IfSome result (λ place. AllByRecursion (λ (a : Archive). ¬ EndsWith number a)
        (take place archives.now)) }
    ensures there { IfSome result (λ place. (a : Archive) × (slice_get archives.now place ≡ Some a)
        × EndsWith number a) }
    ensures within { IfSome result (λ place. place < length archives.now) }
    ensures none { IfNone result (AllByRecursion (λ (a : Archive). ¬ EndsWith number a) archives.now) }
{
    for place in 0..archives.len() {
        if ends_with(&archives[place], number) {
            return Some(place);
        }
    }
    None
}

/// The greatest number below another with whose line an archive ends, or 0.
fn last_before(archives: &[Archive], number: u64) -> u64
    ensures last { result ≡ last_before number archives.now }
    ensures below { 0 < number → result < number }
{
    match archives {
        [] => 0,
        [first, rest @ ..] => {
            let last = last_before(rest, number);
            if first.ends.number < number && last < first.ends.number {
                first.ends.number
            } else {
                last
            }
        }
    }
}

/// Why no archive ends at a head, which is not before the first line.
pub fn gap_before(archives: &[Archive], head: Head) -> Gap
    requires { 0 < head.number }
    ensures { IsGap archives.now head result }
{
    match ending_with(archives, head.number) {
        Some(place) => Gap::Unjoined {
            from: archives[place].begins.number + 1,
            to: head.number,
        },
        None => Gap::Missing {
            from: last_before(archives, head.number) + 1,
            to: head.number,
        },
    }
}
