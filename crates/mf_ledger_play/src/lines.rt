//! Lines of a journal, played one after the other, and their transactions written.

ghost use Rattle.std.specs.Prelude.{◌≡◌, ◌+◌, map, IfOk, IfErr};
ghost use Rattle.mf_base.specs.declared.fault.Fault.TheVariants.{F20};
ghost use Rattle.mf_journal.specs.Chain.{line_of_row};
ghost use Rattle.mf_ledger_play.specs.Playing.{BooksLines};

use crate::form::BooksAsked;
use crate::line::book_line;
use mf_base::Fault;
use mf_journal::JournalRow;
use mf_model::InstitutionStore;
use mf_play::Stop;
use mf_wire_requests::Routes;
use std::alloc::Global;

/// The number of the line at a place behind so many lines. The error is F20.
fn number_at(before: u32, place: usize) -> Result<u64, Fault>
    ensures number { IfOk result (λ number. number ≡ before + place + 1) }
    ensures gives_up { IfErr result (λ fault. fault ≡ F20) }
{
    match u32::try_from(place) {
        Ok(place) => Ok(u64::from(before) + u64::from(place) + 1),
        Err(_) => Err(Fault::F20),
    }
}

/// Plays lines that so many lines of the journal come before, until one doesn't play, and writes their transactions
/// behind the text. It says the place of the line that doesn't play, and why. The error is F20.
pub fn book_lines<S: InstitutionStore>(
    alloc: Global,
    routes: &Routes,
    store: &mut S,
    asked: &BooksAsked,
    before: u32,
    rows: &[JournalRow<'_>],
    text: &mut Vec<u8>,
) -> Result<Result<(), (usize, Stop)>, Fault>
    ensures books { IfOk result (BooksLines S.InstitutionStore asked.now before (map line_of_row rows.now)
        text.old.items text.new.items store.old store.new) }
    ensures gives_up { IfErr result (λ fault. fault ≡ F20) }
{
    for place in 0..rows.len() {
        let row = rows[place];
        let number = number_at(before, place)?;
        match book_line(alloc, routes, store, asked, number, row, text) {
            Ok(Ok(())) => {}
            Ok(Err(why)) => return Ok(Err((place, why))),
            Err(fault) => return Err(fault),
        }
    }
    Ok(Ok(()))
}
