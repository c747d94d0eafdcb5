//! Lines of a journal, played up to a business day.

ghost use Rattle.std.specs.Prelude.{◌≡◌, map, IfOk, IfErr};
ghost use Rattle.mf_base.specs.declared.fault.Fault.TheVariants.{F20};
ghost use Rattle.mf_journal.specs.Chain.{line_of_row};
ghost use Rattle.mf_portions_play.specs.Ends.{EndsLine, EndsLines};

use mf_base::Fault;
use mf_journal::JournalRow;
use mf_model::InstitutionStore;
use mf_play::{Stop, play_line};
use mf_wire_requests::Routes;
use std::alloc::Global;

/// Plays a line where the business day is before a day; else it is passed over. The error is F20.
fn play_line_before<S: InstitutionStore>(
    alloc: Global,
    routes: &Routes,
    store: &mut S,
    until: u64,
    row: JournalRow<'_>,
) -> Result<Result<(), Stop>, Fault>
    ensures ends { IfOk result (EndsLine S.InstitutionStore until (line_of_row row.entry) store.old store.new) }
    ensures gives_up { IfErr result (λ fault. fault ≡ F20) }
{
    let today = match store.business_day(alloc) {
        Ok(today) => today,
        Err(fault) => return Err(fault),
    };
    if u64::from(today.number()) < until {
        play_line(alloc, routes, store, row)
    } else {
        Ok(Ok(()))
    }
}

/// Plays lines as long as the business day is before a day, until one doesn't play; those behind are passed over. It
/// says the place of the line that doesn't play, and why. The error is F20.
pub fn play_lines_before<S: InstitutionStore>(
    alloc: Global,
    routes: &Routes,
    store: &mut S,
    until: u64,
    rows: &[JournalRow<'_>],
) -> Result<Result<(), (usize, Stop)>, Fault>
    ensures ends { IfOk result (EndsLines S.InstitutionStore until (map line_of_row rows.now) store.old store.new) }
    ensures gives_up { IfErr result (λ fault. fault ≡ F20) }
{
    for place in 0..rows.len() {
        let row = rows[place];
        match play_line_before(alloc, routes, store, until, row) {
            Ok(Ok(())) => {}
            Ok(Err(why)) => return Ok(Err((place, why))),
            Err(fault) => return Err(fault),
        }
    }
    Ok(Ok(()))
}
