//! The founding at which a journal begins, and the institution that is founded there, in memory.

ghost use Rattle.std.specs.Prelude.{◌≡◌, ◌≤◌, ℕ, IfOk, IfErr, IfSome, IfNone};
ghost use Rattle.mf_base.specs.declared.fault.Fault.TheVariants.{F20};
ghost use Rattle.mf_base.specs.DayText.{last_entered_day};
ghost use Rattle.sqlite.specs.Files.{over_files};
ghost use Rattle.mf_store.specs.Stands.{StandsFor};
ghost use Rattle.mf_store_played.specs.Played.{IsFounding, founded};

use mf_base::{Day, Fault};
use mf_journal::Head;
use mf_store::{Store, day_of_number};
use mf_store_sql::pages::PageStore;
use std::alloc::Global;

/// The number of the schema of tables with a journal.
const SCHEMA: u64 = 3;

/// The day of the founding at which a journal begins; none where it doesn't begin at one.
pub fn founding_day(begins: Head) -> Result<Option<Day>, Fault>
    ensures some { IfOk result (λ x. IfSome x (IsFounding begins)) }
    ensures none { IfOk result (λ x. IfNone x ((day : ℕ) → ¬ IsFounding begins day)) }
    ensures gives_up { IfErr result (λ fault. fault ≡ F20) }
{
    let Some(day) = day_of_number(begins.day)? else {
        return Ok(None);
    };
    let founding = Head::founding(SCHEMA, begins.day);
    if begins.number == founding.number && begins.chain == founding.chain {
        Ok(Some(day))
    } else {
        Ok(None)
    }
}

/// A new institution in memory with a journal that has no line yet, on its first business day.
pub fn found_in_memory(alloc: Global, day: Day) -> Result<Store<PageStore>, Fault>
    requires { day ≤ last_entered_day }
    ensures stands { IfOk result (λ store. StandsFor over_files store (founded day)) }
    ensures gives_up { IfErr result (λ fault. fault ≡ F20) }
{
    let Ok(connection) = mf_store_sql::pages::open(alloc) else {
        return Err(Fault::F20);
    };
    match Store::create_journaled(alloc, connection, day) {
        Ok(store) => Ok(store),
        Err((fault, _)) => Err(fault),
    }
}
