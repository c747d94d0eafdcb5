//! A new institution in memory.

ghost use Rattle.std.specs.Prelude.{◌≡◌, ◌≤◌, IfOk, IfErr, [], ◌∷◌};
ghost use Rattle.mf_base.specs.declared.fault.Fault.TheVariants.{F20};
ghost use Rattle.mf_base.specs.DayText.{last_entered_day};
ghost use Rattle.sqlite.specs.Files.{over_files};
ghost use Rattle.mf_model.specs.Institution.{newly_made};
ghost use Rattle.mf_store.specs.Stands.{StandsFor, Leaves, IsOpen};

use mf_base::{Day, Fault};
use mf_store::Store;
use mf_store_sql::pages::PageStore;
use std::alloc::Global;

/// A new institution in memory, on this business day: office 1 `Head Office`, its manager 1/1 `Head Manager`, and
/// nothing else. The day is at most 2099-12-31.
pub fn in_memory(alloc: Global, day: Day) -> Result<Store<PageStore>, Fault>
    requires { day ≤ last_entered_day }
    ensures stands { IfOk result (λ store. StandsFor over_files store (newly_made day)) }
    ensures leaves { IfOk result (λ store. Leaves over_files store (newly_made day ∷ [])) }
    ensures open { IfOk result (λ store. IsOpen over_files store) }
    ensures gives_up { IfErr result (λ fault. fault ≡ F20) }
{
    let Ok(connection) = mf_store_sql::pages::open(alloc) else {
        return Err(Fault::F20);
    };
    match Store::create(alloc, connection, day) {
        Ok(store) => Ok(store),
        Err((fault, _)) => Err(fault),
    }
}
