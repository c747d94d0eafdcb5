//! Whether a fault has shut a connection.

ghost use Rattle.std.specs.Prelude.{◌≡◌, false, IsTrue, OnOk, IfErr};
ghost use Rattle.mf_base.specs.declared.fault.Fault.TheVariants.{F20};
ghost use Rattle.sqlite.specs.Held.{state};
ghost use Rattle.sqlite.specs.State.{HasCleanDisk};
ghost use Rattle.mf_store_schema.specs.Calls.{IsAsBefore};

use mf_base::Fault;
use sqlite::{Alter, Connection};

/// F20 where a fault has shut the connection. No table is asked.
pub fn see_open<S: Alter>(connection: &mut Connection<S>) -> Result<(), Fault>
    requires alone { connection.old.in_transaction ≡ false }
    ensures kept { IsAsBefore (state S.Store connection.old) (state S.Store connection.new) }
    ensures gives_up { IfErr result (λ fault. fault ≡ F20) }
    ensures open { HasCleanDisk (state S.Store connection.new)
        → OnOk result (IsTrue (state S.Store connection.new).is_open) }
    ensures mode { connection.new.in_transaction ≡ false }
{
    // With nothing to commit a stop leaves just the tables as they are; the call brings that into the proof.
    let _settled = connection.is_autocommit();
    // An empty statement is refused where the connection is shut.
    if connection.prepare("").is_err() {
        return Err(Fault::F20);
    }
    Ok(())
}
