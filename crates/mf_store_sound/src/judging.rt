//! What the tables of a connection hold, told without changing them.

ghost use Rattle.std.specs.Prelude.{◌≡◌, ◌↔◌, IsTrue, IfOk, IfErr, false};
ghost use Rattle.mf_base.specs.declared.fault.Fault.TheVariants.{F20};
ghost use Rattle.sqlite.specs.Held.{state};
ghost use Rattle.sqlite.specs.State.{HasCleanDisk};
ghost use Rattle.mf_store_schema.specs.Schemas.{IsUnchangedUnder};
ghost use Rattle.mf_store_schema.specs.Versions.{IsOfVersion};
ghost use Rattle.mf_store_schema.specs.Whole.{HaveRowids};
ghost use Rattle.mf_store_sound.specs.Held.{CanBeOpened};
ghost use Rattle.mf_store_sound.specs.Told.{IsAny, HaveOwnRowids, IsToldOf};

use crate::judged::read_sound;
use mf_base::Fault;
use mf_store_schema::{Unfollowed, Version, has_no_tables, version_of};
use sqlite::{Alter, Connection};
use std::alloc::Global;

/// What the tables of a connection hold.
#[derive(Clone, Copy, Debug, PartialEq, Eq)]
pub enum Contents {
    /// There are no tables.
    Nothing,
    /// They are those of a version, with the rows of a sound institution or not.
    Known { version: Version, sound: bool },
    /// They are others than this program makes.
    Others,
}

/// Whether tables of a version hold the rows of a sound institution, and no line of a journal that tells no request. It
/// changes nothing. The error is F20.
fn holds_sound<S: Alter>(
    alloc: Global,
    connection: &mut Connection<S>,
    version: Version,
) -> Result<bool, Fault>
    requires alone { connection.old.in_transaction ≡ false }
    ensures kept { IsUnchangedUnder (IsOfVersion version) (state S.Store connection.old)
        (state S.Store connection.new) }
    ensures exact { HasCleanDisk (state S.Store connection.new)
        → IsOfVersion version (state S.Store connection.old).now.schema
        → HaveRowids version (state S.Store connection.old).now.trees
        → IfOk result (λ yes. IsTrue yes ↔ CanBeOpened version (state S.Store connection.old).now.trees) }
    ensures gives_up { IfErr result (λ fault. fault ≡ F20) }
    ensures mode { connection.new.in_transaction ≡ false }
{
    match read_sound(alloc, connection, version, &mut Unfollowed) {
        Ok(Some(_)) => Ok(true),
        Ok(None) => Ok(false),
        Err(fault) => Err(fault),
    }
}

/// Tells what the tables of a connection hold, whatever tables and rows stand there. It changes nothing. The error is
/// F20.
pub fn judge<S: Alter>(alloc: Global, connection: &mut Connection<S>) -> Result<Contents, Fault>
    requires alone { connection.old.in_transaction ≡ false }
    ensures kept { IsUnchangedUnder IsAny (state S.Store connection.old) (state S.Store connection.new) }
    ensures exact { HasCleanDisk (state S.Store connection.new) → HaveOwnRowids (state S.Store connection.old).now
        → IfOk result (IsToldOf (state S.Store connection.old).now) }
    ensures gives_up { IfErr result (λ fault. fault ≡ F20) }
    ensures mode { connection.new.in_transaction ≡ false }
{
    if has_no_tables(connection.schema()) {
        return Ok(Contents::Nothing);
    }
    let Some(version) = version_of(connection.schema()) else {
        return Ok(Contents::Others);
    };
    match holds_sound(alloc, connection, version) {
        Ok(sound) => Ok(Contents::Known { version, sound }),
        Err(fault) => Err(fault),
    }
}
