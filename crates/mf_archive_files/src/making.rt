//! The file of an archive, made with nothing in it.

ghost use Rattle.std.specs.Prelude.{◌≡◌, ◌⊎◌, None, false, IfOk, IfErr};
ghost use Rattle.sqlite.specs.Files.{file_state, over_files};
ghost use Rattle.sqlite.specs.State.{HasCleanDisk};
ghost use Rattle.mf_store_archive.specs.Filing.{IsFiled};

use crate::finding::Unmoved;
use mf_store_schema::{has_no_tables, remove_bare_log};
use mf_store_sound::connect;
use sqlite::{Connection, FileFrom, FileStore, Start};
use std::rt::HostRuntime;

/// A connection to the file of an archive that is to be made, which has no table. Where the file has some it is left as
/// it is: then something stood there, or was put there meanwhile.
pub(crate) fn new_archive<S: Start>(
    rt: &HostRuntime,
    path: &str,
    start: S,
) -> Result<Connection<FileStore<FileFrom<S>>>, Unmoved>
    ensures empty { IfOk result (λ c. HasCleanDisk (file_state c) → IsFiled over_files None c) }
    ensures alone { IfOk result (λ c. c.in_transaction ≡ false) }
    ensures refuses { IfErr result (λ unmoved. (unmoved ≡ Unmoved.Taken) ⊎ (unmoved ≡ Unmoved.NoPlace)) }
{
    let connection = match connect(rt, path, start) {
        Ok(connection) => connection,
        Err(_) => return Err(Unmoved::NoPlace),
    };
    if has_no_tables(connection.schema()) {
        return Ok(connection);
    }
    remove_bare_log(rt, path);
    drop(connection);
    Err(Unmoved::Taken)
}
