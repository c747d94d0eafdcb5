//! The institution that the bytes of a file hold, in memory.

ghost use Rattle.std.specs.Prelude.{◌≡◌, ◌⊎◌, None, false, OnOk, IfOk, IfErr};
ghost use Rattle.mf_base.specs.declared.fault.Fault.TheVariants.{F19, F20};
ghost use Rattle.sqlite.specs.Files.{file_state, HoldsDatabase};
ghost use Rattle.sqlite.specs.State.{HasCleanDisk};
ghost use Rattle.sqlite.specs.Tree.{Trees};
ghost use Rattle.mf_store_files.specs.Opened.{HoldsNoneSound, OpensAsFound};
ghost use Rattle.mf_store_schema.specs.Writes.{Holds};
ghost use Rattle.mf_store_sound.specs.Files.{HasNoTables, ShowsFile};

use crate::memory::connect;
use mf_base::Fault;
use mf_store::Store;
use mf_store_files::{Refused, adopt_existing};
use mf_store_schema::Progress;
use mf_store_sql::pages::{PageStore, open};
use sqlite::Connection;
use std::alloc::Global;

/// A connection in memory to the database of these bytes, of a log and of a database file. The error is F20.
pub fn connect_in_memory(
    alloc: Global,
    log: &[u8],
    db: &[u8],
) -> Result<Connection<PageStore>, Fault>
    ensures shows { IfOk result (λ c. HasCleanDisk (file_state c)
        → ShowsFile (record { log = log.now; db = db.now }) (file_state c)) }
    ensures alone { IfOk result (λ c. c.in_transaction ≡ false) }
    ensures gives_up { IfErr result (λ fault. fault ≡ F20) }
{
    let Ok(empty) = open(alloc) else {
        return Err(Fault::F20);
    };
    match empty.close_files() {
        Ok(files) => connect(alloc, files, log, db),
        Err(_) => Err(Fault::F20),
    }
}

/// A store in memory of the institution that the bytes of a file hold, and of the log beside it: tables of the first
/// version are brought to the second's, in memory. No file is changed by what is done over it.
///
/// It is refused where there are no tables, by F19 where they are others than this program makes or no sound
/// institution has their rows, and by F20 where the bytes hold no database, or out of memory.
pub fn copy_in_memory<P: Progress>(
    alloc: Global,
    log: &[u8],
    db: &[u8],
    progress: &mut P,
) -> Result<Store<PageStore>, Refused>
    // Where there are no tables.
    ensures some { OnOk result (¬ HasNoTables (record { log = log.now; db = db.now })) }
    ensures none { IfErr result (λ e. e ≡ Refused.NoInstitution → (trees : Trees)
        → HoldsDatabase (record { log = log.now; db = db.now }) trees → Holds trees None) }

    // Where there are some.
    ensures copies { IfOk result (OpensAsFound (record { log = log.now; db = db.now })) }
    ensures refused { IfErr result (λ e. e ≡ Refused.Failed F19
        → HoldsNoneSound (record { log = log.now; db = db.now })) }
    ensures errors { IfErr result (λ e. (e ≡ Refused.NoInstitution) ⊎ ((e ≡ Refused.Failed F19)
        ⊎ (e ≡ Refused.Failed F20))) }
{
    let connection = match connect_in_memory(alloc, log, db) {
        Ok(connection) => connection,
        Err(fault) => return Err(Refused::Failed(fault)),
    };
    match adopt_existing(alloc, connection, progress) {
        Ok(store) => Ok(store),
        Err((refused, connection)) => {
            drop(connection);
            Err(refused)
        }
    }
}
