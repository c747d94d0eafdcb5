//! Files with given bytes, and the connection to the database that they hold.

ghost use Rattle.std.specs.Prelude.{◌≡◌, false, IsTrue, OnOk, IfOk, IfErr};
ghost use Rattle.mf_base.specs.declared.fault.Fault.TheVariants.{F20};
ghost use Rattle.sqlite.specs.Files.{file_state, image_of};
ghost use Rattle.sqlite.specs.Held.{state};
ghost use Rattle.sqlite.specs.State.{HasCleanDisk};
ghost use Rattle.sqlite.specs.Tree.{Trees};
ghost use Rattle.mf_store_sound.specs.Files.{ShowsFile};

use mf_base::Fault;
use sqlite::{Alter, Connection, FileStore, Files, Options};
use sqlite_disk::Disk;
use std::alloc::Global;
use std::io;

/// The log's salts tell an old commit from a new one after a crash. A copy has no after.
const SEED: u64 = 1;

/// Gives a file these bytes, and no others.
fn fill<D: Disk>(file: &mut D, bytes: &[u8]) -> io::Result<()>
    requires { IsTrue (D.Disk.is_usable file.old) }
    ensures bytes { OnOk result (D.Disk.seen file.new ≡ bytes.now) }
    ensures usable { IsTrue (D.Disk.is_usable file.new) }
{
    file.set_len(0)?;
    file.write_at(0, bytes)
}

/// Two files with the bytes of a log and of a database file. The error is F20.
fn filled<D: Disk + Drop>(files: Files<D>, log: &[u8], db: &[u8]) -> Result<Files<D>, Fault>
    requires log { IsTrue (D.Disk.is_usable files.log) }
    requires db { IsTrue (D.Disk.is_usable files.db) }
    ensures image { IfOk result (λ files. image_of D.Disk files ≡ record { log = log.now; db = db.now }) }
    ensures log { IfOk result (λ files. IsTrue (D.Disk.is_usable files.log)) }
    ensures db { IfOk result (λ files. IsTrue (D.Disk.is_usable files.db)) }
    ensures gives_up { IfErr result (λ fault. fault ≡ F20) }
{
    let Files {
        log: mut log_file,
        db: mut db_file,
    } = files;
    let Ok(()) = fill(&mut log_file, log) else {
        return Err(Fault::F20);
    };
    let Ok(()) = fill(&mut db_file, db) else {
        return Err(Fault::F20);
    };
    Ok(Files {
        log: log_file,
        db: db_file,
    })
}

/// A stop leaves the tables of a connection that has nothing to commit.
fn nothing_waits<S: Alter>(connection: &Connection<S>)
    requires alone { connection.now.in_transaction ≡ false }
    ensures { IsTrue (state S.Store connection.now).is_open → (left : Trees) → (state S.Store connection.now).may_leave
        left → left ≡ (state S.Store connection.now).now.trees }
{
    let _settled = connection.is_autocommit();
}

/// A connection that shows the database of these bytes, of a log and of a database file, in place of what the files
/// held. The error is F20, where they hold none.
pub(crate) fn connect<D: Disk + Drop>(
    alloc: Global,
    files: Files<D>,
    log: &[u8],
    db: &[u8],
) -> Result<Connection<FileStore<D>>, Fault>
    requires log { IsTrue (D.Disk.is_usable files.log) }
    requires db { IsTrue (D.Disk.is_usable files.db) }
    ensures shows { IfOk result (λ c. HasCleanDisk (file_state c)
        → ShowsFile (record { log = log.now; db = db.now }) (file_state c)) }
    ensures alone { IfOk result (λ c. c.in_transaction ≡ false) }
    ensures gives_up { IfErr result (λ fault. fault ≡ F20) }
{
    let files = filled(files, log, db)?;
    match Connection::open_files(alloc, files, Options::new(SEED)) {
        Ok(connection) => {
            nothing_waits(&connection);
            Ok(connection)
        }
        Err(_) => Err(Fault::F20),
    }
}
