//! Where the journal of a file stands, which holds after it what it held.

ghost use Rattle.std.specs.Prelude.{◌≡◌, false, IsTrue, OnOk, IfOk, IfErr};
ghost use Rattle.mf_base.specs.declared.fault.Fault.TheVariants.{F20};
ghost use Rattle.sqlite.specs.Files.{file_state, HoldsDatabase};
ghost use Rattle.sqlite.specs.Held.{state};
ghost use Rattle.sqlite.specs.State.{HasCleanDisk};
ghost use Rattle.sqlite.specs.Tree.{Trees};
ghost use Rattle.sqlite_wal.specs.Files.{image_at};
ghost use Rattle.mf_store_schema.specs.Schemas.{IsUnchangedUnder};
ghost use Rattle.mf_store_journal.specs.Reading.{IsThird};
ghost use Rattle.mf_store_sound.specs.Told.{IsAny};
ghost use Rattle.mf_store_verdict.specs.Heads.{IsHeadOf, IsHeadOfFile};

use crate::playing::is_third;
use mf_base::Fault;
use mf_journal::Head;
use mf_store_journal::read_journal;
use mf_store_schema::remove_bare_log;
use mf_store_sound::{Finding, reach};
use sqlite::{Alter, Connection, FileFrom, FileStore, Start, Unknown};
use std::rt::HostRuntime;

/// Where the journal of tables with one stands: none where no journal can be read there. The error is F20.
fn head_read<S: Alter>(connection: &mut Connection<S>) -> Result<Option<Head>, Fault>
    requires alone { connection.old.in_transaction ≡ false }
    ensures kept { IsUnchangedUnder IsThird (state S.Store connection.old) (state S.Store connection.new) }
    ensures gives_up { IfErr result (λ fault. fault ≡ F20) }
    ensures exact { HasCleanDisk (state S.Store connection.new) → IsThird (state S.Store connection.old).now.schema
        → IfOk result (IsHeadOf (state S.Store connection.old).now) }
    ensures mode { connection.new.in_transaction ≡ false }
{
    match read_journal(connection) {
        Ok(Some(journal)) => Ok(Some(journal.head)),
        Ok(None) => Ok(None),
        Err(fault) => Err(fault),
    }
}

/// Where the journal stands that tables keep, whatever tables stand there: none where they keep none that the program
/// can have written. It changes nothing. The error is F20.
fn head_known<S: Alter>(connection: &mut Connection<S>) -> Result<Option<Head>, Fault>
    requires alone { connection.old.in_transaction ≡ false }
    ensures kept { IsUnchangedUnder IsAny (state S.Store connection.old) (state S.Store connection.new) }
    ensures gives_up { IfErr result (λ fault. fault ≡ F20) }
    ensures exact { HasCleanDisk (state S.Store connection.new)
        → IfOk result (IsHeadOf (state S.Store connection.old).now) }
    ensures mode { connection.new.in_transaction ≡ false }
{
    if !is_third(connection.schema()) {
        return Ok(None);
    }
    head_read(connection)
}

/// Where the journal stands that the file at a path keeps, where `start` stands for what the file held, and the
/// connection that was asked: none where it keeps none that the program can have written. What the file holds isn't
/// changed; a file that is missing is made, and an empty one made a database without tables.
pub fn head_of_file_with<S: Start>(
    rt: &HostRuntime,
    path: &str,
    start: S,
) -> Result<(Option<Head>, Connection<FileStore<FileFrom<S>>>), Finding>
    ensures exact { IfOk result (λ seen. HasCleanDisk (file_state seen.1) → IsHeadOfFile (image_at S.Start) seen.0) }
    ensures leaves { IfOk result (λ seen. HasCleanDisk (file_state seen.1) → (trees : Trees)
        → HoldsDatabase (image_at S.Start) trees
        → (left : Trees) → (file_state seen.1).may_leave left → left ≡ trees) }
{
    let mut connection = reach(rt, path, start)?;
    match head_known(&mut connection) {
        Ok(head) => Ok((head, connection)),
        Err(_) => Err(Finding::Unread),
    }
}

/// Where the journal stands that the file at a path keeps, in `main` and where nothing is said of what it held.
pub fn head_of_file(rt: &HostRuntime, path: &str) -> Result<Option<Head>, Finding> {
    let (head, held) = head_of_file_with(rt, path, Unknown)?;
    remove_bare_log(rt, path);
    drop(held);
    Ok(head)
}
