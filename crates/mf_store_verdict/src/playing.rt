//! The play of a journal beside tables that are looked at first.

ghost use Rattle.std.specs.Prelude.{◌≡◌, ◌↔◌, IsTrue, false, OnOk, IfOk, IfErr};
ghost use Rattle.mf_base.specs.declared.fault.Fault.TheVariants.{F20};
ghost use Rattle.sqlite.specs.Held.{state};
ghost use Rattle.sqlite.specs.State.{HasCleanDisk};
ghost use Rattle.mf_store_schema.specs.Schemas.{IsUnchangedUnder};
ghost use Rattle.mf_store_journal.specs.Reading.{IsThird};
ghost use Rattle.mf_store_sound.specs.Told.{IsAny};
ghost use Rattle.mf_store_verdict.specs.Verdict.{IsRightBy};

use mf_base::Fault;
use mf_store::Store;
use mf_store_archived::Archive;
use mf_store_played::{Played, play_tables, play_tables_from, play_tables_over_archives};
use mf_store_schema::{Version, version_of};
use mf_store_sql::pages::PageStore;
use sqlite::{Alter, Connection};
use sqlite_schema::schema::Schema;
use std::alloc::Global;

/// Whether a schema is the one with a journal.
pub(crate) fn is_third(found: &Schema) -> bool
    ensures { IsTrue result ↔ IsThird found.now }
{
    match version_of(found) {
        Some(Version::Third) => true,
        _ => false,
    }
}

/// What a journal is played from.
#[derive(Drop)]
pub(crate) enum Beginning<'a> {
    /// The founding at which it begins.
    Founding,
    /// A copy in memory of the institution over which it was begun.
    Copy(Store<PageStore>),
    /// The founding at which the first of the archives begins that lead to where it begins.
    Archives(&'a [Archive]),
}

/// What the play of the journal says of the tables beside it, from such a beginning.
fn play<S: Alter>(
    alloc: Global,
    connection: &mut Connection<S>,
    beginning: Beginning<'_>,
) -> Result<Played, Fault>
    requires alone { connection.old.in_transaction ≡ false }
    ensures kept { IsUnchangedUnder IsThird (state S.Store connection.old) (state S.Store connection.new) }
    ensures gives_up { IfErr result (λ fault. fault ≡ F20) }
    ensures open { HasCleanDisk (state S.Store connection.new)
        → OnOk result (IsTrue (state S.Store connection.new).is_open) }
    ensures answer { HasCleanDisk (state S.Store connection.new) → IsThird (state S.Store connection.old).now.schema
        → IfOk result (IsRightBy beginning.entry (state S.Store connection.old).now.trees) }
    ensures mode { connection.new.in_transaction ≡ false }
{
    match beginning {
        Beginning::Founding => play_tables(alloc, connection),
        Beginning::Copy(copy) => play_tables_from(alloc, connection, copy),
        Beginning::Archives(archives) => play_tables_over_archives(alloc, connection, archives),
    }
}

/// The same whatever tables stand there. It plays in memory and changes nothing but the copy. The error is F20; so it
/// is where no journal stands beside the tables.
pub(crate) fn play_known<S: Alter>(
    alloc: Global,
    connection: &mut Connection<S>,
    beginning: Beginning<'_>,
) -> Result<Played, Fault>
    requires alone { connection.old.in_transaction ≡ false }
    ensures kept { IsUnchangedUnder IsAny (state S.Store connection.old) (state S.Store connection.new) }
    ensures gives_up { IfErr result (λ fault. fault ≡ F20) }
    ensures open { HasCleanDisk (state S.Store connection.new)
        → OnOk result (IsTrue (state S.Store connection.new).is_open) }
    ensures answer { HasCleanDisk (state S.Store connection.new) → IsThird (state S.Store connection.old).now.schema
        → IfOk result (IsRightBy beginning.entry (state S.Store connection.old).now.trees) }
    ensures mode { connection.new.in_transaction ≡ false }
{
    if !is_third(connection.schema()) {
        return Err(Fault::F20);
    }
    play(alloc, connection, beginning)
}
