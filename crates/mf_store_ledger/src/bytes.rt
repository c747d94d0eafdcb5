//! The books of a journal that was begun over rows, from the bytes of a copy of the file that held these.

ghost use Rattle.std.specs.Prelude.{◌≡◌, None, false, IsTrue, OnOk, IfOk, IfErr};
ghost use Rattle.mf_base.specs.declared.fault.Fault.TheVariants.{F19};
ghost use Rattle.sqlite.specs.Files.{HoldsDatabase};
ghost use Rattle.sqlite.specs.Held.{state};
ghost use Rattle.sqlite.specs.State.{HasCleanDisk};
ghost use Rattle.sqlite.specs.Tree.{Trees};
ghost use Rattle.mf_store_files.specs.Opened.{HoldsNoneSound};
ghost use Rattle.mf_store_journal.specs.Reading.{IsThird};
ghost use Rattle.mf_store_schema.specs.Schemas.{IsUnchangedUnder};
ghost use Rattle.mf_store_schema.specs.Writes.{Holds};
ghost use Rattle.mf_store_schema.specs.declared.versions.Version.{Version};
ghost use Rattle.mf_store_sound.specs.Held.{HoldsSoundAt};
ghost use Rattle.mf_store_ledger.specs.Copied.{IsCopyAnswerOf};

use crate::answer::Books;
use crate::copied::write_books_from;
use mf_copied_files::copy_in_memory;
use mf_ledger_play::BooksAsked;
use mf_store_files::Refused;
use mf_store_schema::Progress;
use sqlite::{Alter, Connection};
use std::alloc::Global;

/// Why no books are written from a copy.
#[derive(Clone, Copy, Drop)]
pub enum Unwritten {
    /// No institution is made of the copy.
    Copy(Refused),
    /// The tables can't be read, or memory is wanting: F20.
    Failed,
}

/// The text of the books of the journal that a table keeps, as `write_books_from` writes it, from the copy of the file
/// over whose rows the journal was begun: the bytes of the copy's log, and of its database file. Only memory is
/// written.
pub fn write_books_from_copy<S: Alter, P: Progress>(
    alloc: Global,
    connection: &mut Connection<S>,
    asked: &BooksAsked,
    log: &[u8],
    db: &[u8],
    progress: &mut P,
) -> Result<Books, Unwritten>
    requires alone { connection.old.in_transaction ≡ false }
    ensures kept { IsUnchangedUnder IsThird (state S.Store connection.old) (state S.Store connection.new) }
    ensures open { HasCleanDisk (state S.Store connection.new)
        → OnOk result (IsTrue (state S.Store connection.new).is_open) }
    ensures mode { connection.new.in_transaction ≡ false }

    // Where books are written.
    ensures answer { IfOk result (λ books. HasCleanDisk (state S.Store connection.new)
        → IsThird (state S.Store connection.old).now.schema → (v : Version) (trees : Trees)
        → HoldsDatabase (record { log = log.now; db = db.now }) trees → (held : HoldsSoundAt v trees)
        → IsCopyAnswerOf asked.now held.institution (state S.Store connection.old).now.trees books) }

    // Where none are.
    ensures none { IfErr result (λ e. e ≡ Unwritten.Copy Refused.NoInstitution → (trees : Trees)
        → HoldsDatabase (record { log = log.now; db = db.now }) trees → Holds trees None) }
    ensures refused { IfErr result (λ e. e ≡ Unwritten.Copy (Refused.Failed F19)
        → HoldsNoneSound (record { log = log.now; db = db.now })) }
{
    let copy = match copy_in_memory(alloc, log, db, progress) {
        Ok(copy) => copy,
        Err(refused) => return Err(Unwritten::Copy(refused)),
    };
    match write_books_from(alloc, connection, asked, copy) {
        Ok(books) => Ok(books),
        Err(_) => Err(Unwritten::Failed),
    }
}
