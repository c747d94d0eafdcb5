//! An archive is written from the journal of a file, a page of rows at a time.

ghost use Rattle.std.specs.Prelude.{◌≡◌, ◌++◌, false, List, [], map, None, Some, IsTrue, OnOk};
ghost use Rattle.sqlite.specs.State.{HasCleanDisk};
ghost use Rattle.sqlite.specs.Held.{state};
ghost use Rattle.mf_journal.specs.declared.following.KeptRow.{KeptRow};
ghost use Rattle.mf_store_sql.specs.Numbered.{Filed};
ghost use Rattle.mf_store_journal.specs.Rows.{filed_kept};
ghost use Rattle.mf_store_archive.specs.Filing.{archive_rows};
ghost use Rattle.mf_store_archive.specs.Writing.{FilesRows, CopiesPage, WritesArchive};
ghost use Rattle.mf_store_archive.specs.declared.filing.Filing.TheVariants.{Put};

use crate::filing::{Filing, narrow};
use crate::paging::page_of;
use mf_base::Fault;
use mf_journal::Head;
use mf_store_journal::rows_after;
use mf_store_sql::apply;
use sqlite::{Alter, Connection};
use std::alloc::Global;

/// What was copied so far.
#[derive(Clone, Copy)]
pub(crate) struct Copied {
    /// Where the journal stood after the last line that was copied.
    pub(crate) head: Head,
    /// No line that is to be copied comes after it.
    pub(crate) is_last: bool,
}

/// Makes the archive's table, with the row of where it begins, in one commit.
fn begin_archive<A: Alter>(archive: &mut Connection<A>, begins: Head) -> Result<(), Fault>
    requires alone { archive.old.in_transaction ≡ false }
    ensures files { FilesRows A.Store None (archive_rows begins []) archive.old archive.new result }
    ensures open { HasCleanDisk (state A.Store archive.new) → OnOk result (IsTrue (state A.Store archive.new).is_open) }
    ensures mode { archive.new.in_transaction ≡ false }
{
    match apply(archive, &[Filing::Begin(begins)]) {
        Ok(()) => Ok(()),
        Err(_) => Err(Fault::F20),
    }
}

/// Puts rows at the end of the archive, in one commit.
fn put_rows<A: Alter>(archive: &mut Connection<A>, writes: &[Filing<'_>]) -> Result<(), Fault>
    requires alone { archive.old.in_transaction ≡ false }
    ensures files { (kept : List KeptRow) (rows : List Filed) → writes.now ≡ map Put kept
        → FilesRows A.Store (Some rows) (Some (rows ++ map filed_kept kept)) archive.old archive.new result }
    ensures mode { archive.new.in_transaction ≡ false }
{
    if writes.is_empty() {
        return Ok(());
    }
    match apply(archive, writes) {
        Ok(()) => Ok(()),
        Err(_) => Err(Fault::F20),
    }
}

/// Copies the next lines up to a day to the end of the archive, 1,000 at most; the journal stood at the head before
/// them.
fn copy_page<S: Alter, A: Alter>(
    alloc: Global,
    file: &mut Connection<S>,
    archive: &mut Connection<A>,
    head: Head,
    day: u64,
) -> Result<Copied, Fault>
    requires alone { file.old.in_transaction ≡ false }
    requires too { archive.old.in_transaction ≡ false }
    ensures copies { CopiesPage S.Store A.Store day head file.old file.new archive.old archive.new result }
    ensures mode { file.new.in_transaction ≡ false }
    ensures mode_too { archive.new.in_transaction ≡ false }
{
    // No row that is read has a greater number.
    let Ok(number) = narrow(head.number) else {
        return Err(Fault::F20);
    };
    let rows = rows_after(file, number)?;
    let page = page_of(alloc, &rows, head, day)?;
    put_rows(archive, &page.writes)?;
    Ok(Copied {
        head: page.head,
        is_last: page.is_last,
    })
}

/// Writes the archive of a file's journal, which begins here: its lines up to and with a business day, in a file that
/// has no table yet. It reads and commits 1,000 lines at a time. The result is where the journal stood after them. The
/// error is F20; then the archive may have a part of them.
///
/// The day is its number; 1 January 2000 is 0.
pub fn write_archive<S: Alter, A: Alter>(
    alloc: Global,
    file: &mut Connection<S>,
    archive: &mut Connection<A>,
    begins: Head,
    day: u64,
) -> Result<Head, Fault>
    requires alone { file.old.in_transaction ≡ false }
    requires too { archive.old.in_transaction ≡ false }
    ensures writes { WritesArchive S.Store A.Store day begins file.old file.new archive.old archive.new result }
    ensures mode { file.new.in_transaction ≡ false }
    ensures mode_too { archive.new.in_transaction ≡ false }
{
    begin_archive(archive, begins)?;
    let mut head = begins;
    'pages: for _ in 0..u64::MAX {
        let copied = copy_page(alloc, file, archive, head, day)?;
        head = copied.head;
        if copied.is_last {
            // With nothing to commit a stop leaves just the tables as they are; the call brings that into the proof.
            let _settled = archive.is_autocommit();
            return Ok(head);
        }
    }
    Err(Fault::F20)
}
