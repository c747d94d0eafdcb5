//! The first lines of a journal move from an institution's file to an archive.

ghost use Rattle.std.specs.Prelude.{◌≡◌, false};
ghost use Rattle.mf_store_archive.specs.Archiving.{Archives};

use crate::taking::take_out;
use crate::writing::write_archive;
use mf_base::Fault;
use mf_store_journal::Journal;
use sqlite::{Alter, Connection};
use std::alloc::Global;

/// Moves the lines of an institution's journal up to and with a business day from its file to an archive, a file that
/// has no table yet: first the archive is written whole, then one commit takes the lines out of the file. The result is
/// the journal of the file as it stands then. The error is F20; then the file keeps its lines, and the archive may have
/// a part of them.
///
/// The day is its number; 1 January 2000 is 0. Where no line is of that day or an earlier one, the archive has the row
/// of where the journal begins, and no line.
pub fn archive_lines<S: Alter, A: Alter>(
    alloc: Global,
    file: &mut Connection<S>,
    archive: &mut Connection<A>,
    journal: Journal,
    day: u64,
) -> Result<Journal, Fault>
    requires alone { file.old.in_transaction ≡ false }
    requires too { archive.old.in_transaction ≡ false }
    ensures archives { Archives S.Store A.Store day journal file.old file.new archive.old archive.new result }
    ensures mode { file.new.in_transaction ≡ false }
    ensures mode_too { archive.new.in_transaction ≡ false }
{
    let begins = write_archive(alloc, file, archive, journal.begins, day)?;
    take_out(file, journal, begins)
}
