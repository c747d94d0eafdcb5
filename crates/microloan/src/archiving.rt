//! Lines of a journal moved to an archive, and what is said of it.

ghost use Rattle.microloan.specs.Status.{IsPrintStatus};

use crate::places::{Place, place_at};
use crate::telling::{print_line, tell_fault, tell_no_journal, tell_refusal};
use crate::working::let_go;
use mf_archive_files::{Moved, Unmoved, archive_store};
use mf_base::Day;
use mf_store::Store;
use sqlite::FileStore;
use sqlite_disk::Disk;
use std::rt::HostRuntime;
use std::{fmt, fs, io};

/// Which lines are moved, and where.
#[derive(Clone, Copy)]
pub struct Archiving<'a> {
    /// The last business day whose lines are moved.
    pub to: Day,
    /// The path of the archive.
    pub into: &'a str,
}

/// Moves lines of a store's journal to an archive, closes both files, says which lines were moved or why none was, and
/// gives the program's status: 0 where there was no line to move, too.
pub fn archive_into<D: Disk + Drop>(
    rt: &HostRuntime,
    file: &str,
    store: Store<FileStore<D>>,
    archiving: Archiving<'_>,
) -> u8
    ensures { IsPrintStatus result }
{
    let Archiving { to, into } = archiving;
    let is_free = place_at(rt, into) == Place::Missing;
    let (moved, closed, is_whole) = archive_store(rt, store, to, into, is_free);
    let_go(closed);
    match moved {
        Ok(moved) if is_whole => say_moved(rt, into, moved),
        Ok(moved) => {
            let _said = say_moved(rt, into, moved);
            tell_fault(rt, format_args!("F20: keep {into}-wal beside {into}"))
        }
        Err(unmoved) => say_unmoved(rt, file, to, into, unmoved),
    }
}

/// A chain, shown in hexadecimal digits.
#[derive(Clone, Copy)]
struct Digits([u8; 32]);

impl fmt::Display for Digits {
    fn fmt<W: fmt::Write>(&self, f: &mut fmt::Formatter<W>) -> fmt::Result {
        for byte in self.0 {
            write!(f, "{byte:02x}")?;
        }
        Ok(())
    }
}

/// Takes the leave to write an archive that is whole, says which lines were moved, and gives the program's status.
fn say_moved(rt: &HostRuntime, into: &str, moved: Moved) -> u8
    ensures { IsPrintStatus result }
{
    let _set = make_readonly(rt, into);
    let (before, last) = (moved.from.number, moved.to.number);
    print_line(
        rt,
        format_args!(
            "{into}: lines {} to {last}, {} in all, journal {last} head {}",
            before.saturating_add(1),
            last.saturating_sub(before),
            Digits(moved.to.chain),
        ),
    )
}

/// Lets nobody write a file, by its mode.
fn make_readonly(rt: &HostRuntime, path: &str) -> io::Result<()> {
    let mut permissions = fs::metadata(rt, path)?.permissions();
    permissions.set_readonly(true);
    fs::set_permissions(rt, path, permissions)
}

/// Says why no line was moved, and gives the program's status.
fn say_unmoved(rt: &HostRuntime, file: &str, to: Day, into: &str, unmoved: Unmoved) -> u8
    ensures { IsPrintStatus result }
{
    match unmoved {
        Unmoved::NoJournal => tell_no_journal(rt),
        Unmoved::NoLines => print_line(
            rt,
            format_args!("{file}: no line of the journal is of {to} or before"),
        ),
        Unmoved::NotClosed => tell_fault(rt, "--to wants a day before the business day"),
        Unmoved::Taken => tell_fault(
            rt,
            format_args!("--into wants a path where nothing stands: {into}"),
        ),
        Unmoved::NoPlace => tell_fault(rt, format_args!("no archive can be made: {into}")),
        Unmoved::Failed(fault) => tell_refusal(rt, fault),
        Unmoved::Begun(fault) => tell_fault(
            rt,
            format_args!(
                "{fault:?}: {into} may have some of the lines; delete it if {file} has them"
            ),
        ),
    }
}
