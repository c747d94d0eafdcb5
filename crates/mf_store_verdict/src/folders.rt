//! The archives in a folder.

ghost use Rattle.std.specs.Prelude.{OnOk, IfOk};
ghost use Rattle.mf_store_archived.specs.Joining.{AreArchives, IsArchive};

use crate::archives::archive_in_bytes;
use mf_base::Fault;
use mf_store_archived::{Archive, Unread};
use std::fs;
use std::io::{self, ErrorKind};
use std::rt::HostRuntime;

/// What a file of SQLite begins with.
const HEADER: &[u8] = b"SQLite format 3\0";

/// Why the archives in a folder aren't read.
#[derive(Drop)]
pub enum Unopened {
    /// The folder can't be read, or memory ran out.
    Folder,
    /// The file of this name can't be read, or no archive is made of it.
    File { name: String, why: Option<Unread> },
}

/// The bytes of a database file, and of the log beside it.
#[derive(Drop)]
struct FileBytes {
    log: Vec<u8>,
    db: Vec<u8>,
}

/// The names in a folder, in order.
fn names_in(rt: &HostRuntime, folder: &str) -> io::Result<Vec<String>> {
    let mut names = Vec::new(rt.alloc());
    for entry in fs::read_dir(rt, folder)? {
        let entry = entry?;
        names.push(String::from_str(rt.alloc(), entry.file_name())?)?;
    }
    names.sort()?;
    Ok(names)
}

/// The bytes of a file, and of the log beside it, if it is a file that begins as one of SQLite does.
fn bytes_of(rt: &HostRuntime, folder: &str, name: &str) -> io::Result<Option<FileBytes>> {
    let path = format!(in rt.alloc(); "{folder}/{name}")?;
    if !fs::metadata(rt, path.as_str())?.is_file() {
        return Ok(None);
    }
    let db = fs::read(rt, path.as_str())?;
    if !db.starts_with(HEADER) {
        return Ok(None);
    }
    let log_path = format!(in rt.alloc(); "{folder}/{name}-wal")?;
    let log = match fs::read(rt, log_path.as_str()) {
        Ok(log) => log,
        Err(error) if error.kind() == ErrorKind::NotFound => Vec::new(rt.alloc()),
        Err(error) => return Err(error),
    };
    Ok(Some(FileBytes { log, db }))
}

/// Adds an archive to others. The error is F20, out of memory.
fn add_archive(archives: &mut Vec<Archive>, archive: Archive) -> Result<(), Fault>
    ensures { AreArchives archives.old.items → IsArchive archive → OnOk result (AreArchives archives.new.items) }
{
    archives.push(archive)?;
    Ok(())
}

/// Adds the archive in the file of a name to others; nothing where it is no file that begins as one of SQLite does.
fn add_from(
    rt: &HostRuntime,
    folder: &str,
    name: &str,
    archives: &mut Vec<Archive>,
) -> Result<(), Option<Unread>>
    ensures { AreArchives archives.old.items → OnOk result (AreArchives archives.new.items) }
{
    match bytes_of(rt, folder, name) {
        Ok(Some(bytes)) => match archive_in_bytes(rt.alloc(), &bytes.log, &bytes.db) {
            Ok(archive) => match add_archive(archives, archive) {
                Ok(()) => Ok(()),
                Err(fault) => Err(Some(Unread::Failed(fault))),
            },
            Err(why) => Err(Some(why)),
        },
        Ok(None) => Ok(()),
        Err(_) => Err(None),
    }
}

/// The archives in a folder, by name in order: each file that begins as one of SQLite does must be one. Other files are
/// passed over.
pub fn read_archives(rt: &HostRuntime, folder: &str) -> Result<Vec<Archive>, Unopened>
    ensures { IfOk result (λ archives. AreArchives archives.items) }
{
    let Ok(names) = names_in(rt, folder) else {
        return Err(Unopened::Folder);
    };
    let mut archives = Vec::new(rt.alloc());
    for name in names {
        match add_from(rt, folder, name.as_str(), &mut archives) {
            Ok(()) => {}
            Err(why) => return Err(Unopened::File { name, why }),
        }
    }
    Ok(archives)
}
