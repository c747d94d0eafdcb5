//! What stands at the path of an institution's file, told by the system and by the file's first bytes, before anything
//! is opened.

use mf_store_schema::has_log;
use std::fs::{self, File};
use std::io::{self, ErrorKind, Read};
use std::rt::HostRuntime;

/// What stands at a path.
#[derive(Clone, Copy, PartialEq, Eq)]
pub enum Place {
    /// No file.
    Missing,
    /// An empty file.
    Empty,
    /// A log with a page in it beside no file.
    LogAlone,
    /// A log with a page in it beside an empty file.
    LogBesideEmpty,
    /// A folder, or a device.
    NoFile,
    /// A file that may not be read, or a path that may not be followed.
    Forbidden,
    /// What the system doesn't tell.
    Untold,
    /// A file that begins as none of SQLite does.
    Foreign,
    /// A file whose first byte is 0, as that of one is which was being made when a stop came: the byte is written last.
    Begun,
    /// A file that begins as one of SQLite does.
    Database,
}

impl Place {
    /// Whether opening makes a new institution there.
    pub fn is_vacant(self) -> bool {
        matches!(self, Place::Missing | Place::Empty)
    }

    /// Whether opening may find an institution there.
    pub fn is_taken(self) -> bool {
        matches!(self, Place::Begun | Place::Database)
    }
}

/// What stands at a path.
pub fn place_at(rt: &HostRuntime, path: &str) -> Place {
    match look_at(rt, path) {
        Ok(place) => place,
        Err(error) if error.kind() == ErrorKind::PermissionDenied => Place::Forbidden,
        Err(_) => Place::Untold,
    }
}

/// Where a database's header says how many bytes of each page are left for its checksum, and how many a checksum takes.
const LEFT_AT: usize = 20;

const CHECKSUM: u8 = 8;

/// Whether a file's pages end in checksums, by its header.
pub fn has_checksums(rt: &HostRuntime, path: &str) -> bool {
    matches!(bytes_left(rt, path), Ok(Some(CHECKSUM)))
}

/// How many bytes of each page a database leaves, by its header, if it has one.
fn bytes_left(rt: &HostRuntime, path: &str) -> io::Result<Option<u8>> {
    let mut header = [0u8; LEFT_AT + 1];
    let read = File::open(rt, path)?.read(&mut header)?;
    if read == header.len() {
        Ok(Some(header[LEFT_AT]))
    } else {
        Ok(None)
    }
}

fn look_at(rt: &HostRuntime, path: &str) -> io::Result<Place> {
    match fs::metadata(rt, path) {
        Ok(found) if !found.is_file() => Ok(Place::NoFile),
        Ok(found) if found.len() > 0 => beginning_of(rt, path),
        Ok(_) if has_log(rt, path)? => Ok(Place::LogBesideEmpty),
        Ok(_) => Ok(Place::Empty),
        Err(error) if error.kind() != ErrorKind::NotFound => Err(error),
        Err(_) if has_log(rt, path)? => Ok(Place::LogAlone),
        Err(_) => Ok(Place::Missing),
    }
}

/// What a file is that isn't empty, by its first byte.
fn beginning_of(rt: &HostRuntime, path: &str) -> io::Result<Place> {
    let mut first = [0u8; 1];
    let read = File::open(rt, path)?.read(&mut first)?;
    if read == 1 && first[0] == b'S' {
        Ok(Place::Database)
    } else if read == 0 || first[0] == 0 {
        Ok(Place::Begun)
    } else {
        Ok(Place::Foreign)
    }
}
