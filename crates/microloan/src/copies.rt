//! A copy of an institution's file, read whole.

use mf_base::Fault;
use mf_store_files::Refused;
use std::fs;
use std::io::{self, ErrorKind};
use std::rt::HostRuntime;

/// The bytes of a copy.
#[derive(Drop)]
pub struct FileCopy {
    /// Of the log beside it: none where there is no log.
    pub log: Vec<u8>,
    /// Of its database file.
    pub db: Vec<u8>,
}

/// Reads a copy, and the log beside it where there is one.
pub fn read_copy(rt: &HostRuntime, copy: &str) -> io::Result<FileCopy> {
    let path = fs::canonicalize(rt, copy)?;
    let log_path = format!(in rt.alloc(); "{}-wal", path.as_str())?;
    let log = match fs::read(rt, log_path.as_str()) {
        Ok(log) => log,
        Err(error) if error.kind() == ErrorKind::NotFound => Vec::new(rt.alloc()),
        Err(error) => return Err(error),
    };
    let db = fs::read(rt, copy)?;
    Ok(FileCopy { log, db })
}

/// What is said of a copy of which no institution is made.
pub fn words_of_copy(refused: Refused) -> &'static str {
    match refused {
        Refused::NoInstitution => "the copy holds no institution",
        Refused::Failed(Fault::F19) => "the copy holds no sound institution",
        Refused::Failed(_) => "the copy is no database, or out of memory",
    }
}
