//! The log beside a file of SQLite: where it lies, and whether there is anything in it.

ghost use Rattle.std.specs.Prelude.{◌≡◌, ◌≤◌, ◌+◌, ◌↔◌, ℕ, List, length, IsTrue};
ghost use Rattle.sqlite_wal.specs.Recovery.{Replays};

use std::fs;
use std::io::{self, ErrorKind};
use std::rt::HostRuntime;

/// How long a log without a page is at most, in bytes: its header and the header of a page. That of a file that is
/// being made is shorter.
const WITHOUT_PAGE: u64 = 56;

/// Whether a log of so many bytes ends before the first byte of a page. Whatever such a log has, SQLite takes no page
/// from it, so no commit is lost with it.
fn ends_before_a_page(bytes: u64) -> bool
    ensures is { IsTrue result ↔ bytes ≤ 32 + 24 }
    ensures nothing_is_lost { IsTrue result → (page_size frames : ℕ) (log : List ℕ) → 1 ≤ page_size
        → length log ≡ bytes → Replays page_size log frames → frames ≡ 0 }
{
    bytes <= WITHOUT_PAGE
}

/// The path of the log beside a file; it lies where a link to the file leads.
fn log_path(rt: &HostRuntime, path: &str) -> io::Result<String> {
    match fs::canonicalize(rt, path) {
        Ok(found) => Ok(format!(in rt.alloc(); "{}-wal", found.as_str())?),
        Err(_) => Ok(format!(in rt.alloc(); "{path}-wal")?),
    }
}

/// Whether a log with a page in it lies beside a path.
pub fn has_log(rt: &HostRuntime, path: &str) -> io::Result<bool> {
    let log = log_path(rt, path)?;
    match fs::metadata(rt, log.as_str()) {
        Ok(found) => Ok(!ends_before_a_page(found.len())),
        Err(error) if error.kind() == ErrorKind::NotFound => Ok(false),
        Err(error) => Err(error),
    }
}

/// Removes the log beside a file where there is no page in it. Only whoever has the file open may ask for it: another
/// process could have begun to write the log meanwhile.
pub fn remove_bare_log(rt: &HostRuntime, path: &str) {
    if let Ok(false) = has_log(rt, path) {
        if let Ok(log) = log_path(rt, path) {
            let _removed = fs::remove_file(rt, log.as_str());
        }
    }
}
