//! What is said of archives: where some are missing, and why a file is none.

ghost use Rattle.std.specs.Prelude.{◌≡◌, string_bytes, IfOk, IsOkUnless};
ghost use Rattle.microloan_audit.specs.Archives as spec;

use crate::journal::flaw_line;
use mf_base::Fault;
use mf_store_archived::{Gap, Unread};
use std::alloc::Global;

/// Where archives don't lead from where a journal begins back to its first line. The error is F20, out of memory.
pub(crate) fn gap_line(alloc: Global, gap: Gap) -> Result<String, Fault>
    ensures text { IfOk result (λ text. string_bytes text ≡ spec.gap_line gap) }
    ensures only { IsOkUnless result Fault.F20 }
{
    match gap {
        Gap::Missing { from, to } => {
            Ok(format!(in alloc; "journal: the archive of lines {from} to {to} is missing")?)
        }
        Gap::Unjoined { from, to } => {
            Ok(format!(in alloc;
                "journal: the archive of lines {from} to {to} does not join what comes after it"
            )?)
        }
    }
}

/// Why no archive is made of a file. The error is F20, out of memory.
pub fn unread_archive_text(alloc: Global, unread: Unread) -> Result<String, Fault>
    ensures text { IfOk result (λ text. string_bytes text ≡ spec.unread_text unread) }
    ensures only { IsOkUnless result Fault.F20 }
{
    match unread {
        Unread::NoArchive => Ok(format!(in alloc; "it is no archive of a journal")?),
        Unread::Flawed(flaw) => flaw_line(alloc, flaw),
        Unread::Failed(_) => Ok(format!(in alloc; "it is no database, or out of memory")?),
    }
}
