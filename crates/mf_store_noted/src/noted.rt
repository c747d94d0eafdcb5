//! The writes of a change and the line that notes it, as parts of one commit.

ghost use Rattle.std.specs.Prelude.{◌≡◌, ◌++◌, List, [], ◌∷◌, IfOk, IfErr};
ghost use Rattle.mf_base.specs.declared.fault.Fault.TheVariants.{F20};
ghost use Rattle.mf_store_journal.specs.declared.noting.NotedWrite.{NotedWrite};
ghost use Rattle.mf_store_journal.specs.declared.noting.NotedWrite.TheVariants.{AddLine};
ghost use Rattle.mf_store_noted.specs.Puts.{ArePuts};

use mf_base::Fault;
use mf_journal::KeptRow;
use mf_store_journal::NotedWrite;
use mf_store_schema::StoreWrite;
use std::alloc::Global;

/// The writes as parts of a commit that the journal notes, with room for what comes after them.
pub(crate) fn puts<'a>(
    alloc: Global,
    writes: &'a [StoreWrite],
) -> Result<Vec<NotedWrite<'a>>, Fault>
    ensures puts { IfOk result (λ noted. ArePuts noted.items writes.now) }
    ensures gives_up { IfErr result (λ fault. fault ≡ F20) }
{
    let mut noted = Vec::new(alloc);
    for write in writes {
        noted.push(NotedWrite::Put(write))?;
    }
    Ok(noted)
}

/// The writes, and then the line.
pub(crate) fn with_line<'a>(
    alloc: Global,
    writes: &'a [StoreWrite],
    kept: KeptRow<'a>,
) -> Result<Vec<NotedWrite<'a>>, Fault>
    ensures writes { IfOk result (λ noted. (puts : List NotedWrite) × (noted.items ≡ puts ++ AddLine kept.entry ∷ [])
        × ArePuts puts writes.now) }
    ensures gives_up { IfErr result (λ fault. fault ≡ F20) }
{
    let mut noted = puts(alloc, writes)?;
    noted.push(NotedWrite::AddLine(kept))?;
    Ok(noted)
}
