//! A page of the journal's rows, as what it adds to an archive.

ghost use Rattle.std.specs.Prelude.{◌≡◌, IfOk, IfErr};
ghost use Rattle.mf_base.specs.declared.fault.Fault.TheVariants.{F20};
ghost use Rattle.mf_journal.specs.Following.{head_of};
ghost use Rattle.mf_store_archive.specs.Paging.{IsPage};

use crate::filing::Filing;
use mf_base::Fault;
use mf_journal::{Head, KeptRow};
use mf_store_journal::kept_row;
use sqlite::Row;
use std::alloc::Global;

/// What a page of rows adds to an archive.
#[derive(Drop)]
pub(crate) struct Page<'a> {
    pub(crate) writes: Vec<Filing<'a>>,
    /// Where the journal stood after the last row that is archived.
    pub(crate) head: Head,
    /// No row that is to be archived comes after these.
    pub(crate) is_last: bool,
}

/// Where the journal stands after a row.
fn head_at(kept: KeptRow<'_>) -> Head
    ensures { result ≡ head_of kept.entry }
{
    let chain = kept.chain;
    Head {
        number: kept.number,
        day: kept.row.day,
        chain,
    }
}

/// The rows of days up to this one, as writes of an archive; the journal stood at the head before them. F20 where a row
/// is that of no line, or memory runs out.
pub(crate) fn page_of<'a>(
    alloc: Global,
    rows: &'a [Row],
    head: Head,
    day: u64,
) -> Result<Page<'a>, Fault>
    ensures page { IfOk result (λ page. IsPage day head rows.now page) }
    ensures gives_up { IfErr result (λ fault. fault ≡ F20) }
{
    let mut writes = Vec::new(alloc);
    let mut now = head;
    for place in 0..rows.len() {
        let Some(kept) = kept_row(&rows[place]) else {
            return Err(Fault::F20);
        };
        if day < kept.row.day {
            return Ok(Page {
                writes,
                head: now,
                is_last: true,
            });
        }
        writes.push(Filing::Put(kept))?;
        now = head_at(kept);
    }
    Ok(Page {
        writes,
        head: now,
        is_last: rows.is_empty(),
    })
}
