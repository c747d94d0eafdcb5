//! The lines that rows of the journal's table tell, and their numbers.

ghost use Rattle.std.specs.Prelude.{◌≡◌, ◌+◌, List, map, IfOk, IfErr};
ghost use Rattle.mf_base.specs.declared.fault.Fault.TheVariants.{F20};
ghost use Rattle.mf_journal.specs.Chain.{line_of_row};
ghost use Rattle.mf_journal.specs.declared.following.Head.{Head};
ghost use Rattle.mf_model.specs.Institution.{JournalLine};
ghost use Rattle.mf_store_journal.specs.Rows.{filed_after};
ghost use Rattle.mf_store_sql.specs.Numbered.{shown_filed};

use crate::rows::kept_row;
use mf_base::Fault;
use mf_journal::JournalRow;
use sqlite::Row;
use std::alloc::Global;

/// The lines that have these rows, one after the other. The error is F20.
pub fn lines_told<'a>(alloc: Global, rows: &'a [Row]) -> Result<Vec<JournalRow<'a>>, Fault>
    ensures told { (h : Head) (lines : List JournalLine) → rows.now ≡ map shown_filed (filed_after h lines)
        → IfOk result (λ told. map line_of_row told.items ≡ lines) }
    ensures gives_up { IfErr result (λ fault. fault ≡ F20) }
{
    let mut told = Vec::new(alloc);
    for place in 0..rows.len() {
        let Some(kept) = kept_row(&rows[place]) else {
            return Err(Fault::F20);
        };
        told.push(kept.row)?;
    }
    Ok(told)
}

/// The number of a line of the journal so many after another. The error is F20.
pub fn number_after(number: u32, count: usize) -> Result<u32, Fault>
    ensures number { IfOk result (λ next. next ≡ number + count) }
    ensures gives_up { IfErr result (λ fault. fault ≡ F20) }
{
    let Ok(more) = u32::try_from(count) else {
        return Err(Fault::F20);
    };
    match number.checked_add(more) {
        Some(next) => Ok(next),
        None => Err(Fault::F20),
    }
}
