//! The lines of arrears that a caller is shown.

ghost use Rattle.mf_desk.specs.Answers.{Asks, CanBeSummed, arrears_told};

use mf_base::Fault;
use mf_model::{ArrearsList, InstitutionStore, laws};
use mf_office::Caller;
use std::alloc::Global;

/// The lines that the report prints for a caller: one for its office and for each below it, by number. F2 where there
/// is no such member of staff, and F20 where it is out of memory or the store failed; nothing is changed. As long as
/// the disk returned what was written, the lines have no more loans than a report sums.
pub fn arrears_lines<S: InstitutionStore>(
    alloc: Global,
    store: &mut S,
    caller: Caller,
) -> Result<ArrearsList, Fault>
    ensures lines { Asks S.InstitutionStore (arrears_told caller) store.old store.new result }
    ensures few { CanBeSummed S.InstitutionStore store.old store.new result }
{
    laws::arrears_can_be_summed();
    if store.caller(alloc, caller)?.is_none() {
        return Err(Fault::F2);
    }
    store.office_lines(alloc, caller.office)
}
