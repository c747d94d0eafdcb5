//! Which offices a caller sees.

ghost use Rattle.std.specs.Prelude.{◌≢◌, IfErr};
ghost use Rattle.mf_lists_desk.specs.Readings.{AnswersBy, number_seen};

use mf_base::Fault;
use mf_model::InstitutionStore;
use mf_office::OfficeNo;
use std::alloc::Global;

/// The office of a number, where it is there and at or below another; F4 where it isn't. A number that no office can
/// have is F4 too.
pub fn find_office<S: InstitutionStore>(
    alloc: Global,
    store: &mut S,
    to: OfficeNo,
    office: u32,
) -> Result<OfficeNo, Fault>
    ensures told { AnswersBy S.InstitutionStore (number_seen to office) store.old store.new result }
    ensures refusal { IfErr result (λ f. f ≢ Fault.F19) }
{
    let Some(office) = OfficeNo::new(office) else {
        return Err(Fault::F4);
    };
    if store.visible(alloc, to, office)? {
        Ok(office)
    } else {
        Err(Fault::F4)
    }
}
