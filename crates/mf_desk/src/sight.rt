//! Which offices a caller sees.

ghost use Rattle.std.specs.Prelude.{◌≢◌, IfErr};
ghost use Rattle.mf_desk.specs.Answers.{Asks, sight, seen_number};

use mf_base::Fault;
use mf_model::InstitutionStore;
use mf_office::OfficeNo;
use std::alloc::Global;

/// Whether an office is there and at or below another; F4 where it isn't.
pub fn check_sight<S: InstitutionStore>(
    alloc: Global,
    store: &mut S,
    to: OfficeNo,
    office: OfficeNo,
) -> Result<(), Fault>
    ensures asks { Asks S.InstitutionStore (sight to office) store.old store.new result }
    ensures refusal { IfErr result (λ f. f ≢ Fault.F19) }
{
    if store.visible(alloc, to, office)? {
        Ok(())
    } else {
        Err(Fault::F4)
    }
}

/// The office of a number, where it is there and at or below another; F4 where it isn't. A number that no office can
/// have is F4 too.
pub fn find_office<S: InstitutionStore>(
    alloc: Global,
    store: &mut S,
    to: OfficeNo,
    office: u32,
) -> Result<OfficeNo, Fault>
    ensures asks { Asks S.InstitutionStore (seen_number to office) store.old store.new result }
    ensures refusal { IfErr result (λ f. f ≢ Fault.F19) }
{
    let Some(office) = OfficeNo::new(office) else {
        return Err(Fault::F4);
    };
    check_sight(alloc, store, to, office)?;
    Ok(office)
}
