//! What becomes of each request that its caller may send.

ghost use Rattle.std.specs.Prelude.{◌≢◌, IfErr};
ghost use Rattle.mf_model.specs.Sound.{IsInRange};
ghost use Rattle.mf_desk.specs.Answers.{Decides, request_outcome};

use crate::catalogue::on_catalogue;
use crate::decision::Decision;
use crate::loans::on_loan;
use crate::offices::{add_office, in_office};
use crate::sight::check_sight;
use mf_base::Fault;
use mf_model::{InstitutionStore, Reply, Request};
use mf_office::Caller;
use std::alloc::Global;

/// Decides a request that its caller may send.
pub fn act<S: InstitutionStore>(
    alloc: Global,
    store: &mut S,
    caller: Caller,
    request: Request,
) -> Result<Decision, Fault>
    requires in_range { IsInRange request }
    ensures decides { Decides S.InstitutionStore (request_outcome caller request) store.old store.new result }
    ensures refusal { IfErr result (λ f. f ≢ Fault.F19) }
{
    match request {
        Request::Unreadable(flaw) => Err(flaw.fault()),
        Request::Catalogue(asked) => on_catalogue(alloc, store, asked),
        Request::Office { office, asked } => in_office(alloc, store, caller, office, asked),
        Request::Loan { loan, asked } => {
            check_sight(alloc, store, caller.office, loan.office)?;
            on_loan(alloc, store, caller, loan, asked)
        }
        Request::SeenOffices => {
            let offices = store.offices(alloc, caller.office)?;
            Ok(Decision::show(Reply::Offices(offices)))
        }
        Request::SeenArrears => {
            let lines = store.office_lines(alloc, caller.office)?;
            Ok(Decision::show(Reply::ArrearsShown(lines)))
        }
        Request::NewOffice {
            number,
            parent,
            name,
        } => add_office(alloc, store, caller, number, parent, name),
    }
}
