//! Which role may send which request.

ghost use Rattle.std.specs.Prelude.{◌≡◌};
ghost use Rattle.mf_model.specs.Desk.{need, meets, is_officer, is_manager};

use crate::stages::may_take;
use mf_model::{CatalogueRequest, LoanRequest, OfficeRequest, Posting, Request};
use mf_office::{OfficeNo, Role};

/// Whether a role is an officer's or a manager's.
pub fn is_officer(role: Role) -> bool
    ensures { result ≡ is_officer role }
{
    !matches!(role, Role::Teller)
}

/// Whether a role is a manager's.
pub fn is_manager(role: Role) -> bool
    ensures { result ≡ is_manager role }
{
    matches!(role, Role::Manager)
}

/// Whether a member of staff of an office may send this kind of request, by role and office alone.
pub fn may_send(request: &Request, role: Role, office: OfficeNo) -> bool
    ensures { result ≡ meets (need request.now) role office }
{
    let is_officer = is_officer(role);
    let is_manager = is_manager(role);
    let is_head = is_manager && office.get() == 1;
    match request {
        Request::Unreadable(_) | Request::SeenOffices | Request::SeenArrears => true,
        Request::NewOffice { .. } => is_head,
        Request::Catalogue(asked) => match asked {
            CatalogueRequest::ShowDay
            | CatalogueRequest::ShowCharge { .. }
            | CatalogueRequest::ShowProduct { .. } => true,
            CatalogueRequest::SetDay { .. }
            | CatalogueRequest::AddCharge { .. }
            | CatalogueRequest::AddProduct { .. }
            | CatalogueRequest::RetireProduct { .. } => is_head,
        },
        Request::Office { asked, .. } => match asked {
            OfficeRequest::ShowClient { .. } | OfficeRequest::ListLoans { .. } => true,
            OfficeRequest::AddClient { .. } | OfficeRequest::SubmitLoan(_) => is_officer,
            OfficeRequest::AddStaff { .. } => is_manager,
        },
        Request::Loan { asked, .. } => match asked {
            LoanRequest::Show
            | LoanRequest::ShowInstalments
            | LoanRequest::ShowEntries
            | LoanRequest::Repay(_) => true,
            LoanRequest::Take(step) => may_take(step, role),
            LoanRequest::ChargeFee { .. } | LoanRequest::Post(Posting::Penalty { .. }) =>
                is_officer,
            LoanRequest::Post(Posting::Waiver { .. } | Posting::WriteOff | Posting::Refund)
            | LoanRequest::Reverse { .. } => is_manager,
        },
    }
}
