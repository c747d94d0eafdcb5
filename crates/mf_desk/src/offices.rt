//! Offices, and what is asked of one: its staff, its clients and its loans.

ghost use Rattle.std.specs.Prelude.{◌≢◌, IfErr};
ghost use Rattle.mf_model.specs.declared.request.Request.TheVariants.{Office, NewOffice};
ghost use Rattle.mf_model.specs.Offices.{add_staff, add_client};
ghost use Rattle.mf_desk.specs.Answers.{Decides, request_outcome, in_rows};

use crate::decision::Decision;
use crate::lending::submit_loan;
use crate::numbers::{next_account, next_staff};
use crate::sight::{check_sight, find_office};
use mf_base::Fault;
use mf_model::{Commit, InstitutionStore, OfficeRequest, Reply};
use mf_office::{Account, Caller, Name, OfficeNo, Role};
use std::alloc::Global;

pub fn add_office<S: InstitutionStore>(
    alloc: Global,
    store: &mut S,
    caller: Caller,
    number: OfficeNo,
    parent: OfficeNo,
    name: Name,
) -> Result<Decision, Fault>
    ensures decides { Decides S.InstitutionStore (request_outcome caller (NewOffice number parent name)) store.old
        store.new result }
    ensures refusal { IfErr result (λ f. f ≢ Fault.F19) }
{
    check_sight(alloc, store, caller.office, parent)?;
    if store.is_there(alloc, number)? {
        return Err(Fault::F16);
    }
    if !store.has_room_below(alloc, parent)? {
        return Err(Fault::F18);
    }
    Ok(Decision::change(
        Commit::AddOffice {
            number,
            parent,
            name,
        },
        Reply::OfficeMade(number),
    ))
}

/// Decides a request on one office, which the caller must see.
pub fn in_office<S: InstitutionStore>(
    alloc: Global,
    store: &mut S,
    caller: Caller,
    office: u32,
    asked: OfficeRequest,
) -> Result<Decision, Fault>
    ensures decides { Decides S.InstitutionStore (request_outcome caller (Office office asked)) store.old store.new
        result }
    ensures refusal { IfErr result (λ f. f ≢ Fault.F19) }
{
    let office = find_office(alloc, store, caller.office, office)?;
    match asked {
        OfficeRequest::AddStaff { name, role } => add_staff(alloc, store, office, name, role),
        OfficeRequest::AddClient { name } => add_client(alloc, store, office, name),
        OfficeRequest::ShowClient { client: number } => {
            let client = Account { office, number };
            let name = store.client(alloc, client)?.ok_or(Fault::F4)?;
            Ok(Decision::show(Reply::ClientShown { client, name }))
        }
        OfficeRequest::SubmitLoan(asked) => submit_loan(alloc, store, office, &asked),
        OfficeRequest::ListLoans { after } => {
            let loans = store.loans(alloc, office, after)?;
            Ok(Decision::show(Reply::LoansShown(loans)))
        }
    }
}

fn add_staff<S: InstitutionStore>(
    alloc: Global,
    store: &mut S,
    office: OfficeNo,
    name: Name,
    role: Role,
) -> Result<Decision, Fault>
    ensures decides { Decides S.InstitutionStore (in_rows office (λ k rows. add_staff office name role rows)) store.old
        store.new result }
    ensures refusal { IfErr result (λ f. f ≢ Fault.F19) }
{
    let counts = store.next_numbers(alloc, office)?;
    let staff = next_staff(counts.staff)?;
    Ok(Decision::change(
        Commit::AddStaff { office, name, role },
        Reply::StaffMade(Caller { office, staff }),
    ))
}

fn add_client<S: InstitutionStore>(
    alloc: Global,
    store: &mut S,
    office: OfficeNo,
    name: Name,
) -> Result<Decision, Fault>
    ensures decides { Decides S.InstitutionStore (in_rows office (λ k rows. add_client office name rows)) store.old
        store.new result }
    ensures refusal { IfErr result (λ f. f ≢ Fault.F19) }
{
    let counts = store.next_numbers(alloc, office)?;
    let number = next_account(counts.clients)?;
    Ok(Decision::change(
        Commit::AddClient { office, name },
        Reply::ClientMade(Account { office, number }),
    ))
}
