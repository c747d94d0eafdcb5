//! A request for a list answered, by what is told of a store.

ghost use Rattle.std.specs.Prelude.{◌≢◌, IfErr};
ghost use Rattle.mf_lists.specs.Changes.{view_with_lines};
ghost use Rattle.mf_lists.specs.Readings.{IsAskedInDays, list_for, list_reply, office_list};
ghost use Rattle.mf_lists_desk.specs.Readings.{AnswersBy, changes_of_loan_told, in_office};

use crate::previews::preview;
use crate::sight::find_office;
use crate::store::Lists;
use mf_base::Fault;
use mf_lists::{ListAnswer, ListAsked, ListRequest, ListTold, laws};
use mf_model::InstitutionStore;
use mf_office::{Account, Caller, OfficeNo};
use std::alloc::Global;

/// What the journal tells of a loan of an office that is there. F4 where no journal is kept, or the loan isn't there.
fn changes_of_loan<S: InstitutionStore, L: Lists<S>>(
    alloc: Global,
    lists: &L,
    store: &mut S,
    loan: Account,
) -> Result<ListTold, Fault>
    ensures told { AnswersBy S.InstitutionStore (changes_of_loan_told loan) store.old store.new result }
    ensures refusal { IfErr result (λ f. f ≢ Fault.F19) }
{
    store.loan(alloc, loan)?.ok_or(Fault::F4)?;
    let lines = lists.changes_of_loan(alloc, store, loan)?;
    Ok(ListTold::ChangeLines(lines.ok_or(Fault::F4)?))
}

/// A list of an office that is there. F4 where the client or the loan that is asked for isn't, and where changes or
/// takings are asked for and no journal is kept.
fn list_of_office<S: InstitutionStore, L: Lists<S>>(
    alloc: Global,
    lists: &L,
    store: &mut S,
    office: OfficeNo,
    asked: ListAsked,
) -> Result<ListTold, Fault>
    ensures told { AnswersBy S.InstitutionStore (in_office office (office_list L.folded asked office)) store.old
        store.new result }
    ensures refusal { IfErr result (λ f. f ≢ Fault.F19) }
{
    match asked {
        ListAsked::Clients { after } => {
            let lines = lists.clients_after(alloc, store, office, after)?;
            Ok(ListTold::ClientLines(lines))
        }
        ListAsked::LoansOf { client: number } => {
            let lines = lists.loans_of_client(alloc, store, Account { office, number })?;
            Ok(ListTold::ClientLoans(lines.ok_or(Fault::F4)?))
        }
        ListAsked::DueBy { day, after } => {
            let lines = lists.due_after(alloc, store, office, day, after)?;
            Ok(ListTold::DueLines(lines))
        }
        ListAsked::AtStatus { status, after } => {
            let lines = lists.stages_after(alloc, store, office, status, after)?;
            Ok(ListTold::StageLines(lines))
        }
        ListAsked::StaffOf => Ok(ListTold::StaffLines(lists.staff_of(alloc, store, office)?)),
        ListAsked::Find { part } => {
            let lines = lists.find_clients(alloc, store, office, &part)?;
            Ok(ListTold::ClientLines(lines))
        }
        ListAsked::ChangesOf { loan: number } => {
            changes_of_loan(alloc, lists, store, Account { office, number })
        }
        ListAsked::Changes { after } => {
            let lines = lists.changes_after(alloc, store, office, after)?;
            Ok(ListTold::ChangeLines(lines.ok_or(Fault::F4)?))
        }
        ListAsked::TakingsOn { day } => {
            let lines = lists.takings_on(alloc, store, office, day)?;
            Ok(ListTold::TakingLines(lines.ok_or(Fault::F4)?))
        }
    }
}

/// What somebody of an office is told who is there.
fn list_for<S: InstitutionStore, L: Lists<S>>(
    alloc: Global,
    lists: &L,
    store: &mut S,
    to: OfficeNo,
    request: ListRequest,
) -> Result<ListAnswer, Fault>
    requires { IsAskedInDays request }
    ensures told { AnswersBy S.InstitutionStore (list_for L.folded request to) store.old store.new result }
    ensures refusal { IfErr result (λ f. f ≢ Fault.F19) }
{
    match request {
        ListRequest::OfOffice { office, asked } => {
            let office = find_office(alloc, store, to, office)?;
            let told = list_of_office(alloc, lists, store, office, asked)?;
            Ok(ListAnswer::Listed { office, told })
        }
        ListRequest::Preview {
            product,
            principal,
            periods,
            day,
        } => {
            let shown = preview(alloc, store, product, principal, periods, day)?;
            Ok(ListAnswer::Previewed(shown))
        }
    }
}

/// What a caller is told; F2 where there is no such member of staff.
fn reply<S: InstitutionStore, L: Lists<S>>(
    alloc: Global,
    lists: &L,
    store: &mut S,
    caller: Caller,
    request: ListRequest,
) -> Result<ListAnswer, Fault>
    requires { IsAskedInDays request }
    ensures told { AnswersBy S.InstitutionStore (list_reply L.folded caller request) store.old store.new result }
    ensures refusal { IfErr result (λ f. f ≢ Fault.F19) }
{
    if store.caller(alloc, caller)?.is_none() {
        return Err(Fault::F2);
    }
    list_for(alloc, lists, store, caller.office, request)
}

/// Answers a request for a list, and changes nothing. At Err it is the definition's refusal, or F20 where it is out of
/// memory or the store failed.
///
/// What is answered is also what the caller would be answered by an institution that has only what the caller's office
/// sees, and the lines of the journal that name it.
pub fn answer<S: InstitutionStore, L: Lists<S>>(
    alloc: Global,
    lists: &L,
    store: &mut S,
    caller: Caller,
    request: ListRequest,
) -> Result<ListAnswer, Fault>
    requires in_days { IsAskedInDays request }
    ensures told { AnswersBy S.InstitutionStore (list_reply L.folded caller request) store.old store.new result }
    ensures own_view { AnswersBy S.InstitutionStore (λ i. list_reply L.folded caller request
        (view_with_lines caller.office i)) store.old store.new result }
    ensures refusal { IfErr result (λ f. f ≢ Fault.F19) }
{
    laws::an_answer_is_read_off_the_view();
    reply(alloc, lists, store, caller, request)
}
