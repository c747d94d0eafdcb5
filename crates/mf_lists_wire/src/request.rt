//! What a request asks of the lists, by its method, its path and its body.

ghost use Rattle.std.specs.Prelude.{◌≡◌, ◌≢◌, ◌⊎◌, Ok, Err, IfOk, IfErr, IfSome, option_and_then};
ghost use Rattle.serde_json.specs.View.{view};
ghost use Rattle.mf_wire_requests.specs.Bodies.{Copies, Gives, json_of};
ghost use Rattle.mf_lists.specs.declared.request.ListRequest.TheVariants.{OfOffice};
ghost use Rattle.mf_lists.specs.Readings.{IsAskedInDays};
ghost use Rattle.mf_lists_wire.specs.ListRequests.{clients_request, client_loans_request, due_request, stages_request};
ghost use Rattle.mf_lists_wire.specs.ListRequests.{staff_request, preview_request, find_request, request_in_path};
ghost use Rattle.mf_lists_wire.specs.ListRequests.{loan_changes_request, changes_request, takings_request};
ghost use Rattle.mf_lists_wire.specs.ListRequests.{list_request_at, list_request_of, MayLackMemory};

use crate::body::{json, name, office};
use crate::paths::{amount, day, four_parts, number_between, three_parts, two_parts};
use crate::routes::{ListEndpoint, has_method, list_route};
use mf_base::{Fault, parse_digits};
use mf_catalog::MOST_PERIODS;
use mf_lists::{ListAsked, ListRequest};
use mf_office::{Account, AccountNo};
use serde_json::Value;
use std::alloc::Global;

/// The greatest place in a journal after which a list of changes goes on.
const GREATEST_PLACE: u32 = 999_999_999;

/// A request for a list of an office.
fn of_office(office: u32, asked: ListAsked) -> ListRequest
    ensures value { result ≡ OfOffice office asked }
    ensures in_days { IsAskedInDays result }
{
    ListRequest::OfOffice { office, asked }
}

fn clients(params: &[u8]) -> Option<ListRequest>
    ensures value { result ≡ clients_request params.now }
    ensures in_days { IfSome result IsAskedInDays }
{
    let (office, after) = two_parts(params)?;
    let office = parse_digits(office)?;
    let after = number_between(after, 0, AccountNo::MAX)?;
    Some(of_office(office, ListAsked::Clients { after }))
}

fn loans(params: &[u8]) -> Option<ListRequest>
    ensures value { result ≡ client_loans_request params.now }
    ensures in_days { IfSome result IsAskedInDays }
{
    let Account { office, number } = Account::parse(params)?;
    let client = number;
    Some(of_office(office.get(), ListAsked::LoansOf { client }))
}

fn due(params: &[u8]) -> Option<ListRequest>
    ensures value { result ≡ due_request params.now }
    ensures in_days { IfSome result IsAskedInDays }
{
    let (office, (by, after)) = three_parts(params)?;
    let office = parse_digits(office)?;
    let day = day(by)?;
    let after = number_between(after, 0, AccountNo::MAX)?;
    Some(of_office(office, ListAsked::DueBy { day, after }))
}

fn stages(params: &[u8]) -> Option<ListRequest>
    ensures value { result ≡ stages_request params.now }
    ensures in_days { IfSome result IsAskedInDays }
{
    let (office, (status, after)) = three_parts(params)?;
    let office = parse_digits(office)?;
    let status = parse_digits(status)?;
    let after = number_between(after, 0, AccountNo::MAX)?;
    Some(of_office(office, ListAsked::AtStatus { status, after }))
}

fn staff(params: &[u8]) -> Option<ListRequest>
    ensures value { result ≡ staff_request params.now }
    ensures in_days { IfSome result IsAskedInDays }
{
    let office = parse_digits(params)?;
    Some(of_office(office, ListAsked::StaffOf))
}

fn preview(params: &[u8]) -> Option<ListRequest>
    ensures value { result ≡ preview_request params.now }
    ensures in_days { IfSome result IsAskedInDays }
{
    let ((product, principal), (periods, on)) = four_parts(params)?;
    let product = parse_digits(product)?;
    let principal = amount(principal)?;
    let periods = number_between(periods, 1, MOST_PERIODS)?;
    let day = day(on)?;
    Some(ListRequest::Preview {
        product,
        principal,
        periods,
        day,
    })
}

fn loan_changes(params: &[u8]) -> Option<ListRequest>
    ensures value { result ≡ loan_changes_request params.now }
    ensures in_days { IfSome result IsAskedInDays }
{
    let Account { office, number } = Account::parse(params)?;
    let loan = number;
    Some(of_office(office.get(), ListAsked::ChangesOf { loan }))
}

fn changes(params: &[u8]) -> Option<ListRequest>
    ensures value { result ≡ changes_request params.now }
    ensures in_days { IfSome result IsAskedInDays }
{
    let (office, after) = two_parts(params)?;
    let office = parse_digits(office)?;
    let after = number_between(after, 0, GREATEST_PLACE)?;
    Some(of_office(office, ListAsked::Changes { after }))
}

fn find_request(alloc: Global, body: &Value) -> Result<ListRequest, Fault>
    ensures value { Copies (find_request (view body.now)) result }
    ensures in_days { IfOk result IsAskedInDays }
{
    let office = office(body, "office").ok_or(Fault::F1)?;
    let part = name(alloc, body, "part")?;
    Ok(of_office(office.get(), ListAsked::Find { part }))
}

fn takings(params: &[u8]) -> Option<ListRequest>
    ensures value { result ≡ takings_request params.now }
    ensures in_days { IfSome result IsAskedInDays }
{
    let (office, on) = two_parts(params)?;
    let office = parse_digits(office)?;
    let day = day(on)?;
    Some(of_office(office, ListAsked::TakingsOn { day }))
}

fn find(alloc: Global, body: &[u8]) -> Result<ListRequest, Fault>
    ensures value { Gives body.now (option_and_then find_request (json_of body.now)) result }
    ensures in_days { IfOk result IsAskedInDays }
{
    let body = json(alloc, body)?;
    find_request(alloc, &body)
}

/// What the parameters of a path ask.
fn request_in_path(endpoint: ListEndpoint, params: &[u8]) -> Option<ListRequest>
    ensures value { result ≡ request_in_path endpoint params.now }
    ensures in_days { IfSome result IsAskedInDays }
{
    match endpoint {
        ListEndpoint::Clients => clients(params),
        ListEndpoint::LoansOf => loans(params),
        ListEndpoint::DueBy => due(params),
        ListEndpoint::AtStatus => stages(params),
        ListEndpoint::StaffOf => staff(params),
        ListEndpoint::Preview => preview(params),
        ListEndpoint::ChangesOf => loan_changes(params),
        ListEndpoint::Changes => changes(params),
        ListEndpoint::TakingsOn => takings(params),
        ListEndpoint::Find => None,
    }
}

/// What is asked on a route, by the parameters of the path, or by the body where it is find.
fn list_request_at(
    alloc: Global,
    endpoint: ListEndpoint,
    params: &[u8],
    body: &[u8],
) -> Result<ListRequest, Fault>
    ensures value { Gives body.now (list_request_at endpoint params.now body.now) result }
    ensures memory { IfErr result (λ f. f ≡ Fault.F20 → endpoint ≡ ListEndpoint.Find) }
    ensures in_days { IfOk result IsAskedInDays }
{
    if endpoint == ListEndpoint::Find {
        return find(alloc, body);
    }
    request_in_path(endpoint, params).ok_or(Fault::F1)
}

/// What a method, a path and a body ask of the lists. F5 where the path has no route, then F6 where the route has no
/// such method, then F1 for the parameters of the path or for the body. F20 only where clients are looked for, by the
/// method of that route and by a body that isn't empty.
pub fn read_list_request(
    alloc: Global,
    method: &[u8],
    path: &[u8],
    body: &[u8],
) -> Result<ListRequest, Fault>
    ensures ok { IfOk result (λ r. list_request_of method.now path.now body.now ≡ Ok r) }
    ensures in_days { IfOk result IsAskedInDays }
    ensures err { IfErr result (λ f. (f ≡ Fault.F20) ⊎ (list_request_of method.now path.now body.now ≡ Err f)) }
    ensures memory { IfErr result (λ f. f ≡ Fault.F20 → MayLackMemory method.now path.now body.now) }
    ensures refusal { IfErr result (λ f. f ≢ Fault.F19) }
{
    let Some((endpoint, params)) = list_route(path) else {
        return Err(Fault::F5);
    };
    if !has_method(endpoint, method) {
        return Err(Fault::F6);
    }
    list_request_at(alloc, endpoint, params, body)
}
