//! What a request asks, by its method, its path and its body.

ghost use Rattle.std.specs.Prelude.{◌≡◌, ◌≢◌, ◌⊎◌, true, IfOk, IfErr};
ghost use Rattle.std.specs.Char.{is_ascii};
ghost use Rattle.std.specs.List.{list_all};
ghost use Rattle.matchit.specs.Params.{AllText};
ghost use Rattle.mf_model.specs.declared.request.Flaw.{Flaw};
ghost use Rattle.mf_model.specs.declared.request.Request.TheVariants.{Unreadable};
ghost use Rattle.mf_model.specs.Desk.{flaw_fault};
ghost use Rattle.mf_model.specs.Sound.{IsInRange};
ghost use Rattle.mf_wire_requests.specs.Bodies.{Gives};
ghost use Rattle.mf_wire_requests.specs.PathParts.{parts_of_params};
ghost use Rattle.mf_wire_requests.specs.Requests.{method_of, endpoint_of, has_members, request_at, request_of};
ghost use Rattle.mf_wire_requests.specs.Requests.{MayLackMemory};

mod catalogue;
mod loans;
mod offices;
mod products;

use crate::paths::number;
use crate::routes::{Endpoint, Methods, Routes};
use matchit::Params;
use mf_base::Fault;
use mf_model::{CatalogueRequest, Flaw, Request};
use std::alloc::Global;

/// The methods that some route has. Other tokens are the method of no route.
#[derive(Clone, Copy, PartialEq, Eq)]
pub enum Method {
    Get,
    Post,
    Put,
    Other,
}

fn method_of(text: &[u8]) -> Method
    ensures { result ≡ method_of text.now }
{
    match text {
        b"GET" => Method::Get,
        b"POST" => Method::Post,
        b"PUT" => Method::Put,
        _ => Method::Other,
    }
}

fn endpoint_of(methods: Methods, method: Method) -> Option<Endpoint>
    ensures { result ≡ endpoint_of methods method }
{
    match (methods, method) {
        (Methods::Get(get), Method::Get) => Some(get),
        (Methods::Post(post), Method::Post) => Some(post),
        (Methods::GetAndPost(get, _), Method::Get) => Some(get),
        (Methods::GetAndPost(_, post), Method::Post) => Some(post),
        (Methods::GetAndPut(get, _), Method::Get) => Some(get),
        (Methods::GetAndPut(_, put), Method::Put) => Some(put),
        _ => None,
    }
}

fn is_ascii_path(path: &[u8]) -> bool
    ensures { result ≡ list_all is_ascii path.now }
{
    path.iter().all(|byte| byte.is_ascii())
}

fn request_at(
    alloc: Global,
    endpoint: Endpoint,
    params: &Params<'_, '_>,
    body: &[u8],
) -> Result<Request, Fault>
    requires { AllText (parts_of_params params.now) }
    ensures value { Gives body.now (request_at endpoint (parts_of_params params.now) body.now) result }
    ensures memory { IfErr result (λ f. f ≡ Fault.F20 → has_members endpoint ≡ true) }
    ensures in_range { IfOk result IsInRange }
{
    match endpoint {
        Endpoint::ShowDay => Ok(Request::Catalogue(CatalogueRequest::ShowDay)),
        Endpoint::SetDay => catalogue::later_day(alloc, body),
        Endpoint::AddCharge => catalogue::new_charge(alloc, body),
        Endpoint::ShowCharge => {
            let charge = number(params, "charge")?;
            Ok(Request::Catalogue(CatalogueRequest::ShowCharge { charge }))
        }
        Endpoint::AddProduct => products::new_product(alloc, body),
        Endpoint::ShowProduct => {
            let product = number(params, "product")?;
            Ok(Request::Catalogue(CatalogueRequest::ShowProduct { product }))
        }
        Endpoint::RetireProduct => {
            let product = number(params, "product")?;
            Ok(Request::Catalogue(CatalogueRequest::RetireProduct { product }))
        }
        Endpoint::ListOffices => Ok(Request::SeenOffices),
        Endpoint::AddOffice => offices::new_office(alloc, body),
        Endpoint::AddStaff => offices::new_staff(alloc, body),
        Endpoint::AddClient => offices::new_client(alloc, body),
        Endpoint::ShowClient => offices::show_client(params),
        Endpoint::SubmitLoan => loans::new_loan(alloc, body),
        Endpoint::ListLoans => loans::list_loans(params),
        Endpoint::ShowArrears => Ok(Request::SeenArrears),
        Endpoint::OnLoan(endpoint) => loans::on_loan(alloc, endpoint, params, body),
    }
}

/// What a method, a path and a body ask. `F5` where the path has no route, then `F6` where the route has no such
/// method, then `F1` for the parameters of the path and for the body. `F20` only where a body that isn't empty is read:
/// its text as JSON, and then what is copied of it, a name or a receipt.
pub fn read_request(
    alloc: Global,
    routes: &Routes,
    method: &[u8],
    path: &[u8],
    body: &[u8],
) -> Result<Request, Fault>
    ensures ok { IfOk result (λ r. request_of method.now path.now body.now ≡ r) }
    ensures in_range { IfOk result IsInRange }
    ensures err { IfErr result (λ f. (f ≡ Fault.F20) ⊎ ((flaw : Flaw) × (f ≡ flaw_fault flaw)
        × (request_of method.now path.now body.now ≡ Unreadable flaw))) }
    ensures memory { IfErr result (λ f. f ≡ Fault.F20 → MayLackMemory method.now path.now body.now) }
    ensures refusal { IfErr result (λ f. f ≢ Fault.F19) }
{
    let Some(found) = routes.find(path) else {
        return Err(Flaw::NoRoute.fault());
    };
    let Some(endpoint) = endpoint_of(*found.value, method_of(method)) else {
        return Err(Flaw::NoMethod.fault());
    };
    if !is_ascii_path(path) {
        return request_at(alloc, endpoint, &Params::new(), body);
    }
    request_at(alloc, endpoint, &found.params, body)
}
