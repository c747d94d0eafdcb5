//! What is asked of offices, staff and clients.

ghost use Rattle.std.specs.Prelude.{option_and_then, IfOk};
ghost use Rattle.serde_json.specs.View.{view};
ghost use Rattle.matchit.specs.Params.{AllText};
ghost use Rattle.mf_model.specs.Sound.{IsInRange};
ghost use Rattle.mf_wire_requests.specs.Bodies.{json_of, Copies, Gives, Reads};
ghost use Rattle.mf_wire_requests.specs.OfficeRequests.{new_office_request, new_staff_request};
ghost use Rattle.mf_wire_requests.specs.OfficeRequests.{new_client_request, client_request};
ghost use Rattle.mf_wire_requests.specs.PathParts.{parts_of_params};

use crate::body::{choice, json, name, office};
use crate::paths::account;
use matchit::Params;
use mf_base::Fault;
use mf_model::{OfficeRequest, Request};
use mf_office::Role;
use serde_json::Value;
use std::alloc::Global;

fn new_office_request(alloc: Global, body: &Value) -> Result<Request, Fault>
    ensures value { Copies (new_office_request (view body.now)) result }
    ensures in_range { IfOk result IsInRange }
{
    let number = office(body, "number").ok_or(Fault::F1)?;
    let parent = office(body, "parent").ok_or(Fault::F1)?;
    let name = name(alloc, body, "name")?;
    Ok(Request::NewOffice {
        number,
        parent,
        name,
    })
}

pub fn new_office(alloc: Global, body: &[u8]) -> Result<Request, Fault>
    ensures value { Gives body.now (option_and_then new_office_request (json_of body.now)) result }
    ensures in_range { IfOk result IsInRange }
{
    let body = json(alloc, body)?;
    new_office_request(alloc, &body)
}

fn new_staff_request(alloc: Global, body: &Value) -> Result<Request, Fault>
    ensures value { Copies (new_staff_request (view body.now)) result }
    ensures in_range { IfOk result IsInRange }
{
    let office = office(body, "office").ok_or(Fault::F1)?;
    let role = choice::<Role>(body, "role").ok_or(Fault::F1)?;
    let name = name(alloc, body, "name")?;
    Ok(Request::Office {
        office: office.get(),
        asked: OfficeRequest::AddStaff { name, role },
    })
}

pub fn new_staff(alloc: Global, body: &[u8]) -> Result<Request, Fault>
    ensures value { Gives body.now (option_and_then new_staff_request (json_of body.now)) result }
    ensures in_range { IfOk result IsInRange }
{
    let body = json(alloc, body)?;
    new_staff_request(alloc, &body)
}

fn new_client_request(alloc: Global, body: &Value) -> Result<Request, Fault>
    ensures value { Copies (new_client_request (view body.now)) result }
    ensures in_range { IfOk result IsInRange }
{
    let office = office(body, "office").ok_or(Fault::F1)?;
    let name = name(alloc, body, "name")?;
    Ok(Request::Office {
        office: office.get(),
        asked: OfficeRequest::AddClient { name },
    })
}

pub fn new_client(alloc: Global, body: &[u8]) -> Result<Request, Fault>
    ensures value { Gives body.now (option_and_then new_client_request (json_of body.now)) result }
    ensures in_range { IfOk result IsInRange }
{
    let body = json(alloc, body)?;
    new_client_request(alloc, &body)
}

/// The client that a path names.
pub fn show_client(params: &Params<'_, '_>) -> Result<Request, Fault>
    requires { AllText (parts_of_params params.now) }
    ensures value { Reads (client_request (parts_of_params params.now)) result }
    ensures in_range { IfOk result IsInRange }
{
    let client = account(params, "client")?;
    Ok(Request::Office {
        office: client.office.get(),
        asked: OfficeRequest::ShowClient {
            client: client.number,
        },
    })
}
