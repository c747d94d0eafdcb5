//! What the bodies of requests on the business day and on charges ask.

ghost use Rattle.std.specs.Prelude.{◌≡◌, option_and_then, IfOk, IfSome};
ghost use Rattle.serde_json.specs.View.{view};
ghost use Rattle.mf_model.specs.Sound.{IsInRange};
ghost use Rattle.mf_wire_requests.specs.Bodies.{json_of, Copies, Gives};
ghost use Rattle.mf_wire_requests.specs.CatalogueRequests.{day_request, new_charge_request};

use crate::body::{choice, day, json, long_number, name};
use mf_base::Fault;
use mf_catalog::{Calc, ChargeKind, greatest_value};
use mf_model::{CatalogueRequest, Request};
use serde_json::Value;
use std::alloc::Global;

fn day_request(body: &Value) -> Option<Request>
    ensures value { result ≡ day_request (view body.now) }
    ensures in_range { IfSome result IsInRange }
{
    let day = day(body, "day")?;
    Some(Request::Catalogue(CatalogueRequest::SetDay { day }))
}

pub fn later_day(alloc: Global, body: &[u8]) -> Result<Request, Fault>
    ensures value { Gives body.now (option_and_then day_request (json_of body.now)) result }
    ensures in_range { IfOk result IsInRange }
{
    let body = json(alloc, body)?;
    day_request(&body).ok_or(Fault::F1)
}

fn new_charge_request(alloc: Global, body: &Value) -> Result<Request, Fault>
    ensures value { Copies (new_charge_request (view body.now)) result }
    ensures in_range { IfOk result IsInRange }
{
    let kind = choice::<ChargeKind>(body, "kind").ok_or(Fault::F1)?;
    let calc = choice::<Calc>(body, "calc").ok_or(Fault::F1)?;
    let value = long_number(body, "value", 1, greatest_value(calc)).ok_or(Fault::F1)?;
    let name = name(alloc, body, "name")?;
    Ok(Request::Catalogue(CatalogueRequest::AddCharge {
        name,
        kind,
        calc,
        value,
    }))
}

pub fn new_charge(alloc: Global, body: &[u8]) -> Result<Request, Fault>
    ensures value { Gives body.now (option_and_then new_charge_request (json_of body.now)) result }
    ensures in_range { IfOk result IsInRange }
{
    let body = json(alloc, body)?;
    new_charge_request(alloc, &body)
}
