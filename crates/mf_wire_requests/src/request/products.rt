//! What is asked of a new product.

ghost use Rattle.std.specs.Prelude.{◌≡◌, option_and_then, IfOk, IfSome};
ghost use Rattle.serde_json.specs.View.{view};
ghost use Rattle.mf_model.specs.Sound.{IsInRange, IsName, AreMembers};
ghost use Rattle.mf_wire_requests.specs.Bodies.{json_of, Copies, Gives};
ghost use Rattle.mf_wire_requests.specs.ProductRequests.{step_at, planning_at, bounds_at, optional_charge_at};
ghost use Rattle.mf_wire_requests.specs.ProductRequests.{charged_at};
ghost use Rattle.mf_wire_requests.specs.ProductRequests.{members_of, new_product_request};
ghost use Rattle.mf_wire_requests.specs.ProductRequests.{IsDueStepInRange, IsPlanningInRange, AreBoundsInRange};

use crate::body::{GREATEST_NUMBER, choice, json, long_number, name, number, optional_number};
use mf_base::{Fault, Freq};
use mf_catalog::{
    GREATEST_AMOUNT, GREATEST_RATE, MOST_GRACE, MOST_PERIODS, Method, ProductMembers, StrategyName,
    longest_step,
};
use mf_model::{CatalogueRequest, Request};
use mf_office::Name;
use serde_json::Value;
use std::alloc::Global;

/// The step from one due day to the next.
#[derive(Clone, Copy)]
pub struct Step {
    pub freq: Freq,
    pub every: u32,
}

/// The members of a product by which schedules are planned.
#[derive(Clone, Copy)]
pub struct Planning {
    pub method: Method,
    pub rate: u32,
    pub step: Step,
    pub principal_grace: u32,
    pub interest_grace: u32,
    pub strategy: StrategyName,
}

/// The least and the greatest loan of a product.
#[derive(Clone, Copy)]
pub struct Bounds {
    pub min_principal: u64,
    pub max_principal: u64,
    pub min_periods: u32,
    pub max_periods: u32,
}

/// The charges that a product names, by their numbers.
#[derive(Clone, Copy)]
pub struct Charged {
    pub disbursement: Option<u32>,
    pub instalment: Option<u32>,
    pub overdue: Option<u32>,
}

fn read_step(body: &Value) -> Option<Step>
    ensures value { result ≡ step_at (view body.now) }
    ensures in_range { IfSome result IsDueStepInRange }
{
    let freq = choice::<Freq>(body, "frequency")?;
    let every = number(body, "every", 1, longest_step(freq))?;
    Some(Step { freq, every })
}

fn read_planning(body: &Value) -> Option<Planning>
    ensures value { result ≡ planning_at (view body.now) }
    ensures in_range { IfSome result IsPlanningInRange }
{
    let method = choice::<Method>(body, "method")?;
    let rate = number(body, "rate", 0, GREATEST_RATE)?;
    let step = read_step(body)?;
    let principal_grace = number(body, "principal_grace", 0, MOST_GRACE)?;
    let interest_grace = number(body, "interest_grace", 0, MOST_GRACE)?;
    let strategy = choice::<StrategyName>(body, "strategy")?;
    Some(Planning {
        method,
        rate,
        step,
        principal_grace,
        interest_grace,
        strategy,
    })
}

fn read_bounds(body: &Value) -> Option<Bounds>
    ensures value { result ≡ bounds_at (view body.now) }
    ensures in_range { IfSome result AreBoundsInRange }
{
    let min_principal = long_number(body, "min_principal", 1, GREATEST_AMOUNT)?;
    let max_principal = long_number(body, "max_principal", 1, GREATEST_AMOUNT)?;
    let min_periods = number(body, "min_periods", 1, MOST_PERIODS)?;
    let max_periods = number(body, "max_periods", 1, MOST_PERIODS)?;
    Some(Bounds {
        min_principal,
        max_principal,
        min_periods,
        max_periods,
    })
}

/// A member that may be absent or null, and else is a charge's number.
fn charge(body: &Value, member: &str) -> Option<Option<u32>>
    ensures { result ≡ optional_charge_at member.now (view body.now) }
{
    optional_number(body, member, GREATEST_NUMBER)
}

fn read_charged(body: &Value) -> Option<Charged>
    ensures { result ≡ charged_at (view body.now) }
{
    let disbursement = charge(body, "disbursement_charge")?;
    let instalment = charge(body, "instalment_charge")?;
    let overdue = charge(body, "overdue_charge")?;
    Some(Charged {
        disbursement,
        instalment,
        overdue,
    })
}

fn members_of(name: Name, planning: Planning, bounds: Bounds, charged: Charged) -> ProductMembers
    requires name { IsName name }
    requires planning { IsPlanningInRange planning }
    requires bounds { AreBoundsInRange bounds }
    ensures value { result ≡ members_of name planning bounds charged }
    ensures in_range { AreMembers result }
{
    ProductMembers {
        name,
        method: planning.method,
        rate: planning.rate,
        freq: planning.step.freq,
        every: planning.step.every,
        principal_grace: planning.principal_grace,
        interest_grace: planning.interest_grace,
        min_principal: bounds.min_principal,
        max_principal: bounds.max_principal,
        min_periods: bounds.min_periods,
        max_periods: bounds.max_periods,
        strategy: planning.strategy,
        disbursement_charge: charged.disbursement,
        instalment_charge: charged.instalment,
        overdue_charge: charged.overdue,
    }
}

fn new_product_request(alloc: Global, body: &Value) -> Result<Request, Fault>
    ensures value { Copies (new_product_request (view body.now)) result }
    ensures in_range { IfOk result IsInRange }
{
    let planning = read_planning(body).ok_or(Fault::F1)?;
    let bounds = read_bounds(body).ok_or(Fault::F1)?;
    let charged = read_charged(body).ok_or(Fault::F1)?;
    let name = name(alloc, body, "name")?;
    let members = members_of(name, planning, bounds, charged);
    Ok(Request::Catalogue(CatalogueRequest::AddProduct { members }))
}

pub fn new_product(alloc: Global, body: &[u8]) -> Result<Request, Fault>
    ensures value { Gives body.now (option_and_then new_product_request (json_of body.now)) result }
    ensures in_range { IfOk result IsInRange }
{
    let body = json(alloc, body)?;
    new_product_request(alloc, &body)
}
