//! The text of a success, which is made before anything is changed.

ghost use Rattle.std.specs.Prelude.{◌≡◌, false, IfOk, IfErr, string_bytes};
ghost use Rattle.serde_json.specs.Data.{string, object, member, no_members};
ghost use Rattle.serde_json.specs.View.{view};
ghost use Rattle.serde_json.specs.Written.{compact_text, has_float};
ghost use Rattle.mf_model.specs.declared.reply.Reply.{Reply};
ghost use Rattle.mf_model.specs.declared.reply.Reply.TheVariants.{ClientShown};
ghost use Rattle.mf_wire_lines.specs.Replies.{reply_line};
ghost use Rattle.mf_wire_replies.specs.Json.{whole};
ghost use Rattle.mf_wire_replies.specs.Shown.{IsBodyOf, office_data, reply_data, reply_status, reply_body};

mod account;
mod arrears;
mod catalogue;
mod entries;
mod lists;
mod loans;
mod members;
mod texts;

use arrears::arrears_shown;
use catalogue::{charge_shown, product_shown};
pub use lists::{Written, array_text, comma_if, list_text};
use lists::{Shown, array_of};
pub use loans::{day_text, sums_text};
use loans::{loan_told, loans_text, told_status};
use members::Members;
use mf_base::Fault;
use mf_model::Reply;
use mf_office::{Account, Name, Office};
use serde_json::Value;
use std::alloc::{AllocError, Global};
pub use texts::{quoted_text, text_in};

/// A body before it is written: a value of JSON, or its text where that is written at once.
#[derive(Drop)]
pub(crate) enum Body {
    Value(Value),
    Text(String),
}

impl Shown for Office {
    ghost json = { office_data };

    fn value(&self, alloc: Global) -> Result<Value, Fault> {
        let parent = match self.parent {
            Some(parent) => Value::from(parent.get()),
            None => Value::Null,
        };
        let mut members = Members::new(alloc);
        members.put(alloc, "parent", parent)?;
        members.put_whole(alloc, "number", self.number.get() as u64)?;
        members.put_text(alloc, "name", self.name.as_str())?;
        Ok(members.into_value())
    }
}

/// A body that is an object of one member, a text.
fn single_text(alloc: Global, name: &str, text: &str) -> Result<Body, Fault>
    ensures ok { IfOk result (λ body. (reply : Reply) → object (member name.now (string text.now) no_members)
        ≡ reply_data reply → IsBodyOf reply body) }
    ensures err { IfErr result (λ f. f ≡ Fault.F20) }
{
    let name = quoted_text(alloc, name)?;
    let text = quoted_text(alloc, text)?;
    let body = text_in(alloc, 48, format_args!("{{{name}:{text}}}"))?;
    Ok(Body::Text(body))
}

/// A body that is an object of one member, a number.
fn single_number(alloc: Global, name: &str, number: u32) -> Result<Body, Fault>
    ensures ok { IfOk result (λ body. (reply : Reply) → object (member name.now (whole number) no_members)
        ≡ reply_data reply → IsBodyOf reply body) }
    ensures err { IfErr result (λ f. f ≡ Fault.F20) }
{
    let name = quoted_text(alloc, name)?;
    let body = text_in(alloc, 32, format_args!("{{{name}:{number}}}"))?;
    Ok(Body::Text(body))
}

/// A body that is an object of one member.
fn single(alloc: Global, name: &str, value: Value) -> Result<Body, Fault>
    ensures ok { IfOk result (λ body. (reply : Reply) → object (member name.now (view value) no_members)
        ≡ reply_data reply → IsBodyOf reply body) }
    ensures err { IfErr result (λ f. f ≡ Fault.F20) }
{
    let mut members = Members::new(alloc);
    members.put(alloc, name, value)?;
    Ok(Body::Value(members.into_value()))
}

fn client_shown(alloc: Global, client: Account, name: &Name) -> Result<Body, Fault>
    ensures ok { IfOk result (IsBodyOf (ClientShown client name.now)) }
    ensures err { IfErr result (λ f. f ≡ Fault.F20) }
{
    let client = quoted_text(alloc, client.text(alloc)?.as_str())?;
    let name = quoted_text(alloc, name.as_str())?;
    let shown = format_args!(r#"{{"client":{client},"name":{name}}}"#);
    let body = text_in(alloc, name.len() + 40, shown)?;
    Ok(Body::Text(body))
}

fn reply_body(alloc: Global, reply: &Reply) -> Result<Body, Fault>
    ensures ok { IfOk result (IsBodyOf reply.now) }
    ensures err { IfErr result (λ f. f ≡ Fault.F20) }
{
    match reply {
        Reply::OfficeMade(office) => single_number(alloc, "office", office.get()),
        Reply::Offices(list) => single(alloc, "offices", array_of(alloc, list.as_slice())?),
        Reply::StaffMade(staff) => single_text(alloc, "staff", staff.text(alloc)?.as_str()),
        Reply::ClientMade(client) => single_text(alloc, "client", client.text(alloc)?.as_str()),
        Reply::ClientShown { client, name } => client_shown(alloc, *client, name),
        Reply::DayShown(day) | Reply::DaySet(day) => {
            single_text(alloc, "day", day.text(alloc)?.as_str())
        }
        Reply::ChargeMade(charge) => single_number(alloc, "charge", *charge),
        Reply::ChargeShown(charge) => charge_shown(alloc, charge),
        Reply::ProductMade(product) | Reply::ProductRetired(product) => {
            single_number(alloc, "product", *product)
        }
        Reply::ProductShown(product) => product_shown(alloc, product),
        Reply::LoanMade(loan) => single_text(alloc, "loan", loan.text(alloc)?.as_str()),
        Reply::Loan { loan, told } => loan_told(alloc, *loan, told),
        Reply::LoansShown(lines) => Ok(Body::Text(loans_text(alloc, lines.as_slice())?)),
        Reply::ArrearsShown(lines) => arrears_shown(alloc, lines.as_slice()),
    }
}

/// The text of a value that has no fraction.
fn text_of(alloc: Global, value: &Value) -> Result<String, AllocError>
    requires { has_float (view value.now) ≡ false }
    ensures { IfOk result (λ s. string_bytes s ≡ compact_text (view value.now)) }
{
    value.to_string(alloc)
}

/// The body of a success: compact JSON, the members of each object in the order of their names.
pub fn body_text(alloc: Global, reply: &Reply) -> Result<String, Fault>
    ensures ok { IfOk result (λ s. string_bytes s ≡ reply_body reply.now) }
    ensures err { IfErr result (λ f. f ≡ Fault.F20) }
{
    let body = reply_body(alloc, reply)?;
    match body {
        Body::Text(text) => Ok(text),
        Body::Value(value) => Ok(text_of(alloc, &value)?),
    }
}

/// The HTTP status of a success.
pub fn status(reply: &Reply) -> u16
    ensures { result ≡ reply_status reply.now }
{
    match reply {
        Reply::OfficeMade(_)
        | Reply::StaffMade(_)
        | Reply::ClientMade(_)
        | Reply::ChargeMade(_)
        | Reply::ProductMade(_)
        | Reply::LoanMade(_) => 201,
        Reply::Offices(_)
        | Reply::ClientShown { .. }
        | Reply::DayShown(_)
        | Reply::DaySet(_)
        | Reply::ChargeShown(_)
        | Reply::ProductShown(_)
        | Reply::ProductRetired(_)
        | Reply::LoansShown(_)
        | Reply::ArrearsShown(_) => 200,
        Reply::Loan { told, .. } => told_status(told),
    }
}

/// The line of a success, whole with its line feed.
pub fn line_text(alloc: Global, reply: &Reply) -> Result<String, Fault>
    ensures ok { IfOk result (λ s. string_bytes s ≡ reply_line (reply_status reply.now) (reply_body reply.now)) }
    ensures err { IfErr result (λ f. f ≡ Fault.F20) }
{
    let body = body_text(alloc, reply)?;
    let status = status(reply);
    Ok(text_in(alloc, body.len() + 5, format_args!("{status} {body}\n"))?)
}
