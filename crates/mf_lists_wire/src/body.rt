//! The body of a request, as JSON.

ghost use Rattle.std.specs.Prelude.{◌≡◌, ◌<◌, ◌⊎◌, None, Some, IfOk, IfErr, length, option_map};
ghost use Rattle.serde_json.specs.View.{view};
ghost use Rattle.mf_wire_requests.specs.Bodies.{Copies, json_of, name_at, office_number_at, text_at, whole_at};

use mf_base::{Fault, Name};
use mf_model::is_name;
use mf_office::OfficeNo;
use serde_json::Value;
use std::alloc::Global;

/// The value of a body's text. F1 where it is no JSON. An empty body is none, and takes no memory.
pub fn json(alloc: Global, body: &[u8]) -> Result<Value, Fault>
    ensures ok { IfOk result (λ v. json_of body.now ≡ Some (view v)) }
    ensures err { IfErr result (λ f. ((f ≡ Fault.F20) × (0 < length body.now))
        ⊎ ((f ≡ Fault.F1) × (json_of body.now ≡ None))) }
    ensures some { IfOk result (λ _. 0 < length body.now) }
{
    match Value::from_slice(alloc, body) {
        Ok(value) => Ok(value),
        Err(e) if e.is_memory() => Err(Fault::F20),
        Err(_) => Err(Fault::F1),
    }
}

/// A member that is a whole number of at least 0.
fn whole(body: &Value, name: &str) -> Option<u64>
    ensures { result ≡ whole_at name.now (view body.now) }
{
    body.get(name)?.as_u64()
}

/// A member that is a text.
fn text<'b>(body: &'b Value, name: &str) -> Option<&'b str>
    ensures { option_map (λ s. s.now) result ≡ text_at name.now (view body.now) }
{
    body.get(name)?.as_str()
}

/// A member that is an office's number.
pub fn office(body: &Value, member: &str) -> Option<OfficeNo>
    ensures { result ≡ office_number_at member.now (view body.now) }
{
    let number = whole(body, member)?;
    if number <= 9999 {
        OfficeNo::new(number as u32)
    } else {
        None
    }
}

/// A member that could be a name.
pub fn name(alloc: Global, body: &Value, member: &str) -> Result<Name, Fault>
    ensures { Copies (name_at member.now (view body.now)) result }
{
    let name = text(body, member).ok_or(Fault::F1)?;
    if !is_name(name) {
        return Err(Fault::F1);
    }
    Ok(Name::new(String::from_str(alloc, name)?))
}
