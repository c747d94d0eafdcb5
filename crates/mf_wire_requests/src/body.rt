//! A request's body, as JSON.

ghost use Rattle.std.specs.Prelude.{◌≡◌, ◌≤◌, ◌<◌, ◌⊎◌, Some, None, IfOk, IfErr, IfSome, length, option_map};
ghost use Rattle.serde_json.specs.View.{view};
ghost use Rattle.mf_wire_requests.specs.Bodies.{json_of, whole_at, text_at, name_at, office_number_at};
ghost use Rattle.mf_wire_requests.specs.Bodies.{within, number_at, present_at, optional_receipt_at};
ghost use Rattle.mf_wire_requests.specs.Bodies.{optional_number_at, account_number_at, day_named, day_at};
ghost use Rattle.mf_wire_requests.specs.Bodies.{Copies, CopiesText};
ghost use Rattle.mf_wire_requests.specs.Named.{choice_at};
ghost use Rattle.mf_model.specs.Sound.{IsName};
ghost use Rattle.mf_office.specs.Texts.{IsAccount};
ghost use Rattle.mf_account.specs.Receipts.{IsReceipt};
ghost use Rattle.mf_base.specs.DayText.{last_entered_day};

use mf_account::{Receipt, is_receipt};
use mf_base::{Choice, Day, Fault};
use mf_model::is_name;
use mf_office::{Account, Name, OfficeNo};
use serde_json::Value;
use std::alloc::Global;

/// The greatest number of a charge, a product or an instalment that a body may name: it has nine digits, as in paths.
pub const GREATEST_NUMBER: u32 = 999_999_999;

/// The value of a body's text. `F1` where it is no JSON. An empty body is none, and takes no memory.
pub fn json(alloc: Global, body: &[u8]) -> Result<Value, Fault>
    ensures ok { IfOk result (λ v. json_of body.now ≡ Some (view v)) }
    ensures err { IfErr result (λ f. ((f ≡ Fault.F20) × (0 < length body.now))
        ⊎ ((f ≡ Fault.F1) × (json_of body.now ≡ None))) }
    ensures some { IfOk result (λ _. 0 < length body.now) }
{
    match Value::from_slice(alloc, body) {
        Ok(value) => Ok(value),
        Err(e) if e.is_memory() => Err(Fault::F20),
        Err(_) => Err(Fault::F1),
    }
}

/// A member that is a whole number of at least 0.
pub fn whole(body: &Value, name: &str) -> Option<u64>
    ensures { result ≡ whole_at name.now (view body.now) }
{
    body.get(name)?.as_u64()
}

/// A member that is a text.
pub fn text<'b>(body: &'b Value, name: &str) -> Option<&'b str>
    ensures { option_map (λ s. s.now) result ≡ text_at name.now (view body.now) }
{
    body.get(name)?.as_str()
}

/// A member that names a choice.
pub fn choice<C: Choice>(body: &Value, member: &str) -> Option<C>
    ensures { result ≡ choice_at C.name_of C.choices member.now (view body.now) }
{
    C::from_name(text(body, member)?)
}

/// A member that is a name.
pub fn name(alloc: Global, body: &Value, member: &str) -> Result<Name, Fault>
    ensures value { Copies (name_at member.now (view body.now)) result }
    ensures in_range { IfOk result IsName }
{
    let name = text(body, member).ok_or(Fault::F1)?;
    if !is_name(name) {
        return Err(Fault::F1);
    }
    Ok(Name::new(String::from_str(alloc, name)?))
}

/// A member that is an office's number.
pub fn office(body: &Value, member: &str) -> Option<OfficeNo>
    ensures { result ≡ office_number_at member.now (view body.now) }
{
    let number = whole(body, member)?;
    if number <= 9999 {
        OfficeNo::new(number as u32)
    } else {
        None
    }
}

/// The number, where it lies from the least to the greatest.
fn within(number: u64, least: u64, greatest: u64) -> Option<u64>
    ensures value { result ≡ within least greatest number }
    ensures least { IfSome result (λ n. least ≤ n) }
    ensures greatest { IfSome result (λ n. n ≤ greatest) }
{
    if least <= number && number <= greatest {
        Some(number)
    } else {
        None
    }
}

/// A member that is a whole number from a least to a greatest, in 64 bits.
pub fn long_number(body: &Value, member: &str, least: u64, greatest: u64) -> Option<u64>
    ensures value { result ≡ number_at least greatest member.now (view body.now) }
    ensures least { IfSome result (λ n. least ≤ n) }
    ensures greatest { IfSome result (λ n. n ≤ greatest) }
{
    within(whole(body, member)?, least, greatest)
}

/// A member that is a whole number from a least to a greatest, in 32 bits.
pub fn number(body: &Value, member: &str, least: u32, greatest: u32) -> Option<u32>
    ensures value { result ≡ number_at least greatest member.now (view body.now) }
    ensures least { IfSome result (λ n. least ≤ n) }
    ensures greatest { IfSome result (λ n. n ≤ greatest) }
{
    let number = long_number(body, member, least as u64, greatest as u64)?;
    Some(number as u32)
}

/// A member that is neither absent nor null.
fn present<'b>(body: &'b Value, member: &str) -> Option<&'b Value>
    ensures { option_map (λ v. view v.now) result ≡ present_at member.now (view body.now) }
{
    let value = body.get(member)?;
    if value.is_null() { None } else { Some(value) }
}

/// A member that may be absent or null, and else is a whole number up to a greatest. None is for any other member.
pub fn optional_number(body: &Value, member: &str, greatest: u32) -> Option<Option<u32>>
    ensures { result ≡ optional_number_at greatest member.now (view body.now) }
{
    let Some(value) = present(body, member) else {
        return Some(None);
    };
    let number = within(value.as_u64()?, 0, greatest as u64)?;
    Some(Some(number as u32))
}

/// A member that may be absent or null, and else is a receipt. `F1` is for any other member.
pub fn receipt(alloc: Global, body: &Value, member: &str) -> Result<Option<Receipt>, Fault>
    ensures value { CopiesText (optional_receipt_at member.now (view body.now)) result }
    ensures in_range { IfOk result (λ receipt. IfSome receipt IsReceipt) }
{
    let Some(value) = present(body, member) else {
        return Ok(None);
    };
    let text = value.as_str().ok_or(Fault::F1)?;
    if !is_receipt(text.as_bytes()) {
        return Err(Fault::F1);
    }
    Ok(Some(Receipt::new(String::from_str(alloc, text)?)))
}

/// A member that is an account's text.
pub fn account(body: &Value, member: &str) -> Option<Account>
    ensures value { result ≡ account_number_at member.now (view body.now) }
    ensures in_range { IfSome result IsAccount }
{
    Account::parse(text(body, member)?.as_bytes())
}

fn day_of_text(text: &[u8]) -> Option<Day>
    ensures value { result ≡ day_named text.now }
    ensures in_range { IfSome result (λ day. day ≤ last_entered_day) }
{
    Day::parse(text)
}

/// A member that is the text of a day that may be entered.
pub fn day(body: &Value, member: &str) -> Option<Day>
    ensures value { result ≡ day_at member.now (view body.now) }
    ensures in_range { IfSome result (λ day. day ≤ last_entered_day) }
{
    day_of_text(text(body, member)?.as_bytes())
}
