//! The fields of a head that say who asks, how long the body is and what is told of the message.

ghost use Rattle.std.specs.Prelude.{◌≡◌, ℕ, ◌^◌, ◌<◌, ◌≤◌, List, ◌∷◌, [], ◌++◌, length, map, codes, All, IsTrue};
ghost use Rattle.std.specs.Prelude.{IfSome, option_map};
ghost use Rattle.std.specs.List.{list_all};
ghost use Rattle.std.specs.Char.{is_ascii_digit};
ghost use Rattle.std.specs.Str.{all_ascii_digits, str_eq_ignore_ascii_case};
ghost use Rattle.std.specs.Str.Parse.{digits_value};
ghost use Rattle.httparse.specs.Spans.{span_bytes, header_bytes, IsWithin, IsHeaderWithin};
ghost use Rattle.mf_wire_messages.specs.Messages.{values_of, only_value, allowed_length, length_of_digits, body_length};
ghost use Rattle.mf_wire_messages.specs.Messages.{unless_any, frame_of, told_in};
ghost use Rattle.mf_wire_messages.specs.Framing.{FoundIn, frame_at, told_at, IsFoundWithin};

use httparse::spans::{HeaderSpan, Span};
use mf_base::{is_digits, value_of_digits};

/// The longest body, in bytes.
pub const LONGEST_BODY: u64 = 1 << 20;

/// How often a field stands in a head.
#[derive(Clone, Copy)]
pub enum Found {
    Nothing,
    Once(Span),
    Often,
}

/// What a head says of its message.
#[derive(Clone, Copy)]
pub struct Frame {
    /// Who asks.
    pub staff: Span,
    /// The length of the body.
    pub length: usize,
}

fn is_named(name: &[u8], wanted: &[u8]) -> bool
    ensures { result ≡ str_eq_ignore_ascii_case name.now wanted.now }
{
    name.eq_ignore_ascii_case(wanted)
}

/// What is found with one more value after the others.
fn with_one_more(found: Found, value: Span) -> Found
    ensures { (bytes : List ℕ) → (values : List (List ℕ)) → IsWithin (length bytes) value → FoundIn bytes found values
        → FoundIn bytes result (values ++ span_bytes bytes value ∷ []) }
{
    match found {
        Found::Nothing => Found::Once(value),
        Found::Once(_) | Found::Often => Found::Often,
    }
}

fn find_field(head: &[u8], fields: &[HeaderSpan], name: &[u8]) -> Found
    requires { All (IsHeaderWithin (length head.now)) fields.now }
    ensures { FoundIn head.now result (values_of name.now (map (header_bytes head.now) fields.now)) }
{
    let mut found = Found::Nothing;
    for field in fields {
        if is_named(field.name.of(head), name) {
            found = with_one_more(found, field.value);
        }
    }
    found
}

/// The length of a body that 1 to 10 digits write, where one may be so long.
fn parse_length(text: &[u8]) -> Option<usize>
    ensures value { result ≡ length_of_digits text.now }
    ensures bound { IfSome result (λ n. n ≤ 1048576) }
{
    if text.is_empty() || text.len() > 10 || !is_digits(text) {
        return None;
    }
    let length = value_of_digits(text);
    if length <= LONGEST_BODY {
        Some(length as usize)
    } else {
        None
    }
}

/// The length of the body by what is found of it.
fn length_found(head: &[u8], found: Found) -> Option<usize>
    requires { (values : List (List ℕ)) × FoundIn head.now found values }
    ensures value { (values : List (List ℕ)) → FoundIn head.now found values → result ≡ body_length values }
    ensures bound { IfSome result (λ n. n ≤ 1048576) }
{
    match found {
        Found::Nothing => Some(0),
        Found::Once(value) => parse_length(value.of(head)),
        Found::Often => None,
    }
}

/// What the fields of a head say of its message, where they are in order.
pub fn find_frame(head: &[u8], fields: &[HeaderSpan]) -> Option<Frame>
    requires { All (IsHeaderWithin (length head.now)) fields.now }
    ensures value { option_map (frame_at head.now) result ≡ frame_of (map (header_bytes head.now) fields.now) }
    ensures within { IfSome result (λ frame. IsWithin (length head.now) frame.staff) }
    ensures bound { IfSome result (λ frame. frame.length ≤ 1048576) }
{
    let Found::Nothing = find_field(head, fields, b"transfer-encoding") else {
        return None;
    };
    let Found::Once(staff) = find_field(head, fields, b"x-staff") else {
        return None;
    };
    let found = find_field(head, fields, b"content-length");
    let Some(length) = length_found(head, found) else {
        return None;
    };
    Some(Frame { staff, length })
}

/// Where what is told of a message stands in its head.
pub fn find_told(head: &[u8], fields: &[HeaderSpan]) -> Found
    requires { All (IsHeaderWithin (length head.now)) fields.now }
    ensures value { told_at head.now result ≡ told_in (map (header_bytes head.now) fields.now) }
    ensures within { IsFoundWithin (length head.now) result }
{
    find_field(head, fields, b"x-told")
}
