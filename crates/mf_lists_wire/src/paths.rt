//! The parts of a path, which stand between slashes, and what they write.

ghost use Rattle.std.specs.Prelude.{◌≡◌, ◌≤◌, length, option_map, IfSome, IsTrue};
ghost use Rattle.std.specs.Str.{all_ascii_digits};
ghost use Rattle.std.specs.Str.Parse.{digits_value};
ghost use Rattle.mf_base.specs.DayText.{last_entered_day};
ghost use Rattle.mf_wire_requests.specs.Bodies.{day_named};
ghost use Rattle.mf_lists_wire.specs.Paths.{first_part, last_part, two_parts, three_parts, four_parts};
ghost use Rattle.mf_lists_wire.specs.Paths.{number_between, principal_written};

use mf_base::{Day, is_digits, parse_digits, split_once};
use mf_catalog::GREATEST_AMOUNT;

/// What stands between two parts.
pub const SLASH: u8 = b'/';

/// The first part of a text, and what stands behind its slash. None where there is no slash or the part is empty.
fn first_part(text: &[u8]) -> Option<(&[u8], &[u8])>
    ensures { option_map (λ p. (p.0.now, p.1.now)) result ≡ first_part text.now }
{
    let (first, rest) = split_once(text, SLASH)?;
    if first.is_empty() {
        return None;
    }
    Some((first, rest))
}

/// A text that is one part. None where it has a slash or is empty.
pub fn last_part(text: &[u8]) -> Option<&[u8]>
    ensures { option_map (λ p. p.now) result ≡ last_part text.now }
{
    if text.is_empty() || split_once(text, SLASH).is_some() {
        return None;
    }
    Some(text)
}

/// The parts of a text that has two.
pub fn two_parts(text: &[u8]) -> Option<(&[u8], &[u8])>
    ensures { option_map (λ p. (p.0.now, p.1.now)) result ≡ two_parts text.now }
{
    let (first, rest) = first_part(text)?;
    let second = last_part(rest)?;
    Some((first, second))
}

/// The first part of a text that has three, and the others.
pub fn three_parts(text: &[u8]) -> Option<(&[u8], (&[u8], &[u8]))>
    ensures { option_map (λ p. (p.0.now, (p.1.0.now, p.1.1.now))) result ≡ three_parts text.now }
{
    let (first, rest) = first_part(text)?;
    let (second, third) = two_parts(rest)?;
    Some((first, (second, third)))
}

/// The first two parts of a text that has four, and the others.
pub fn four_parts(text: &[u8]) -> Option<((&[u8], &[u8]), (&[u8], &[u8]))>
    ensures { option_map (λ p. ((p.0.0.now, p.0.1.now), (p.1.0.now, p.1.1.now))) result ≡ four_parts text.now }
{
    let (first, rest) = first_part(text)?;
    let (second, (third, fourth)) = three_parts(rest)?;
    Some(((first, second), (third, fourth)))
}

/// The number that 1 to 9 digits write, where it lies from a least to a greatest.
pub fn number_between(text: &[u8], least: u32, greatest: u32) -> Option<u32>
    ensures { result ≡ number_between least greatest text.now }
{
    let number = parse_digits(text)?;
    if least <= number && number <= greatest {
        Some(number)
    } else {
        None
    }
}

/// The number that up to 13 digits are.
fn value_of(digits: &[u8]) -> u64
    requires digits { IsTrue (all_ascii_digits digits.now) }
    requires short { length digits.now ≤ 13 }
    ensures { result ≡ digits_value 10 digits.now }
{
    let mut value = 0;
    for digit in digits {
        value = 10 * value + u64::from(digit - b'0');
    }
    value
}

/// The amount in whole cents that 1 to 13 digits write, where a loan may have it as its principal.
pub fn amount(text: &[u8]) -> Option<u64>
    ensures { result ≡ principal_written text.now }
{
    if text.is_empty() || text.len() > 13 || !is_digits(text) {
        return None;
    }
    let cents = value_of(text);
    if 1 <= cents && cents <= GREATEST_AMOUNT {
        Some(cents)
    } else {
        None
    }
}

/// The day of a text, where it may be entered.
pub fn day(text: &[u8]) -> Option<Day>
    ensures value { result ≡ day_named text.now }
    ensures in_range { IfSome result (λ day. day ≤ last_entered_day) }
{
    Day::parse(text)
}
