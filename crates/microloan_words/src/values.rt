//! The values of options, each in its range.

ghost use Rattle.std.specs.Prelude.{◌≡◌, ◌≤◌, ℕ, Bool, codes, Some, IfSome, option_map};
ghost use Rattle.mf_base.specs.DayText.{day_text, last_entered_day};
ghost use Rattle.clap.specs.Words.{first_of, found_of, rows_of};
ghost use Rattle.mf_base.specs.Choices.{frequency_name};
ghost use Rattle.mf_catalog.specs.Names.{method_name};
ghost use Rattle.microloan_words.specs.Asked.{IsNumberAt, IsDayAt, IsCallerAt, IsCountAt, flag_text};
ghost use Rattle.mf_office.specs.declared.caller.Caller.{Caller};
ghost use Rattle.mf_catalog.specs.declared.terms.Method.{Method};
ghost use Rattle.mf_base.specs.declared.day.Freq.{Freq};

use crate::asked::FilePath;
use clap::ArgMatches;
use mf_base::{Choice, Day, Freq};
use mf_catalog::Method;
use mf_office::Caller;

/// The day on which a new institution begins where the words name none.
pub(crate) const DEFAULT_DAY: &str = "2024-01-01";

/// The most seconds that a silent client is waited for.
pub(crate) const MOST_PATIENCE: u32 = 3600;

/// The default day as a day.
pub fn default_day() -> Day
    ensures text { day_text result ≡ codes "2024-01-01" }
    ensures entered { result ≤ last_entered_day }
{
    match Day::parse(DEFAULT_DAY.as_bytes()) {
        Some(day) => day,
        None => unreachable!(),
    }
}

/// The text of an option.
pub(crate) fn text_at<'a>(options: &ArgMatches<'a>, id: &str) -> Option<&'a str>
    ensures { option_map (λ s. s.now) result ≡ first_of id.now (rows_of (found_of options.now)) }
{
    options.get_str(id)
}

/// The number of an option, in its limits.
pub(crate) fn number_at(
    options: &ArgMatches<'_>,
    id: &str,
    least: u64,
    greatest: u64,
) -> Option<u64>
    ensures read { IfSome result (λ n. IsNumberAt (rows_of (found_of options.now)) id.now least greatest n) }
    ensures every { (n : ℕ) → IsNumberAt (rows_of (found_of options.now)) id.now least greatest n → result ≡ Some n }
{
    let number = text_at(options, id)?.parse::<u64>().ok()?;
    if least <= number && number <= greatest {
        Some(number)
    } else {
        None
    }
}

/// A count of an option, in its limits.
pub(crate) fn count_at(options: &ArgMatches<'_>, id: &str, least: u32, greatest: u32) -> Option<u32>
    ensures read { IfSome result (λ n. IsNumberAt (rows_of (found_of options.now)) id.now least greatest n) }
    ensures every { (n : ℕ) → IsNumberAt (rows_of (found_of options.now)) id.now least greatest n → result ≡ Some n }
{
    match number_at(options, id, least as u64, greatest as u64) {
        Some(number) => Some(number as u32),
        None => None,
    }
}

/// Whether a flag is given.
pub(crate) fn flag_at(options: &ArgMatches<'_>, id: &str) -> Option<bool>
    ensures read { IfSome result (λ given. first_of id.now (rows_of (found_of options.now)) ≡ Some (flag_text given)) }
    ensures every { (given : Bool) → first_of id.now (rows_of (found_of options.now)) ≡ Some (flag_text given)
        → result ≡ Some given }
{
    let text = text_at(options, id)?;
    if text == "true" {
        return Some(true);
    }
    if text == "false" {
        return Some(false);
    }
    None
}

/// The method that is asked for.
pub(crate) fn method_at(options: &ArgMatches<'_>) -> Option<Method>
    ensures read { IfSome result (λ method. first_of (codes "method") (rows_of (found_of options.now))
        ≡ Some (method_name method)) }
    ensures every { (method : Method) → first_of (codes "method") (rows_of (found_of options.now))
        ≡ Some (method_name method) → result ≡ Some method }
{
    Method::from_name(text_at(options, "method")?)
}

/// The unit of a period.
pub(crate) fn frequency_at(options: &ArgMatches<'_>) -> Option<Freq>
    ensures read { IfSome result (λ frequency. first_of (codes "frequency") (rows_of (found_of options.now))
        ≡ Some (frequency_name frequency)) }
    ensures every { (frequency : Freq) → first_of (codes "frequency") (rows_of (found_of options.now))
        ≡ Some (frequency_name frequency) → result ≡ Some frequency }
{
    Freq::from_name(text_at(options, "frequency")?)
}

/// The day of an option, where it is one that may be entered.
pub(crate) fn day_at(options: &ArgMatches<'_>, id: &str) -> Option<Day>
    ensures read { IfSome result (λ day. IsDayAt (rows_of (found_of options.now)) id.now day) }
    ensures every { (day : ℕ) → IsDayAt (rows_of (found_of options.now)) id.now day → result ≡ Some day }
{
    Day::parse(text_at(options, id)?.as_bytes())
}

/// The path that an option names, if it is given.
pub(crate) fn path_at<'a>(options: &ArgMatches<'a>, id: &str) -> Option<FilePath<'a>>
    ensures { result ≡ first_of id.now (rows_of (found_of options.now)) }
{
    match text_at(options, id) {
        Some(text) => Some(FilePath::new(text)),
        None => None,
    }
}

/// The path of the file that is named, if one is.
pub(crate) fn file_at<'a>(options: &ArgMatches<'a>) -> Option<FilePath<'a>>
    ensures { result ≡ first_of (codes "file") (rows_of (found_of options.now)) }
{
    path_at(options, "file")
}

/// The port that is asked for.
pub(crate) fn port_at(options: &ArgMatches<'_>) -> Option<u16>
    ensures read { IfSome result (λ port. IsNumberAt (rows_of (found_of options.now)) (codes "port") 1 65535 port) }
    ensures every { (port : ℕ) → IsNumberAt (rows_of (found_of options.now)) (codes "port") 1 65535 port
        → result ≡ Some port }
{
    match number_at(options, "port", 1, 65535) {
        Some(number) => Some(number as u16),
        None => None,
    }
}

/// How many connections are asked for: 0 asks for as many as can be counted.
pub(crate) fn connections_at(options: &ArgMatches<'_>) -> Option<u64>
    ensures read { IfSome result (λ count. IsCountAt (rows_of (found_of options.now)) (codes "count") count) }
    ensures every { (count : ℕ) → IsCountAt (rows_of (found_of options.now)) (codes "count") count
        → result ≡ Some count }
{
    let count = number_at(options, "count", 0, u64::MAX)?;
    Some(if count == 0 { u64::MAX } else { count })
}

/// The member of staff who asks.
pub(crate) fn staff_at(options: &ArgMatches<'_>) -> Option<Caller>
    ensures read { IfSome result (λ staff. IsCallerAt (rows_of (found_of options.now)) (codes "staff") staff) }
    ensures every { (staff : Caller) → IsCallerAt (rows_of (found_of options.now)) (codes "staff") staff
        → result ≡ Some staff }
{
    Caller::parse(text_at(options, "staff")?.as_bytes())
}
