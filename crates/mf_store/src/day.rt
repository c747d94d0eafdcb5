//! Days by their numbers, as a journal keeps them.

ghost use Rattle.std.specs.Prelude.{◌≡◌, ◌≤◌, IfOk, IfErr, IfSome, IfNone};
ghost use Rattle.mf_base.specs.declared.fault.Fault.TheVariants.{F20};
ghost use Rattle.mf_base.specs.DayText.{last_entered_day};

use mf_base::{Day, Fault, Freq};

/// The number of the last day that may be entered, 31 December 2099.
const LAST_ENTERED_NUMBER: u64 = 36_524;

/// The day of a number, so many weeks after one of the first seven; none where it may not be entered. The error is F20.
pub fn day_of_number(number: u64) -> Result<Option<Day>, Fault>
    ensures some { IfOk result (λ x. IfSome x (λ day. (day ≡ number) × (day ≤ last_entered_day))) }
    ensures none { IfOk result (λ x. IfNone x (¬ (number ≤ last_entered_day))) }
    ensures gives_up { IfErr result (λ fault. fault ≡ F20) }
{
    if number > LAST_ENTERED_NUMBER {
        return Ok(None);
    }
    let mut text = *b"2000-01-01";
    text[9] = b'1' + (number % 7) as u8;
    let Some(start) = Day::parse(&text) else {
        return Err(Fault::F20);
    };
    let day = start.after(Freq::Weeks, (number / 7) as u32);
    if u64::from(day.number()) != number {
        return Err(Fault::F20);
    }
    Ok(Some(day))
}
