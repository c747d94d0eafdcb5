//! A schedule as text, in fixed columns.

ghost use Rattle.std.specs.Prelude.{◌≡◌, ◌+◌, ◌<◌, ◌^◌, ◌++◌, IfOk, IsOkUnless, OnOk};
ghost use Rattle.std.specs.String.{string_bytes};
ghost use Rattle.mf_schedule.specs.ScheduleText.{amounts_text, row_line, schedule_text};

use crate::instalment::FreshInstalment;
use mf_base::{Fault, money_text, push_right};
use std::alloc::Global;

/// Writes principal, interest and both together as money, and ends the line.
fn push_amounts(
    alloc: Global,
    text: &mut String,
    principal: u128,
    interest: u128,
) -> Result<(), Fault>
    requires { principal + interest < 2 ^ 128 }
    ensures ok { OnOk result (string_bytes text.new ≡ string_bytes text.old ++ amounts_text principal interest) }
    ensures err { IsOkUnless result Fault.F20 }
{
    push_right(text, 18, money_text(alloc, principal)?.as_str())?;
    push_right(text, 18, money_text(alloc, interest)?.as_str())?;
    push_right(text, 18, money_text(alloc, principal + interest)?.as_str())?;
    text.push('\n')?;
    Ok(())
}

/// Writes the line of an instalment.
fn push_row(
    alloc: Global,
    text: &mut String,
    number: usize,
    row: FreshInstalment,
) -> Result<(), Fault>
    ensures ok { OnOk result (string_bytes text.new ≡ string_bytes text.old ++ row_line number row) }
    ensures err { IsOkUnless result Fault.F20 }
{
    push_right(text, 3, number.to_string(alloc)?.as_str())?;
    text.push(' ')?;
    text.push_str(row.due.text(alloc)?.as_str())?;
    push_amounts(alloc, text, row.principal as u128, row.interest as u128)
}

/// A schedule as a text: a line an instalment with its number, its due day, principal, interest and both together,
/// and a last line of their sums. Amounts are money texts; fees are not shown.
///
/// The only error is F20, out of memory.
pub fn schedule_text(alloc: Global, rows: &[FreshInstalment]) -> Result<String, Fault>
    ensures ok { IfOk result (λ text. string_bytes text ≡ schedule_text rows.now) }
    ensures err { IsOkUnless result Fault.F20 }
{
    let mut text = String::new(alloc);
    let mut principal = 0;
    let mut interest = 0;
    for (place, row) in rows.iter().enumerate() {
        push_row(alloc, &mut text, place + 1, *row)?;
        principal += row.principal as u128;
        interest += row.interest as u128;
    }
    text.push_str("sum           ")?;
    push_amounts(alloc, &mut text, principal, interest)?;
    Ok(text)
}
