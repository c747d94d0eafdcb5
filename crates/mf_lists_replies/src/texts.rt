//! Account numbers, days and numbers as JSON.

ghost use Rattle.std.specs.Prelude.{◌≡◌, IfOk, IfErr, string_bytes};
ghost use Rattle.json.specs.Print.{quoted};
ghost use Rattle.serde_json.specs.Written.{compact_text};
ghost use Rattle.mf_base.specs.DayText.{day_text};
ghost use Rattle.mf_office.specs.Written.{account_text, caller_text};
ghost use Rattle.mf_wire_replies.specs.Json.{whole_or_null};

use mf_base::{Day, Fault};
use mf_office::{Account, AccountNo, Caller, OfficeNo};
use mf_wire_replies::quoted_text;
use std::alloc::{AllocError, Global};

/// The text of an account, by its office and its number there, in quotes.
pub fn quoted_account(alloc: Global, office: OfficeNo, number: AccountNo) -> Result<String, Fault>
    ensures ok { IfOk result (λ s. string_bytes s ≡ quoted (account_text office number)) }
    ensures err { IfErr result (λ f. f ≡ Fault.F20) }
{
    let account = Account { office, number }.text(alloc)?;
    Ok(quoted_text(alloc, account.as_str())?)
}

/// The text of a member of staff, in quotes.
pub fn quoted_caller(alloc: Global, caller: Caller) -> Result<String, Fault>
    ensures ok { IfOk result (λ s. string_bytes s ≡ quoted (caller_text caller.office caller.staff)) }
    ensures err { IfErr result (λ f. f ≡ Fault.F20) }
{
    let text = caller.text(alloc)?;
    Ok(quoted_text(alloc, text.as_str())?)
}

/// The text of a day, in quotes.
pub fn quoted_day(alloc: Global, day: Day) -> Result<String, Fault>
    ensures ok { IfOk result (λ s. string_bytes s ≡ quoted (day_text day)) }
    ensures err { IfErr result (λ f. f ≡ Fault.F20) }
{
    let day = day.text(alloc)?;
    Ok(quoted_text(alloc, day.as_str())?)
}

/// A number, or null where there is none.
pub fn whole_or_null(alloc: Global, number: Option<u64>) -> Result<String, AllocError>
    ensures { IfOk result (λ s. string_bytes s ≡ compact_text (whole_or_null number)) }
{
    match number {
        Some(number) => format!(in alloc; "{number}"),
        None => String::from_str(alloc, "null"),
    }
}
