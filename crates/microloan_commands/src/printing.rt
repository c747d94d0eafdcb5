//! The schedule that words ask for, as text.

ghost use Rattle.std.specs.Prelude.{◌≡◌, ◌≤◌, ◌⊎◌, IfOk, IfErr, string_bytes};
ghost use Rattle.mf_base.specs.DayText.{last_entered_day};
ghost use Rattle.mf_base.specs.declared.fault.Fault.TheVariants.{F8, F20};
ghost use Rattle.microloan_words.specs.Asked.{IsWithinLimits};
ghost use Rattle.microloan_commands.specs.Printed.{terms_asked, printed_schedule, HasLongGrace};

use mf_base::Fault;
use mf_catalog::{StrategyName, Terms};
use mf_schedule::{fresh, schedule_text};
use microloan_words::ScheduleWords;
use std::alloc::Global;

/// The terms that the words name, without charges.
fn terms_of(asked: &ScheduleWords) -> Terms
    ensures { result ≡ terms_asked asked.now }
{
    Terms {
        method: asked.method,
        rate: asked.rate,
        freq: asked.frequency,
        every: asked.every,
        principal_grace: asked.principal_grace,
        interest_grace: asked.interest_grace,
        strategy: StrategyName::MifosStandard,
        disbursement: None,
        instalment: None,
        overdue: None,
    }
}

/// The text of the schedule that the words ask for.
///
/// F8 where a grace is not below the number of instalments, and F20 when out of memory.
pub fn schedule(alloc: Global, asked: &ScheduleWords) -> Result<String, Fault>
    requires { IsWithinLimits asked.now }
    ensures text { IfOk result (λ text. string_bytes text ≡ printed_schedule asked.now) }
    ensures long_grace { HasLongGrace asked.now → result ≡ Err F8 }
    ensures refused { IfErr result (λ fault. ((fault ≡ F8) × HasLongGrace asked.now) ⊎ (fault ≡ F20)) }
{
    if asked.periods <= asked.principal_grace || asked.periods <= asked.interest_grace {
        return Err(Fault::F8);
    }
    let terms = terms_of(asked);
    let rows = fresh(alloc, &terms, asked.principal, asked.periods, asked.day)?;
    schedule_text(alloc, &rows)
}
