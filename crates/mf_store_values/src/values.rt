//! What the tables' values stand for. One that stands for nothing is F20.

ghost use Rattle.std.specs.Prelude.{◌≡◌, ◌≢◌, ℕ, pos, None, Some, IfOk, IfErr};
ghost use Rattle.mf_base.specs.declared.fault.Fault.TheVariants.{F20};

use crate::numbers::amount_from;
use mf_base::Fault;

/// What a value stands for, if for anything.
pub fn or_give_up<T>(meant: Option<T>) -> Result<T, Fault>
    ensures value { IfOk result (λ x. meant ≡ Some x) }
    ensures none { IfErr result (λ _. meant ≡ None) }
    ensures gives_up { IfErr result (λ fault. fault ≡ F20) }
{
    match meant {
        Some(x) => Ok(x),
        None => Err(Fault::F20),
    }
}

/// The amount that the tables keep; F20 where they keep none, as a negative number is.
pub(crate) fn to_unsigned(number: i64) -> Result<u64, Fault>
    ensures amount { IfOk result (λ amount. pos amount ≡ number) }
    ensures none { IfErr result (λ _. (amount : ℕ) → pos amount ≢ number) }
    ensures gives_up { IfErr result (λ fault. fault ≡ F20) }
{
    or_give_up(amount_from(number))
}
