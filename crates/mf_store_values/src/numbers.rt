//! What numbers of rows stand for beside choices, where None is for a number that stands for nothing; and amounts as
//! rows keep them.

ghost use Rattle.std.specs.Prelude.{◌≡◌, ◌≤◌, ◌^◌, ℕ, pos, Bool, Some, IfSome, IfOk, IfErr};
ghost use Rattle.mf_base.specs.declared.fault.Fault.TheVariants.{F20};
ghost use Rattle.mf_store_values.specs.Flat.{flag_number};

use mf_base::Fault;

/// Yes or no, by its number.
pub fn flag_from(number: u32) -> Option<bool>
    ensures some { IfSome result (λ flag. flag_number flag ≡ number) }
    ensures every { (flag : Bool) → flag_number flag ≡ number → result ≡ Some flag }
{
    match number {
        0 => Some(false),
        1 => Some(true),
        _ => None,
    }
}

/// The amount in cents that a signed number of a row is.
pub fn amount_from(number: i64) -> Option<u64>
    ensures some { IfSome result (λ amount. pos amount ≡ number) }
    ensures every { (amount : ℕ) → pos amount ≡ number → result ≡ Some amount }
{
    if number >= 0 {
        Some(number as u64)
    } else {
        None
    }
}

/// An amount in cents as rows keep it. One that 63 bits don't hold is F20.
pub fn to_signed(amount: u64) -> Result<i64, Fault>
    ensures amount { IfOk result (λ n. n ≡ pos amount) }
    ensures too_great { IfErr result (λ _. 2 ^ 63 ≤ amount) }
    ensures gives_up { IfErr result (λ fault. fault ≡ F20) }
{
    match i64::try_from(amount) {
        Ok(number) => Ok(number),
        Err(_) => Err(Fault::F20),
    }
}
