//! The numbers that come next.

ghost use Rattle.std.specs.Prelude.{◌≡◌, IfErr};
ghost use Rattle.mf_model.specs.Outcomes.{next_of};

use mf_base::Fault;
use mf_model::MOST_IN_CATALOGUE;
use mf_office::{AccountNo, StaffNo, next_number};

/// The number of the next charge or product; F18 where the catalogue has 999.
pub fn next_in_catalogue(used: u32) -> Result<u32, Fault>
    ensures value { result ≡ next_of used 999 }
    ensures refusal { IfErr result (λ f. f ≡ Fault.F18) }
{
    next_number(used, MOST_IN_CATALOGUE)
}

/// The number of the next member of staff; F18 where the office has 9,999.
pub fn next_staff(used: u32) -> Result<StaffNo, Fault>
    ensures value { result ≡ next_of used 9999 }
    ensures refusal { IfErr result (λ f. f ≡ Fault.F18) }
{
    StaffNo::new(next_number(used, StaffNo::MAX)?).ok_or(Fault::F18)
}

/// The number of the next client or loan; F18 where the office has 999,999 of them.
pub fn next_account(used: u32) -> Result<AccountNo, Fault>
    ensures value { result ≡ next_of used 999999 }
    ensures refusal { IfErr result (λ f. f ≡ Fault.F18) }
{
    AccountNo::new(next_number(used, AccountNo::MAX)?).ok_or(Fault::F18)
}
