//! What the parameters of a path name: accounts, and the numbers that they write.

ghost use Rattle.std.specs.Prelude.{◌≤◌, IfOk};
ghost use Rattle.matchit.specs.Params.{AllText};
ghost use Rattle.mf_office.specs.Texts.{IsAccount};
ghost use Rattle.mf_wire_requests.specs.Bodies.{Reads};
ghost use Rattle.mf_wire_requests.specs.PathParts.{parts_of_params, number_in, account_number_in};

use matchit::Params;
use mf_base::{Fault, parse_digits};
use mf_office::Account;

/// The account that a parameter of a path names. `F1` where it names none.
pub fn account(params: &Params<'_, '_>, name: &str) -> Result<Account, Fault>
    requires { AllText (parts_of_params params.now) }
    ensures value { Reads (account_number_in name.now (parts_of_params params.now)) result }
    ensures in_range { IfOk result IsAccount }
{
    let text = params.get(name).ok_or(Fault::F1)?;
    Account::parse(text.as_bytes()).ok_or(Fault::F1)
}

/// The number that a parameter of a path writes. `F1` where it writes none.
pub fn number(params: &Params<'_, '_>, name: &str) -> Result<u32, Fault>
    requires { AllText (parts_of_params params.now) }
    ensures value { Reads (number_in name.now (parts_of_params params.now)) result }
    ensures in_range { IfOk result (λ n. n ≤ 999999999) }
{
    let text = params.get(name).ok_or(Fault::F1)?;
    parse_digits(text.as_bytes()).ok_or(Fault::F1)
}
