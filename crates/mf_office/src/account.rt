//! The numbers of clients and loans, and their texts with the office's number.

ghost use Rattle.std.specs.Prelude.{◌≡◌, ◌↔◌, ℕ, Some, string_bytes, IfOk, IfSome, IsOkUnless};
ghost use Rattle.mf_office.specs.Numbers.{IsNumberUpTo, number_up_to};

use crate::digits::padded_number;
use crate::office::OfficeNo;
use mf_base::{Fault, split_once};
use std::alloc::Global;
use std::marker::Model;

/// The number of a client or a loan within its office, from 1 to 999999. Clients and loans are numbered apart.
#[derive(Clone, Copy, PartialEq, Eq)]
pub struct AccountNo {
    value: u32,
}

impl Model for AccountNo {
    ghost Value = { ℕ };

    ghost view = { λ number. number.value };

    ghost invariant = { λ number. IsNumberUpTo 999999 number.value };

    ghost inverse = { λ n. record { value = n } };
}

impl AccountNo {
    /// The greatest number of a client or a loan.
    pub const MAX: u32 = 999999;

    /// The number, where it is one of 1 to 999999.
    pub fn new(number: u32) -> Option<AccountNo>
        ensures { result ≡ number_up_to 999999 number }
    {
        if number >= 1 && number <= AccountNo::MAX {
            Some(AccountNo { value: number })
        } else {
            None
        }
    }

    /// The number as it is.
    pub fn get(self) -> u32
        ensures value { result ≡ self }
        ensures in_range { IsNumberUpTo 999999 result }
    {
        self.value
    }
}

/// A client or a loan, by its office and its number there.
#[derive(Clone, Copy, PartialEq, Eq)]
pub struct Account {
    /// The office that it belongs to.
    pub office: OfficeNo,
    /// The number within that office.
    pub number: AccountNo,
}

impl Account {
    ghost use Rattle.mf_office.specs.Written.{account_text};
    ghost use Rattle.mf_office.specs.Texts.{IsAccount, account_of};

    /// The account whose text this is: the office's number in four digits, a dash and the number in six, as in
    /// `0001-000001`, neither of them 0. On any other text None. It takes no memory.
    #[tactic(auto, unfolding(crate::specs::Texts::account_of))]
    pub fn parse(text: &[u8]) -> Option<Account>
        ensures value { result ≡ account_of text.now }
        ensures in_range { IfSome result IsAccount }
        ensures exact { (account : Account) → IsAccount account → (result ≡ Some account)
            ↔ (text.now ≡ account_text account.office account.number) }
    {
        let (office, number) = split_once(text, b'-')?;
        let office = OfficeNo::new(padded_number(office, 4)?)?;
        let number = AccountNo::new(padded_number(number, 6)?)?;
        Some(Account { office, number })
    }

    /// The text that `parse` reads. Its only error is F20.
    pub fn text(self, alloc: Global) -> Result<String, Fault>
        ensures text { IfOk result (λ text. string_bytes text ≡ account_text self.office self.number) }
        ensures reads_back { IfOk result (λ text. account_of (string_bytes text) ≡ Some self) }
        ensures err { IsOkUnless result Fault.F20 }
    {
        let office = self.office.get();
        let number = self.number.get();
        let text = format!(in alloc; "{office:04}-{number:06}")?;
        Ok(text)
    }
}
