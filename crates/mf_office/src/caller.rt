//! Who sends a request: a member of an office's staff.

ghost use Rattle.std.specs.Prelude.{◌≡◌, ◌↔◌, Some, string_bytes, IfOk, IfSome, IsOkUnless};

use crate::digits::plain_number;
use crate::office::OfficeNo;
use crate::staff::StaffNo;
use mf_base::{Fault, split_once};
use std::alloc::Global;

/// Who sends a request: a staff member of an office.
#[derive(Clone, Copy, PartialEq, Eq, Debug)]
pub struct Caller {
    /// The staff member's office.
    pub office: OfficeNo,
    /// The number within that office.
    pub staff: StaffNo,
}

impl Caller {
    ghost use Rattle.mf_office.specs.Written.{caller_text};
    ghost use Rattle.mf_office.specs.Texts.{IsCaller, caller_of};

    /// The caller whose text this is: the office's number, a slash and the staff member's number, each from 1 to 9999
    /// and without leading zeros, as in `7/3`. On any other text None. It takes no memory.
    #[tactic(auto, unfolding(crate::specs::Texts::caller_of))]
    pub fn parse(text: &[u8]) -> Option<Caller>
        ensures value { result ≡ caller_of text.now }
        ensures in_range { IfSome result IsCaller }
        ensures exact { (caller : Caller) → IsCaller caller → (result ≡ Some caller)
            ↔ (text.now ≡ caller_text caller.office caller.staff) }
    {
        let (office, staff) = split_once(text, b'/')?;
        let office = OfficeNo::new(plain_number(office)?)?;
        let staff = StaffNo::new(plain_number(staff)?)?;
        Some(Caller { office, staff })
    }

    /// The text that `parse` reads. Its only error is F20.
    pub fn text(self, alloc: Global) -> Result<String, Fault>
        ensures text { IfOk result (λ text. string_bytes text ≡ caller_text self.office self.staff) }
        ensures reads_back { IfOk result (λ text. caller_of (string_bytes text) ≡ Some self) }
        ensures err { IsOkUnless result Fault.F20 }
    {
        let office = self.office.get();
        let staff = self.staff.get();
        let text = format!(in alloc; "{office}/{staff}")?;
        Ok(text)
    }
}
