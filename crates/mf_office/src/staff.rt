//! Members of staff, their numbers and roles.

ghost use Rattle.std.specs.Prelude.{◌≡◌, ℕ};
ghost use Rattle.mf_office.specs.Numbers.{IsNumberUpTo, number_up_to};

use crate::office::OfficeNo;
use mf_base::Name;
use std::marker::Model;

/// The number of a staff member within their office, from 1 to 9999.
#[derive(Clone, Copy, PartialEq, Eq, Debug)]
pub struct StaffNo {
    value: u32,
}

impl Model for StaffNo {
    ghost Value = { ℕ };

    ghost view = { λ number. number.value };

    ghost invariant = { λ number. IsNumberUpTo 9999 number.value };

    ghost inverse = { λ n. record { value = n } };
}

impl StaffNo {
    /// The greatest number of a staff member.
    pub const MAX: u32 = 9999;

    /// The number, where it is one of 1 to 9999.
    pub fn new(number: u32) -> Option<StaffNo>
        ensures { result ≡ number_up_to 9999 number }
    {
        if number >= 1 && number <= StaffNo::MAX {
            Some(StaffNo { value: number })
        } else {
            None
        }
    }

    /// The number as it is.
    pub fn get(self) -> u32
        ensures value { result ≡ self }
        ensures in_range { IsNumberUpTo 9999 result }
    {
        self.value
    }
}

/// What a staff member may do. Each role may do all that those before it may.
#[derive(Clone, Copy, PartialEq, Eq, Debug)]
pub enum Role {
    /// Reads, and enters repayments.
    Teller = 1,
    /// Also enters clients, fees and penalties, and submits and withdraws loans.
    Officer = 2,
    /// Also adds staff, decides on loans, disburses, waives, writes off, refunds and reverses.
    Manager = 3,
}

/// A staff member of an office.
pub struct Staff {
    /// The office.
    pub office: OfficeNo,
    /// The number within that office.
    pub number: StaffNo,
    /// The name.
    pub name: Name,
    /// The role.
    pub role: Role,
}

// By hand, since a derived drop is proved again in each function that may drop one.
impl Drop for Staff {
    fn drop(self) {
        let Staff {
            office: _,
            number: _,
            name: _,
            role: _,
        } = self;
    }
}
