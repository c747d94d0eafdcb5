//! Offices and their numbers.

ghost use Rattle.std.specs.Prelude.{◌≡◌, ℕ};
ghost use Rattle.mf_office.specs.Numbers.{IsNumberUpTo, number_up_to};

use mf_base::Name;
use std::marker::Model;

/// The number of an office, from 1 to 9999. The head office is 1.
#[derive(Clone, Copy, PartialEq, Eq, Debug)]
pub struct OfficeNo {
    value: u32,
}

impl Model for OfficeNo {
    ghost Value = { ℕ };

    ghost view = { λ number. number.value };

    ghost invariant = { λ number. IsNumberUpTo 9999 number.value };

    ghost inverse = { λ n. record { value = n } };
}

impl OfficeNo {
    /// The greatest number of an office.
    pub const MAX: u32 = 9999;

    /// The number, where it is one of 1 to 9999.
    pub fn new(number: u32) -> Option<OfficeNo>
        ensures { result ≡ number_up_to 9999 number }
    {
        if number >= 1 && number <= OfficeNo::MAX {
            Some(OfficeNo { value: number })
        } else {
            None
        }
    }

    /// The number as it is.
    pub fn get(self) -> u32
        ensures value { result ≡ self }
        ensures in_range { IsNumberUpTo 9999 result }
    {
        self.value
    }
}

/// An office: its number, its parent where it is not the head, and its name.
pub struct Office {
    /// The number.
    pub number: OfficeNo,
    /// The parent's number. The head office has none.
    pub parent: Option<OfficeNo>,
    /// The name.
    pub name: Name,
}

// By hand, since a derived drop is proved again in each function that may drop one.
impl Drop for Office {
    fn drop(self) {
        let Office {
            number: _,
            parent: _,
            name: _,
        } = self;
    }
}
