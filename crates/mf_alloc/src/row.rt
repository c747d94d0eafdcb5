//! The cells of a loan: its instalments with their sums by portion.

ghost use Rattle.std.specs.Prelude.{◌≡◌, ℕ, ◌+◌, ◌<◌, ◌≤◌};
ghost use Rattle.mf_alloc.specs.Sums.{Instalment, IsWithin, fresh_row, open_at, is_open};

use mf_base::Day;
use std::marker::Model;

/// A part of an instalment. A row's sums stand in this order.
#[derive(Clone, Copy, PartialEq, Eq, Debug)]
pub enum Portion {
    Penalty,
    Fee,
    Interest,
    Principal,
}

impl Portion {
    ghost use Rattle.std.specs.Prelude.{◌≡◌, ◌<◌};
    ghost use Rattle.mf_alloc.specs.Rows.{place_in_row};

    /// Where the portion stands in a row's sums.
    pub fn index(self) -> usize
        ensures value { result ≡ place_in_row self }
        ensures small { result < 4 }
    {
        match self {
            Portion::Penalty => 0,
            Portion::Fee => 1,
            Portion::Interest => 2,
            Portion::Principal => 3,
        }
    }
}

/// One portion of one instalment. Instalments are numbered from 1.
#[derive(Clone, Copy, PartialEq, Eq)]
pub struct Cell {
    pub instalment: u32,
    pub portion: Portion,
}

/// What is paid into a cell, in whole cents.
#[derive(Clone, Copy, PartialEq, Eq)]
pub struct Share {
    pub cell: Cell,
    pub amount: u64,
}

/// An instalment with its sums, in whole cents, each in the order of `Portion`. In each portion what is paid, waived
/// and written off is together at most what is owed.
#[derive(Clone, Copy, PartialEq, Eq)]
pub struct Instalment {
    pub due: Day,
    pub owed: [u64; 4],
    pub paid: [u64; 4],
    pub waived: [u64; 4],
    pub written_off: [u64; 4],
}

impl Model for Instalment {
    ghost Value = { Instalment };

    ghost view = { λ row. record {
      due = row.due;
      owed = row.owed;
      paid = row.paid;
      waived = row.waived;
      written_off = row.written_off;
    } };

    ghost invariant = { λ row. IsWithin row.owed row.paid row.waived row.written_off };

    ghost inverse = { λ sums. record {
      due = sums.due;
      owed = sums.owed;
      paid = sums.paid;
      waived = sums.waived;
      written_off = sums.written_off;
    } };
}

impl Instalment {
    /// An instalment with nothing paid.
    pub fn fresh(due: Day, owed: [u64; 4]) -> Instalment
        ensures { result ≡ fresh_row due owed }
    {
        Instalment {
            due,
            owed,
            paid: [0; 4],
            waived: [0; 4],
            written_off: [0; 4],
        }
    }

    /// What is outstanding of a portion, by its place in the sums.
    fn outstanding_at(&self, p: usize) -> u64
        requires { p < 4 }
        ensures { result ≡ open_at self.now p }
    {
        self.owed[p] - self.paid[p] - self.waived[p] - self.written_off[p]
    }

    /// Whether anything of the instalment is outstanding.
    pub fn is_open(&self) -> bool
        ensures { result ≡ is_open self.now }
    {
        self.outstanding_at(0) > 0
            || self.outstanding_at(1) > 0
            || self.outstanding_at(2) > 0
            || self.outstanding_at(3) > 0
    }
}

impl Instalment {
    ghost use Rattle.std.specs.Prelude.{◌≡◌};
    ghost use Rattle.mf_alloc.specs.Rows.{place_in_row};
    ghost use Rattle.mf_alloc.specs.Sums.{open_at};

    /// What is outstanding of a portion: what is owed, less what is paid, waived and written off.
    pub fn outstanding(&self, portion: Portion) -> u64
        ensures { result ≡ open_at self.now (place_in_row portion) }
    {
        self.outstanding_at(portion.index())
    }
}
