//! Weeks and months as a choice.

ghost use Rattle.std.specs.Prelude.{refl};
ghost use Rattle.mf_base.specs.Choices.{frequencies, frequency_name, frequency_number};
ghost use Rattle.mf_base.specs.declared.day.Freq.TheVariants.{Weeks, Months};

use crate::choice::Choice;
use crate::day::Freq;

impl Choice for Freq {
    ghost choices = { frequencies };

    ghost name_of = { frequency_name };

    ghost number_of = { frequency_number };

    fn all() -> &'static [Freq] {
        &[Freq::Weeks, Freq::Months]
    }

    fn name(self) -> &'static str {
        match self {
            Freq::Weeks => "weeks",
            Freq::Months => "months",
        }
    }

    fn number(self) -> u32 {
        self as u32
    }

    ghost told_apart = { elim [ Weeks ↦ (refl, refl) | Months ↦ (refl, refl) ] };
}
