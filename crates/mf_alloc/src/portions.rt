//! Portions as a choice.

ghost use Rattle.std.specs.Prelude.{refl};
ghost use Rattle.mf_alloc.specs.Portions.{portion_name, portion_number, portions};
ghost use Rattle.mf_alloc.specs.declared.row.Portion.TheVariants.{Penalty, Fee, Interest, Principal};

use crate::row::Portion;
use mf_base::Choice;

impl Choice for Portion {
    ghost choices = { portions };

    ghost name_of = { portion_name };

    ghost number_of = { portion_number };

    fn all() -> &'static [Portion] {
        &[
            Portion::Penalty,
            Portion::Fee,
            Portion::Interest,
            Portion::Principal,
        ]
    }

    fn name(self) -> &'static str {
        match self {
            Portion::Penalty => "penalties",
            Portion::Fee => "fees",
            Portion::Interest => "interest",
            Portion::Principal => "principal",
        }
    }

    fn number(self) -> u32 {
        match self {
            Portion::Penalty => 1,
            Portion::Fee => 2,
            Portion::Interest => 3,
            Portion::Principal => 4,
        }
    }

    ghost told_apart = { elim [
      | Penalty ↦ (refl, refl)
      | Fee ↦ (refl, refl)
      | Interest ↦ (refl, refl)
      | Principal ↦ (refl, refl)
    ] };
}
