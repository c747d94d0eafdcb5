//! What may be waived of an instalment.

ghost use Rattle.std.specs.Prelude.{◌≡◌, refl};
ghost use Rattle.mf_model.specs.Waivable.{waivable_name, waivable_number, waivables, portion_of};
ghost use Rattle.mf_model.specs.declared.waivable.Waivable.TheVariants.{Penalties, Fees, Interest};

use mf_alloc::Portion;
use mf_base::Choice;

/// A portion of an instalment that may be waived. Principal never is.
#[derive(Clone, Copy, PartialEq, Eq)]
pub enum Waivable {
    Penalties = 1,
    Fees = 2,
    Interest = 3,
}

impl Waivable {
    /// The portion that it is.
    pub fn portion(self) -> Portion
        ensures { result ≡ portion_of self }
    {
        match self {
            Waivable::Penalties => Portion::Penalty,
            Waivable::Fees => Portion::Fee,
            Waivable::Interest => Portion::Interest,
        }
    }
}

impl Choice for Waivable {
    ghost choices = { waivables };

    ghost name_of = { waivable_name };

    ghost number_of = { waivable_number };

    fn all() -> &'static [Waivable] {
        &[Waivable::Penalties, Waivable::Fees, Waivable::Interest]
    }

    fn name(self) -> &'static str {
        match self {
            Waivable::Penalties => "penalties",
            Waivable::Fees => "fees",
            Waivable::Interest => "interest",
        }
    }

    fn number(self) -> u32 {
        self as u32
    }

    ghost told_apart = { elim [ Penalties ↦ (refl, refl) | Fees ↦ (refl, refl) | Interest ↦ (refl, refl) ] };
}
