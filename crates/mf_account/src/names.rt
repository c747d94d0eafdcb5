//! The kinds of entries and the ways of settling as choices.

ghost use Rattle.std.specs.Prelude.{refl};
ghost use Rattle.mf_account.specs.Names.{entry_kind_name, entry_kind_number, entry_kinds, how_name, how_number, ways};
ghost use Rattle.mf_account.specs.declared.entry.Kind.TheVariants.{Repay, Fee, Penalty, Waive, WriteOff, Refund};
ghost use Rattle.mf_account.specs.declared.settled.How.TheVariants.{Paid, Waived, WrittenOff};

use crate::entry::Kind;
use crate::settled::How;
use mf_base::Choice;

impl Choice for Kind {
    ghost choices = { entry_kinds };

    ghost name_of = { entry_kind_name };

    ghost number_of = { entry_kind_number };

    fn all() -> &'static [Kind] {
        &[
            Kind::Repay,
            Kind::Fee,
            Kind::Penalty,
            Kind::Waive,
            Kind::WriteOff,
            Kind::Refund,
        ]
    }

    fn name(self) -> &'static str {
        match self {
            Kind::Repay => "repayment",
            Kind::Fee => "fee",
            Kind::Penalty => "penalty",
            Kind::Waive => "waiver",
            Kind::WriteOff => "write-off",
            Kind::Refund => "refund",
        }
    }

    fn number(self) -> u32 {
        match self {
            Kind::Repay => 1,
            Kind::Fee => 2,
            Kind::Penalty => 3,
            Kind::Waive => 4,
            Kind::WriteOff => 5,
            Kind::Refund => 6,
        }
    }

    ghost told_apart = { elim [
      | Repay ↦ (refl, refl)
      | Fee ↦ (refl, refl)
      | Penalty ↦ (refl, refl)
      | Waive ↦ (refl, refl)
      | WriteOff ↦ (refl, refl)
      | Refund ↦ (refl, refl)
    ] };
}

impl Choice for How {
    ghost choices = { ways };

    ghost name_of = { how_name };

    ghost number_of = { how_number };

    fn all() -> &'static [How] {
        &[How::Paid, How::Waived, How::WrittenOff]
    }

    fn name(self) -> &'static str {
        match self {
            How::Paid => "paid",
            How::Waived => "waived",
            How::WrittenOff => "written_off",
        }
    }

    fn number(self) -> u32 {
        match self {
            How::Paid => 1,
            How::Waived => 2,
            How::WrittenOff => 3,
        }
    }

    ghost told_apart = { elim [ Paid ↦ (refl, refl) | Waived ↦ (refl, refl) | WrittenOff ↦ (refl, refl) ] };
}
