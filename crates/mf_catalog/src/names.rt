//! The choices that charges and products make, with their names and numbers.

ghost use Rattle.std.specs.Prelude.{refl};
ghost use Rattle.mf_catalog.specs.Names.{kind_name, kind_number, kinds, calc_name, calc_number, calcs, method_name};
ghost use Rattle.mf_catalog.specs.Names.{method_number, methods, strategy_name, strategy_number, strategies};
ghost use Rattle.mf_catalog.specs.declared.charge.ChargeKind.TheVariants.{Disbursement, Instalment, Overdue, DueDate};
ghost use Rattle.mf_catalog.specs.declared.charge.Calc.TheVariants as calc;
ghost use Rattle.mf_catalog.specs.declared.terms.Method.TheVariants as method;
ghost use Rattle.mf_catalog.specs.declared.terms.StrategyName.TheVariants.{MifosStandard, PrincipalFirst};
ghost use Rattle.mf_catalog.specs.declared.terms.StrategyName.TheVariants.{InterestFirst, DueFirst};

use crate::charge::{Calc, ChargeKind};
use crate::terms::{Method, StrategyName};
use mf_base::Choice;

impl Choice for ChargeKind {
    ghost choices = { kinds };

    ghost name_of = { kind_name };

    ghost number_of = { kind_number };

    fn all() -> &'static [ChargeKind] {
        &[
            ChargeKind::Disbursement,
            ChargeKind::Instalment,
            ChargeKind::Overdue,
            ChargeKind::DueDate,
        ]
    }

    fn name(self) -> &'static str {
        match self {
            ChargeKind::Disbursement => "disbursement",
            ChargeKind::Instalment => "instalment",
            ChargeKind::Overdue => "overdue",
            ChargeKind::DueDate => "due-date",
        }
    }

    fn number(self) -> u32 {
        self as u32
    }

    ghost told_apart = { elim [
      | Disbursement ↦ (refl, refl)
      | Instalment ↦ (refl, refl)
      | Overdue ↦ (refl, refl)
      | DueDate ↦ (refl, refl)
    ] };
}

impl Choice for Calc {
    ghost choices = { calcs };

    ghost name_of = { calc_name };

    ghost number_of = { calc_number };

    fn all() -> &'static [Calc] {
        &[Calc::Flat, Calc::OfAmount, Calc::OfInterest, Calc::OfBoth]
    }

    fn name(self) -> &'static str {
        match self {
            Calc::Flat => "flat",
            Calc::OfAmount => "percent-of-amount",
            Calc::OfInterest => "percent-of-interest",
            Calc::OfBoth => "percent-of-amount-and-interest",
        }
    }

    fn number(self) -> u32 {
        self as u32
    }

    ghost told_apart = { elim [
      | calc.Flat ↦ (refl, refl)
      | calc.OfAmount ↦ (refl, refl)
      | calc.OfInterest ↦ (refl, refl)
      | calc.OfBoth ↦ (refl, refl)
    ] };
}

impl Choice for Method {
    ghost choices = { methods };

    ghost name_of = { method_name };

    ghost number_of = { method_number };

    fn all() -> &'static [Method] {
        &[Method::Flat, Method::EqualPrincipal, Method::Fixed]
    }

    fn name(self) -> &'static str {
        match self {
            Method::Flat => "flat",
            Method::EqualPrincipal => "declining-equal-principal",
            Method::Fixed => "declining-equal-instalments",
        }
    }

    fn number(self) -> u32 {
        self as u32
    }

    ghost told_apart = { elim
        [ method.Flat ↦ (refl, refl) | method.EqualPrincipal ↦ (refl, refl) | method.Fixed ↦ (refl, refl) ] };
}

impl Choice for StrategyName {
    ghost choices = { strategies };

    ghost name_of = { strategy_name };

    ghost number_of = { strategy_number };

    fn all() -> &'static [StrategyName] {
        &[
            StrategyName::MifosStandard,
            StrategyName::PrincipalFirst,
            StrategyName::InterestFirst,
            StrategyName::DueFirst,
        ]
    }

    fn name(self) -> &'static str {
        match self {
            StrategyName::MifosStandard => "mifos-standard-strategy",
            StrategyName::PrincipalFirst => "principal-interest-penalties-fees-order-strategy",
            StrategyName::InterestFirst => "interest-principal-penalties-fees-order-strategy",
            StrategyName::DueFirst => "due-first-by-portion",
        }
    }

    fn number(self) -> u32 {
        self as u32
    }

    ghost told_apart = { elim [
      | MifosStandard ↦ (refl, refl)
      | PrincipalFirst ↦ (refl, refl)
      | InterestFirst ↦ (
        refl,
        refl,
      )
      | DueFirst ↦ (refl, refl)
    ] };
}
