//! Products: what they lend, and by which charges and strategy.

use crate::charge::ChargeDef;
use crate::terms::{Method, StrategyName, Terms};
use mf_base::{Freq, Name};
use std::alloc::AllocError;

/// What a product lends by: the members that whoever makes it names.
#[derive(Drop)]
pub struct ProductMembers {
    /// Its name.
    pub name: Name,
    /// How principal and interest are planned.
    pub method: Method,
    /// The annual rate, in hundredths of a percent.
    pub rate: u32,
    /// Whether a period goes by weeks or by months.
    pub freq: Freq,
    /// How many weeks or months a period has.
    pub every: u32,
    /// How many instalments, from the first on, take no principal.
    pub principal_grace: u32,
    /// How many instalments, from the first on, take no interest; the next takes theirs too.
    pub interest_grace: u32,
    /// The least principal of a loan, in cents.
    pub min_principal: u64,
    /// The greatest principal of a loan, in cents.
    pub max_principal: u64,
    /// The least number of periods of a loan.
    pub min_periods: u32,
    /// The greatest number of periods of a loan.
    pub max_periods: u32,
    /// In which order payments fill the portions.
    pub strategy: StrategyName,
    /// The number of the charge that is taken at disbursement.
    pub disbursement_charge: Option<u32>,
    /// The number of the charge that is taken with each instalment.
    pub instalment_charge: Option<u32>,
    /// The number of the charge that is taken for an overdue instalment.
    pub overdue_charge: Option<u32>,
}

impl ProductMembers {
    ghost use Rattle.std.specs.Prelude.{◌≡◌};
    ghost use Rattle.mf_catalog.specs.Product.{terms_with};

    /// The terms that a product with these members gives a loan, with these charges at disbursement, with each
    /// instalment and for an overdue one.
    pub fn terms_with(
        &self,
        disbursement: Option<ChargeDef>,
        instalment: Option<ChargeDef>,
        overdue: Option<ChargeDef>,
    ) -> Terms
        ensures { result ≡ terms_with self.now disbursement instalment overdue }
    {
        Terms {
            method: self.method,
            rate: self.rate,
            freq: self.freq,
            every: self.every,
            principal_grace: self.principal_grace,
            interest_grace: self.interest_grace,
            strategy: self.strategy,
            disbursement,
            instalment,
            overdue,
        }
    }
}

// By hand, since a derived one asks of each member whether there was memory for it, and is proved for each way out.
impl Clone for ProductMembers {
    ghost use Rattle.std.specs.Prelude.{◌≡◌};

    ghost is_clone = { λ members copy. copy ≡ members };

    fn clone(&self) -> Result<ProductMembers, AllocError> {
        Ok(ProductMembers {
            name: self.name.clone()?,
            method: self.method,
            rate: self.rate,
            freq: self.freq,
            every: self.every,
            principal_grace: self.principal_grace,
            interest_grace: self.interest_grace,
            min_principal: self.min_principal,
            max_principal: self.max_principal,
            min_periods: self.min_periods,
            max_periods: self.max_periods,
            strategy: self.strategy,
            disbursement_charge: self.disbursement_charge,
            instalment_charge: self.instalment_charge,
            overdue_charge: self.overdue_charge,
        })
    }
}

/// A product of the catalogue.
#[derive(Clone, Drop)]
pub struct Product {
    /// Its number in the catalogue, from 1.
    pub number: u32,
    /// What it lends by.
    pub members: ProductMembers,
    /// A retired product lends no more; its loans stay as they are.
    pub retired: bool,
}
