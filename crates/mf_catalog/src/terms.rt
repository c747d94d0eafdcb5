//! The terms of a loan, as they are once a product and its charges are known.

use crate::charge::ChargeDef;
use mf_base::Freq;

/// How principal and interest are planned.
#[derive(Clone, Copy, PartialEq, Eq)]
pub enum Method {
    /// Equal principal, and interest on the original principal in every period.
    Flat = 1,
    /// Equal principal, and interest on what is outstanding.
    EqualPrincipal = 2,
    /// Equal instalments of principal and interest together, interest on what is outstanding.
    Fixed = 3,
}

/// In which order a payment fills the portions of the instalments.
#[derive(Clone, Copy, PartialEq, Eq)]
pub enum StrategyName {
    /// Penalties, fees, interest, principal.
    MifosStandard = 1,
    /// Principal, interest, penalties, fees.
    PrincipalFirst = 2,
    /// Interest, principal, penalties, fees.
    InterestFirst = 3,
    /// Over all instalments that are due, penalties, fees, interest, principal; then each later instalment in that
    /// order.
    DueFirst = 4,
}

/// The terms of a loan, copied from its product.
pub struct Terms {
    /// How principal and interest are planned.
    pub method: Method,
    /// The annual rate, in hundredths of a percent.
    pub rate: u32,
    /// Whether a period goes by weeks or by months.
    pub freq: Freq,
    /// How many weeks or months a period has.
    pub every: u32,
    /// How many instalments, from the first on, take no principal.
    pub principal_grace: u32,
    /// How many instalments, from the first on, take no interest; the next takes theirs too.
    pub interest_grace: u32,
    /// In which order payments fill the portions.
    pub strategy: StrategyName,
    /// The charge that is taken at disbursement.
    pub disbursement: Option<ChargeDef>,
    /// The charge that is taken with each instalment.
    pub instalment: Option<ChargeDef>,
    /// The charge that is taken for an overdue instalment.
    pub overdue: Option<ChargeDef>,
}

// By hand, since a derived drop is proved again in each function that may drop one.
impl Drop for Terms {
    fn drop(self) {
        let Terms {
            method: _,
            rate: _,
            freq: _,
            every: _,
            principal_grace: _,
            interest_grace: _,
            strategy: _,
            disbursement: _,
            instalment: _,
            overdue: _,
        } = self;
    }
}
