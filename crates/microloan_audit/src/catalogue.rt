//! What is said of rows of meta, of charges and of products.

ghost use Rattle.std.specs.Prelude.{◌≡◌};
ghost use Rattle.microloan_audit.specs.Words as spec;

use mf_store_audit::{ChargeFlaw, MetaFlaw, ProductFlaw};

/// What is said of a row that is not numbered as it should be.
pub(crate) const NOT_NEXT: &str = "its number is not the next after that of the row before it";
/// What is said of a row that stands where its key doesn't put it.
pub(crate) const OUT_OF_ORDER: &str = "it does not come after the row before it";
/// What is said of a name.
pub(crate) const NO_NAME: &str =
    "its name is not 1 to 100 characters, none of them a control character";

/// What is said of a row of meta.
pub(crate) fn words_of_meta(flaw: MetaFlaw) -> &'static str
    ensures { result.now ≡ spec.meta_words flaw }
{
    match flaw {
        MetaFlaw::Key => "its key is not 1",
        MetaFlaw::Schema => "its schema is not that of these tables",
        MetaFlaw::Day => "its business day is no day up to 2099-12-31",
    }
}

/// What is said of a row of a charge.
pub(crate) fn words_of_charge(flaw: ChargeFlaw) -> &'static str
    ensures { result.now ≡ spec.charge_words flaw }
{
    match flaw {
        ChargeFlaw::Number => NOT_NEXT,
        ChargeFlaw::Limit => "its number is above 999",
        ChargeFlaw::Name => NO_NAME,
        ChargeFlaw::Kind => "its kind is not 1 to 4",
        ChargeFlaw::Calc => "its way of computing is not 1 to 4",
        ChargeFlaw::Value =>
            "its value is not 1 to 1000000000000 cents, or 1 to 10000 hundredths of a percent",
    }
}

/// What is said of a row of a product.
pub(crate) fn words_of_product(flaw: ProductFlaw) -> &'static str
    ensures { result.now ≡ spec.product_words flaw }
{
    match flaw {
        ProductFlaw::Number => NOT_NEXT,
        ProductFlaw::Limit => "its number is above 999",
        ProductFlaw::Name => NO_NAME,
        ProductFlaw::Method => "its method is not 1 to 3",
        ProductFlaw::Frequency => "its frequency is not 1 or 2",
        ProductFlaw::Strategy => "its strategy is not 1 to 4",
        ProductFlaw::Retired => "it is neither retired (1) nor not (0)",
        ProductFlaw::Rate => "its rate is above 100000 hundredths of a percent",
        ProductFlaw::Every => "its due days are not 1 to 52 weeks or 1 to 12 months apart",
        ProductFlaw::PrincipalGrace => "its grace on principal is above 359 periods",
        ProductFlaw::InterestGrace => "its grace on interest is above 359 periods",
        ProductFlaw::MinPrincipal => "its least principal is not 1 to 1000000000000 cents",
        ProductFlaw::MaxPrincipal => "its greatest principal is not 1 to 1000000000000 cents",
        ProductFlaw::MinPeriods => "its least number of periods is not 1 to 360",
        ProductFlaw::MaxPeriods => "its greatest number of periods is not 1 to 360",
        ProductFlaw::PrincipalOrder => "its least principal is above its greatest",
        ProductFlaw::PeriodsOrder => "its least number of periods is above its greatest",
        ProductFlaw::PrincipalGraceOrder =>
            "its grace on principal is not below its least number of periods",
        ProductFlaw::InterestGraceOrder =>
            "its grace on interest is not below its least number of periods",
        ProductFlaw::DisbursementCharge =>
            "its charge at disbursement is not there, or is of another kind",
        ProductFlaw::InstalmentCharge =>
            "its charge with each instalment is not there, or is of another kind",
        ProductFlaw::OverdueCharge =>
            "its charge for an overdue instalment is not there, or is of another kind",
    }
}
