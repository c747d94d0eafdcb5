//! What is said of rows of loans.

ghost use Rattle.std.specs.Prelude.{◌≡◌, string_bytes, IfOk, IsOkUnless};
ghost use Rattle.mf_model.specs.Institution.{item_numbered};
ghost use Rattle.microloan_audit.specs.Words as spec;

use crate::catalogue::{NOT_NEXT, OUT_OF_ORDER};
use crate::offices::NO_OFFICE;
use mf_base::Fault;
use mf_store_audit::LoanFlaw;
use mf_store_schema::{LoanRow, ProductRow};
use mf_store_values::row_numbered;
use std::alloc::Global;

/// What is said of a row of a loan, of these products.
pub(crate) fn words_of_loan(
    alloc: Global,
    products: &[ProductRow],
    row: &LoanRow,
    flaw: LoanFlaw,
) -> Result<String, Fault>
    ensures text { IfOk result (λ text. string_bytes text ≡ spec.loan_words products.now flaw row.now) }
    ensures only { IsOkUnless result Fault.F20 }
{
    let words = match flaw {
        LoanFlaw::Order => OUT_OF_ORDER,
        LoanFlaw::Office => NO_OFFICE,
        LoanFlaw::Number => NOT_NEXT,
        LoanFlaw::Limit => "its number is above 999999",
        LoanFlaw::Client => return Ok(format!(in alloc; "its client {} is not there", row.client)?),
        LoanFlaw::Product => return words_of_no_product(alloc, row),
        LoanFlaw::Principal => return words_of_principal(alloc, products, row),
        LoanFlaw::Periods => return words_of_periods(alloc, products, row),
        LoanFlaw::Stage => return Ok(format!(in alloc; "its status {} is none", row.stage)?),
        LoanFlaw::Approved => "its day of approval does not fit its status, or is no day",
        LoanFlaw::Disbursed => "its day of disbursement does not fit its status, or is no day",
        LoanFlaw::Days => "its days are out of order, or after the business day",
    };
    Ok(String::from_str(alloc, words)?)
}

/// What is said of a loan whose product is not there.
fn words_of_no_product(alloc: Global, row: &LoanRow) -> Result<String, Fault>
    ensures text { IfOk result (λ text. string_bytes text ≡ spec.no_product_words row.now) }
    ensures only { IsOkUnless result Fault.F20 }
{
    Ok(format!(in alloc; "its product {} is not there", row.product)?)
}

/// What is said of a principal that the loan's product does not lend.
fn words_of_principal(
    alloc: Global,
    products: &[ProductRow],
    row: &LoanRow,
) -> Result<String, Fault>
    ensures text { IfOk result (λ text. string_bytes text
        ≡ spec.principal_words row.now (item_numbered products.now row.now.product)) }
    ensures only { IsOkUnless result Fault.F20 }
{
    let words = match row_numbered(products, row.product) {
        Some(product) if row.principal < product.min_principal => words_of_limit(
            alloc,
            "at least",
            product.min_principal,
            "cent",
        )?,
        Some(product) => words_of_limit(alloc, "at most", product.max_principal, "cent")?,
        None => words_of_no_product(alloc, row)?,
    };
    Ok(words)
}

/// What is said of a number of periods that the loan's product does not lend.
fn words_of_periods(alloc: Global, products: &[ProductRow], row: &LoanRow) -> Result<String, Fault>
    ensures text { IfOk result (λ text. string_bytes text
        ≡ spec.periods_words row.now (item_numbered products.now row.now.product)) }
    ensures only { IsOkUnless result Fault.F20 }
{
    let words = match row_numbered(products, row.product) {
        Some(product) if row.periods < product.min_periods => words_of_limit(
            alloc,
            "at least",
            i64::from(product.min_periods),
            "period",
        )?,
        Some(product) => words_of_limit(
            alloc,
            "at most",
            i64::from(product.max_periods),
            "period",
        )?,
        None => words_of_no_product(alloc, row)?,
    };
    Ok(words)
}

/// What is said of a limit of the loan's product.
fn words_of_limit(alloc: Global, bound: &str, count: i64, unit: &str) -> Result<String, Fault>
    ensures text { IfOk result (λ text. string_bytes text ≡ spec.limit_words bound.now count unit.now) }
    ensures only { IsOkUnless result Fault.F20 }
{
    let ending = if count == 1 { "" } else { "s" };
    Ok(format!(in alloc; "its product lends {bound} {count} {unit}{ending}")?)
}
