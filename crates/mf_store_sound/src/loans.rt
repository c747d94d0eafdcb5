//! The rows of loans, each by itself.

ghost use Rattle.std.specs.Prelude.{◌≡◌, ℕ, List, ◌≤◌, ◌≤ℤ◌, ◌↔◌, IsTrue, length, is_some};
ghost use Rattle.mf_base.specs.DayText.{last_entered_day};
ghost use Rattle.mf_catalog.specs.Product.{allows};
ghost use Rattle.mf_model.specs.Institution.{Catalogue, ListedProduct, product_in, item_numbered};
ghost use Rattle.mf_model.specs.Sound.{IsStageBy, lends};
ghost use Rattle.mf_model.specs.declared.loan.Loan.{Loan};
ghost use Rattle.mf_store_values.specs.Flat.{loan_in, product_as, numbered_from};
ghost use Rattle.mf_store_sound.specs.Stages.{IsStageOf, AreEntriesOf};
ghost use Rattle.mf_store_values.specs.Ledgers.{IsOwnLoan};
ghost use Rattle.mf_model.specs.Stages.{disbursed_on};
ghost use Rattle.mf_store_sound.specs.Stored.{IsRowOf};

use crate::entered::are_loan_entries;
use crate::entries::DisbursedLoan;
use mf_base::Day;
use mf_model::Stage;
use mf_store_schema::{EntryRow, LoanRow, ProductRow};
use mf_store_values::{amount_from, disbursal_day, row_numbered, stage_of};

/// An office that lends, and what its loans are checked against.
#[derive(Drop)]
pub(crate) struct Lender<'a> {
    pub(crate) office: u32,
    /// How many clients it has.
    pub(crate) clients: usize,
    /// The rows of the catalogue's products.
    pub(crate) products: &'a [ProductRow],
    /// The business day.
    pub(crate) today: Day,
}

/// Whether a loan can have reached a stage by this day.
fn is_stage_by(today: Day, stage: Stage) -> bool
    ensures { IsTrue result ↔ IsStageBy today stage }
{
    match stage {
        Stage::Approved(day) => day <= today,
        Stage::Disbursed { approved, day } => approved <= day && day <= today,
        Stage::Submitted | Stage::Withdrawn | Stage::Rejected => true,
    }
}

/// Whether a row's status and days are those of a stage that a loan can have reached on this day.
pub fn is_stage(today: Day, row: &LoanRow) -> bool
    requires { today ≤ last_entered_day }
    ensures { IsTrue result ↔ IsStageOf today row.now.stage row.now.approved row.now.disbursed }
{
    match stage_of(row) {
        Some(stage) => is_stage_by(today, stage),
        None => false,
    }
}

/// Whether a row is that of a loan of this office with this number, at a stage that it can have reached on this day.
fn is_row_of_loan(today: Day, office: u32, number: u32, row: &LoanRow) -> bool
    requires { today ≤ last_entered_day }
    ensures { IsTrue result ↔ IsRowOf (loan_in office) (λ (l : Loan). IsStageBy today l.stage) number row.now }
{
    match amount_from(row.principal) {
        Some(_) => row.office == office && row.number == number && is_stage(today, row),
        None => false,
    }
}

/// Whether the client of the row's loan exists: clients are numbered up to this count.
fn is_client_there(clients: usize, row: &LoanRow) -> bool
    ensures { (l : Loan) → loan_in row.now.office row.now.number l ≡ row.now → (names : List (List ℕ)) → length names
        ≡ clients →
        result ≡ is_some (item_numbered names l.client) }
{
    row.client >= 1 && row.client as usize <= clients
}

/// Whether a loan's principal lies within its product's limits.
pub fn is_principal_allowed(product: &ProductRow, row: &LoanRow) -> bool
    ensures { IsTrue result ↔
        ((product.now.min_principal ≤ℤ row.now.principal) × (row.now.principal ≤ℤ product.now.max_principal)) }
{
    product.min_principal <= row.principal && row.principal <= product.max_principal
}

/// Whether a loan's number of periods lies within its product's limits.
pub fn are_periods_allowed(product: &ProductRow, row: &LoanRow) -> bool
    ensures { IsTrue result ↔
        ((product.now.min_periods ≤ row.now.periods) × (row.now.periods ≤ product.now.max_periods)) }
{
    product.min_periods <= row.periods && row.periods <= product.max_periods
}

/// Whether a product's row allows the principal and the periods of a loan's.
fn is_allowed(product: &ProductRow, row: &LoanRow) -> bool
    ensures { (number : ℕ) (p : ListedProduct) → product_as number p ≡ product.now → (l : Loan) →
        loan_in row.now.office row.now.number l ≡ row.now →
        result ≡ allows p.members l.principal l.periods }
{
    is_principal_allowed(product, row) && are_periods_allowed(product, row)
}

/// Whether the product of the row's loan exists, and allows its principal and periods.
fn does_lend(products: &[ProductRow], row: &LoanRow) -> bool
    ensures { (k : Catalogue) → numbered_from product_as 1 k.products ≡ products.now → (l : Loan) →
        loan_in row.now.office row.now.number l ≡ row.now →
        result ≡ lends (product_in k l.product) l.principal l.periods }
{
    match row_numbered(products, row.product) {
        Some(product) => is_allowed(product, row),
        None => false,
    }
}

/// Whether a row is that of a loan of this office with this number. It does not check its entries.
pub(crate) fn is_loan(lender: &Lender, number: u32, row: &LoanRow) -> bool
    requires { lender.now.today ≤ last_entered_day }
    ensures { (k : Catalogue) → k.day ≡ lender.now.today → numbered_from product_as 1 k.products
        ≡ lender.now.products.now →
        (names : List (List ℕ)) → length names ≡ lender.now.clients →
        IsTrue result ↔ IsRowOf (loan_in lender.now.office) (IsOwnLoan k names) number row.now }
{
    is_row_of_loan(lender.today, lender.office, number, row)
        && is_client_there(lender.clients, row)
        && does_lend(lender.products, row)
}

/// Whether the rows are those of the entries of a row's loan, which has none unless it is disbursed. It does not check
/// that the staff who entered them exist.
pub(crate) fn are_entries_of(lender: &Lender, number: u32, row: &LoanRow, own: &[EntryRow]) -> bool
    requires { lender.now.today ≤ last_entered_day }
    ensures { (l : Loan) → loan_in lender.now.office number l ≡ row.now → IsStageBy lender.now.today l.stage →
        IsTrue result ↔ AreEntriesOf lender.now.today l.periods (disbursed_on l.stage) lender.now.office number
        own.now }
{
    let Some(day) = disbursal_day(row) else {
        return own.is_empty();
    };
    let loan = DisbursedLoan {
        office: lender.office,
        number,
        periods: row.periods,
        day,
        today: lender.today,
    };
    are_loan_entries(loan, own)
}
