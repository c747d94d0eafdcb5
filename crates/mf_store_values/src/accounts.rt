//! The account of a loan, by the rows of the loan, of its entries and of the catalogue.

ghost use Rattle.std.specs.Prelude.{◌≡◌, ℕ, List, map, option_map, IfOk, IfErr};
ghost use Rattle.mf_base.specs.declared.fault.Fault.TheVariants.{F20};
ghost use Rattle.mf_account.specs.Change.{account_by_replay};
ghost use Rattle.mf_model.specs.Accounts.{account_in};
ghost use Rattle.mf_model.specs.Institution.{Catalogue, Ledger};
ghost use Rattle.mf_model.specs.Sound.{IsSoundCatalogue};
ghost use Rattle.mf_store_values.specs.Flat.{charge_as, product_as, loan_in, entry_in, numbered_from};
ghost use Rattle.mf_store_values.specs.Ledgers.{IsPlainLoan};

use crate::kept_entries::entries_of;
use crate::loans::disbursal_day;
use crate::numbers::amount_from;
use crate::terms::terms_of;
use mf_account::LoanAccount;
use mf_base::Fault;
use mf_store_schema::{ChargeRow, EntryRow, LoanRow, ProductRow};
use std::alloc::Global;

/// The account of the loan of a row, or None where the loan has none. The only error is F20, out of memory.
pub fn account_of(
    alloc: Global,
    charges: &[ChargeRow],
    products: &[ProductRow],
    row: &LoanRow,
    entries: &[EntryRow],
) -> Result<Option<LoanAccount>, Fault>
    ensures account { IfOk result (λ found. (k : Catalogue) → IsSoundCatalogue k →
        numbered_from charge_as 1 k.charges ≡ charges.now → numbered_from product_as 1 k.products ≡ products.now →
        (office number : ℕ) (names : List (List ℕ)) (l : Ledger) → IsPlainLoan k names l →
        loan_in office number l.loan ≡ row.now → map (entry_in office number) l.entries ≡ entries.now →
        found ≡ option_map account_by_replay (account_in k l)) }
    ensures gives_up { IfErr result (λ fault. fault ≡ F20) }
{
    let Some(day) = disbursal_day(row) else {
        return Ok(None);
    };
    let Some(terms) = terms_of(alloc, charges, products, row.product)? else {
        return Ok(None);
    };
    let Some(principal) = amount_from(row.principal) else {
        return Ok(None);
    };
    let list = entries_of(alloc, entries)?;
    let disbursed = mf_account::DisbursedLoan {
        terms,
        principal,
        periods: row.periods,
        day,
        entries: list,
    };
    LoanAccount::of_entries(alloc, disbursed)
}
