//! The rows of an office's loans and of their entries.

ghost use Rattle.std.specs.Prelude.{◌≡◌, ◌≤◌, ◌↔◌, ℕ, IsTrue, List, length};
ghost use Rattle.mf_base.specs.DayText.{last_entered_day};
ghost use Rattle.mf_model.specs.Institution.{Catalogue};
ghost use Rattle.mf_store_values.specs.Flat.{product_as, numbered_from};
ghost use Rattle.mf_store_sound.specs.Sound.{IsLoanPart, AreLoanParts};

use crate::loans::{Lender, are_entries_of, is_loan};
use crate::owners::split_by_owner;
use mf_office::AccountNo;
use mf_store_schema::{EntryRow, LoanRow};

/// Whether the rows are those of a loan of this office with this number and of its entries.
fn is_loan_part(lender: &Lender, number: u32, row: &LoanRow, entries: &[EntryRow]) -> bool
    requires { lender.now.today ≤ last_entered_day }
    ensures { (k : Catalogue) → k.day ≡ lender.now.today → numbered_from product_as 1 k.products
        ≡ lender.now.products.now →
        (names : List (List ℕ)) → length names ≡ lender.now.clients →
        IsTrue result ↔ IsLoanPart k names lender.now.office number row.now entries.now }
{
    if !is_loan(lender, number, row) {
        return false;
    }
    are_entries_of(lender, number, row, entries)
}

/// Whether the rows are those of this office's loans and of their entries, loan by loan, by number from 1.
pub(crate) fn are_loans(lender: &Lender, loans: &[LoanRow], entries: &[EntryRow]) -> bool
    requires { lender.now.today ≤ last_entered_day }
    ensures { (k : Catalogue) → k.day ≡ lender.now.today → numbered_from product_as 1 k.products
        ≡ lender.now.products.now →
        (names : List (List ℕ)) → length names ≡ lender.now.clients →
        IsTrue result ↔ ((length loans.now ≤ 999999) × AreLoanParts k names lender.now.office 1 loans.now entries.now) }
{
    if loans.len() > AccountNo::MAX as usize {
        return false;
    }
    let mut number = 1;
    let mut entries_left = entries;
    for row in loans {
        let (own_entries, later_entries) = split_by_owner(entries_left, number, |row| row.loan);
        if !is_loan_part(lender, number, row, own_entries) {
            return false;
        }
        entries_left = later_entries;
        number += 1;
    }
    entries_left.is_empty()
}
