//! The rows of instalments and of shares of all loans, loan by loan.

ghost use Rattle.std.specs.Prelude.{◌≡◌, ◌↔◌, ◌++◌, ◌&&◌, ◌==◌, ℕ, List, [], map, IsTrue, OnOk, IfOk, IfErr};
ghost use Rattle.std.specs.List.{prefix_len};
ghost use Rattle.mf_base.specs.declared.fault.Fault.TheVariants.{F20};
ghost use Rattle.mf_model.specs.Institution.{Catalogue, Ledger};
ghost use Rattle.mf_model.specs.Sound.{IsSoundCatalogue};
ghost use Rattle.mf_store_values.specs.Accounts.{is_of_loan, first_rows, later_rows, PlacedLoan, AreLoansOf};
ghost use Rattle.mf_store_values.specs.Accounts.{AreAccounts};
ghost use Rattle.mf_store_values.specs.Accounts.{account_instalments, account_shares};
ghost use Rattle.mf_store_values.specs.Flat.{charge_as, product_as, loan_in, entry_in, instalment_in, share_in};
ghost use Rattle.mf_store_values.specs.Flat.{numbered_from};
ghost use Rattle.mf_store_values.specs.Ledgers.{IsPlainLoan};

use crate::accounts::account_of;
use crate::instalment_rows::add_instalments;
use crate::same::are_same;
use crate::shares::add_shares;
use mf_base::Fault;
use mf_store_schema::{ChargeRow, EntryRow, InstalmentRow, LoanRow, ProductRow, ShareRow};
use std::alloc::Global;

/// A row that belongs to a loan.
trait OfLoan {
    /// The number of the loan's office.
    ghost office_of: { Self → ℕ };

    /// The loan's number within its office.
    ghost loan_of: { Self → ℕ };

    fn is_of(&self, office: u32, loan: u32) -> bool
        ensures { result ≡ ((office_of self.now == office) && (loan_of self.now == loan)) };
}

impl OfLoan for EntryRow {
    ghost office_of = { λ row. row.office };

    ghost loan_of = { λ row. row.loan };

    fn is_of(&self, office: u32, loan: u32) -> bool {
        self.office == office && self.loan == loan
    }
}

impl OfLoan for InstalmentRow {
    ghost office_of = { λ row. row.office };

    ghost loan_of = { λ row. row.loan };

    fn is_of(&self, office: u32, loan: u32) -> bool {
        self.office == office && self.loan == loan
    }
}

impl OfLoan for ShareRow {
    ghost office_of = { λ row. row.office };

    ghost loan_of = { λ row. row.loan };

    fn is_of(&self, office: u32, loan: u32) -> bool {
        self.office == office && self.loan == loan
    }
}

/// How many rows are of this loan, before the first that is not.
fn count_of<T: OfLoan>(rows: &[T], office: u32, loan: u32) -> usize
    ensures { result ≡ prefix_len (is_of_loan T.office_of T.loan_of office loan) rows.now }
{
    let mut count = 0;
    for row in rows {
        if !row.is_of(office, loan) {
            return count;
        }
        count += 1;
    }
    count
}

/// The rows of a loan, which come first, and the later ones.
fn split<'a, T: OfLoan>(rows: &'a [T], loan: &LoanRow) -> (&'a [T], &'a [T])
    ensures first { result.0.now ≡ first_rows (is_of_loan T.office_of T.loan_of loan.now.office loan.now.number)
        rows.now }
    ensures later { result.1.now ≡ later_rows (is_of_loan T.office_of T.loan_of loan.now.office loan.now.number)
        rows.now }
{
    let count = count_of(rows, loan.office, loan.number);
    rows.split_at(count)
}

/// Adds the rows of instalments and of shares of the account of a row's loan: none where it has no account.
fn add_account(
    alloc: Global,
    charges: &[ChargeRow],
    products: &[ProductRow],
    row: &LoanRow,
    entries: &[EntryRow],
    instalments: &mut Vec<InstalmentRow>,
    shares: &mut Vec<ShareRow>,
) -> Result<(), Fault>
    ensures added { OnOk result ((k : Catalogue) → IsSoundCatalogue k →
        numbered_from charge_as 1 k.charges ≡ charges.now → numbered_from product_as 1 k.products ≡ products.now →
        (names : List (List ℕ)) (l : Ledger) → IsPlainLoan k names l →
        loan_in row.now.office row.now.number l.loan ≡ row.now →
        map (entry_in row.now.office row.now.number) l.entries ≡ entries.now →
        (instalments.new.items ≡ instalments.old.items ++ map (instalment_in row.now.office row.now.number)
        (account_instalments k l))
        × (shares.new.items ≡ shares.old.items ++ map (share_in row.now.office row.now.number) (account_shares k l))) }
    ensures gives_up { IfErr result (λ fault. fault ≡ F20) }
{
    let found = account_of(alloc, charges, products, row, entries)?;
    let Some(account) = found else {
        return Ok(());
    };
    add_instalments(alloc, row.office, row.number, account.rows(), instalments)?;
    add_shares(alloc, row.office, row.number, &account, shares)
}

/// Whether the rows are those of the account of a row's loan: none where it has no account.
fn is_account(
    alloc: Global,
    charges: &[ChargeRow],
    products: &[ProductRow],
    row: &LoanRow,
    entries: &[EntryRow],
    instalments: &[InstalmentRow],
    shares: &[ShareRow],
) -> Result<bool, Fault>
    ensures account { IfOk result (λ yes. (k : Catalogue) → IsSoundCatalogue k →
        numbered_from charge_as 1 k.charges ≡ charges.now → numbered_from product_as 1 k.products ≡ products.now →
        (names : List (List ℕ)) (l : Ledger) → IsPlainLoan k names l →
        loan_in row.now.office row.now.number l.loan ≡ row.now →
        map (entry_in row.now.office row.now.number) l.entries ≡ entries.now →
        IsTrue yes ↔ ((map (instalment_in row.now.office row.now.number) (account_instalments k l) ≡ instalments.now)
        × (map (share_in row.now.office row.now.number) (account_shares k l) ≡ shares.now))) }
    ensures gives_up { IfErr result (λ fault. fault ≡ F20) }
{
    let mut own_instalments = Vec::new(alloc);
    let mut own_shares = Vec::new(alloc);
    add_account(
        alloc,
        charges,
        products,
        row,
        entries,
        &mut own_instalments,
        &mut own_shares,
    )?;
    if !are_same(&own_instalments, instalments) {
        return Ok(false);
    }
    let same = are_same(&own_shares, shares);
    Ok(same)
}

/// Whether there are no rows of instalments and of shares.
fn is_nothing_left(instalments: &[InstalmentRow], shares: &[ShareRow]) -> bool
    ensures { IsTrue result ↔ ((instalments.now ≡ []) × (shares.now ≡ [])) }
{
    instalments.is_empty() && shares.is_empty()
}

/// Whether the rows are those of the accounts of all loans, loan by loan, and nothing is left over. The rows of one
/// loan at a time are made. The only error is F20, out of memory.
pub fn are_accounts(
    alloc: Global,
    charges: &[ChargeRow],
    products: &[ProductRow],
    loans: &[LoanRow],
    entries: &[EntryRow],
    instalments: &[InstalmentRow],
    shares: &[ShareRow],
) -> Result<bool, Fault>
    ensures accounts { IfOk result (λ yes. (k : Catalogue) → IsSoundCatalogue k →
        numbered_from charge_as 1 k.charges ≡ charges.now → numbered_from product_as 1 k.products ≡ products.now →
        (ps : List PlacedLoan) → AreLoansOf k loans.now entries.now ps →
        IsTrue yes ↔ AreAccounts k ps instalments.now shares.now) }
    ensures gives_up { IfErr result (λ fault. fault ≡ F20) }
{
    let mut entries_left = entries;
    let mut instalments_left = instalments;
    let mut shares_left = shares;
    for row in loans {
        let (own_entries, later_entries) = split(entries_left, row);
        let (own_instalments, later_instalments) = split(instalments_left, row);
        let (own_shares, later_shares) = split(shares_left, row);
        if !is_account(
            alloc,
            charges,
            products,
            row,
            own_entries,
            own_instalments,
            own_shares,
        )? {
            return Ok(false);
        }
        entries_left = later_entries;
        instalments_left = later_instalments;
        shares_left = later_shares;
    }
    let nothing = is_nothing_left(instalments_left, shares_left);
    Ok(nothing)
}

/// The rows of instalments and of shares of the accounts of all loans, loan by loan. The only error is F20, out of
/// memory.
pub fn rows_of_accounts(
    alloc: Global,
    charges: &[ChargeRow],
    products: &[ProductRow],
    loans: &[LoanRow],
    entries: &[EntryRow],
) -> Result<(Vec<InstalmentRow>, Vec<ShareRow>), Fault>
    ensures accounts { IfOk result (λ rows. (k : Catalogue) → IsSoundCatalogue k →
        numbered_from charge_as 1 k.charges ≡ charges.now → numbered_from product_as 1 k.products ≡ products.now →
        (ps : List PlacedLoan) → AreLoansOf k loans.now entries.now ps → AreAccounts k ps rows.0.items rows.1.items) }
    ensures gives_up { IfErr result (λ fault. fault ≡ F20) }
{
    let mut instalments = Vec::new(alloc);
    let mut shares = Vec::new(alloc);
    let mut entries_left = entries;
    for row in loans {
        let (own_entries, later_entries) = split(entries_left, row);
        add_account(
            alloc,
            charges,
            products,
            row,
            own_entries,
            &mut instalments,
            &mut shares,
        )?;
        entries_left = later_entries;
    }
    Ok((instalments, shares))
}
