//! What the rows of offices come to, office by office.

ghost use Rattle.std.specs.Prelude.{◌≡◌, ℕ, List, map, IfOk, IfErr};
ghost use Rattle.std.specs.List.{AllByRecursion};
ghost use Rattle.mf_base.specs.declared.fault.Fault.TheVariants.{F20};
ghost use Rattle.mf_model.specs.Institution.{Catalogue, Institution, Ledger, Office};
ghost use Rattle.mf_model.specs.Sound.{IsSound, IsSoundCatalogue};
ghost use Rattle.mf_store_values.specs.Flat.{charge_as, product_as, loan_in, entry_in, own_entries};
ghost use Rattle.mf_store_values.specs.Flat.{numbered_from, rows_of_loans};
ghost use Rattle.mf_store_sound.specs.Schemas.{tables_under, without_accounts};
ghost use Rattle.mf_store_audit.specs.OfficeSums.{IsPlain, AreRowsOfOffices};
ghost use Rattle.mf_store_audit.specs.Sums.{sums_by_loan, sums_of_office, sums_of_all, Fit, IsBalanced};

use crate::sums_by_loan::loan_sums;
use crate::totals::{OfficeSums, Sums};
use mf_base::Fault;
use mf_store_schema::{ChargeRow, ClientRow, EntryRow, LoanRow, OfficeRow, ProductRow};
use mf_store_sound::{Tables, split_by_owner};
use std::alloc::Global;

/// What so many clients and the loans of an office come to, by the rows of its loans and of their entries. The error is
/// F20: out of memory, or sums that are too great.
fn sums_of_loans(
    alloc: Global,
    charges: &[ChargeRow],
    products: &[ProductRow],
    clients: u64,
    loans: &[LoanRow],
    entries: &[EntryRow],
) -> Result<Sums, Fault>
    ensures sums { IfOk result (λ found. (k : Catalogue) → IsSoundCatalogue k →
        numbered_from charge_as 1 k.charges ≡ charges.now → numbered_from product_as 1 k.products ≡ products.now →
        (office : ℕ) (ls : List Ledger) → AllByRecursion (IsPlain k) ls →
        numbered_from (loan_in office) 1 (map (λ (l : Ledger). l.loan) ls) ≡ loans.now →
        rows_of_loans entry_in own_entries office 1 ls ≡ entries.now → found ≡ sums_by_loan k clients ls) }
    ensures gives_up { IfErr result (λ fault. fault ≡ F20) }
{
    let mut sums = Sums::of_clients(clients);
    let mut entries_left = entries;
    for row in loans {
        let (own_entries, later_entries) = split_by_owner(entries_left, row.number, |row| row.loan);
        let loan = loan_sums(alloc, charges, products, row, own_entries)?;
        let Some(more) = sums.plus(loan) else {
            return Err(Fault::F20);
        };
        sums = more;
        entries_left = later_entries;
    }
    Ok(sums)
}

/// What the rows of offices come to, office by office. The error is F20: out of memory, or sums that are too great.
fn sums_of_offices(
    alloc: Global,
    charges: &[ChargeRow],
    products: &[ProductRow],
    offices: &[OfficeRow],
    clients: &[ClientRow],
    loans: &[LoanRow],
    entries: &[EntryRow],
) -> Result<Vec<OfficeSums>, Fault>
    ensures sums { IfOk result (λ found. (k : Catalogue) → IsSoundCatalogue k →
        numbered_from charge_as 1 k.charges ≡ charges.now → numbered_from product_as 1 k.products ≡ products.now →
        (fs : List Office) → AreRowsOfOffices k offices.now clients.now loans.now entries.now fs →
        found.items ≡ map (sums_of_office k) fs) }
    ensures gives_up { IfErr result (λ fault. fault ≡ F20) }
{
    let mut found = Vec::new(alloc);
    let mut clients_left = clients;
    let mut loans_left = loans;
    let mut entries_left = entries;
    for office in offices {
        let (own_clients, later_clients) = split_by_owner(
            clients_left,
            office.number,
            |row| row.office,
        );
        let (own_loans, later_loans) = split_by_owner(loans_left, office.number, |row| row.office);
        let (own_entries, later_entries) = split_by_owner(
            entries_left,
            office.number,
            |row| row.office,
        );
        let count = own_clients.len() as u64;
        let sums = sums_of_loans(alloc, charges, products, count, own_loans, own_entries)?;
        found.push(OfficeSums {
            office: office.number,
            sums,
        })?;
        clients_left = later_clients;
        loans_left = later_loans;
        entries_left = later_entries;
    }
    Ok(found)
}

/// What the rows of a sound institution come to, under either schema: each office's in the order of their numbers. Each
/// loan's account is replayed, one at a time. It does not check that the rows are sound, and leaves out the rows of
/// accounts. The error is F20: out of memory, or sums that are too great.
pub fn office_sums(alloc: Global, tables: &Tables) -> Result<Vec<OfficeSums>, Fault>
    ensures sums { IfOk result (λ found. (schema : ℕ) (i : Institution) → IsSound i →
        tables_under schema i ≡ without_accounts tables.now
        → found.items ≡ map (sums_of_office i.catalogue) i.offices) }
    ensures balanced { IfOk result (λ found. (schema : ℕ) (i : Institution) → IsSound i →
        tables_under schema i ≡ without_accounts tables.now →
        AllByRecursion (λ (o : OfficeSums). IsBalanced o.sums) found.items) }
    ensures fit { IfOk result (λ found. (schema : ℕ) (i : Institution) → IsSound i →
        tables_under schema i ≡ without_accounts tables.now → Fit (sums_of_all found.items)) }
    ensures gives_up { IfErr result (λ fault. fault ≡ F20) }
{
    sums_of_offices(
        alloc,
        &tables.charges,
        &tables.products,
        &tables.offices,
        &tables.clients,
        &tables.loans,
        &tables.entries,
    )
}
