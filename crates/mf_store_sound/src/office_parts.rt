//! The rows that belong to offices: those of one, and those of all in turn.

ghost use Rattle.std.specs.Prelude.{◌≡◌, ◌≤◌, ◌↔◌, IsTrue, [], map};
ghost use Rattle.mf_base.specs.DayText.{last_entered_day};
ghost use Rattle.mf_model.specs.Institution.{Catalogue};
ghost use Rattle.mf_model.specs.Tree.{Ascending};
ghost use Rattle.mf_store_values.specs.Flat.{product_as, numbered_from};
ghost use Rattle.mf_store_values.specs.Parts.{own, later, office_of};
ghost use Rattle.mf_store_sound.specs.Sound.{IsOfficePart, AreOfficeParts};

use crate::loan_parts::are_loans;
use crate::loans::Lender;
use crate::numbered::are_numbered;
use crate::owners::split_by_owner;
use mf_base::Day;
use mf_office::{AccountNo, StaffNo};
use mf_store_schema::{ClientRow, EntryRow, LoanRow, OfficeRow, ProductRow, StaffRow};

/// Rows that belong to offices, each table's in the order of the offices.
#[derive(Clone, Copy)]
pub(crate) struct Belongings<'a> {
    pub(crate) staff: &'a [StaffRow],
    pub(crate) clients: &'a [ClientRow],
    pub(crate) loans: &'a [LoanRow],
    pub(crate) entries: &'a [EntryRow],
}

impl<'a> Belongings<'a> {
    /// Those of this office, which come first, and the later ones.
    fn split(self, office: u32) -> (Belongings<'a>, Belongings<'a>)
        ensures own { (result.0.staff.now ≡ own (λ row. row.office) office self.entry.staff.now)
            × (result.0.clients.now ≡ own (λ row. row.office) office self.entry.clients.now)
            × (result.0.loans.now ≡ own (λ row. row.office) office self.entry.loans.now)
            × (result.0.entries.now ≡ own (λ row. row.office) office self.entry.entries.now) }
        ensures later { (result.1.staff.now ≡ later (λ row. row.office) office self.entry.staff.now)
            × (result.1.clients.now ≡ later (λ row. row.office) office self.entry.clients.now)
            × (result.1.loans.now ≡ later (λ row. row.office) office self.entry.loans.now)
            × (result.1.entries.now ≡ later (λ row. row.office) office self.entry.entries.now) }
    {
        let (staff, later_staff) = split_by_owner(self.staff, office, |row| row.office);
        let (clients, later_clients) = split_by_owner(self.clients, office, |row| row.office);
        let (loans, later_loans) = split_by_owner(self.loans, office, |row| row.office);
        let (entries, later_entries) = split_by_owner(self.entries, office, |row| row.office);
        let own = Belongings {
            staff,
            clients,
            loans,
            entries,
        };
        let later = Belongings {
            staff: later_staff,
            clients: later_clients,
            loans: later_loans,
            entries: later_entries,
        };
        (own, later)
    }

    /// Whether there are no rows.
    fn is_empty(self) -> bool
        ensures { IsTrue result ↔ ((self.entry.staff.now ≡ []) × (self.entry.clients.now ≡ [])
            × (self.entry.loans.now ≡ []) × (self.entry.entries.now ≡ [])) }
    {
        self.staff.is_empty()
            && self.clients.is_empty()
            && self.loans.is_empty()
            && self.entries.is_empty()
    }
}

/// Whether the rows are those of this office's staff, clients, loans and entries. It does not check who entered the
/// entries, nor their receipts.
fn is_office_part(today: Day, products: &[ProductRow], office: u32, own: Belongings) -> bool
    requires { today ≤ last_entered_day }
    ensures { (k : Catalogue) → k.day ≡ today → numbered_from product_as 1 k.products ≡ products.now →
        IsTrue result ↔ IsOfficePart k office own.entry.staff.now own.entry.clients.now own.entry.loans.now
        own.entry.entries.now }
{
    if !are_numbered(office, own.staff, StaffNo::MAX) {
        return false;
    }
    if !are_numbered(office, own.clients, AccountNo::MAX) {
        return false;
    }
    let lender = Lender {
        office,
        clients: own.clients.len(),
        products,
        today,
    };
    are_loans(&lender, own.loans, own.entries)
}

/// Whether the rows are those of these offices' staff, clients, loans and entries, office by office. It does not check
/// who entered the entries, nor their receipts.
pub(crate) fn are_office_parts(
    today: Day,
    products: &[ProductRow],
    offices: &[OfficeRow],
    all: Belongings,
) -> bool
    requires { today ≤ last_entered_day }
    ensures { (k : Catalogue) → k.day ≡ today → numbered_from product_as 1 k.products ≡ products.now →
        Ascending (map office_of offices.now) →
        IsTrue result ↔ AreOfficeParts k offices.now all.entry.staff.now all.entry.clients.now all.entry.loans.now
        all.entry.entries.now }
{
    let mut left = all;
    for office in offices {
        let (own, later) = left.split(office.number);
        if !is_office_part(today, products, office.number, own) {
            return false;
        }
        left = later;
    }
    left.is_empty()
}
