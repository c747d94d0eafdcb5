//! Rows of the tables that are held against one another.

ghost use Rattle.std.specs.Prelude.{◌≡◌, ◌↔◌, IsTrue, IfSome, IfNone};
ghost use Rattle.mf_store_played.specs.Played.{DiffersAt};

use mf_store_schema::{
    ChargeRow, ClientRow, EntryRow, InstalmentRow, LoanRow, MetaRow, OfficeRow, ProductRow,
    ReceiptRow, ShareRow, StaffRow, Text,
};
use mf_store_values::Same;

/// A row of a table.
pub(crate) trait TableRow {
    /// Whether the two are the same.
    fn is_same_row(&self, other: &Self) -> bool
        ensures { IsTrue result ↔ (self.now ≡ other.now) };
}

/// Whether two texts that may be there are the same.
fn are_same_texts(text: &Option<Text>, other: &Option<Text>) -> bool
    ensures { IsTrue result ↔ (text.now ≡ other.now) }
{
    match (text, other) {
        (None, None) => true,
        (Some(a), Some(b)) => a.as_str() == b.as_str(),
        _ => false,
    }
}

impl TableRow for MetaRow {
    fn is_same_row(&self, other: &MetaRow) -> bool {
        self.one == other.one
            && self.schema == other.schema
            && self.day.as_str() == other.day.as_str()
    }
}

impl TableRow for OfficeRow {
    fn is_same_row(&self, other: &OfficeRow) -> bool {
        self.number == other.number
            && self.parent == other.parent
            && self.hkey.as_str() == other.hkey.as_str()
            && self.name.as_str() == other.name.as_str()
    }
}

impl TableRow for StaffRow {
    fn is_same_row(&self, other: &StaffRow) -> bool {
        self.office == other.office
            && self.number == other.number
            && self.name.as_str() == other.name.as_str()
            && self.role == other.role
    }
}

impl TableRow for ClientRow {
    fn is_same_row(&self, other: &ClientRow) -> bool {
        self.office == other.office
            && self.number == other.number
            && self.name.as_str() == other.name.as_str()
    }
}

impl TableRow for ChargeRow {
    fn is_same_row(&self, other: &ChargeRow) -> bool {
        self.number == other.number
            && self.name.as_str() == other.name.as_str()
            && self.kind == other.kind
            && self.calc == other.calc
            && self.value == other.value
    }
}

impl TableRow for ProductRow {
    fn is_same_row(&self, other: &ProductRow) -> bool {
        self.number == other.number
            && self.name.as_str() == other.name.as_str()
            && self.method == other.method
            && self.rate == other.rate
            && self.frequency == other.frequency
            && self.every == other.every
            && self.principal_grace == other.principal_grace
            && self.interest_grace == other.interest_grace
            && self.min_principal == other.min_principal
            && self.max_principal == other.max_principal
            && self.min_periods == other.min_periods
            && self.max_periods == other.max_periods
            && self.strategy == other.strategy
            && self.disbursement_charge == other.disbursement_charge
            && self.instalment_charge == other.instalment_charge
            && self.overdue_charge == other.overdue_charge
            && self.retired == other.retired
    }
}

impl TableRow for LoanRow {
    fn is_same_row(&self, other: &LoanRow) -> bool {
        self.office == other.office
            && self.number == other.number
            && self.client == other.client
            && self.product == other.product
            && self.principal == other.principal
            && self.periods == other.periods
            && self.stage == other.stage
            && are_same_texts(&self.approved, &other.approved)
            && are_same_texts(&self.disbursed, &other.disbursed)
    }
}

impl TableRow for EntryRow {
    fn is_same_row(&self, other: &EntryRow) -> bool {
        self.office == other.office
            && self.loan == other.loan
            && self.seq == other.seq
            && self.kind == other.kind
            && self.day.as_str() == other.day.as_str()
            && self.amount == other.amount
            && self.instalment == other.instalment
            && self.portion == other.portion
            && are_same_texts(&self.receipt, &other.receipt)
            && self.staff.as_str() == other.staff.as_str()
            && self.reversed == other.reversed
    }
}

impl TableRow for ReceiptRow {
    fn is_same_row(&self, other: &ReceiptRow) -> bool {
        self.is_same(other)
    }
}

impl TableRow for InstalmentRow {
    fn is_same_row(&self, other: &InstalmentRow) -> bool {
        self.is_same(other)
    }
}

impl TableRow for ShareRow {
    fn is_same_row(&self, other: &ShareRow) -> bool {
        self.is_same(other)
    }
}

/// The first place at which rows differ; none where they are the same.
pub(crate) fn first_difference<T: TableRow>(rows: &[T], others: &[T]) -> Option<usize>
    ensures differ { IfSome result (λ place. DiffersAt rows.now others.now place) }
    ensures same { IfNone result (rows.now ≡ others.now) }
{
    for place in 0..rows.len() {
        if place >= others.len() {
            return Some(place);
        }
        if !rows[place].is_same_row(&others[place]) {
            return Some(place);
        }
    }
    if rows.len() < others.len() {
        return Some(rows.len());
    }
    None
}
