//! A loan's sums by portion, over all its instalments.

ghost use Rattle.std.specs.Prelude.{◌≡◌, ℕ, ◌<◌, ◌^◌, ◌∷◌, []};
ghost use Rattle.mf_alloc.specs.Rows.{place_in_row};
ghost use Rattle.mf_account.specs.Account.{sum_at};
ghost use Rattle.mf_account.specs.Balance.{column_of, portion_sums, open_in, balances_by, HasRoom};

use mf_alloc::{Instalment, Portion};

/// A loan's sums over all its instalments, in whole cents. The lists are in the order of `Portion`.
#[derive(Clone, Copy, PartialEq, Eq)]
pub struct Balances {
    /// The charge taken at disbursement. It stands beside the schedule and enters no balance.
    pub disbursement_fee: u64,
    pub owed: [u64; 4],
    pub paid: [u64; 4],
    pub waived: [u64; 4],
    pub written_off: [u64; 4],
    pub outstanding: [u64; 4],
    pub overpaid: u64,
    pub refunded: u64,
}

/// One of a row's sums.
#[derive(Clone, Copy, PartialEq, Eq)]
pub(crate) enum Column {
    Owed,
    Paid,
    Waived,
    WrittenOff,
}

/// A row's sum by portion.
fn sums_of(row: &Instalment, column: Column) -> [u64; 4]
    ensures { result ≡ column_of column row.now }
{
    match column {
        Column::Owed => row.owed,
        Column::Paid => row.paid,
        Column::Waived => row.waived,
        Column::WrittenOff => row.written_off,
    }
}

/// A sum of all rows, of a portion by its place.
fn sum_of_portion(rows: &[Instalment], column: Column, p: usize) -> u64
    requires small { p < 4 }
    requires room { sum_at (column_of column) p rows.now < 2 ^ 64 }
    ensures { result ≡ sum_at (column_of column) p rows.now }
{
    rows.iter().map(|row| sums_of(row, column)[p]).sum()
}

/// A sum of all rows, by portion.
pub(crate) fn sum_by_portion(rows: &[Instalment], column: Column) -> [u64; 4]
    requires { HasRoom rows.now }
    ensures { result ≡ portion_sums (column_of column) rows.now }
{
    [
        sum_of_portion(rows, column, 0),
        sum_of_portion(rows, column, 1),
        sum_of_portion(rows, column, 2),
        sum_of_portion(rows, column, 3),
    ]
}

/// What is outstanding of a portion.
fn outstanding_at(rows: &[Instalment], portion: Portion) -> u64
    requires { open_in (place_in_row portion) rows.now < 2 ^ 64 }
    ensures { result ≡ open_in (place_in_row portion) rows.now }
{
    rows.iter().map(|row| row.outstanding(portion)).sum()
}

/// What is outstanding, by portion.
fn all_outstanding(rows: &[Instalment]) -> [u64; 4]
    requires { HasRoom rows.now }
    ensures { result ≡ open_in 0 rows.now ∷ open_in 1 rows.now ∷ open_in 2 rows.now ∷ open_in 3 rows.now ∷ [] }
{
    [
        outstanding_at(rows, Portion::Penalty),
        outstanding_at(rows, Portion::Fee),
        outstanding_at(rows, Portion::Interest),
        outstanding_at(rows, Portion::Principal),
    ]
}

/// The sums of all instalments, beside what is overpaid, refunded and charged at disbursement.
pub(crate) fn book_sums(
    rows: &[Instalment],
    overpaid: u64,
    refunded: u64,
    disbursement_fee: u64,
) -> Balances
    requires { HasRoom rows.now }
    ensures { result ≡ balances_by disbursement_fee (record {
      rows = rows.now;
      overpaid = overpaid;
      refunded = refunded;
    }) }
{
    Balances {
        disbursement_fee,
        owed: sum_by_portion(rows, Column::Owed),
        paid: sum_by_portion(rows, Column::Paid),
        waived: sum_by_portion(rows, Column::Waived),
        written_off: sum_by_portion(rows, Column::WrittenOff),
        outstanding: all_outstanding(rows),
        overpaid,
        refunded,
    }
}
