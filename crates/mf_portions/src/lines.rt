//! The lines of a table: what loans come to by portion.

ghost use Rattle.std.specs.Prelude.{◌≡◌, sum_by};
ghost use Rattle.mf_portions.specs.Portions.{figure, line_on, lines_on, of_heading};

use mf_account::Balances;
use mf_office::OfficeNo;

/// What a line is about.
#[derive(Clone, Copy, PartialEq, Eq)]
pub enum Heading {
    Penalties,
    Fees,
    Interest,
    Principal,
    /// The fee that is kept when a loan is paid out.
    Kept,
}

/// A column of the table.
#[derive(Clone, Copy)]
pub enum Column {
    Owed,
    Paid,
    Waived,
    WrittenOff,
    Outstanding,
}

/// What the loans of an office and a product come to under a heading, in cents.
#[derive(Clone, Copy)]
pub struct PortionLine {
    pub office: OfficeNo,
    pub product: u32,
    pub heading: Heading,
    /// What the schedules have, and what was charged since; of principal, what was lent.
    pub owed: u128,
    pub paid: u128,
    pub waived: u128,
    pub written_off: u128,
    pub outstanding: u128,
}

/// Of sums by portion, and a sum of the fee that is kept, the one of a heading.
fn of_heading(heading: Heading, sums: &[u64; 4], kept: u64) -> u64
    ensures { result ≡ of_heading heading sums.now kept }
{
    match heading {
        Heading::Penalties => sums[0],
        Heading::Fees => sums[1],
        Heading::Interest => sums[2],
        Heading::Principal => sums[3],
        Heading::Kept => kept,
    }
}

/// What a loan with these sums has in a column under a heading.
fn figure(heading: Heading, column: Column, balances: &Balances) -> u64
    ensures { result ≡ figure heading column balances.now }
{
    let kept = balances.disbursement_fee;
    match column {
        Column::Owed => of_heading(heading, &balances.owed, kept),
        Column::Paid => of_heading(heading, &balances.paid, kept),
        Column::Waived => of_heading(heading, &balances.waived, 0),
        Column::WrittenOff => of_heading(heading, &balances.written_off, 0),
        Column::Outstanding => of_heading(heading, &balances.outstanding, 0),
    }
}

/// What loans have in a column under a heading together. It is exact for any sums: no sum overflows.
fn total(heading: Heading, column: Column, loans: &[Balances]) -> u128
    ensures { result ≡ sum_by (figure heading column) loans.now }
{
    let mut total: u128 = 0;
    for balances in loans {
        total += u128::from(figure(heading, column, balances));
    }
    total
}

/// The line of the loans of one office and product under a heading.
fn line_on(office: OfficeNo, product: u32, heading: Heading, loans: &[Balances]) -> PortionLine
    ensures { result ≡ line_on office product loans.now heading }
{
    PortionLine {
        office,
        product,
        heading,
        owed: total(heading, Column::Owed, loans),
        paid: total(heading, Column::Paid, loans),
        waived: total(heading, Column::Waived, loans),
        written_off: total(heading, Column::WrittenOff, loans),
        outstanding: total(heading, Column::Outstanding, loans),
    }
}

/// The lines of the loans of one office and product, one for each heading, from the sums of each loan.
pub fn portion_lines(office: OfficeNo, product: u32, loans: &[Balances]) -> [PortionLine; 5]
    ensures { result ≡ lines_on office product loans.now }
{
    [
        line_on(office, product, Heading::Penalties, loans),
        line_on(office, product, Heading::Fees, loans),
        line_on(office, product, Heading::Interest, loans),
        line_on(office, product, Heading::Principal, loans),
        line_on(office, product, Heading::Kept, loans),
    ]
}
