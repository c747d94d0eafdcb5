//! What is asked of the books, and the text of postings.

ghost use Rattle.std.specs.Prelude.{◌≡◌, ◌++◌, OnOk, IsOkUnless};
ghost use Rattle.mf_ledger.specs.Sheet.{rows_of, sheet_text};
ghost use Rattle.mf_ledger.specs.Text as spec;
ghost use Rattle.mf_ledger_play.specs.Told.{form_booked, form_head};

use mf_base::{Day, Fault};
use mf_ledger::{
    Basis, Names, Occasion, Posting, Program, booked_sheet, booked_text, preamble, sheet_columns,
};
use std::alloc::Global;

/// What reads the books.
#[derive(Clone, Copy, PartialEq, Eq)]
pub enum BooksForm {
    /// hledger or ledger, as a journal.
    Hledger,
    /// beancount, as a journal.
    Beancount,
    /// A spreadsheet, as comma-separated values.
    Sheet,
}

/// What is asked of the books.
#[derive(Drop)]
pub struct BooksAsked {
    pub form: BooksForm,
    /// When interest, fees and penalties are income.
    pub basis: Basis,
    /// The first business day whose transactions are written.
    pub first: Day,
    /// The last one.
    pub last: Day,
    /// The names of accounts.
    pub names: Names,
}

impl BooksAsked {
    ghost use Rattle.std.specs.Prelude.{◌≡◌, ◌&&◌, nat_le};

    /// Whether the transactions of a day are written.
    pub(crate) fn spans(&self, day: Day) -> bool
        ensures { result ≡ (nat_le self.now.first day && nat_le day self.now.last) }
    {
        self.first <= day && day <= self.last
    }
}

impl BooksForm {
    ghost use Rattle.std.specs.Prelude.{◌≡◌};
    ghost use Rattle.mf_ledger_play.specs.Told.{form_head};

    /// What stands before the first transaction.
    pub fn head(self) -> &'static [u8]
        ensures { result.now ≡ form_head self }
    {
        match self {
            BooksForm::Hledger => preamble(Program::Hledger).as_bytes(),
            BooksForm::Beancount => preamble(Program::Beancount).as_bytes(),
            BooksForm::Sheet => sheet_columns(),
        }
    }
}

/// Writes postings for a program.
fn put_text(
    alloc: Global,
    program: Program,
    names: &Names,
    occasion: &Occasion,
    postings: &[Posting],
    text: &mut Vec<u8>,
) -> Result<(), Fault>
    ensures text { OnOk result (text.new.items
        ≡ text.old.items ++ spec.booked_text program names.now occasion.now postings.now) }
    ensures only { IsOkUnless result Fault.F20 }
{
    let written = booked_text(alloc, program, names, occasion, postings)?;
    text.extend_from_slice(written.as_bytes())?;
    Ok(())
}

/// Writes the lines of postings in a sheet.
fn put_rows(
    alloc: Global,
    names: &Names,
    occasion: &Occasion,
    postings: &[Posting],
    text: &mut Vec<u8>,
) -> Result<(), Fault>
    ensures text { OnOk result (text.new.items
        ≡ text.old.items ++ sheet_text (rows_of names.now occasion.now postings.now)) }
    ensures only { IsOkUnless result Fault.F20 }
{
    let written = booked_sheet(alloc, names, occasion, postings)?;
    text.extend_from_slice(written.as_slice())?;
    Ok(())
}

/// Writes the transaction of some postings.
pub(crate) fn put_postings(
    alloc: Global,
    asked: &BooksAsked,
    occasion: &Occasion,
    postings: &[Posting],
    text: &mut Vec<u8>,
) -> Result<(), Fault>
    ensures text { OnOk result (text.new.items
        ≡ text.old.items ++ form_booked asked.now.form asked.now.names occasion.now postings.now) }
    ensures only { IsOkUnless result Fault.F20 }
{
    let names = &asked.names;
    match asked.form {
        BooksForm::Hledger => put_text(alloc, Program::Hledger, names, occasion, postings, text),
        BooksForm::Beancount => put_text(
            alloc,
            Program::Beancount,
            names,
            occasion,
            postings,
            text,
        ),
        BooksForm::Sheet => put_rows(alloc, names, occasion, postings, text),
    }
}
