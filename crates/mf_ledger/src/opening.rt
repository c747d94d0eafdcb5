//! The opening postings of an institution that is given its journal later.

ghost use Rattle.std.specs.Prelude.{◌≡◌};
ghost use Rattle.mf_ledger.specs.Books.{amount_on, signed_sum};
ghost use Rattle.mf_ledger.specs.Opening.{opening_posting, opening_on};

use crate::books::{BookAccount, LoanSums, Posting, Title};
use mf_office::OfficeNo;

/// What loans have on the account of a title together, in cents. It is exact for any sums: no sum overflows.
fn total(title: Title, loans: &[LoanSums]) -> i128
    ensures { result ≡ signed_sum (amount_on title) loans.now }
{
    let mut total = 0;
    for sums in loans {
        total += title.amount(sums);
    }
    total
}

/// What loans of one office and product have on the account of a title together.
fn opening_posting(office: OfficeNo, product: u32, title: Title, loans: &[LoanSums]) -> Posting
    ensures { result ≡ opening_posting office product loans.now title }
{
    Posting {
        account: BookAccount {
            title,
            office,
            product,
        },
        amount: total(title, loans),
    }
}

/// The opening postings of the loans of one office and product, one for each title, from what the books read of them.
pub fn opening_postings(office: OfficeNo, product: u32, loans: &[LoanSums]) -> [Posting; 8]
    ensures { result ≡ opening_on office product loans.now }
{
    [
        opening_posting(office, product, Title::Cash, loans),
        opening_posting(office, product, Title::Principal, loans),
        opening_posting(office, product, Title::Interest, loans),
        opening_posting(office, product, Title::Fees, loans),
        opening_posting(office, product, Title::Penalties, loans),
        opening_posting(office, product, Title::DisbursementFees, loans),
        opening_posting(office, product, Title::Overpaid, loans),
        opening_posting(office, product, Title::WrittenOff, loans),
    ]
}
