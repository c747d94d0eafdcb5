//! What books on an accrual basis open with beside those on a cash basis.

ghost use Rattle.std.specs.Prelude.{◌≡◌};
ghost use Rattle.mf_ledger.specs.Accrual.{accrued_on};
ghost use Rattle.mf_ledger.specs.Adjusting.{accrued_posting, adjusting_on};
ghost use Rattle.mf_ledger.specs.Books.{signed_sum};

use crate::accrual::AccruedSums;
use crate::books::{BookAccount, Posting, Title};
use mf_office::OfficeNo;

/// What accrual adds on the account of a title for loans together, in cents. It is exact for any sums: no sum
/// overflows.
fn total(title: Title, loans: &[AccruedSums]) -> i128
    ensures { result ≡ signed_sum (accrued_on title) loans.now }
{
    let mut total = 0;
    for sums in loans {
        total += title.accrued(sums);
    }
    total
}

/// What accrual adds on the account of a title for loans of one office and product together.
fn accrued_posting(office: OfficeNo, product: u32, title: Title, loans: &[AccruedSums]) -> Posting
    ensures { result ≡ accrued_posting office product loans.now title }
{
    Posting {
        account: BookAccount {
            title,
            office,
            product,
        },
        amount: total(title, loans),
    }
}

/// The adjusting postings with which books of the loans of one office and product open, one for each title to which
/// accrual adds, from what accrual reads of the loans.
pub fn opening_adjustments(office: OfficeNo, product: u32, loans: &[AccruedSums]) -> [Posting; 12]
    ensures { result ≡ adjusting_on office product loans.now }
{
    [
        accrued_posting(office, product, Title::InterestReceivable, loans),
        accrued_posting(office, product, Title::InterestWaived, loans),
        accrued_posting(office, product, Title::InterestWrittenOff, loans),
        accrued_posting(office, product, Title::Interest, loans),
        accrued_posting(office, product, Title::FeesReceivable, loans),
        accrued_posting(office, product, Title::FeesWaived, loans),
        accrued_posting(office, product, Title::FeesWrittenOff, loans),
        accrued_posting(office, product, Title::Fees, loans),
        accrued_posting(office, product, Title::PenaltiesReceivable, loans),
        accrued_posting(office, product, Title::PenaltiesWaived, loans),
        accrued_posting(office, product, Title::PenaltiesWrittenOff, loans),
        accrued_posting(office, product, Title::Penalties, loans),
    ]
}
