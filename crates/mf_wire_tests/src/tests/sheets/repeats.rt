//! Sheets that are sent again, and receipts that are used again.

use super::{REPEATED, assert_replies, assert_results, lent, replies};
use mf_desk_books::Books;
use mf_desk_books::streams::{ENTERED, SHEET};
use std::alloc::Global;
use std::process::Abort;
use std::test::Fail;

/// What is replied of the loan after the sheet.
const SHOWN: &str =
    "200 {\"client\":\"0001-000001\",\"day\":\"2024-01-31\",\"disbursement_fee\":0,\"loan\":\"0001-000001\",\
\"outstanding\":{\"fees\":0,\"interest\":0,\"penalties\":0,\"principal\":32000},\"overpaid\":0,\
\"paid\":{\"fees\":0,\"interest\":2000,\"penalties\":0,\"principal\":68000},\"periods\":3,\"principal\":100000,\
\"product\":1,\"refunded\":0,\"status\":300,\"waived\":{\"fees\":0,\"interest\":0,\"penalties\":0,\"principal\":0},\
\"written_off\":{\"fees\":0,\"interest\":0,\"penalties\":0,\"principal\":0}}\n";

/// What is replied of it once the first entry is reversed too.
const SHOWN_REVERSED: &str =
    "200 {\"client\":\"0001-000001\",\"day\":\"2024-01-31\",\"disbursement_fee\":0,\"loan\":\"0001-000001\",\
\"outstanding\":{\"fees\":0,\"interest\":333,\"penalties\":0,\"principal\":51667},\"overpaid\":0,\
\"paid\":{\"fees\":0,\"interest\":1667,\"penalties\":0,\"principal\":48333},\"periods\":3,\"principal\":100000,\
\"product\":1,\"refunded\":0,\"status\":300,\"waived\":{\"fees\":0,\"interest\":0,\"penalties\":0,\"principal\":0},\
\"written_off\":{\"fees\":0,\"interest\":0,\"penalties\":0,\"principal\":0}}\n";

const SHOW: &str = "1/1 GET /loans/0001-000001\n";

/// All that is replied of the loan.
const SHOW_ALL: &str = "1/1 GET /loans/0001-000001\n\
1/1 GET /loans/0001-000001/schedule\n\
1/1 GET /loans/0001-000001/entries\n";

/// A second loan of the office, which isn't paid out, and a loan of another office, which is.
const MORE_LOANS: &str =
    "1/1 POST /loans {\"client\":\"0001-000001\",\"product\":1,\"principal\":100000,\"periods\":3}\n\
1/1 POST /offices {\"number\":2,\"parent\":1,\"name\":\"North\"}\n\
1/1 POST /staff {\"office\":2,\"name\":\"Ben\",\"role\":\"teller\"}\n\
1/1 POST /clients {\"office\":2,\"name\":\"Musa\"}\n\
1/1 POST /loans {\"client\":\"0002-000001\",\"product\":1,\"principal\":100000,\"periods\":3}\n\
1/1 POST /loans/0002-000001/approve\n\
1/1 POST /loans/0002-000001/disburse {\"day\":\"2024-03-31\"}\n";

const MORE_LOANS_REPLIES: &str = "201 {\"loan\":\"0001-000002\"}\n\
201 {\"office\":2}\n\
201 {\"staff\":\"2/1\"}\n\
201 {\"client\":\"0002-000001\"}\n\
201 {\"loan\":\"0002-000001\"}\n\
200 {\"loan\":\"0002-000001\",\"status\":200}\n\
200 {\"loan\":\"0002-000001\",\"status\":300}\n";

/// A receipt that is known, with another amount, on another day, for a loan that isn't paid out, for one of another
/// office, and for one that isn't there.
const USED_AGAIN: &str = "R-1,0001-000001,2024-02-29,201\n\
R-1,0001-000001,2024-03-01,200\n\
R-1,0001-000002,2024-02-29,200\n\
R-9,0001-000002,2024-02-29,200\n\
R-1,0002-000001,2024-03-31,200\n\
R-1,0001-000009,2024-02-29,200\n\
R-1,0001-000001,2024-02-29,200\n";

const USED_AGAIN_RESULTS: &str = "receipt,loan,date,amount,result\n\
R-1,0001-000001,2024-02-29,201,F15\n\
R-1,0001-000001,2024-03-01,200,F15\n\
R-1,0001-000002,2024-02-29,200,F15\n\
R-9,0001-000002,2024-02-29,200,F9\n\
R-1,0002-000001,2024-03-31,200,entered\n\
R-1,0001-000009,2024-02-29,200,F4\n\
R-1,0001-000001,2024-02-29,200,repeated\n";

/// Lines whose refusal has another number when their sheet is sent again: a receipt that a later line used, and a day
/// before the loan, which a later line paid off.
const CHANGING: &str = "R-1,0001-000002,2024-02-29,200\n\
R-2,0001-000001,2024-01-30,1\n\
R-1,0001-000001,2024-03-31,1100\n";

const CHANGING_RESULTS: &str = "receipt,loan,date,amount,result\n\
R-1,0001-000002,2024-02-29,200,F9\n\
R-2,0001-000001,2024-01-30,1,F10\n\
R-1,0001-000001,2024-03-31,1100,entered\n";

const CHANGED_RESULTS: &str = "receipt,loan,date,amount,result\n\
R-1,0001-000002,2024-02-29,200,F15\n\
R-2,0001-000001,2024-01-30,1,F9\n\
R-1,0001-000001,2024-03-31,1100,repeated\n";

/// The sheet has these results, and nothing that is shown of the loan changes.
fn assert_changes_nothing(
    rt: &impl Abort,
    alloc: Global,
    books: &mut Books,
    staff: &str,
    sheet: &[u8],
    expected: &str,
) -> Result<(), Fail> {
    let before = replies(alloc, books, SHOW_ALL)?;
    assert_results(rt, alloc, books, staff, sheet, expected.as_bytes())?;
    let now = replies(alloc, books, SHOW_ALL)?;
    assert_eq!(rt; now.as_slice(), before.as_slice());
    Ok(())
}

#[test]
fn a_sheet_sent_twice_acts_once(rt: HostRuntime) -> Result<(), Fail> {
    let alloc = rt.alloc();
    let mut books = lent(alloc)?;
    let (sheet, entered) = (SHEET.as_bytes(), ENTERED.as_bytes());
    assert_results(&rt, alloc, &mut books, "1/1", sheet, entered)?;
    assert_replies(&rt, alloc, &mut books, SHOW, SHOWN)?;
    assert_changes_nothing(&rt, alloc, &mut books, "1/1", sheet, REPEATED)
}

#[test]
fn a_receipt_used_again(rt: HostRuntime) -> Result<(), Fail> {
    let alloc = rt.alloc();
    let mut books = lent(alloc)?;
    assert_replies(&rt, alloc, &mut books, MORE_LOANS, MORE_LOANS_REPLIES)?;
    let (sheet, entered) = (SHEET.as_bytes(), ENTERED.as_bytes());
    assert_results(&rt, alloc, &mut books, "1/1", sheet, entered)?;
    let (sheet, told) = (USED_AGAIN.as_bytes(), USED_AGAIN_RESULTS.as_bytes());
    assert_results(&rt, alloc, &mut books, "1/1", sheet, told)
}

/// A receipt whose entry was reversed is known still.
#[test]
fn a_receipt_of_a_reversed_entry(rt: HostRuntime) -> Result<(), Fail> {
    let alloc = rt.alloc();
    let mut books = lent(alloc)?;
    let sheet = SHEET.as_bytes();
    assert_results(&rt, alloc, &mut books, "1/1", sheet, ENTERED.as_bytes())?;
    assert_replies(
        &rt,
        alloc,
        &mut books,
        "1/1 POST /loans/0001-000001/entries/1/reverse\n",
        "200 {\"entry\":1}\n",
    )?;
    assert_results(&rt, alloc, &mut books, "1/1", sheet, REPEATED.as_bytes())?;
    assert_replies(&rt, alloc, &mut books, SHOW, SHOWN_REVERSED)
}

/// What was refused is refused again, where its own sheet came between with another number.
#[test]
fn refusals_of_a_sheet_sent_twice(rt: HostRuntime) -> Result<(), Fail> {
    let alloc = rt.alloc();
    let mut books = lent(alloc)?;
    assert_replies(&rt, alloc, &mut books, MORE_LOANS, MORE_LOANS_REPLIES)?;
    let (sheet, told) = (CHANGING.as_bytes(), CHANGING_RESULTS.as_bytes());
    assert_results(&rt, alloc, &mut books, "1/1", sheet, told)?;
    assert_changes_nothing(&rt, alloc, &mut books, "1/1", sheet, CHANGED_RESULTS)
}

/// Who isn't known is told F2 of each line but a bad one; whoever doesn't see the loan is told that it isn't there.
#[test]
fn senders(rt: HostRuntime) -> Result<(), Fail> {
    let alloc = rt.alloc();
    let mut books = lent(alloc)?;
    assert_replies(&rt, alloc, &mut books, MORE_LOANS, MORE_LOANS_REPLIES)?;
    for (staff, told) in [
        (
            "9/9",
            "receipt,loan,date,amount,result\n\
R-1,0001-000001,2024-02-29,200,F2\n\
a,b,,,F1\n\
R-2,0001-000009,2024-02-29,200,F2\n",
        ),
        (
            "2/1",
            "receipt,loan,date,amount,result\n\
R-1,0001-000001,2024-02-29,200,F4\n\
a,b,,,F1\n\
R-2,0001-000009,2024-02-29,200,F4\n",
        ),
    ] {
        let sheet = b"R-1,0001-000001,2024-02-29,200\na,b\nR-2,0001-000009,2024-02-29,200\n";
        assert_changes_nothing(&rt, alloc, &mut books, staff, sheet, told)?;
    }
    Ok(())
}
