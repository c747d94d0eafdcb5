//! The text by which a line of a sheet is noted in a journal: it reads as that line's repayment.

use super::{assert_results, lent};
use mf_base::Day;
use mf_journal::{Head, JournalRow, repayment_body, repayment_path};
use mf_office::Account;
use mf_play::{Stop, play_line};
use mf_wire::answer_text;
use mf_wire_requests::Routes;
use std::process::Abort;
use std::test::Fail;

/// A receipt with the two characters that JSON writes with a backslash.
const RECEIPT: &[u8] = b"R\"1\\x";

const BODY: &[u8] = b"{\"amount\":20000,\"day\":\"2024-02-29\",\"receipt\":\"R\\\"1\\\\x\"}";

/// A sheet with that repayment alone, and its results where the repayment is known.
const SHEET: &[u8] = b"receipt,loan,date,amount\n\"R\"\"1\\x\",0001-000001,2024-02-29,200\n";

const REPEATED: &[u8] =
    b"receipt,loan,date,amount,result\n\"R\"\"1\\x\",0001-000001,2024-02-29,200,repeated\n";

/// The number of 31 March 2024, the business day after the loan was lent.
const LENT_DAY: u64 = 8_856;

/// The SHA-256 of `microloan`, 3 and 9,497, each number in eight bytes, as Python's hashlib has it.
const FOUNDED: [u8; 32] = [
    144, 110, 8, 219, 108, 35, 116, 189, 53, 120, 201, 194, 139, 206, 171, 212, 136, 6, 0, 111,
    230, 234, 165, 171, 222, 213, 215, 205, 92, 161, 222, 140,
];

#[test]
fn journal_begins_at_its_founding(rt: HostRuntime) -> Result<(), Fail> {
    let head = Head::founding(3, 9_497);
    assert_eq!(rt; head.number, 0);
    assert_eq!(rt; head.day, 9_497);
    assert_eq!(rt; head.chain.as_slice(), FOUNDED.as_slice());
    Ok(())
}

#[test]
fn noted_text_reads_as_the_line(rt: HostRuntime) -> Result<(), Fail> {
    let alloc = rt.alloc();
    let mut books = lent(alloc)?;
    let loan = Account::parse(b"0001-000001").ok_or("an account")?;
    let day = Day::parse(b"2024-02-29").ok_or("a day")?;
    let path = repayment_path(alloc, loan)?;
    let body = repayment_body(alloc, 20_000, day, RECEIPT)?;
    assert_eq!(rt; path.as_str(), "/loans/0001-000001/repayments");
    assert_eq!(rt; body.as_slice(), BODY);
    let (status, told) = answer_text(
        alloc,
        &mut books,
        b"1/1",
        b"POST",
        path.as_bytes(),
        body.as_slice(),
    )?;
    assert_eq!(rt; status, 201);
    assert_eq!(rt; told.as_str(), "{\"entry\":1}");
    assert_results(&rt, alloc, &mut books, "1/1", SHEET, REPEATED)
}

/// The line that notes it plays once: its receipt is known then.
#[test]
fn noted_repayment_plays(rt: HostRuntime) -> Result<(), Fail> {
    let alloc = rt.alloc();
    let mut books = lent(alloc)?;
    let Ok(routes) = Routes::new(alloc) else {
        return Err(Fail::from("no routes"));
    };
    let row = JournalRow {
        day: LENT_DAY,
        office: 1,
        staff: 1,
        told: b"".as_slice(),
        method: b"POST".as_slice(),
        path: b"/loans/0001-000001/repayments".as_slice(),
        body: BODY,
        named_office: 1,
        named_loan: 1,
    };
    assert_eq!(rt; play_line(alloc, &routes, &mut books, row)?, Ok(()));
    assert_eq!(rt;
        play_line(alloc, &routes, &mut books, row)?,
        Err(Stop::ChangesNothing)
    );
    assert_results(&rt, alloc, &mut books, "1/1", SHEET, REPEATED)
}
