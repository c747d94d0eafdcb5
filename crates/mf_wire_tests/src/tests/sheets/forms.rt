//! Sheets as spreadsheets write them, lines that are no repayments, and the longest sheet.

use super::{assert_results, lent};
use mf_base::Fault;
use mf_sheet::{LONGEST, SheetLine, read_sheet, result_sheet};
use std::alloc::{AllocError, Global};
use std::test::Fail;

/// Sheets, each collected over a new institution, and their results without the heading.
const FORMS: [(&[u8], &[u8]); 17] = [
    // nothing, and the heading alone, in any case of ASCII and with spaces and tabs
    (b"", b""),
    (b"receipt,loan,date,amount", b""),
    (b" Receipt\t,LOAN, date ,\"Amount\"\r\n", b""),
    // line ends of either kind, empty lines, and none at the end
    (
        b"receipt,loan,date,amount\r\nR-1,0001-000001,2024-02-29,200\r\n\r\nR-2,0001-000001,2024-03-31,1.5",
        b"R-1,0001-000001,2024-02-29,200,entered\nR-2,0001-000001,2024-03-31,1.5,entered\n",
    ),
    // a byte order mark, before the heading and before a line
    (
        b"\xef\xbb\xbfreceipt,loan,date,amount\nR-1,0001-000001,2024-02-29,200\n",
        b"R-1,0001-000001,2024-02-29,200,entered\n",
    ),
    (
        b"\xef\xbb\xbfR-1,0001-000001,2024-02-29,200\n",
        b"R-1,0001-000001,2024-02-29,200,entered\n",
    ),
    // each field quoted, where none needs it
    (
        b"\"receipt\",\"loan\",\"date\",\"amount\"\n\"R-1\",\"0001-000001\",\"2024-02-29\",\"200\"\n",
        b"R-1,0001-000001,2024-02-29,200,entered\n",
    ),
    // a comma and a quote within a receipt
    (
        b"\"R,1\",0001-000001,2024-02-29,200\n\"R\"\"2\",0001-000001,2024-02-29,200\n",
        b"\"R,1\",0001-000001,2024-02-29,200,entered\n\"R\"\"2\",0001-000001,2024-02-29,200,entered\n",
    ),
    // a line break within a field, which no receipt has
    (
        b"\"R\n1\",0001-000001,2024-02-29,200\nR-2,0001-000001,2024-02-29,200\n",
        b"\"R\n1\",0001-000001,2024-02-29,200,F1\nR-2,0001-000001,2024-02-29,200,entered\n",
    ),
    // all that LibreOffice writes at once, with a decimal comma in an amount and a line after the broken one
    (
        b"\xef\xbb\xbfreceipt,loan,date,amount\r\n\"R,1\",0001-000001,2024-02-29,200\r\n\
\"R\"\"2\",0001-000001,2024-02-29,1.5\r\n\"R\n3\",0001-000001,2024-02-29,200\r\n\
R-4,0001-000001,2024-02-29,\"1,50\"\r\nR-5,0001-000001,2024-03-31,500\r\n",
        b"\"R,1\",0001-000001,2024-02-29,200,entered\n\"R\"\"2\",0001-000001,2024-02-29,1.5,entered\n\
\"R\n3\",0001-000001,2024-02-29,200,F1\nR-4,0001-000001,2024-02-29,\"1,50\",F1\n\
R-5,0001-000001,2024-03-31,500,entered\n",
    ),
    // spaces and tabs round a field don't count, and stand in the results
    (
        b" R-1,\t0001-000001 , 2024-02-29,200\t\n",
        b" R-1,\t0001-000001 , 2024-02-29,200\t,entered\n",
    ),
    // too few fields and too many
    (
        b"a,b\na,b,c,d,e\nR-1,0001-000001,2024-02-29,200\n",
        b"a,b,,,F1\na,b,c,d,F1\nR-1,0001-000001,2024-02-29,200,entered\n",
    ),
    // a first record that doesn't name the four columns in their order is a line
    (
        b"loan,receipt,date,amount\nR-1,0001-000001,2024-02-29,200\n",
        b"loan,receipt,date,amount,F1\nR-1,0001-000001,2024-02-29,200,entered\n",
    ),
    (
        b"receipt,loan,date,amount,result\nR-1,0001-000001,2024-02-29,200\n",
        b"receipt,loan,date,amount,F1\nR-1,0001-000001,2024-02-29,200,entered\n",
    ),
    // receipts with a space, of 41 characters and of 40, and with a byte above those of ASCII
    (
        b"R 1,0001-000001,2024-02-29,200\n\
aaaaaaaaaabbbbbbbbbbccccccccccdddddddddd1,0001-000001,2024-02-29,200\n\
aaaaaaaaaabbbbbbbbbbccccccccccdddddddddd,0001-000001,2024-02-29,200\n\
R\x7f,0001-000001,2024-02-29,200\n,0001-000001,2024-02-29,200\n",
        b"R 1,0001-000001,2024-02-29,200,F1\n\
aaaaaaaaaabbbbbbbbbbccccccccccdddddddddd1,0001-000001,2024-02-29,200,F1\n\
aaaaaaaaaabbbbbbbbbbccccccccccdddddddddd,0001-000001,2024-02-29,200,entered\n\
R\x7f,0001-000001,2024-02-29,200,F1\n,0001-000001,2024-02-29,200,F1\n",
    ),
    // amounts: the greatest and one cent more, none, and what is no amount
    (
        b"R-1,0001-000001,2024-02-29,10000000000.01\nR-2,0001-000001,2024-02-29,0\nR-3,0001-000001,2024-02-29,1.\n\
R-4,0001-000001,2024-02-29,.5\nR-5,0001-000001,2024-02-29,1.234\nR-6,0001-000001,2024-02-29,-1\n\
R-7,0001-000001,2024-02-29,\"1,000\"\nR-8,0001-000001,2024-02-29,\nR-9,0001-000001,2024-02-29,007.05\n",
        b"R-1,0001-000001,2024-02-29,10000000000.01,F1\nR-2,0001-000001,2024-02-29,0,F1\n\
R-3,0001-000001,2024-02-29,1.,F1\nR-4,0001-000001,2024-02-29,.5,F1\n\
R-5,0001-000001,2024-02-29,1.234,F1\nR-6,0001-000001,2024-02-29,-1,F1\n\
R-7,0001-000001,2024-02-29,\"1,000\",F1\nR-8,0001-000001,2024-02-29,,F1\nR-9,0001-000001,2024-02-29,007.05,entered\n",
    ),
    // days that aren't, and days out of order
    (
        b"R-1,0001-000001,2023-02-29,200\nR-2,0001-000001,2024-2-29,200\nR-3,0001-000001,29.02.2024,200\n\
R-4,0001-000001,2024-01-30,200\nR-5,0001-000001,2024-04-01,200\n",
        b"R-1,0001-000001,2023-02-29,200,F1\nR-2,0001-000001,2024-2-29,200,F1\nR-3,0001-000001,29.02.2024,200,F1\n\
R-4,0001-000001,2024-01-30,200,F10\nR-5,0001-000001,2024-04-01,200,F10\n",
    ),
];

const HEADING: &[u8] = b"receipt,loan,date,amount,result\n";

#[test]
fn sheets_of_many_forms(rt: HostRuntime) -> Result<(), Fail> {
    let alloc = rt.alloc();
    for (sheet, records) in FORMS {
        let mut books = lent(alloc)?;
        let mut expected = Vec::from_slice(alloc, HEADING)?;
        expected.extend_from_slice(records)?;
        assert_results(&rt, alloc, &mut books, "1/1", sheet, expected.as_slice())?;
    }
    Ok(())
}

/// A sheet of one line, so many bytes long.
fn one_long_line(alloc: Global, length: usize) -> Result<Vec<u8>, AllocError> {
    let mut sheet = Vec::from_slice(alloc, b"R-1,0001-000001,2024-02-29,200")?;
    for _ in sheet.len()..length {
        sheet.push(b' ')?;
    }
    Ok(sheet)
}

/// The longest sheet is read, and one of a byte more is not.
#[test]
fn the_longest_sheet(rt: HostRuntime) -> Result<(), Fail> {
    let alloc = rt.alloc();
    let longest = one_long_line(alloc, LONGEST)?;
    assert_eq!(rt; longest.len(), 1_048_576);
    let sheet = read_sheet(alloc, longest.as_slice())?;
    assert_eq!(rt; sheet.rows().len(), 1);
    for row in sheet.rows() {
        let is_repayment = match row.line() {
            SheetLine::Repay(_) => true,
            SheetLine::Bad => false,
        };
        assert!(rt; is_repayment);
    }
    let longer = one_long_line(alloc, LONGEST + 1)?;
    let refused = read_sheet(alloc, longer.as_slice());
    assert_eq!(rt; refused.err(), Some(Fault::F1));
    let refused = result_sheet(alloc, longer.as_slice(), &[]);
    assert_eq!(rt; refused.err(), Some(Fault::F1));
    Ok(())
}
