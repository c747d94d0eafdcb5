//! The books of a loan as each program reads them. Which bytes come is proved; that they come is tried here.

use mf_account::Balances;
use mf_base::Day;
use mf_ledger::{
    LoanSums, Names, Program, Transaction, opening_postings, opening_sheet, opening_text, postings,
    preamble, sheet_columns, transaction_sheet, transaction_text,
};
use mf_office::Account;
use std::alloc::Global;
use std::test::Fail;

const NONE: [u64; 4] = [0; 4];

/// What the books read of a loan of 1,000.00 with a fee of 20.00 that was kept: what was repaid, and how it was paid,
/// what is outstanding, and what is overpaid.
fn lent(repaid: u64, paid: [u64; 4], outstanding: [u64; 4], overpaid: u64) -> LoanSums {
    LoanSums {
        lent: 100_000,
        repaid,
        balances: Balances {
            disbursement_fee: 2_000,
            owed: NONE,
            paid,
            waived: NONE,
            written_off: NONE,
            outstanding,
            overpaid,
            refunded: 0,
        },
    }
}

/// The loan once it is paid out, and once 1,100.00 is repaid, of which 86.67 is too much.
fn before_and_after() -> [LoanSums; 2] {
    [
        lent(0, NONE, [0, 0, 1_333, 100_000], 0),
        lent(110_000, [0, 0, 1_333, 100_000], NONE, 8_667),
    ]
}

fn names(alloc: Global) -> Result<Names, Fail> {
    let text = "XXX=KES\nassets:cash=Assets:Bank, KCB\nassets:cash:office-0001=Assets:Till-1\n";
    Ok(Names::read(alloc, text)?)
}

/// The repayment, for a program.
fn repayment_text(alloc: Global, program: Program, names: &Names) -> Result<String, Fail> {
    let [before, after] = before_and_after();
    let loan = Account::parse(b"0001-000001").ok_or("a loan")?;
    let day = Day::parse(b"2024-03-31").ok_or("a day")?;
    let transaction = Transaction {
        number: 13,
        day,
        loan,
        postings: postings(loan.office, 1, &before, &after),
    };
    Ok(transaction_text(alloc, program, names, &transaction)?)
}

/// The repayment, as a sheet.
fn repayment_sheet(alloc: Global, names: &Names) -> Result<Vec<u8>, Fail> {
    let [before, after] = before_and_after();
    let loan = Account::parse(b"0001-000001").ok_or("a loan")?;
    let day = Day::parse(b"2024-03-31").ok_or("a day")?;
    let transaction = Transaction {
        number: 13,
        day,
        loan,
        postings: postings(loan.office, 1, &before, &after),
    };
    Ok(transaction_sheet(alloc, names, &transaction)?)
}

const HLEDGER: &str = concat!(
    "2024-03-31 (13) loan 0001-000001\n",
    "    assets:cash:office-0001:product-001                          1100.00\n",
    "    assets:principal:office-0001:product-001                    -1000.00\n",
    "    income:interest:office-0001:product-001                       -13.33\n",
    "    liabilities:overpaid:office-0001:product-001                  -86.67\n",
    "\n",
);

const BEANCOUNT: &str = concat!(
    "2024-03-31 * \"(13) loan 0001-000001\"\n",
    "    Assets:Till-1                                                1100.00 KES\n",
    "    Assets:Principal:Office-0001:Product-001                    -1000.00 KES\n",
    "    Income:Interest:Office-0001:Product-001                       -13.33 KES\n",
    "    Liabilities:Overpaid:Office-0001:Product-001                  -86.67 KES\n",
    "\n",
);

const SHEET: &str = concat!(
    "2024-03-31,13,0001-000001,Assets:Till-1,1100.00,\r\n",
    "2024-03-31,13,0001-000001,assets:principal:office-0001:product-001,,1000.00\r\n",
    "2024-03-31,13,0001-000001,income:interest:office-0001:product-001,,13.33\r\n",
    "2024-03-31,13,0001-000001,liabilities:overpaid:office-0001:product-001,,86.67\r\n",
);

#[test]
fn writes_a_transaction(rt: HostRuntime) -> Result<(), Fail> {
    let none = Names::none(rt.alloc());
    let chart = names(rt.alloc())?;
    let text = repayment_text(rt.alloc(), Program::Hledger, &none)?;
    assert_eq!(rt; text.as_str(), HLEDGER);
    let text = repayment_text(rt.alloc(), Program::Beancount, &chart)?;
    assert_eq!(rt; text.as_str(), BEANCOUNT);
    let sheet = repayment_sheet(rt.alloc(), &chart)?;
    assert!(rt; sheet.as_slice() == SHEET.as_bytes());
    Ok(())
}

/// The opening of two such loans of another office, whose cash has a name with a comma.
#[test]
fn writes_an_opening(rt: HostRuntime) -> Result<(), Fail> {
    let office = Account::parse(b"0002-000001").ok_or("a loan")?.office;
    let day = Day::parse(b"2024-03-31").ok_or("a day")?;
    let opening = opening_postings(office, 7, &before_and_after());
    let chart = names(rt.alloc())?;
    let text = opening_text(rt.alloc(), Program::Hledger, &chart, day, &opening)?;
    let expected = concat!(
        "2024-03-31 (0) opening balances\n",
        "    Assets:Bank, KCB                                             -860.00\n",
        "    assets:principal:office-0002:product-007                     1000.00\n",
        "    income:interest:office-0002:product-007                       -13.33\n",
        "    income:disbursement-fees:office-0002:product-007              -40.00\n",
        "    liabilities:overpaid:office-0002:product-007                  -86.67\n",
        "\n",
    );
    assert_eq!(rt; text.as_str(), expected);
    let sheet = opening_sheet(rt.alloc(), &chart, day, &opening)?;
    assert!(rt;
        sheet
            .as_slice()
            .starts_with(b"2024-03-31,0,,\"Assets:Bank, KCB\",,860.00\r\n")
    );
    Ok(())
}

#[test]
fn begins_a_text(rt: HostRuntime) {
    let columns = "date,number,loan,account,debit,credit\r\n";
    assert!(rt; sheet_columns() == columns.as_bytes());
    let beancount = "plugin \"beancount.plugins.auto_accounts\"\n\n";
    assert!(rt; preamble(Program::Hledger).is_empty() && preamble(Program::Beancount) == beancount);
}
