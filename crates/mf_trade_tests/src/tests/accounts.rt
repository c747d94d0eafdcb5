//! Worked accounts of one loan. No clause says that a call succeeds, or which cents come out. What other entries than
//! repayments do, and other strategies, is among the lines that the program is run on.

mod opened;
mod undoing;

use opened::OpenLoan;
use opened::Step::{self, *};
use std::test::Fail;

const FIRST: Step = Repay("2024-02-29", 20000);

const SECOND: Step = Repay("2024-03-31", 50000);

/// Steps on a new loan, and what is told at them.
const CASES: &[(&[Step], &str)] = &[
    (
        &[Status, Balances, Entries],
        "300;fee 0 owed [0, 0, 2000, 100000] paid [0, 0, 0, 0] waived [0, 0, 0, 0] written off [0, 0, 0, 0] \
outstanding [0, 0, 2000, 100000] overpaid 0 refunded 0;0 entries;",
    ),
    (
        &[FIRST, SECOND, Balances, Shares(1), Shares(2), Entries],
        "fee 0 owed [0, 0, 2000, 100000] paid [0, 0, 2000, 68000] waived [0, 0, 0, 0] written off [0, 0, 0, 0] \
outstanding [0, 0, 0, 32000] overpaid 0 refunded 0;\
1 Interest 1000,1 Principal 19000,;\
1 Principal 14333,2 Interest 667,2 Principal 33333,3 Interest 333,3 Principal 1334,;2 entries;",
    ),
    // a day before the disbursement, and one after the business day
    (
        &[
            Repay("2024-01-30", 20000),
            Repay("2024-04-01", 20000),
            Entries,
        ],
        "F10;F10;0 entries;",
    ),
    // the first is reversed, once, and only what is there
    (
        &[
            FIRST,
            SECOND,
            Reverse(1),
            Reverse(1),
            Reverse(9),
            Balances,
            Shares(1),
            Shares(2),
        ],
        "F13;F12;fee 0 owed [0, 0, 2000, 100000] paid [0, 0, 1667, 48333] waived [0, 0, 0, 0] written off [0, 0, 0, 0] \
outstanding [0, 0, 333, 51667] overpaid 0 refunded 0;;1 Interest 1000,1 Principal 33333,\
2 Interest 667,2 Principal 15000,;",
    ),
    (
        &[
            Change,
            FIRST,
            Change,
            SECOND,
            Change,
            Reverse(1),
            Change,
            Reverse(1),
            Change,
        ],
        "[] [];[1] [1];[1, 2, 3] [2];[2, 3] [1, 2];F13;[2, 3] [1, 2];",
    ),
];

#[test]
fn repayments_and_reversals(rt: HostRuntime) -> Result<(), Fail> {
    for (steps, expected) in CASES {
        let mut loan = OpenLoan::new(rt.alloc())?;
        let told = loan.take_steps(rt.alloc(), *steps)?;
        assert!(rt; told.as_str() == *expected, "{expected}");
    }
    Ok(())
}
