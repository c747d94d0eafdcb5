//! One entry more after many, and the last of many reversed: only what it touches changes. How many requests for memory
//! each makes is counted by `bench/count-requests`.

use super::opened::OpenLoan;
use super::opened::Step::{self, *};
use std::alloc::Global;
use std::process::Abort;
use std::test::Fail;

const CENT: Step = Repay("2024-03-31", 1);

/// A loan with so many repayments of one cent tells this at steps.
fn assert_told_after(
    rt: &impl Abort,
    alloc: Global,
    cents: u32,
    steps: &[Step],
    expected: &str,
) -> Result<(), Fail> {
    let mut loan = OpenLoan::new(alloc)?;
    for _ in 0..cents {
        loan.take_steps(alloc, &[CENT])?;
    }
    let told = loan.take_steps(alloc, steps)?;
    assert_eq!(rt; told.as_str(), expected);
    Ok(())
}

#[test]
fn many_cents(rt: HostRuntime) -> Result<(), Fail> {
    assert_told_after(&rt, rt.alloc(), 200, &[Entries], "200 entries;")
}

#[test]
fn short_undo(rt: HostRuntime) -> Result<(), Fail> {
    assert_told_after(&rt, rt.alloc(), 200, &[CENT, Change], "[1] [201];")
}

#[test]
fn short_undo_of_the_last(rt: HostRuntime) -> Result<(), Fail> {
    assert_told_after(&rt, rt.alloc(), 200, &[Reverse(200), Change], "[1] [200];")
}

#[test]
fn one_entry_more(rt: HostRuntime) -> Result<(), Fail> {
    let steps = [CENT, Change, Shares(1001)];
    assert_told_after(&rt, rt.alloc(), 1000, &steps, "[1] [1001];1 Principal 1,;")?;
    let steps = [Repay("2024-02-29", 1000), Change, Shares(1)];
    let expected = "[1] [1, 2, 3, 4];1 Principal 1,;";
    assert_told_after(&rt, rt.alloc(), 3, &steps, expected)
}
