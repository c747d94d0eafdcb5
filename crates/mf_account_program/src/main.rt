//! One loan that takes repayments of one cent, a step for each line of standard input, for what no request shows: how
//! much memory (`bench/count-requests`) and how much time (`bench/account`) one entry more takes after many. Safety
//! alone is claimed of it.
#![tactic(auto)]

mod loan;
mod step;

use crate::loan::OpenLoan;
use crate::step::Step;
use mf_base::Fault;
use std::alloc::Global;
use std::io;
use std::process::ExitCode;
use std::time::Clock;

fn main(rt: HostRuntime) -> io::Result<ExitCode> {
    let alloc = rt.alloc();
    let Ok(mut loan) = OpenLoan::new(alloc) else {
        return Ok(ExitCode::from(1));
    };
    for line in rt.lines(alloc) {
        match tell(alloc, &rt, &mut loan, line?.as_str()) {
            Ok(text) => rt.println(text)?,
            Err(fault) => println!(rt; "{fault:?}")?,
        }
    }
    Ok(ExitCode::from(0))
}

/// What comes of a line.
fn tell<C: Clock>(
    alloc: Global,
    clock: &C,
    loan: &mut OpenLoan,
    line: &str,
) -> Result<String, Fault> {
    match Step::parse(line) {
        Some(step) => loan.tell(alloc, clock, step),
        None => Err(Fault::F1),
    }
}
