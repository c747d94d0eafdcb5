//! The report of arrears: the sums of its lines, and its text in fixed columns.

ghost use Rattle.std.specs.Prelude.{◌≡◌, ℕ, ◌+◌, ◌*◌, ◌-◌, ◌≤◌, ◌^◌, ◌++◌, [], OnOk, IfOk, IsOkUnless, IfSome, None};
ghost use Rattle.std.specs.Prelude.{◌≢◌, string_bytes, sum_by, decimal};
ghost use Rattle.mf_base.specs.Money as spec;
ghost use Rattle.mf_base.specs.Texts.{right};
ghost use Rattle.mf_arrears.specs.Line.{OfficeLine, IsLine, par30_of};
ghost use Rattle.mf_arrears.specs.Report.{report_columns, columns, sums_of, line_text, all_text, total_of};
ghost use Rattle.mf_arrears.specs.Report.{plus, report_bytes};

use crate::line::{OfficeLine, part_at_risk};
use mf_base::{Fault, money_text, push_right};
use std::alloc::Global;
use std::marker::Model;

/// A line of the report, and its totals, count at most so many loans.
pub const MOST_LOANS: u64 = 10_000_000_000;

/// The sums of several offices' lines, in cents.
#[derive(Drop)]
pub struct Totals {
    pub loans: u64,
    pub outstanding: u128,
    pub c1_30: u128,
    pub c31_60: u128,
    pub c61_90: u128,
    pub over_90: u128,
}

impl Model for Totals {
    ghost Value = { OfficeLine };

    ghost view = { λ t. record {
      office = 0;
      loans = t.loans;
      outstanding = t.outstanding;
      c1_30 = t.c1_30;
      c31_60 = t.c31_60;
      c61_90 = t.c61_90;
      over_90 = t.over_90;
    } };

    ghost invariant = { λ t. IsLine t.loans t.outstanding t.c1_30 t.c31_60 t.c61_90 t.over_90 };
}

impl Totals {
    /// The sums of lines, or None where they have over 10^10 loans.
    pub fn of(lines: &[OfficeLine]) -> Option<Totals>
        ensures value { IfSome result (λ totals. totals ≡ total_of lines.now) }
        ensures few { IfSome result (λ totals. sum_by (λ (line : OfficeLine). line.loans) lines.now ≤ 10 ^ 10) }
        ensures some { sum_by (λ (line : OfficeLine). line.loans) lines.now ≤ 10 ^ 10 → result ≢ None }
    {
        let mut all = Totals::new();
        for office in lines {
            if MOST_LOANS < office.loans || MOST_LOANS - office.loans < all.loans {
                return None;
            }
            all.add_line(office);
        }
        Some(all)
    }

    fn new() -> Self
        ensures { result ≡ total_of [] }
    {
        Totals {
            loans: 0,
            outstanding: 0,
            c1_30: 0,
            c31_60: 0,
            c61_90: 0,
            over_90: 0,
        }
    }

    /// Adds an office's line.
    fn add_line(&mut self, line: &OfficeLine)
        requires { self.old.loans + line.now.loans ≤ 10 ^ 10 }
        ensures { self.new ≡ plus self.old line.now }
    {
        self.loans += line.loans;
        self.outstanding += line.outstanding;
        self.c1_30 += line.c1_30;
        self.c31_60 += line.c31_60;
        self.c61_90 += line.c61_90;
        self.over_90 += line.over_90;
    }

    /// The portfolio at risk over all the lines, in hundredths of a percent.
    pub fn par30(&self) -> u128
        ensures { result ≡ par30_of self.now }
    {
        let (loans, outstanding) = (self.loans, self.outstanding);
        let risk = self.c31_60 + self.c61_90 + self.over_90;
        part_at_risk(loans, outstanding, risk)
    }
}

/// Writes a sum at the right of a column.
fn push_sum(alloc: Global, out: &mut String, sum: u128, width: usize) -> Result<(), Fault>
    ensures text { OnOk result (string_bytes out.new ≡ string_bytes out.old ++ right width (spec.money_text sum)) }
    ensures only { IsOkUnless result Fault.F20 }
{
    let text = money_text(alloc, sum)?;
    push_right(out, width, text.as_str())?;
    Ok(())
}

/// Writes a number at the right of a column.
fn push_number(alloc: Global, out: &mut String, number: u64, width: usize) -> Result<(), Fault>
    ensures text { OnOk result (string_bytes out.new ≡ string_bytes out.old ++ right width (decimal number)) }
    ensures only { IsOkUnless result Fault.F20 }
{
    let text = format!(in alloc; "{number}")?;
    push_right(out, width, text.as_str())?;
    Ok(())
}

/// Writes the columns after the first, and the line's end.
fn push_columns(
    alloc: Global,
    out: &mut String,
    loans: u64,
    sums: &[u128],
    par30: u128,
) -> Result<(), Fault>
    ensures text { OnOk result (string_bytes out.new ≡ string_bytes out.old ++ report_columns loans sums.now par30) }
    ensures only { IsOkUnless result Fault.F20 }
{
    push_number(alloc, out, loans, 12)?;
    for sum in sums {
        push_sum(alloc, out, *sum, 24)?;
    }
    push_sum(alloc, out, par30, 8)?;
    out.push('\n')?;
    Ok(())
}

/// Writes an office's line.
fn push_line(alloc: Global, out: &mut String, line: &OfficeLine) -> Result<(), Fault>
    ensures text { OnOk result (string_bytes out.new ≡ string_bytes out.old ++ line_text line.now) }
    ensures only { IsOkUnless result Fault.F20 }
{
    let sums = [
        line.outstanding,
        line.c1_30,
        line.c31_60,
        line.c61_90,
        line.over_90,
    ];
    push_number(alloc, out, u64::from(line.office.get()), 4)?;
    push_columns(alloc, out, line.loans, &sums, line.par30())
}

/// Writes the line of all.
fn push_all(alloc: Global, out: &mut String, all: &Totals) -> Result<(), Fault>
    ensures text { OnOk result (string_bytes out.new ≡ string_bytes out.old ++ all_text all.now) }
    ensures only { IsOkUnless result Fault.F20 }
{
    let sums = [
        all.outstanding,
        all.c1_30,
        all.c31_60,
        all.c61_90,
        all.over_90,
    ];
    push_right(out, 4, "all")?;
    push_columns(alloc, out, all.loans, &sums, all.par30())
}

/// The report: a line for each office, in the order handed in, and the line of their sums. Each is 144 columns wide,
/// and sums are money texts. The only error is F20, out of memory.
pub fn report_text(alloc: Global, lines: &[OfficeLine]) -> Result<String, Fault>
    requires { sum_by (λ (line : OfficeLine). line.loans) lines.now ≤ 10 ^ 10 }
    ensures text { IfOk result (λ text. string_bytes text ≡ report_bytes lines.now) }
    ensures only { IsOkUnless result Fault.F20 }
{
    let mut text = String::new(alloc);
    let mut all = Totals::new();
    for line in lines {
        push_line(alloc, &mut text, line)?;
        all.add_line(line);
    }
    push_all(alloc, &mut text, &all)?;
    Ok(text)
}
