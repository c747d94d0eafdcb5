//! What the rows of a sound institution come to, in fixed columns: a line for each office, and one for all.

ghost use Rattle.std.specs.Prelude.{◌≡◌, ◌++◌, string_bytes, decimal, OnOk, IfOk, IsOkUnless};
ghost use Rattle.std.specs.List.{flat_map};
ghost use Rattle.mf_base.specs.Money.{money_text};
ghost use Rattle.mf_base.specs.Texts.{right};
ghost use Rattle.microloan_audit.specs.SumsText as spec;

use mf_base::{Fault, money_text, push_right};
use mf_store_audit::{OfficeSums, Sums, total};
use std::alloc::Global;

/// How wide the column of the office is, that of a count, and that of an amount.
const OFFICE_WIDTH: usize = 6;

const COUNT_WIDTH: usize = 12;

const AMOUNT_WIDTH: usize = 24;

/// What a table shows of sums.
#[derive(Clone, Copy)]
enum Part {
    /// Clients, loans by status, and entries.
    Counts,
    /// Where the principal is.
    Principal,
    /// Where the money of repayments went.
    Money,
}

/// The tables of what offices come to and in all, and a last line. The error is F20: out of memory, or sums that are
/// too great in all.
#[tactic(auto, unfolding(crate::specs::SumsText::sums_text))]
pub(crate) fn sums_text(
    alloc: Global,
    schema: u32,
    offices: &[OfficeSums],
    last: &str,
) -> Result<String, Fault>
    ensures text { IfOk result (λ text. string_bytes text ≡ spec.sums_text schema offices.now last.now) }
    ensures only { IsOkUnless result Fault.F20 }
{
    let all = total(offices).ok_or(Fault::F20)?;
    text_with_all(alloc, schema, offices, &all, last)
}

/// The same by what they come to in all.
fn text_with_all(
    alloc: Global,
    schema: u32,
    offices: &[OfficeSums],
    all: &Sums,
    last: &str,
) -> Result<String, Fault>
    ensures text { IfOk result (λ text. string_bytes text
        ≡ spec.text_with_all schema offices.now all.now last.now) }
    ensures only { IsOkUnless result Fault.F20 }
{
    let mut text = String::new(alloc);
    push_table(alloc, &mut text, schema, Part::Counts, offices, all)?;
    push_table(alloc, &mut text, schema, Part::Principal, offices, all)?;
    push_table(alloc, &mut text, schema, Part::Money, offices, all)?;
    text.push_str(last)?;
    text.push_str("\n")?;
    Ok(text)
}

/// Writes a table: what stands above it, its titles, a line for each office, and one for all.
#[tactic(auto, unfolding(crate::specs::SumsText::table_text))]
fn push_table(
    alloc: Global,
    text: &mut String,
    schema: u32,
    part: Part,
    offices: &[OfficeSums],
    all: &Sums,
) -> Result<(), Fault>
    ensures text { OnOk result (string_bytes text.new
        ≡ string_bytes text.old ++ spec.table_text schema part offices.now all.now) }
    ensures only { IsOkUnless result Fault.F20 }
{
    push_heading(alloc, text, schema, part)?;
    text.push_str(titles(part))?;
    for office in offices {
        push_office(alloc, text, part, office)?;
    }
    push_line(alloc, text, part, "all", all)
}

/// Writes what stands above a table.
#[tactic(auto, unfolding(crate::specs::SumsText::heading))]
fn push_heading(alloc: Global, text: &mut String, schema: u32, part: Part) -> Result<(), Fault>
    ensures text { OnOk result (string_bytes text.new ≡ string_bytes text.old ++ spec.heading schema part) }
    ensures only { IsOkUnless result Fault.F20 }
{
    match part {
        Part::Counts => {
            let number = format!(in alloc; "{schema}")?;
            text.push_str("schema ")?;
            text.push_str(number.as_str())?;
            text.push_str(": clients, loans by status, entries standing and reversed\n")?;
        }
        Part::Principal => text.push_str(
            "principal: disbursed = paid + written off + outstanding\n",
        )?,
        Part::Money => text.push_str("repayments: standing = paid + overpaid + refunded\n")?,
    }
    Ok(())
}

/// The titles of a table's columns.
#[tactic(auto, unfolding(crate::specs::SumsText::title_line))]
fn titles(part: Part) -> &'static str
    ensures { result.now ≡ spec.title_line part }
{
    match part {
        Part::Counts =>
            "office     clients   submitted    approved      active   withdrawn    rejected      closed \
             written off    overpaid    standing    reversed\n",
        Part::Principal =>
            "office               disbursed                    paid             written off             outstanding\n",
        Part::Money =>
            "office                standing                    paid                overpaid                refunded\n",
    }
}

/// Writes the line of an office.
fn push_office(
    alloc: Global,
    text: &mut String,
    part: Part,
    office: &OfficeSums,
) -> Result<(), Fault>
    ensures text { OnOk result (string_bytes text.new ≡ string_bytes text.old ++ spec.office_line part office.now) }
    ensures only { IsOkUnless result Fault.F20 }
{
    let number = format!(in alloc; "{}", office.office)?;
    push_line(alloc, text, part, number.as_str(), &office.sums)
}

/// Writes a line of a table.
#[tactic(auto, unfolding(crate::specs::SumsText::sums_line))]
fn push_line(
    alloc: Global,
    text: &mut String,
    part: Part,
    name: &str,
    sums: &Sums,
) -> Result<(), Fault>
    ensures text { OnOk result (string_bytes text.new
        ≡ string_bytes text.old ++ spec.sums_line part name.now sums.now) }
    ensures only { IsOkUnless result Fault.F20 }
{
    push_right(text, OFFICE_WIDTH, name)?;
    match part {
        Part::Counts => push_counts(alloc, text, &counts_of(sums))?,
        Part::Principal => {
            let principal = &sums.principal;
            let amounts = [
                principal.disbursed,
                principal.paid,
                principal.written_off,
                principal.outstanding,
            ];
            push_amounts(alloc, text, &amounts)?;
        }
        Part::Money => {
            let money = &sums.money;
            let amounts = [money.repaid, money.paid, money.overpaid, money.refunded];
            push_amounts(alloc, text, &amounts)?;
        }
    }
    text.push('\n')?;
    Ok(())
}

/// The counts of clients, loans and entries, in the order of their columns.
fn counts_of(sums: &Sums) -> [u64; 11]
    ensures { result ≡ spec.numbers_in Part.Counts sums.now }
{
    let loans = &sums.loans;
    [
        sums.clients,
        loans.submitted,
        loans.approved,
        loans.active,
        loans.withdrawn,
        loans.rejected,
        loans.closed,
        loans.written_off,
        loans.overpaid,
        sums.entries.standing,
        sums.entries.reversed,
    ]
}

/// Writes counts, each at the right of a column.
fn push_counts(alloc: Global, text: &mut String, counts: &[u64]) -> Result<(), Fault>
    ensures text { OnOk result (string_bytes text.new
        ≡ string_bytes text.old ++ flat_map (λ count. right 12 (decimal count)) counts.now) }
    ensures only { IsOkUnless result Fault.F20 }
{
    for count in counts {
        let number = format!(in alloc; "{count}")?;
        push_right(text, COUNT_WIDTH, number.as_str())?;
    }
    Ok(())
}

/// Writes amounts of cents as money texts, each at the right of a column.
fn push_amounts(alloc: Global, text: &mut String, amounts: &[u128]) -> Result<(), Fault>
    ensures text { OnOk result (string_bytes text.new
        ≡ string_bytes text.old ++ flat_map (λ amount. right 24 (money_text amount)) amounts.now) }
    ensures only { IsOkUnless result Fault.F20 }
{
    for amount in amounts {
        let money = money_text(alloc, *amount)?;
        push_right(text, AMOUNT_WIDTH, money.as_str())?;
    }
    Ok(())
}
