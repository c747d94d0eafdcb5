//! The text of a table: comma-separated values, a line for each line that moved.

ghost use Rattle.std.specs.Prelude.{◌≡◌, ◌++◌, string_bytes, IfOk, OnOk, IsOkUnless};
ghost use Rattle.mf_portions.specs.Table as spec;

use crate::lines::{Heading, PortionLine};
use mf_base::{Fault, money_text};
use std::alloc::Global;

impl Heading {
    ghost use Rattle.std.specs.Prelude.{◌≡◌};
    ghost use Rattle.mf_portions.specs.Table.{heading_text};

    /// The heading as it is written.
    fn text(self) -> &'static str
        ensures { result.now ≡ heading_text self }
    {
        match self {
            Heading::Penalties => "penalties",
            Heading::Fees => "fees",
            Heading::Interest => "interest",
            Heading::Principal => "principal",
            Heading::Kept => "fee at disbursement",
        }
    }
}

impl PortionLine {
    ghost use Rattle.std.specs.Prelude.{◌≡◌};
    ghost use Rattle.mf_portions.specs.Table.{is_like, moves, nothing_like};

    /// Whether both are of one office, product and heading.
    fn is_like(&self, other: &PortionLine) -> bool
        ensures { result ≡ is_like self.now other.now }
    {
        self.office.get() == other.office.get()
            && self.product == other.product
            && self.heading == other.heading
    }

    /// The line of this office, product and heading of an institution that has no loans.
    fn nothing(&self) -> PortionLine
        ensures { result ≡ nothing_like self.now }
    {
        PortionLine {
            office: self.office,
            product: self.product,
            heading: self.heading,
            owed: 0,
            paid: 0,
            waived: 0,
            written_off: 0,
            outstanding: 0,
        }
    }

    /// Whether any figure is another than it was before.
    fn moves(&self, before: &PortionLine) -> bool
        ensures { result ≡ moves before.now self.now }
    {
        self.owed != before.owed
            || self.paid != before.paid
            || self.waived != before.waived
            || self.written_off != before.written_off
            || self.outstanding != before.outstanding
    }
}

/// What the lines before have for a line: the first that is like it, and else nothing.
fn line_before(before: &[PortionLine], line: &PortionLine) -> PortionLine
    ensures { result ≡ spec.line_before before.now line.now }
{
    for earlier in before {
        if earlier.is_like(line) {
            return *earlier;
        }
    }
    line.nothing()
}

/// What a figure is now, less what it was before: a minus stands before it where it is less.
fn amount_text(alloc: Global, before: u128, now: u128) -> Result<String, Fault>
    ensures text { IfOk result (λ text. string_bytes text ≡ spec.amount_text before now) }
    ensures only { IsOkUnless result Fault.F20 }
{
    if before <= now {
        money_text(alloc, now - before)
    } else {
        let less = money_text(alloc, before - now)?;
        let text = format!(in alloc; "-{}", less.as_str())?;
        Ok(text)
    }
}

/// The five figures of a line, less those before.
fn amounts_text(alloc: Global, before: &PortionLine, line: &PortionLine) -> Result<String, Fault>
    ensures text { IfOk result (λ text. string_bytes text ≡ spec.amounts_text before.now line.now) }
    ensures only { IsOkUnless result Fault.F20 }
{
    let owed = amount_text(alloc, before.owed, line.owed)?;
    let paid = amount_text(alloc, before.paid, line.paid)?;
    let waived = amount_text(alloc, before.waived, line.waived)?;
    let written_off = amount_text(alloc, before.written_off, line.written_off)?;
    let outstanding = amount_text(alloc, before.outstanding, line.outstanding)?;
    let text = format!(in alloc;
        "{},{},{},{},{}",
        owed.as_str(),
        paid.as_str(),
        waived.as_str(),
        written_off.as_str(),
        outstanding.as_str()
    )?;
    Ok(text)
}

/// The text of a line, less the line before; nothing where no figure moved.
fn line_text(alloc: Global, before: &PortionLine, line: &PortionLine) -> Result<String, Fault>
    ensures text { IfOk result (λ text. string_bytes text ≡ spec.line_text before.now line.now) }
    ensures only { IsOkUnless result Fault.F20 }
{
    if !line.moves(before) {
        return Ok(String::new(alloc));
    }
    let office = line.office.get();
    let product = line.product;
    let heading = line.heading.text();
    let amounts = amounts_text(alloc, before, line)?;
    let text = format!(in alloc; "{office},{product},{heading},{}\n", amounts.as_str())?;
    Ok(text)
}

/// Writes the lines of a table behind a text.
fn push_lines(
    alloc: Global,
    before: &[PortionLine],
    lines: &[PortionLine],
    text: &mut Vec<u8>,
) -> Result<(), Fault>
    ensures text { OnOk result (text.new.items ≡ text.old.items ++ spec.lines_text before.now lines.now) }
    ensures only { IsOkUnless result Fault.F20 }
{
    for line in lines {
        let earlier = line_before(before, line);
        let written = line_text(alloc, &earlier, line)?;
        text.extend_from_slice(written.as_bytes())?;
    }
    Ok(())
}

/// The first line of a table, which names its columns.
fn table_head() -> &'static [u8]
    ensures { result.now ≡ spec.table_head }
{
    b"office,product,portion,owed,paid,waived,written off,outstanding\n"
}

/// A table of comma-separated values: of each line what it has, less what the line of the same office, product and
/// heading had before; nothing where no figure moved. Its only error is F20, out of memory.
pub fn table_text(
    alloc: Global,
    before: &[PortionLine],
    lines: &[PortionLine],
) -> Result<Vec<u8>, Fault>
    ensures text { IfOk result (λ text. text.items ≡ spec.table_text before.now lines.now) }
    ensures only { IsOkUnless result Fault.F20 }
{
    let mut text = Vec::new(alloc);
    text.extend_from_slice(table_head())?;
    push_lines(alloc, before, lines, &mut text)?;
    Ok(text)
}
