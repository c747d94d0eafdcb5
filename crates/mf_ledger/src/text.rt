//! The text of transactions, as a journal that hledger or beancount reads.

ghost use Rattle.std.specs.Prelude.{◌≡◌, ◌++◌, ◌-◌, string_bytes, IfOk, OnOk, IsOkUnless};
ghost use Rattle.mf_base.specs.Texts.{right};
ghost use Rattle.mf_ledger.specs.Books.{some_moves};
ghost use Rattle.mf_ledger.specs.Text as spec;

use crate::books::{Posting, Transaction};
use crate::names::{Names, Program};
use crate::occasion::Occasion;
use mf_base::{Day, Fault, money_text, push_right};
use mf_office::Account;
use std::alloc::Global;

/// The columns of an account and its amount together, but for two spaces between them.
const COLUMNS: usize = 66;

/// An amount with two decimals, a minus before a credit.
fn amount_text(alloc: Global, amount: i128) -> Result<String, Fault>
    ensures text { IfOk result (λ text. string_bytes text ≡ spec.signed_text amount) }
    ensures only { IsOkUnless result Fault.F20 }
{
    let money = money_text(alloc, amount.unsigned_abs())?;
    if amount < 0 {
        let text = format!(in alloc; "-{}", money.as_str())?;
        Ok(text)
    } else {
        Ok(money)
    }
}

/// Writes an amount behind an account's name of so many bytes.
fn push_amount(text: &mut String, name: usize, amount: &str) -> Result<(), Fault>
    ensures text { OnOk result (string_bytes text.new ≡ string_bytes text.old ++ right (66 - name) amount.now) }
    ensures only { IsOkUnless result Fault.F20 }
{
    push_right(text, COLUMNS.saturating_sub(name), amount)?;
    Ok(())
}

/// The commodity of amounts.
fn commodity(names: &Names) -> &str
    ensures { result.now ≡ spec.commodity names.now }
{
    match names.given_for("XXX") {
        Some(given) => given,
        None => "XXX",
    }
}

/// Writes what stands behind an amount.
fn push_end(text: &mut String, program: Program, names: &Names) -> Result<(), Fault>
    ensures text { OnOk result (string_bytes text.new
        ≡ string_bytes text.old ++ spec.line_end program names.now) }
    ensures only { IsOkUnless result Fault.F20 }
{
    match program {
        Program::Hledger => text.push_str("\n")?,
        Program::Beancount => {
            text.push_str(" ")?;
            text.push_str(commodity(names))?;
            text.push_str("\n")?;
        }
    }
    Ok(())
}

/// Writes the line of a posting.
fn push_line(
    alloc: Global,
    text: &mut String,
    program: Program,
    names: &Names,
    posting: &Posting,
) -> Result<(), Fault>
    ensures text { OnOk result (string_bytes text.new
        ≡ string_bytes text.old ++ spec.moved_text program names.now posting.now) }
    ensures only { IsOkUnless result Fault.F20 }
{
    let account = names.name_of(alloc, program, &posting.account)?;
    let amount = amount_text(alloc, posting.amount)?;
    let name = account.as_str();
    let written = amount.as_str();
    let columns = name.len();
    text.push_str("    ")?;
    text.push_str(name)?;
    text.push_str("  ")?;
    push_amount(text, columns, written)?;
    push_end(text, program, names)?;
    Ok(())
}

/// Writes the line of a posting; nothing where its amount is 0.
fn push_posting(
    alloc: Global,
    text: &mut String,
    program: Program,
    names: &Names,
    posting: &Posting,
) -> Result<(), Fault>
    ensures text { OnOk result (string_bytes text.new
        ≡ string_bytes text.old ++ spec.posting_text program names.now posting.now) }
    ensures only { IsOkUnless result Fault.F20 }
{
    if posting.amount != 0 {
        push_line(alloc, text, program, names, posting)?;
    }
    Ok(())
}

/// Writes the lines of postings.
fn push_postings(
    alloc: Global,
    text: &mut String,
    program: Program,
    names: &Names,
    postings: &[Posting],
) -> Result<(), Fault>
    ensures text { OnOk result (string_bytes text.new
        ≡ string_bytes text.old ++ spec.postings_text program names.now postings.now) }
    ensures only { IsOkUnless result Fault.F20 }
{
    for posting in postings {
        push_posting(alloc, text, program, names, posting)?;
    }
    Ok(())
}

/// The number of the line of the journal, and the loan.
fn about(alloc: Global, number: u64, loan: Option<Account>) -> Result<String, Fault>
    ensures text { IfOk result (λ text. string_bytes text ≡ spec.about number loan) }
    ensures only { IsOkUnless result Fault.F20 }
{
    match loan {
        None => {
            let text = format!(in alloc; "({number}) opening balances")?;
            Ok(text)
        }
        Some(loan) => {
            let loan = loan.text(alloc)?;
            let text = format!(in alloc; "({number}) loan {}", loan.as_str())?;
            Ok(text)
        }
    }
}

/// The first line of a transaction: its date, and what it is about.
fn heading(alloc: Global, program: Program, occasion: &Occasion) -> Result<String, Fault>
    ensures text { IfOk result (λ text. string_bytes text ≡ spec.heading program occasion.now) }
    ensures only { IsOkUnless result Fault.F20 }
{
    let about = about(alloc, occasion.number, occasion.loan)?;
    let day = occasion.day;
    let text = match program {
        Program::Hledger => format!(in alloc; "{day} {}\n", about.as_str())?,
        Program::Beancount => format!(in alloc; "{day} * \"{}\"\n", about.as_str())?,
    };
    Ok(text)
}

/// Whether any amount isn't 0.
pub(crate) fn some_moves(postings: &[Posting]) -> bool
    ensures { result ≡ some_moves postings.now }
{
    postings.iter().any(|posting| posting.amount != 0)
}

/// Postings under a heading, as the journal of a program has them; nothing where no amount is moved. Its only error is
/// F20, out of memory.
pub fn booked_text(
    alloc: Global,
    program: Program,
    names: &Names,
    occasion: &Occasion,
    postings: &[Posting],
) -> Result<String, Fault>
    ensures text { IfOk result (λ text. string_bytes text
        ≡ spec.booked_text program names.now occasion.now postings.now) }
    ensures only { IsOkUnless result Fault.F20 }
{
    if !some_moves(postings) {
        return Ok(String::new(alloc));
    }
    let mut text = heading(alloc, program, occasion)?;
    push_postings(alloc, &mut text, program, names, postings)?;
    text.push_str("\n")?;
    Ok(text)
}

/// A transaction as the journal of a program has it: its date, the number of the line of the journal and the loan,
/// then a line for each amount that isn't 0, and an empty line. Nothing where no amount is moved. Accounts are written
/// by the names that are given. Its only error is F20, out of memory.
pub fn transaction_text(
    alloc: Global,
    program: Program,
    names: &Names,
    transaction: &Transaction,
) -> Result<String, Fault>
    ensures text { IfOk result (λ text. string_bytes text
        ≡ spec.transaction_text program names.now transaction.now) }
    ensures only { IsOkUnless result Fault.F20 }
{
    let occasion = transaction.occasion();
    booked_text(alloc, program, names, &occasion, &transaction.postings)
}

/// The opening postings of a day, in the same way. Its only error is F20, out of memory.
pub fn opening_text(
    alloc: Global,
    program: Program,
    names: &Names,
    day: Day,
    postings: &[Posting],
) -> Result<String, Fault>
    ensures text { IfOk result (λ text. string_bytes text
        ≡ spec.opening_text program names.now day postings.now) }
    ensures only { IsOkUnless result Fault.F20 }
{
    booked_text(alloc, program, names, &Occasion::opening(day), postings)
}

/// What stands before the first transaction: beancount is told to open each account where it is first named.
pub fn preamble(program: Program) -> &'static str
    ensures { result.now ≡ spec.preamble program }
{
    match program {
        Program::Hledger => "",
        Program::Beancount => "plugin \"beancount.plugins.auto_accounts\"\n\n",
    }
}
