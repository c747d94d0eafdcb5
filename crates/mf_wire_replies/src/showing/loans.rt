//! Loans as JSON.

ghost use Rattle.std.specs.Prelude.{◌≡◌, ℕ, List, true, IfOk, IfErr, string_bytes};
ghost use Rattle.json.specs.Print.{quoted};
ghost use Rattle.serde_json.specs.View.{view};
ghost use Rattle.serde_json.specs.Written.{compact_text, members_text};
ghost use Rattle.mf_model.specs.declared.reply.Reply.TheVariants.{Loan};
ghost use Rattle.mf_wire_replies.specs.Shown.{IsBodyOf};
ghost use Rattle.mf_wire_replies.specs.LoanTexts.{loan_end, loan_rest, loan_by_texts};
ghost use Rattle.mf_wire_replies.specs.LoanTexts.{loan_data, sums_data, day_or_null, told_status, loan_line_data};
ghost use Rattle.mf_wire_replies.specs.LoanTexts.{lines_data};

use super::account::instalments_text;
use super::entries::entries_text;
use super::lists::{Written, list_text};
use super::texts::{quoted_text, text_in};
use super::{Body, single_number};
use mf_alloc::Portion;
use mf_base::{Day, Fault};
use mf_model::{LoanLine, LoanReply, Statement};
use mf_office::Account;
use std::alloc::{AllocError, Global};

impl Written for LoanLine {
    ghost json = { loan_line_data };

    fn put(&self, alloc: Global, text: &mut String) -> Result<(), Fault> {
        let loan = quoted_text(alloc, self.loan.text(alloc)?.as_str())?;
        let status = self.status;
        text.write(format_args!(r#"{{"loan":{loan},"status":{status}}}"#))?;
        Ok(())
    }
}

/// The body of a loan that has come to a status.
fn status_text(alloc: Global, line: &LoanLine) -> Result<String, Fault>
    ensures ok { IfOk result (λ s. string_bytes s ≡ compact_text (loan_line_data line.now)) }
    ensures err { IfErr result (λ f. f ≡ Fault.F20) }
{
    let mut text = String::with_capacity(alloc, 48)?;
    line.put(alloc, &mut text)?;
    Ok(text)
}

/// The body that lists loans.
pub fn loans_text(alloc: Global, lines: &[LoanLine]) -> Result<String, Fault>
    ensures ok { IfOk result (λ s. string_bytes s ≡ compact_text (lines_data lines.now)) }
    ensures err { IfErr result (λ f. f ≡ Fault.F20) }
{
    list_text(alloc, r#"{"loans":["#, lines)
}

/// Sums by portion as JSON, in whole cents.
pub fn sums_text(alloc: Global, sums: &[u64; 4]) -> Result<String, AllocError>
    ensures { IfOk result (λ s. string_bytes s ≡ compact_text (sums_data sums.now)) }
{
    let fees = sums[Portion::Fee.index()];
    let interest = sums[Portion::Interest.index()];
    let penalties = sums[Portion::Penalty.index()];
    let principal = sums[Portion::Principal.index()];
    let shown = format_args!(
        r#"{{"fees":{fees},"interest":{interest},"penalties":{penalties},"principal":{principal}}}"#
    );
    text_in(alloc, 112, shown)
}

/// A loan's members from `product` on, and the closing bracket.
fn loan_end(alloc: Global, loan: &Statement) -> Result<String, AllocError>
    ensures { IfOk result (λ s. string_bytes s ≡ members_text true (loan_end loan.now)) }
{
    let product = loan.product;
    let status = loan.status;
    let refunded = loan.balances.refunded;
    let waived = sums_text(alloc, &loan.balances.waived)?;
    let written_off = sums_text(alloc, &loan.balances.written_off)?;
    let shown = format_args!(
        ",\"product\":{product},\"refunded\":{refunded},\"status\":{status},\"waived\":{waived},\
         \"written_off\":{written_off}}}"
    );
    text_in(alloc, 320, shown)
}

/// A loan's members from `outstanding` on, and the closing bracket, by the text of the last of them.
fn loan_rest(alloc: Global, loan: &Statement) -> Result<String, AllocError>
    ensures { IfOk result (λ s. string_bytes s ≡ members_text true (loan_rest loan.now)) }
{
    let principal = loan.principal;
    let periods = loan.periods;
    let overpaid = loan.balances.overpaid;
    let outstanding = sums_text(alloc, &loan.balances.outstanding)?;
    let paid = sums_text(alloc, &loan.balances.paid)?;
    let end = loan_end(alloc, loan)?;
    let shown = format_args!(
        ",\"outstanding\":{outstanding},\"overpaid\":{overpaid},\"paid\":{paid},\"periods\":{periods},\
         \"principal\":{principal}{end}"
    );
    text_in(alloc, 640, shown)
}

/// A day as JSON, in quotes, or null where there is none.
pub fn day_text(alloc: Global, day: Option<Day>) -> Result<String, Fault>
    ensures ok { IfOk result (λ s. string_bytes s ≡ compact_text (day_or_null day)) }
    ensures err { IfErr result (λ f. f ≡ Fault.F20) }
{
    match day {
        Some(day) => Ok(quoted_text(alloc, day.text(alloc)?.as_str())?),
        None => Ok(String::from_str(alloc, "null")?),
    }
}

/// The body of a loan whose account and whose client's are written so in JSON. It is written at once: a value of JSON
/// would take a map for each of its five objects.
fn loan_body(alloc: Global, client: &str, account: &str, loan: &Statement) -> Result<String, Fault>
    ensures ok { IfOk result (λ s. (c a : List ℕ) → client.now ≡ quoted c → account.now ≡ quoted a → string_bytes s
        ≡ compact_text (loan_by_texts c a loan.now)) }
    ensures err { IfErr result (λ f. f ≡ Fault.F20) }
{
    let fee = loan.balances.disbursement_fee;
    let day = day_text(alloc, loan.day)?;
    let rest = loan_rest(alloc, loan)?;
    let shown = format_args!(
        r#"{{"client":{client},"day":{day},"disbursement_fee":{fee},"loan":{account}{rest}"#
    );
    let body = text_in(alloc, 768, shown)?;
    Ok(body)
}

/// The body of a loan as it stands.
fn shown_text(alloc: Global, account: Account, loan: &Statement) -> Result<String, Fault>
    ensures ok { IfOk result (λ s. string_bytes s ≡ compact_text (loan_data account loan.now)) }
    ensures err { IfErr result (λ f. f ≡ Fault.F20) }
{
    let Account { office, number } = account;
    let client = Account {
        office,
        number: loan.client,
    };
    let client = client.text(alloc)?;
    let client = quoted_text(alloc, client.as_str())?;
    let account = Account { office, number }.text(alloc)?;
    let account = quoted_text(alloc, account.as_str())?;
    loan_body(alloc, client.as_str(), account.as_str(), loan)
}

/// What is replied of a loan.
pub fn loan_told(alloc: Global, loan: Account, told: &LoanReply) -> Result<Body, Fault>
    ensures ok { IfOk result (IsBodyOf (Loan loan told.now)) }
    ensures err { IfErr result (λ f. f ≡ Fault.F20) }
{
    match told {
        LoanReply::Shown(shown) => Ok(Body::Text(shown_text(alloc, loan, shown)?)),
        LoanReply::Instalments(lines) => {
            Ok(Body::Text(instalments_text(alloc, lines.as_slice())?))
        }
        LoanReply::Entries(lines) => Ok(Body::Text(entries_text(alloc, lines.as_slice())?)),
        LoanReply::Status(status) => {
            let status = *status;
            Ok(Body::Text(status_text(alloc, &LoanLine { loan, status })?))
        }
        LoanReply::Entered(entry) | LoanReply::Repeated(entry) | LoanReply::Reversed(entry) => {
            single_number(alloc, "entry", *entry)
        }
    }
}

/// The HTTP status of what is replied of a loan.
pub fn told_status(told: &LoanReply) -> u16
    ensures { result ≡ told_status told.now }
{
    match told {
        LoanReply::Shown(_)
        | LoanReply::Instalments(_)
        | LoanReply::Entries(_)
        | LoanReply::Status(_)
        | LoanReply::Repeated(_)
        | LoanReply::Reversed(_) => 200,
        LoanReply::Entered(_) => 201,
    }
}
