//! The text by which a repayment that came as a line of a sheet is noted: that of the request that would ask for it.

ghost use Rattle.std.specs.Prelude.{◌≡◌, ◌++◌, OnOk, IfOk, IfErr, codes, string_bytes};
ghost use Rattle.mf_base.specs.declared.fault.Fault.TheVariants.{F20};
ghost use Rattle.mf_office.specs.Written.{account_text};
ghost use Rattle.mf_model.specs.Notes.{quoted_bytes, repayment_body};

use mf_base::{Day, Fault};
use mf_office::Account;
use std::alloc::Global;

/// Adds bytes as they stand within a JSON string: a quote and a backslash get a backslash before them.
fn push_quoted(text: &mut Vec<u8>, bytes: &[u8]) -> Result<(), Fault>
    ensures text { OnOk result (text.new.items ≡ text.old.items ++ quoted_bytes bytes.now) }
    ensures gives_up { IfErr result (λ fault. fault ≡ F20) }
{
    for byte in bytes {
        if *byte == b'"' || *byte == b'\\' {
            text.push(b'\\')?;
        }
        text.push(*byte)?;
    }
    Ok(())
}

/// The body of the request that asks for a repayment of so many cents, on a day, with a receipt. Its only error is F20,
/// out of memory.
pub fn repayment_body(
    alloc: Global,
    amount: u64,
    day: Day,
    receipt: &[u8],
) -> Result<Vec<u8>, Fault>
    ensures body { IfOk result (λ body. body.items ≡ repayment_body amount day receipt.now) }
    ensures gives_up { IfErr result (λ fault. fault ≡ F20) }
{
    let head = format!(in alloc; "{{\"amount\":{amount},\"day\":\"{day}\",\"receipt\":\"")?;
    let mut body = Vec::new(alloc);
    body.extend_from_slice(head.as_bytes())?;
    push_quoted(&mut body, receipt)?;
    body.extend_from_slice(b"\"}")?;
    Ok(body)
}

/// The path of the request that asks for a repayment of a loan. Its only error is F20, out of memory.
pub fn repayment_path(alloc: Global, loan: Account) -> Result<String, Fault>
    ensures path { IfOk result (λ path. string_bytes path ≡ codes "/loans/" ++ (account_text loan.office loan.number
        ++ codes "/repayments")) }
    ensures gives_up { IfErr result (λ fault. fault ≡ F20) }
{
    let account = loan.text(alloc)?;
    let path = format!(in alloc; "/loans/{}/repayments", account.as_str())?;
    Ok(path)
}
