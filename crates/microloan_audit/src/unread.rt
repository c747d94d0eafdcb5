//! What is said of a row that no record can hold.

ghost use Rattle.std.specs.Prelude.{◌≡◌, ◌++◌, string_bytes, IfOk, OnOk, IsOkUnless};
ghost use Rattle.microloan_audit.specs.Unread as spec;

use mf_base::Fault;
use mf_store_audit::{TableName, Unread, UnreadValue};
use std::alloc::Global;

/// The name of a table.
fn name_of(table: TableName) -> &'static str
    ensures { result.now ≡ spec.table_name table }
{
    match table {
        TableName::Meta => "meta",
        TableName::Offices => "offices",
        TableName::Staff => "staff",
        TableName::Clients => "clients",
        TableName::Charges => "charges",
        TableName::Products => "products",
        TableName::Loans => "loans",
        TableName::Entries => "entries",
        TableName::Receipts => "receipts",
        TableName::Instalments => "instalments",
        TableName::Shares => "shares",
    }
}

/// What is said of a value for which no record can hold a row.
fn text_of(value: UnreadValue) -> &'static str
    ensures { result.now ≡ spec.value_words value }
{
    match value {
        UnreadValue::NotUtf8 => "a text that is not UTF-8",
        UnreadValue::OutOfRange => "a number that is not 0 to 4294967295",
    }
}

/// The line of a row that no record can hold: its table, the numbers of its key as they stand there, and why. The error
/// is F20, out of memory.
pub(crate) fn unread_line(alloc: Global, unread: &Unread) -> Result<String, Fault>
    ensures text { IfOk result (λ text. string_bytes text ≡ spec.unread_line unread.now) }
    ensures only { IsOkUnless result Fault.F20 }
{
    let mut line = String::from_str(alloc, name_of(unread.table))?;
    push_key(alloc, &mut line, &unread.key)?;
    line.push_str(": ")?;
    line.push_str(text_of(unread.value))?;
    Ok(line)
}

/// Writes the numbers of a key, a space before each.
fn push_key(alloc: Global, line: &mut String, key: &[i64]) -> Result<(), Fault>
    ensures text { OnOk result (string_bytes line.new ≡ string_bytes line.old ++ spec.key_text key.now) }
    ensures only { IsOkUnless result Fault.F20 }
{
    for number in key {
        line.push_str(format!(in alloc; " {number}")?.as_str())?;
    }
    Ok(())
}
