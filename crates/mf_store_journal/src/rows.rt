//! Rows of the table, of whatever values, as lines of a journal. It takes no memory.

ghost use Rattle.std.specs.Prelude.{◌≡◌, ◌<◌, ◌^◌, pos, List, ℕ, length, IfSome, IfNone};
ghost use Rattle.sqlite.specs.Order.{column};
ghost use Rattle.sqlite.specs.declared.types.Value.TheVariants.{Int, Blob};
ghost use Rattle.mf_store_sql.specs.Numbered.{shown_filed};
ghost use Rattle.mf_store_schema.specs.Fields.{IsNumber};
ghost use Rattle.mf_store_journal.specs.Rows.{filed_kept, HasPlace, IsLineRow, IsChain};

use mf_journal::{JournalRow, KeptRow};
use sqlite::Row;
use sqlite_value::value::ValueRef;

/// The number in a column, if it is one of 32 bits without a sign.
fn number_at(row: &Row, at: usize) -> Option<u64>
    requires { at < length row.now }
    ensures some { IfSome result (λ n. column row.now at ≡ Int (pos n)) }
    ensures narrow { IfSome result (λ n. n < 2 ^ 32) }
    ensures none { IfNone result (¬ IsNumber (column row.now at)) }
{
    let Ok(ValueRef::Int(value)) = row.get_ref(at) else {
        return None;
    };
    match u32::try_from(value) {
        Ok(number) => Some(u64::from(number)),
        Err(_) => None,
    }
}

/// The bytes in a column, if it has bytes.
fn bytes_at(row: &Row, at: usize) -> Option<&[u8]>
    requires { at < length row.now }
    ensures some { IfSome result (λ bytes. column row.now at ≡ Blob bytes.now) }
    ensures none { IfNone result ((bytes : List ℕ) → ¬ (column row.now at ≡ Blob bytes)) }
{
    match row.get_ref(at) {
        Ok(ValueRef::Blob(bytes)) => Some(bytes),
        _ => None,
    }
}

/// The chain in a column, if it has 32 bytes.
fn chain_at(row: &Row, at: usize) -> Option<[u8; 32]>
    requires { at < length row.now }
    ensures some { IfSome result (λ chain. column row.now at ≡ Blob chain) }
    ensures whole { IfSome result (λ chain. length chain ≡ 32) }
    ensures none { IfNone result (¬ IsChain (column row.now at)) }
{
    let bytes = bytes_at(row, at)?;
    if bytes.len() != 32 {
        return None;
    }
    let mut chain = [0u8; 32];
    chain.copy_from_slice(bytes);
    Some(chain)
}

/// The line that has this row, with its number and the chain after it; none where no line of the table has it.
pub fn kept_row(row: &Row) -> Option<KeptRow<'_>>
    ensures row { IfSome result (λ kept. shown_filed (filed_kept kept) ≡ row.now) }
    ensures place { IfSome result HasPlace }
    ensures chain { IfSome result (λ kept. length kept.chain ≡ 32) }
    ensures none { IfNone result (¬ IsLineRow row.now) }
{
    if row.column_count() != 11 {
        return None;
    }
    let chain = chain_at(row, 10)?;
    Some(KeptRow {
        number: number_at(row, 0)?,
        row: JournalRow {
            day: number_at(row, 1)?,
            office: number_at(row, 2)?,
            staff: number_at(row, 3)?,
            told: bytes_at(row, 4)?,
            method: bytes_at(row, 5)?,
            path: bytes_at(row, 6)?,
            body: bytes_at(row, 7)?,
            named_office: number_at(row, 8)?,
            named_loan: number_at(row, 9)?,
        },
        chain,
    })
}
