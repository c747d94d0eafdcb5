//! Columns of a table.

ghost use Rattle.std.specs.Prelude.{◌≡◌, ◌↔◌, IsTrue, map};
ghost use Rattle.sqlite_value.specs.declared.value.Value.TheVariants.{Null};
ghost use Rattle.mf_store_sql.specs.Tables.{typed_column};
ghost use Rattle.mf_store_schema.specs.Described.{column_in_words};

use crate::words::ColumnWords;
use sqlite_schema::schema::{Column, Kind};
use sqlite_value::keys::Collation;
use sqlite_value::value::Value;

fn is_nothing(value: &Value) -> bool
    ensures { IsTrue result ↔ (value.now ≡ Null) }
{
    match value {
        Value::Null => true,
        _ => false,
    }
}

/// Whether a column has this name and type, no default, and takes values of its type alone.
fn is_typed(found: &Column, kind: Kind, not_null: bool, name: &str) -> bool
    ensures { IsTrue result ↔ (found.now ≡ typed_column kind not_null name.now) }
{
    found.name.as_slice() == name.as_bytes()
        && found.kind == kind
        && found.is_strict
        && found.not_null == not_null
        && is_nothing(&found.default)
        && found.collation == Collation::Binary
}

fn is_column(found: &Column, wanted: &ColumnWords) -> bool
    ensures { IsTrue result ↔ (found.now ≡ column_in_words wanted.now) }
{
    match wanted {
        ColumnWords::Int(name) => is_typed(found, Kind::Integer, true, name),
        ColumnWords::Text(name) => is_typed(found, Kind::Text, true, name),
        ColumnWords::Bytes(name) => is_typed(found, Kind::Blob, true, name),
        ColumnWords::MaybeInt(name) => is_typed(found, Kind::Integer, false, name),
        ColumnWords::MaybeText(name) => is_typed(found, Kind::Text, false, name),
    }
}

/// Whether columns are those that the words describe, in their order.
pub(crate) fn are_columns(found: &[Column], wanted: &[ColumnWords]) -> bool
    ensures { IsTrue result ↔ (found.now ≡ map column_in_words wanted.now) }
{
    match (found, wanted) {
        ([], []) => true,
        ([first, rest @ ..], [word, others @ ..]) => {
            is_column(first, word) && are_columns(rest, others)
        }
        _ => false,
    }
}
