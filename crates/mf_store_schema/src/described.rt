//! Whole schemas.

ghost use Rattle.std.specs.Prelude.{◌≡◌, ◌↔◌, [], IsTrue, map};
ghost use Rattle.mf_store_schema.specs.Described.{HasKeys, table_in_words, index_in_words, schema_in_words};

use crate::column_words::are_columns;
use crate::rule_words::{are_keys, are_plain, has_no_rules};
use crate::words::{IndexWords, TableWords};
use sqlite_schema::schema::{Index, Schema, Table};

/// Whether a table stands in the tree, and under the name, that the words give.
fn is_placed(found: &Table, wanted: &TableWords) -> bool
    ensures { IsTrue result ↔ ((found.now.tree ≡ wanted.now.tree) × (found.now.name ≡ wanted.now.name.now)) }
{
    found.tree == wanted.tree && found.name.as_slice() == wanted.name.as_bytes()
}

/// Whether a table's keys are those that the words give.
fn has_keys(found: &Table, wanted: &TableWords) -> bool
    ensures { IsTrue result ↔ HasKeys wanted.now found.now }
{
    found.key == wanted.rowid
        && found.primary.as_slice() == wanted.primary
        && are_keys(found.uniques.as_slice(), wanted.uniques)
        && are_plain(found.orders.as_slice(), wanted.uniques)
}

fn is_table(found: &Table, wanted: &TableWords) -> bool
    ensures { IsTrue result ↔ (found.now ≡ table_in_words wanted.now) }
{
    if !is_placed(found, wanted) {
        return false;
    }
    if !are_columns(found.columns.as_slice(), wanted.columns) {
        return false;
    }
    if !has_keys(found, wanted) {
        return false;
    }
    has_no_rules(found)
}

fn are_tables(found: &[Table], wanted: &[TableWords]) -> bool
    ensures { IsTrue result ↔ (found.now ≡ map table_in_words wanted.now) }
{
    match (found, wanted) {
        ([], []) => true,
        ([first, rest @ ..], [words, others @ ..]) => {
            is_table(first, words) && are_tables(rest, others)
        }
        _ => false,
    }
}

fn is_index(found: &Index, wanted: &IndexWords) -> bool
    ensures { IsTrue result ↔ (found.now ≡ index_in_words wanted.now) }
{
    found.table == wanted.table
        && found.tree == wanted.tree
        && found.name.as_slice() == wanted.name.as_bytes()
        && found.columns.as_slice() == wanted.key
        && found.order.digits == 0
        && found.is_unique
}

fn are_indexes(found: &[Index], wanted: &[IndexWords]) -> bool
    ensures { IsTrue result ↔ (found.now ≡ map index_in_words wanted.now) }
{
    match (found, wanted) {
        ([], []) => true,
        ([first, rest @ ..], [words, others @ ..]) => {
            is_index(first, words) && are_indexes(rest, others)
        }
        _ => false,
    }
}

/// Whether a schema is the one that the words describe: its tables, their columns, types, keys and rules, the indexes
/// of the keys, and nothing else.
pub fn is_schema(found: &Schema, tables: &[TableWords], indexes: &[IndexWords]) -> bool
    ensures { IsTrue result ↔ (found.now ≡ schema_in_words tables.now indexes.now) }
{
    are_tables(found.tables.as_slice(), tables)
        && are_indexes(found.indexes.as_slice(), indexes)
        && found.views.is_empty()
}
