//! The table journal in words. Its rows are `mf_store_journal`'s.

use crate::words::{ColumnWords, TableWords};

/// The table in words that a schema found is compared with. Its key is its rowid, so it has no index.
pub(crate) const WORDS: TableWords = TableWords {
    tree: 23,
    name: "journal",
    columns: &[
        ColumnWords::MaybeInt("number"),
        ColumnWords::Int("day"),
        ColumnWords::Int("office"),
        ColumnWords::Int("staff"),
        ColumnWords::Bytes("told"),
        ColumnWords::Bytes("method"),
        ColumnWords::Bytes("path"),
        ColumnWords::Bytes("body"),
        ColumnWords::Int("named_office"),
        ColumnWords::Int("named_loan"),
        ColumnWords::Bytes("chain"),
    ],
    rowid: Some(0),
    primary: &[0],
    uniques: &[],
};
