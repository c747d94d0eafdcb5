//! Words that describe tables.

/// A column of a STRICT table, by its name: of type INTEGER, TEXT or BLOB, and NOT NULL or not. It has no default.
#[derive(Clone, Copy)]
pub enum ColumnWords {
    Int(&'static str),
    Text(&'static str),
    Bytes(&'static str),
    MaybeInt(&'static str),
    MaybeText(&'static str),
}

/// A STRICT table with no rule but its keys, by the tree that has its rows. A key is a list of columns, counted from 1.
#[derive(Clone, Copy)]
pub struct TableWords {
    pub tree: u32,
    pub name: &'static str,
    pub columns: &'static [ColumnWords],
    /// The column that the rowid stands for, counted from 0, if there is one.
    pub rowid: Option<usize>,
    pub primary: &'static [usize],
    pub uniques: &'static [&'static [usize]],
}

/// The index of a key, by the tree of its table and its own.
#[derive(Clone, Copy)]
pub struct IndexWords {
    pub table: u32,
    pub tree: u32,
    pub name: &'static str,
    pub key: &'static [usize],
}
