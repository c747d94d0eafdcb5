//! What the play of a journal says of the tables beside it.

use mf_journal::Head;
use mf_play::Stop;
use mf_store_archived::Gap;
use mf_store_sound::Tables;

/// A table beside the journal, in the order of the schema.
#[derive(Clone, Copy, Debug, PartialEq, Eq)]
pub enum PlayedTable {
    Meta,
    Offices,
    Staff,
    Clients,
    Charges,
    Products,
    Loans,
    Entries,
    Receipts,
    Instalments,
    Shares,
}

/// The first row that the play of a journal doesn't give: its table, its place in it, from 0, and the rows of both
/// sides.
#[derive(Drop)]
pub struct Difference {
    pub table: PlayedTable,
    pub row: usize,
    /// The rows that stand beside the journal.
    pub here: Tables,
    /// The rows that the play gives.
    pub played: Tables,
}

/// What the play of a journal says of the tables beside it.
#[derive(Drop)]
pub enum Played {
    /// From its founding the lines lead to just these rows; the journal stands so.
    Leads(Head),
    /// The journal doesn't begin at the founding of an institution; it stands so.
    NoFounding(Head),
    /// The first line that doesn't play, by its number, and why.
    Stops { number: u64, why: Stop },
    /// All lines play, and lead to other rows.
    Differs(Difference),
    /// The journal wasn't begun over the rows of the copy from which it was to be played; it stands so.
    OtherCopy(Head),
    /// Archives don't lead from where the journal begins back to its first line: where, and why.
    Lacks(Gap),
}
