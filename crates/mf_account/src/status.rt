//! The statuses of a loan that is disbursed, as replies give them.

/// Something is outstanding.
pub const ACTIVE: u16 = 300;

/// Nothing is outstanding, and nothing is overpaid.
pub const CLOSED: u16 = 600;

/// A write-off stands.
pub const WRITTEN_OFF: u16 = 601;

/// Nothing is outstanding, and something is overpaid.
pub const OVERPAID: u16 = 700;
