//! The first table in which two sides differ.

ghost use Rattle.std.specs.Prelude.{◌≡◌, IfSome, IfNone};
ghost use Rattle.mf_store_played.specs.Played.{IsFirstDifference};

use crate::played::PlayedTable;
use crate::rows::first_difference;
use mf_store_sound::Tables;

/// The first table whose rows differ, and the place of the first row in it that does; none where all are the same.
pub(crate) fn first_differing(tables: &Tables, others: &Tables) -> Option<(PlayedTable, usize)>
    ensures differ { IfSome result (λ found. IsFirstDifference found.0 found.1 tables.now others.now) }
    ensures same { IfNone result (tables.now ≡ others.now) }
{
    if let Some(row) = first_difference(&tables.meta, &others.meta) {
        return Some((PlayedTable::Meta, row));
    }
    if let Some(row) = first_difference(&tables.offices, &others.offices) {
        return Some((PlayedTable::Offices, row));
    }
    if let Some(row) = first_difference(&tables.staff, &others.staff) {
        return Some((PlayedTable::Staff, row));
    }
    if let Some(row) = first_difference(&tables.clients, &others.clients) {
        return Some((PlayedTable::Clients, row));
    }
    if let Some(row) = first_difference(&tables.charges, &others.charges) {
        return Some((PlayedTable::Charges, row));
    }
    if let Some(row) = first_difference(&tables.products, &others.products) {
        return Some((PlayedTable::Products, row));
    }
    if let Some(row) = first_difference(&tables.loans, &others.loans) {
        return Some((PlayedTable::Loans, row));
    }
    if let Some(row) = first_difference(&tables.entries, &others.entries) {
        return Some((PlayedTable::Entries, row));
    }
    if let Some(row) = first_difference(&tables.receipts, &others.receipts) {
        return Some((PlayedTable::Receipts, row));
    }
    if let Some(row) = first_difference(&tables.instalments, &others.instalments) {
        return Some((PlayedTable::Instalments, row));
    }
    match first_difference(&tables.shares, &others.shares) {
        Some(row) => Some((PlayedTable::Shares, row)),
        None => None,
    }
}
