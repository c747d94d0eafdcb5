//! Keys of a table, and rules beside them.

ghost use Rattle.std.specs.Prelude.{◌≡◌, ◌↔◌, [], IsTrue, map};
ghost use Rattle.mf_store_schema.specs.Described.{no_stamps, plain_orders, HasNoRules};

use sqlite_items::Items;
use sqlite_schema::code::Terms;
use sqlite_schema::schema::{Stamps, Table};
use sqlite_value::keys::Order;

fn is_key(found: &Items<usize>, wanted: &&'static [usize]) -> bool
    ensures { IsTrue result ↔ (found.now ≡ wanted.now.now) }
{
    found.as_slice() == *wanted
}

/// Whether keys are of these columns, in their order.
pub(crate) fn are_keys(found: &[Items<usize>], wanted: &[&'static [usize]]) -> bool
    ensures { IsTrue result ↔ (found.now ≡ map (λ key. key.now) wanted.now) }
{
    match (found, wanted) {
        ([], []) => true,
        ([first, rest @ ..], [key, others @ ..]) => is_key(first, key) && are_keys(rest, others),
        _ => false,
    }
}

/// Whether each key is in the plain order.
pub(crate) fn are_plain(found: &[Order], wanted: &[&'static [usize]]) -> bool
    ensures { IsTrue result ↔ (found.now ≡ plain_orders wanted.now) }
{
    match (found, wanted) {
        ([], []) => true,
        ([first, rest @ ..], [_, others @ ..]) => first.digits == 0 && are_plain(rest, others),
        _ => false,
    }
}

fn are_no_terms(terms: &Terms) -> bool
    ensures { IsTrue result ↔ (terms.now ≡ []) }
{
    terms.roots.is_empty()
}

fn are_no_stamps(stamps: &Stamps) -> bool
    ensures { IsTrue result ↔ (stamps.now ≡ no_stamps) }
{
    stamps.places.is_empty() && are_no_terms(&stamps.terms) && stamps.formats.is_empty()
}

/// Whether a table has no rule but its keys.
pub(crate) fn has_no_rules(found: &Table) -> bool
    ensures { IsTrue result ↔ HasNoRules found.now }
{
    are_no_terms(&found.checks)
        && found.references.is_empty()
        && found.computed.is_empty()
        && are_no_stamps(&found.stamps)
        && !found.is_counted
}
