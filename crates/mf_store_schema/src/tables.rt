//! The tables of the program, in words that a schema found is compared with.

ghost use Rattle.std.specs.Prelude.{◌≡◌, ◌↔◌, IsTrue, IfSome, IfNone};
ghost use Rattle.mf_store_sql.specs.Tables.{no_schema};
ghost use Rattle.mf_store_schema.specs.Schemas.{IsKnown};
ghost use Rattle.mf_store_schema.specs.Versions.{IsOfVersion};

use crate::described::is_schema;
use crate::versions::Version;
use crate::words::{IndexWords, TableWords};
use crate::{
    charges, clients, entries, instalments, journal, loans, meta, offices, products, receipts,
    shares, staff,
};
use sqlite_schema::schema::Schema;

/// The tables of all versions: the first has nine of them, the second eleven, and the third the journal too.
const TABLES: [TableWords; 12] = [
    meta::WORDS,
    offices::WORDS,
    staff::WORDS,
    clients::WORDS,
    charges::WORDS,
    products::WORDS,
    loans::WORDS,
    entries::WORDS,
    receipts::WORDS,
    instalments::WORDS,
    shares::WORDS,
    journal::WORDS,
];

/// Their indexes; the first version has the first ten. The journal has none.
const INDEXES: [IndexWords; 12] = [
    meta::INDEX,
    offices::TEXT_INDEX,
    offices::INDEX,
    staff::INDEX,
    clients::INDEX,
    charges::INDEX,
    products::INDEX,
    loans::INDEX,
    entries::INDEX,
    receipts::INDEX,
    instalments::INDEX,
    shares::INDEX,
];

/// Whether a schema has no table, no index and no view.
pub fn has_no_tables(found: &Schema) -> bool
    ensures { IsTrue result ↔ (found.now ≡ no_schema) }
{
    found.tables.is_empty() && found.indexes.is_empty() && found.views.is_empty()
}

/// Whether a schema is that of a version.
fn is_at(found: &Schema, version: Version) -> bool
    ensures { IsTrue result ↔ IsOfVersion version found.now }
{
    match version {
        Version::First => is_schema(found, &TABLES[..9], &INDEXES[..10]),
        Version::Second => is_schema(found, &TABLES[..11], &INDEXES),
        Version::Third => is_schema(found, &TABLES, &INDEXES),
    }
}

/// The version whose schema this is, and none where it is that of no version.
pub fn version_of(found: &Schema) -> Option<Version>
    ensures some { IfSome result (λ version. IsOfVersion version found.now) }
    ensures none { IfNone result (¬ IsKnown found.now) }
{
    if is_at(found, Version::Third) {
        return Some(Version::Third);
    }
    if is_at(found, Version::Second) {
        return Some(Version::Second);
    }
    if is_at(found, Version::First) {
        return Some(Version::First);
    }
    None
}
