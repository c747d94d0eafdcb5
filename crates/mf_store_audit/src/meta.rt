//! Rows of meta: what is wrong with them; and texts of days.

ghost use Rattle.std.specs.Prelude.{◌≡◌, ◌≤◌, ◌↔◌, ℕ, IsTrue};
ghost use Rattle.mf_base.specs.DayText.{day_text, last_entered_day};
ghost use Rattle.mf_store_audit.specs.Catalogue.{BreaksMeta};

use crate::finding::MetaFlaw;
use crate::places::Row;
use mf_base::{Day, Fault};
use mf_store_schema::{MetaRow, Text};

/// Whether a text is that of a day up to 2099-12-31.
pub(crate) fn is_day(text: &Text) -> bool
    ensures { IsTrue result ↔ ((day : ℕ) × (day ≤ last_entered_day) × (day_text day ≡ text.now)) }
{
    match Day::parse(text.as_str().as_bytes()) {
        Some(_) => true,
        None => false,
    }
}

/// A row of meta, under the number of a schema.
impl Row<u32> for MetaRow {
    type Flaw = MetaFlaw;

    ghost Breaks = { λ schema flaw before row. BreaksMeta schema flaw row };

    fn breaks(&self, schema: u32, _before: Option<&Self>, flaw: MetaFlaw) -> Result<bool, Fault> {
        match flaw {
            MetaFlaw::Key => Ok(self.one != 1),
            MetaFlaw::Schema => Ok(self.schema != schema),
            MetaFlaw::Day => Ok(!is_day(&self.day)),
        }
    }
}
