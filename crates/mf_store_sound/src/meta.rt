//! The business day that the table meta keeps, where it keeps one.

ghost use Rattle.std.specs.Prelude.{◌≡◌, ℕ, [], ◌∷◌, ◌≤◌, Some, IfSome};
ghost use Rattle.mf_base.specs.DayText.{last_entered_day, day_text};
ghost use Rattle.mf_store_sound.specs.Schemas.{meta_under};

use mf_base::Day;
use mf_store_schema::MetaRow;

/// The business day of a row of meta. None is for a row with another schema's number or without a day.
fn day_of_row(schema: u32, row: &MetaRow) -> Option<Day>
    ensures some { IfSome result (λ day. (day ≤ last_entered_day) × (meta_under schema day ≡ row.now)) }
    ensures every { (day : ℕ) → day ≤ last_entered_day → meta_under schema day ≡ row.now → result ≡ Some day }
{
    if row.one == 1 && row.schema == schema {
        Day::parse(row.day.as_str().as_bytes())
    } else {
        None
    }
}

/// The business day. None is for rows that are not the one row of meta with this schema's number.
pub fn business_day(schema: u32, rows: &[MetaRow]) -> Option<Day>
    ensures some { IfSome result (λ day. (day ≤ last_entered_day) × (meta_under schema day ∷ [] ≡ rows.now)) }
    ensures every { (day : ℕ) → day ≤ last_entered_day → meta_under schema day ∷ [] ≡ rows.now → result ≡ Some day }
{
    match rows {
        [row] => day_of_row(schema, row),
        _ => None,
    }
}
