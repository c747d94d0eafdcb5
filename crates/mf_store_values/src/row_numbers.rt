//! Rows by number.

ghost use Rattle.std.specs.Prelude.{◌≡◌, option_copied};
ghost use Rattle.mf_model.specs.Institution.{item_numbered};

/// The row with this number, in rows by number from 1.
pub fn row_numbered<T>(rows: &[T], number: u32) -> Option<&T>
    ensures { option_copied result ≡ item_numbered rows.now number }
{
    if number == 0 {
        return None;
    }
    rows.get(number as usize - 1)
}
