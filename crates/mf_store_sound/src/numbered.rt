//! Rows that are numbered from 1 within their owner.

ghost use Rattle.std.specs.Prelude.{◌≡◌, ◌≤◌, ◌↔◌, ℕ, IsTrue, length};
ghost use Rattle.mf_store_sound.specs.Stored.{AllFrom};

/// A row that has a number within its owner.
pub(crate) trait NumberedRow<Owner> {
    /// What the owner's rows stand for, where the code has only the rows.
    ghost Setting: { Owner → Type 0 };

    /// The row is one of the owner's, with this number.
    ghost IsNumbered: { (owner : Owner) → Setting owner → ℕ → Self → Type 0 };

    /// Whether the row is one of the owner's, with this number.
    fn is_numbered(&self, owner: Owner, number: u32) -> bool
        ensures { (of : Setting owner) → IsTrue result ↔ IsNumbered owner of number self.now };
}

/// Whether the rows are the owner's, numbered from 1, and at most this many.
pub(crate) fn are_numbered<Owner: Copy, R: NumberedRow<Owner>>(
    owner: Owner,
    rows: &[R],
    most: u32,
) -> bool
    ensures { (of : R.Setting owner) → IsTrue result ↔ ((length rows.now ≤ most)
        × AllFrom (R.IsNumbered owner of) 1 rows.now) }
{
    if rows.len() > most as usize {
        return false;
    }
    let mut number = 0;
    for row in rows {
        number += 1;
        if !row.is_numbered(owner, number) {
            return false;
        }
    }
    true
}
