//! Rows in the order of their owners: those of the first owner, and the later ones.

ghost use Rattle.std.specs.Prelude.{◌≡◌, ◌≤◌, ℕ, length};
ghost use Rattle.std.specs.Fn.{FnReturnsAt};
ghost use Rattle.mf_store_values.specs.Parts.{own_count, own, later};

/// How many rows of this owner come before the first of another.
fn count_own<T, F: Fn(&T) -> u32>(rows: &[T], owner: u32, owner_of: F) -> usize
    requires { F.IsAlwaysCallable owner_of }
    ensures count { (of : T → ℕ) → ((row : T) (n : ℕ) → FnReturnsAt F.Fn owner_of row n → n ≡ of row) →
        result ≡ own_count of owner rows.now }
    ensures within { result ≤ length rows.now }
{
    let mut count = 0;
    for row in rows {
        if owner_of(row) != owner {
            return count;
        }
        count += 1;
    }
    count
}

/// The rows of this owner, up to the first of another, and the later ones.
pub fn split_by_owner<T, F: Fn(&T) -> u32>(rows: &[T], owner: u32, owner_of: F) -> (&[T], &[T])
    requires { F.IsAlwaysCallable owner_of }
    ensures own { (of : T → ℕ) → ((row : T) (n : ℕ) → FnReturnsAt F.Fn owner_of row n → n ≡ of row) →
        result.0.now ≡ own of owner rows.now }
    ensures later { (of : T → ℕ) → ((row : T) (n : ℕ) → FnReturnsAt F.Fn owner_of row n → n ≡ of row) →
        result.1.now ≡ later of owner rows.now }
{
    let count = count_own(rows, owner, owner_of);
    rows.split_at(count)
}
