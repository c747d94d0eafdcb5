//! Rows by their places, and rows that are looked up.

ghost use Rattle.std.specs.Prelude.{◌≡◌, true, false, option_copied, IfSome, IsNone};
ghost use Rattle.std.specs.Fn.{FnReturnsAt};
ghost use Rattle.std.specs.List.{Contains};

/// A row that passes, if there is one. The row that a binary search found is tried first, and then all are, so that no
/// order is relied on.
pub(crate) fn find_row<T, F: Fn(&T) -> bool>(
    rows: &[T],
    searched: Result<usize, usize>,
    passes: F,
) -> Option<&T>
    requires { F.IsAlwaysCallable passes }
    ensures found { IfSome result (λ row. Contains rows.now row.now × FnReturnsAt F.Fn passes row.now true) }
    ensures none { IsNone result → (row : T) → Contains rows.now row → FnReturnsAt F.Fn passes row false }
{
    if let Ok(place) = searched {
        if let Some(row) = rows.get(place) {
            if passes(row) {
                return Some(row);
            }
        }
    }
    for row in rows {
        if passes(row) {
            return Some(row);
        }
    }
    None
}
