//! Whether a number that is kept is an amount in cents.

ghost use Rattle.std.specs.Prelude.{◌≡◌, ℕ, pos, ◌≤◌, ◌↔◌, IsTrue, ◌^◌};

use mf_catalog::GREATEST_AMOUNT;

/// Whether a number of cents, as rows keep it, is from 1 to the greatest amount.
pub fn is_amount(cents: i64) -> bool
    ensures amount { (amount : ℕ) → pos amount ≡ cents → IsTrue result ↔ ((1 ≤ amount) × (amount ≤ 10 ^ 12)) }
    ensures negative { IsTrue result → (amount : ℕ) × (pos amount ≡ cents) }
{
    cents >= 1 && cents <= GREATEST_AMOUNT as i64
}
