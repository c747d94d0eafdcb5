//! Cutting a text, and writing in columns.

ghost use Rattle.std.specs.Prelude.{◌≡◌, ◌==◌, ◌++◌, [], option_map, string_bytes, IfSome, IfNone, OnOk};
ghost use Rattle.std.specs.List.{before_first, after_first, position};
ghost use Rattle.mf_base.specs.Texts.{parts_round, right};

use std::alloc::AllocError;

/// Where the first of a separator is.
fn separator_at(text: &[u8], separator: u8) -> Option<usize>
    ensures { result ≡ position (λ b. b == separator) text.now }
{
    text.iter().position(|b| *b == separator)
}

/// What stands before and after the first of a separator, or None where there is none.
pub fn split_once(text: &[u8], separator: u8) -> Option<(&[u8], &[u8])>
    ensures parts { option_map (λ parts. (parts.0.now, parts.1.now)) result ≡ parts_round separator text.now }
    ensures none { IfNone result (after_first (λ b. b == separator) text.now ≡ []) }
    ensures before { IfSome result (λ parts. parts.0.now ≡ before_first (λ b. b == separator) text.now) }
    ensures after { IfSome result (λ parts. parts.1.now ≡ after_first (λ b. b == separator) text.now) }
{
    let at = separator_at(text, separator)?;
    Some((&text[..at], &text[at + 1..]))
}

/// Writes a word at the right of so many columns. A longer word is written whole.
pub fn push_right(text: &mut String, columns: usize, word: &str) -> Result<(), AllocError>
    ensures { OnOk result (string_bytes text.new ≡ string_bytes text.old ++ right columns word.now) }
{
    let spaces = columns.saturating_sub(word.len());
    for _ in 0..spaces {
        text.push(' ')?;
    }
    text.push_str(word)
}
