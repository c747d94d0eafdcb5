//! A part in a text, both as characters.

ghost use Rattle.std.specs.Prelude.{◌≡◌};
ghost use Rattle.mf_lists.specs.Lists.{begins_with, has_part};

/// Whether a text begins with a part.
fn begins_with(part: &[char], text: &[char]) -> bool
    ensures { result ≡ begins_with part.now text.now }
{
    if part.len() > text.len() {
        return false;
    }
    for place in 0..part.len() {
        if part[place] != text[place] {
            return false;
        }
    }
    true
}

/// Whether a text has a part in it.
pub(crate) fn has_part(part: &[char], text: &[char]) -> bool
    ensures { result ≡ has_part part.now text.now }
{
    for start in 0..text.len() {
        if begins_with(part, &text[start..]) {
            return true;
        }
    }
    part.len() == 0
}
