//! Which texts a name may be.

ghost use Rattle.std.specs.Prelude.{◌≡◌, ◌↔◌, IsTrue, length};
ghost use Rattle.std.specs.List.{list_all};
ghost use Rattle.std.specs.Str.{chars};
ghost use Rattle.mf_model.specs.Sound.{IsName, is_plain};

/// How many characters a text has.
fn character_count(text: &str) -> usize
    ensures { result ≡ length (chars text.now) }
{
    text.chars().count()
}

/// Whether a text has no control character: none below U+0020, and not U+007F.
fn is_plain_text(text: &str) -> bool
    ensures { result ≡ list_all is_plain (chars text.now) }
{
    text.chars().all(|c| c >= ' ' && c != '\u{7f}')
}

/// Whether a text is a name: it has 1 to 100 characters, none of them a control character. It takes no memory.
pub fn is_name(text: &str) -> bool
    ensures { IsTrue result ↔ IsName text.now }
{
    let count = character_count(text);
    count >= 1 && count <= 100 && is_plain_text(text)
}
