//! Hierarchy texts, and the range of texts that selects an office and those below it.

ghost use Rattle.std.specs.Prelude.{◌≡◌, ℕ, List, true, string_bytes, IfOk, IsOkUnless, SomeIff};
ghost use Rattle.mf_office.specs.Keys.{key_depth, head_key, child_key, with_last_raised, is_in_range, key_of};
ghost use Rattle.mf_office.specs.Keys.{EndsWithDot};
ghost use Rattle.mf_office.specs.Tree.{Place, AreOneTree, is_among, parent_among, is_at_or_below};

use crate::office::OfficeNo;
use mf_base::Fault;
use std::alloc::Global;
use std::marker::Model;

/// The hierarchy text of a child with this number: its parent's text, its own number and `.`. Its only error is F20.
pub fn child_text(alloc: Global, parent: &str, number: u32) -> Result<String, Fault>
    ensures text { IfOk result (λ text. string_bytes text ≡ child_key parent.now number) }
    ensures err { IsOkUnless result Fault.F20 }
{
    let text = format!(in alloc; "{parent}{number}.")?;
    Ok(text)
}

/// How many dots a hierarchy text has.
pub fn count_dots(text: &str) -> usize
    ensures { result ≡ key_depth text.now }
{
    text.bytes().filter(|b| *b == b'.').count()
}

/// The hierarchy text of an office: `.` for the head, and for a child its parent's text, its own number and `.`.
pub struct Key {
    text: String,
}

// By hand, since a derived drop is proved again in each function that may drop one.
impl Drop for Key {
    fn drop(self) {
        let Key { text: _ } = self;
    }
}

impl Model for Key {
    ghost Value = { List ℕ };

    ghost view = { λ key. string_bytes key.text };

    ghost invariant = { λ key. EndsWithDot (string_bytes key.text) };
}

impl Key {
    /// The key of the head office. Its only error is F20.
    pub fn head(alloc: Global) -> Result<Key, Fault>
        ensures key { IfOk result (λ key. key ≡ head_key) }
        ensures err { IsOkUnless result Fault.F20 }
    {
        let text = String::from_str(alloc, ".")?;
        Ok(Key { text })
    }

    /// The key of a child with this number. Its only error is F20.
    pub fn child(&self, alloc: Global, number: OfficeNo) -> Result<Key, Fault>
        ensures key { IfOk result (λ key. key ≡ child_key self.now number) }
        ensures err { IsOkUnless result Fault.F20 }
    {
        let text = child_text(alloc, self.as_str(), number.get())?;
        Ok(Key { text })
    }

    /// The key with this text, where it ends with a dot as every key does. It takes no memory.
    pub fn from_text(text: String) -> Option<Key>
        ensures { SomeIff result (EndsWithDot (string_bytes text)) (string_bytes text) }
    {
        if text.as_bytes().last() == Some(&b'.') {
            Some(Key { text })
        } else {
            None
        }
    }

    /// The text.
    pub fn as_str(&self) -> &str
        ensures text { result.now ≡ self.now }
        ensures dot { EndsWithDot result.now }
    {
        self.text.as_str()
    }

    /// Gives the text back.
    pub fn into_text(self) -> String
        ensures { string_bytes result ≡ self }
    {
        let Key { text: whole } = self;
        whole
    }

    /// How deep the key's office stands, the head at 1: the number of its dots. A tree's offices stand at most 6 deep.
    pub fn depth(&self) -> usize
        ensures { result ≡ key_depth self.now }
    {
        count_dots(self.as_str())
    }

    /// The ends of the range of texts that this key selects: the key itself, and the key with `/`, the next byte,
    /// in place of its last `.`. The low end is in the range, the high end is not. Its only error is F20.
    pub fn range(&self, alloc: Global) -> Result<(String, String), Fault>
        ensures low { IfOk result (λ ends. string_bytes ends.0 ≡ self.now) }
        ensures high { IfOk result (λ ends. string_bytes ends.1 ≡ with_last_raised self.now) }
        ensures err { IsOkUnless result Fault.F20 }
    {
        let low = String::from_str(alloc, self.as_str())?;
        let mut high = String::from_str(alloc, self.as_str())?;
        let _dot = high.pop();
        high.push('/')?;
        Ok((low, high))
    }
}

/// Whether a key lies in a range by its bytes: at or after the low end, and before the high end.
///
/// For the keys of a tree's offices, and the ends of the range of y's key, that is so exactly where x is at or below y.
pub fn in_range(low: &str, high: &str, key: &str) -> bool
    ensures value { result ≡ is_in_range low.now high.now key.now }
    ensures subtree { (places : List Place) → AreOneTree places → (x y : ℕ) → is_among places x ≡ true
        → is_among places y
        ≡ true →
        low.now ≡ key_of (parent_among places) y → high.now ≡ with_last_raised (key_of (parent_among places) y)
        → key.now ≡ key_of (parent_among places) x →
        result ≡ is_at_or_below (parent_among places) x y }
{
    low <= key && key < high
}
