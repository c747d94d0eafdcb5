//! Texts in quotes.

ghost use Rattle.std.specs.Prelude.{◌≡◌, ◌++◌, string_bytes, IfOk, OnOk, IsOkUnless};
ghost use Rattle.std.specs.Char.{is_ascii};
ghost use Rattle.std.specs.List.{flat_map, list_all};
ghost use Rattle.microloan_audit.specs.Quoted as spec;

use mf_base::Fault;
use std::alloc::Global;

/// A text in quotes; one that is not ASCII, by its bytes as SQL writes them. The error is F20, out of memory.
#[tactic(auto, unfolding(crate::specs::Quoted::quoted))]
pub(crate) fn quoted(alloc: Global, text: &str) -> Result<String, Fault>
    ensures text { IfOk result (λ words. string_bytes words ≡ spec.quoted text.now) }
    ensures only { IsOkUnless result Fault.F20 }
{
    if is_ascii(text.as_bytes()) {
        let words = format!(in alloc; "{text:?}")?;
        return Ok(words);
    }
    let mut words = String::from_str(alloc, "x'")?;
    push_bytes(alloc, &mut words, text.as_bytes())?;
    words.push_str("'")?;
    Ok(words)
}

/// Whether bytes are those of an ASCII text.
fn is_ascii(bytes: &[u8]) -> bool
    ensures { result ≡ list_all is_ascii bytes.now }
{
    bytes.iter().all(|byte| *byte < 128)
}

/// Writes bytes, each in two digits to the base 16.
pub(crate) fn push_bytes(alloc: Global, words: &mut String, bytes: &[u8]) -> Result<(), Fault>
    ensures text { OnOk result (string_bytes words.new
        ≡ string_bytes words.old ++ flat_map spec.two_hex bytes.now) }
    ensures only { IsOkUnless result Fault.F20 }
{
    for byte in bytes {
        let (high, low) = (byte / 16, byte % 16);
        words.push_str(format!(in alloc; "{high:x}{low:x}")?.as_str())?;
    }
    Ok(())
}
