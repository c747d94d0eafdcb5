//! Texts that are written into room that is made for them first, and texts as JSON.

ghost use Rattle.std.specs.Prelude.{◌≡◌, IfOk, IfSome, string_bytes};
ghost use Rattle.std.specs.List.{list_all};
ghost use Rattle.json.specs.Print.{quoted};
ghost use Rattle.mf_wire_replies.specs.Json.{is_plain_byte};

use serde_json::json;
use std::alloc::{AllocError, Global};
use std::fmt::Display;

/// The text of what is displayed, written into room for so many bytes that is made first. It may be longer. A text that
/// begins without room asks for memory each time that its room doubles, which costs more than to write it.
pub fn text_in<D: Display + Drop>(
    alloc: Global,
    room: usize,
    shown: D,
) -> Result<String, AllocError>
    ensures ok { IfOk result (λ s. IfSome (D.output shown) (λ bytes. string_bytes s ≡ bytes)) }
{
    let mut text = String::with_capacity(alloc, room)?;
    text.write(shown)?;
    Ok(text)
}

/// Whether a byte stands in a text of JSON as it is.
fn is_plain_byte(byte: u8) -> bool
    ensures { result ≡ is_plain_byte byte }
{
    byte != b'"' && byte != b'\\' && byte >= b' '
}

/// Whether a text of JSON has these bytes as they are.
fn is_plain(text: &[u8]) -> bool
    ensures { result ≡ list_all is_plain_byte text.now }
{
    text.iter().all(|byte| is_plain_byte(*byte))
}

/// A text as JSON, in quotes. Nearly all texts are plain; a value of JSON would copy them twice.
pub fn quoted_text(alloc: Global, text: &str) -> Result<String, AllocError>
    ensures { IfOk result (λ s. string_bytes s ≡ quoted text.now) }
{
    if is_plain(text.as_bytes()) {
        return text_in(alloc, text.len() + 2, format_args!("\"{text}\""));
    }
    let value = json!(in alloc; text)?;
    value.to_string(alloc)
}
