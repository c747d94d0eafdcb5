//! What may be told of a request.

ghost use Rattle.std.specs.Prelude.{◌≡◌};
ghost use Rattle.std.specs.List.{list_all};
ghost use Rattle.mf_wire_lines.specs.Told.{is_printed, may_be_told};

/// The longest text that is told, in bytes.
pub const LONGEST_TOLD: usize = 100;

fn is_printed(byte: u8) -> bool
    ensures { result ≡ is_printed byte }
{
    byte == b' ' || byte.is_ascii_graphic()
}

fn are_printed(text: &[u8]) -> bool
    ensures { result ≡ list_all is_printed text.now }
{
    text.iter().all(|byte| is_printed(*byte))
}

/// Whether a text may be told of a request: it has at most 100 bytes, each a space or another character of ASCII that
/// is printed.
pub fn may_be_told(text: &[u8]) -> bool
    ensures { result ≡ may_be_told text.now }
{
    text.len() <= LONGEST_TOLD && are_printed(text)
}
