//! Reading of numbers from bytes. Nothing here takes memory.

ghost use Rattle.std.specs.Prelude.{◌≡◌, ◌-◌, ◌^◌, ◌≤◌, decimal};
ghost use Rattle.mf_office.specs.Written.{zero_padded, number_written};

use mf_base::parse_digits;

/// The number from 1 to 9999 that is written so without leading zeros.
pub(crate) fn plain_number(text: &[u8]) -> Option<u32>
    ensures { result ≡ number_written decimal 9999 text.now }
{
    if text.is_empty() || text.len() > 4 || text[0] == b'0' {
        return None;
    }
    parse_digits(text)
}

/// The number from 1 on that is written so in so many digits.
pub(crate) fn padded_number(text: &[u8], width: usize) -> Option<u32>
    requires some { 1 ≤ width }
    requires few { width ≤ 6 }
    ensures { result ≡ number_written (zero_padded width) (10 ^ width - 1) text.now }
{
    if text.len() != width {
        return None;
    }
    let number = parse_digits(text)?;
    if number == 0 { None } else { Some(number) }
}
