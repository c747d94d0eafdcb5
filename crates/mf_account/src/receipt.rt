//! Which texts a receipt may be.

ghost use Rattle.std.specs.Prelude.{◌≡◌};
ghost use Rattle.std.specs.List.{list_all};
ghost use Rattle.mf_account.specs.Receipts.{is_printable, is_receipt};

use mf_base::Text;

/// The receipt of a repayment.
pub type Receipt = Text;

/// Whether a byte is a printable character of ASCII, and no space.
fn is_printable(byte: u8) -> bool
    ensures { result ≡ is_printable byte }
{
    33 <= byte && byte <= 126
}

fn are_printable(bytes: &[u8]) -> bool
    ensures { result ≡ list_all is_printable bytes.now }
{
    bytes.iter().all(|byte| is_printable(*byte))
}

/// Whether a text is a receipt: 1 to 40 printable characters of ASCII, no space among them.
pub fn is_receipt(text: &[u8]) -> bool
    ensures { result ≡ is_receipt text.now }
{
    1 <= text.len() && text.len() <= 40 && are_printable(text)
}
