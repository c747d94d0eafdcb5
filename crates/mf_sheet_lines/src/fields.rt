//! What the fields of a sheet's line say. Spaces and tabs round a field don't count.

ghost use Rattle.std.specs.Prelude.{◌≡◌, ◌≤◌, IfSome, length, option_map};
ghost use Rattle.std.specs.List.{prefix_len, suffix_len};
ghost use Rattle.mf_account.specs.Receipts.{IsReceipt};
ghost use Rattle.mf_base.specs.DayText.{last_entered_day};
ghost use Rattle.mf_base.specs.Money.{money_limit};
ghost use Rattle.mf_sheet_lines.specs.Fields.{is_blank, without_blanks};
ghost use Rattle.mf_sheet_lines.specs.Fields.{receipt_written};
ghost use Rattle.mf_sheet_lines.specs.Fields.{day_written, cents_written, amount_written};

use mf_account::is_receipt;
use mf_base::{Day, parse_money};

fn is_blank(byte: u8) -> bool
    ensures { result ≡ is_blank byte }
{
    byte == b' ' || byte == b'\t'
}

/// How many spaces and tabs a text begins with.
fn blanks_at_front(text: &[u8]) -> usize
    ensures count { result ≡ prefix_len is_blank text.now }
    ensures bound { result ≤ length text.now }
{
    text.iter().take_while(|byte| is_blank(**byte)).count()
}

/// How many spaces and tabs a text ends with.
fn blanks_at_end(text: &[u8]) -> usize
    ensures count { result ≡ suffix_len is_blank text.now }
    ensures bound { result ≤ length text.now }
{
    text.iter()
        .rev()
        .take_while(|byte| is_blank(**byte))
        .count()
}

/// A field without the spaces and tabs round it.
pub fn without_blanks(field: &[u8]) -> &[u8]
    ensures { result.now ≡ without_blanks field.now }
{
    let rest = &field[blanks_at_front(field)..];
    &rest[..rest.len() - blanks_at_end(rest)]
}

/// The receipt that a text is: 1 to 40 printable characters of ASCII, no space among them.
pub fn receipt(text: &[u8]) -> Option<&str>
    ensures value { option_map (λ s. s.now) result ≡ receipt_written text.now }
    ensures in_range { IfSome result (λ s. IsReceipt s.now) }
{
    if !is_receipt(text) {
        return None;
    }
    match str::from_utf8(text) {
        Ok(text) => Some(text),
        Err(_) => unreachable!(),
    }
}

/// The day of a text YYYY-MM-DD, from 2000-01-01 to 2099-12-31.
pub fn day(text: &[u8]) -> Option<Day>
    ensures value { result ≡ day_written text.now }
    ensures in_range { IfSome result (λ day. day ≤ last_entered_day) }
{
    Day::parse(text)
}

fn cents(text: &[u8]) -> Option<u64>
    ensures value { result ≡ cents_written text.now }
    ensures in_range { IfSome result (λ cents. cents ≤ money_limit) }
{
    parse_money(text)
}

/// The amount that a text is, in cents: at least 1, and at most 10^12.
pub fn amount(text: &[u8]) -> Option<u64>
    ensures value { result ≡ amount_written text.now }
    ensures in_range { IfSome result (λ amount. (1 ≤ amount) × (amount ≤ money_limit)) }
{
    let cents = cents(text)?;
    if cents >= 1 { Some(cents) } else { None }
}
