//! Numbers and the digits that write them.

ghost use Rattle.std.specs.Prelude.{◌≡◌, ◌≢◌, ℕ, ◌+◌, ◌/◌, ◌%◌, ◌^◌, ◌<◌, ◌≤◌, length, IsTrue, IfSome, IsNone};
ghost use Rattle.std.specs.List.{list_all, prefix_len};
ghost use Rattle.std.specs.Str.{all_ascii_digits};
ghost use Rattle.std.specs.Str.Parse.{digits_value};
ghost use Rattle.std.specs.Char.{is_ascii_digit};
ghost use Rattle.mf_base.specs.Digits.{number_of_digits};

/// The number that two digits are.
pub(crate) fn read_two_digits(tens: u8, ones: u8) -> Option<u8>
    ensures some { IfSome result (λ n. (n < 100) × (tens ≡ 48 + n / 10) × (ones ≡ 48 + n % 10)) }
    ensures none { IsNone result → (n : ℕ) → n < 100 → tens ≡ 48 + n / 10 → ones ≢ 48 + n % 10 }
{
    if tens.is_ascii_digit() && ones.is_ascii_digit() {
        Some((tens - b'0') * 10 + (ones - b'0'))
    } else {
        None
    }
}

/// How many digits the text begins with.
pub(crate) fn count_digits(text: &[u8]) -> usize
    ensures { result ≡ prefix_len is_ascii_digit text.now }
{
    text.iter().take_while(|byte| byte.is_ascii_digit()).count()
}

/// The number that up to eleven digits are.
pub fn value_of_digits(digits: &[u8]) -> u64
    requires digits { IsTrue (all_ascii_digits digits.now) }
    requires short { length digits.now ≤ 11 }
    ensures value { result ≡ digits_value 10 digits.now }
    ensures bound { result < 10 ^ 11 }
{
    let mut value = 0;
    for digit in digits {
        value = 10 * value + u64::from(digit - b'0');
    }
    value
}

/// Whether a text is of digits alone.
pub fn is_digits(text: &[u8]) -> bool
    ensures { result ≡ list_all is_ascii_digit text.now }
{
    text.iter().all(|byte| byte.is_ascii_digit())
}

/// The number that 1 to 9 decimal digits write, which may begin with zeros. None is for any other text.
pub fn parse_digits(text: &[u8]) -> Option<u32>
    ensures value { result ≡ number_of_digits text.now }
    ensures in_range { IfSome result (λ n. n ≤ 999999999) }
{
    if text.len() >= 1 && text.len() <= 9 && is_digits(text) {
        Some(value_of_digits(text) as u32)
    } else {
        None
    }
}
