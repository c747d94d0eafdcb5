//! The parts of a request line: who sends it, the method, the path, and the body.

ghost use Rattle.std.specs.Prelude.{◌≡◌, true, option_map};
ghost use Rattle.std.specs.List.{list_all};
ghost use Rattle.mf_wire_requests.specs.RequestLine.{parts_now, parts_of_line, parts_in, fit_line};
ghost use Rattle.mf_wire_requests.specs.RequestLine.{is_token, is_token_byte};

use mf_base::split_once;
use mf_wire_lines::{LONGEST_LINE, may_be_told};

/// The parts of a request: those of its line, with single spaces between them, and what is told of it. The body may
/// have more spaces.
#[derive(Clone, Copy)]
pub struct LineParts<'a> {
    /// What the journal tells of it, as the time and the address; empty where nothing is told.
    pub told: &'a [u8],
    /// Who sends it, as `office/number`.
    pub caller: &'a [u8],
    /// The method's token, such as `GET`.
    pub method: &'a [u8],
    /// The path, with its slashes.
    pub path: &'a [u8],
    /// All that follows the path's space, or nothing.
    pub body: &'a [u8],
}

/// The parts of a line, of which nothing is told, or None where it has fewer than two spaces.
pub fn line_parts(line: &[u8]) -> Option<LineParts<'_>>
    ensures { option_map parts_now result ≡ parts_of_line line.now }
{
    let (caller, rest) = split_once(line, b' ')?;
    let (method, rest) = split_once(rest, b' ')?;
    let (path, body) = match split_once(rest, b' ') {
        Some((path, body)) => (path, body),
        None => (rest, [].as_slice()),
    };
    Some(LineParts {
        told: [].as_slice(),
        caller,
        method,
        path,
        body,
    })
}

/// The parts of a line whose first word is told of it. None also where that word is empty, longer than 100 bytes, or
/// not printed ASCII.
fn told_parts(line: &[u8]) -> Option<LineParts<'_>>
    ensures { option_map parts_now result ≡ parts_in true line.now }
{
    let (told, rest) = split_once(line, b' ')?;
    if told.is_empty() || !may_be_told(told) {
        return None;
    }
    let parts = line_parts(rest)?;
    Some(LineParts { told, ..parts })
}

/// The parts of a line, whose first word is told of the rest where `told` says so.
pub fn parts_in(told: bool, line: &[u8]) -> Option<LineParts<'_>>
    ensures { option_map parts_now result ≡ parts_in told line.now }
{
    if told {
        told_parts(line)
    } else {
        line_parts(line)
    }
}

/// Whether these parts, with a space between each two, make a line that is no longer than a request line may be. A body
/// that is empty has no space before it. What is told doesn't count.
pub fn fit_line(parts: &LineParts<'_>) -> bool
    ensures { result ≡ fit_line (parts_now parts.now) }
{
    let spaces = if parts.body.is_empty() { 2 } else { 3 };
    let length = parts.caller.len() as u128
        + parts.method.len() as u128
        + parts.path.len() as u128
        + parts.body.len() as u128
        + spaces;
    length <= LONGEST_LINE as u128
}

fn is_token_character(byte: u8) -> bool
    ensures { result ≡ is_token_byte byte }
{
    byte.is_ascii_alphanumeric() || b"!#$%&'*+-.^_`|~".contains(&byte)
}

fn are_token_characters(bytes: &[u8]) -> bool
    ensures { result ≡ list_all is_token_byte bytes.now }
{
    bytes.iter().all(|b| is_token_character(*b))
}

/// Whether a method is a token: some letters, digits and marks, and nothing else.
pub fn is_token(method: &[u8]) -> bool
    ensures { result ≡ is_token method.now }
{
    !method.is_empty() && are_token_characters(method)
}
