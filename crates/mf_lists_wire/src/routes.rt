//! Which list a path asks for, and by which method.

ghost use Rattle.std.specs.Prelude.{◌≡◌, is_some, option_and_then, option_map};
ghost use Rattle.std.specs.Str.{bytes_eq};
ghost use Rattle.mf_lists_wire.specs.Paths.{behind_lists};
ghost use Rattle.mf_lists_wire.specs.ListRoutes.{endpoint_of_word, has_parts, has_method, route_behind, list_route};

use crate::paths::{SLASH, four_parts, last_part, three_parts, two_parts};
use mf_base::split_once;

/// What a path under `/lists/` asks for.
#[derive(Clone, Copy, PartialEq, Eq)]
pub enum ListEndpoint {
    Clients,
    LoansOf,
    DueBy,
    AtStatus,
    StaffOf,
    Preview,
    ChangesOf,
    Changes,
    TakingsOn,
    Find,
}

/// What stands behind `/lists/` at the beginning of a path.
fn behind_lists(path: &[u8]) -> Option<&[u8]>
    ensures { option_map (λ p. p.now) result ≡ behind_lists path.now }
{
    let (before, rest) = split_once(path, SLASH)?;
    let (word, behind) = split_once(rest, SLASH)?;
    if before.is_empty() && matches!(word, b"lists") {
        Some(behind)
    } else {
        None
    }
}

/// Whether a path begins with `/lists/`: what lies there is asked of the lists.
pub fn is_list_path(path: &[u8]) -> bool
    ensures { result ≡ is_some (behind_lists path.now) }
{
    behind_lists(path).is_some()
}

/// Whether a part of a path is a word.
fn is_word(part: &[u8], word: &str) -> bool
    ensures { result ≡ bytes_eq part.now word.now }
{
    part == word.as_bytes()
}

/// What is asked for by a word that parameters follow.
fn endpoint_of_word(word: &[u8]) -> Option<ListEndpoint>
    ensures { result ≡ endpoint_of_word word.now }
{
    if is_word(word, "clients") {
        return Some(ListEndpoint::Clients);
    }
    if is_word(word, "loans") {
        return Some(ListEndpoint::LoansOf);
    }
    if is_word(word, "due") {
        return Some(ListEndpoint::DueBy);
    }
    if is_word(word, "stages") {
        return Some(ListEndpoint::AtStatus);
    }
    if is_word(word, "staff") {
        return Some(ListEndpoint::StaffOf);
    }
    if is_word(word, "schedule") {
        return Some(ListEndpoint::Preview);
    }
    if is_word(word, "history") {
        return Some(ListEndpoint::ChangesOf);
    }
    if is_word(word, "journal") {
        return Some(ListEndpoint::Changes);
    }
    if is_word(word, "takings") {
        return Some(ListEndpoint::TakingsOn);
    }
    None
}

/// Whether a text has as many parts as what is asked for has parameters.
fn has_parts(endpoint: ListEndpoint, params: &[u8]) -> bool
    ensures { result ≡ has_parts endpoint params.now }
{
    match endpoint {
        ListEndpoint::Find => false,
        ListEndpoint::LoansOf | ListEndpoint::StaffOf | ListEndpoint::ChangesOf => {
            last_part(params).is_some()
        }
        ListEndpoint::Clients | ListEndpoint::Changes | ListEndpoint::TakingsOn => {
            two_parts(params).is_some()
        }
        ListEndpoint::DueBy | ListEndpoint::AtStatus => three_parts(params).is_some(),
        ListEndpoint::Preview => four_parts(params).is_some(),
    }
}

/// What is asked for by what stands behind `/lists/`, and its parameters.
fn route_behind(behind: &[u8]) -> Option<(ListEndpoint, &[u8])>
    ensures { option_map (λ r. (r.0, r.1.now)) result ≡ route_behind behind.now }
{
    if matches!(behind, b"find") {
        return Some((ListEndpoint::Find, behind));
    }
    let (word, params) = split_once(behind, SLASH)?;
    let endpoint = endpoint_of_word(word)?;
    if has_parts(endpoint, params) {
        Some((endpoint, params))
    } else {
        None
    }
}

/// The same of a whole path.
fn route_in(path: &[u8]) -> Option<(ListEndpoint, &[u8])>
    ensures { option_map (λ r. (r.0, r.1.now)) result ≡ option_and_then route_behind (behind_lists path.now) }
{
    route_behind(behind_lists(path)?)
}

/// What a path asks for, and its parameters. None where it is no route: also where it isn't UTF-8, and where a
/// parameter is empty, missing or one too many.
pub fn list_route(path: &[u8]) -> Option<(ListEndpoint, &[u8])>
    ensures { option_map (λ r. (r.0, r.1.now)) result ≡ list_route path.now }
{
    let Ok(_text) = str::from_utf8(path) else {
        return None;
    };
    route_in(path)
}

/// Whether a route has a method: find is sent by POST, since it has a body, and the others by GET.
pub fn has_method(endpoint: ListEndpoint, method: &[u8]) -> bool
    ensures { result ≡ has_method endpoint method.now }
{
    match endpoint {
        ListEndpoint::Find => matches!(method, b"POST"),
        _ => matches!(method, b"GET"),
    }
}
