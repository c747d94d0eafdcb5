//! Laws of requests. Each function does nothing: its contract is the law.

ghost use Rattle.std.specs.Prelude.{ℕ, Bool, List, Option};
ghost use Rattle.mf_model.specs.Sound.{IsInRange};
ghost use Rattle.mf_wire_requests.specs.RequestLine.{Parts};
ghost use Rattle.mf_wire_requests.specs.Requests.{call_in, call_of_parts, call_by_parts, request_of};

/// Whatever the bytes are, what they ask has its members in range: a method with a path and a body, these and a caller,
/// and a line, with a word that is told of it or without, whether or not there was memory to read it. A line that is
/// too long, or in which nothing can be read, asks nothing.
pub fn requests_are_in_range()
    ensures requests { (method path body : List ℕ) → IsInRange (request_of method path body) }
    ensures parts { (parts : Parts) → IsInRange (call_of_parts parts).request }
    ensures messages { (caller : List ℕ) (parts : Option Parts) → IsInRange (call_by_parts caller parts).request }
    ensures lines { (told : Bool) (line : List ℕ) → IsInRange (call_in told line).request }
{}
