//! The text of a refusal.

ghost use Rattle.std.specs.Prelude.{◌≡◌, ◌≢◌};
ghost use Rattle.mf_wire_lines.specs.Replies.{fault_status, fault_body};

use mf_base::Fault;

/// The HTTP status and the body of a refusal. It takes no memory, so F20 can be answered when there is none. A file
/// that holds no institution (`F19`) is refused on opening only, and has no reply.
pub fn fault_text(fault: Fault) -> (u16, &'static str)
    requires { fault ≢ Fault.F19 }
    ensures status { result.0 ≡ fault_status fault }
    ensures body { result.1.now ≡ fault_body fault }
{
    match fault {
        Fault::F1 => (400, "{\"fault\":\"F1\"}"),
        Fault::F2 => (401, "{\"fault\":\"F2\"}"),
        Fault::F3 => (403, "{\"fault\":\"F3\"}"),
        Fault::F4 => (404, "{\"fault\":\"F4\"}"),
        Fault::F5 => (404, "{\"fault\":\"F5\"}"),
        Fault::F6 => (405, "{\"fault\":\"F6\"}"),
        Fault::F7 => (409, "{\"fault\":\"F7\"}"),
        Fault::F8 => (409, "{\"fault\":\"F8\"}"),
        Fault::F9 => (409, "{\"fault\":\"F9\"}"),
        Fault::F10 => (409, "{\"fault\":\"F10\"}"),
        Fault::F11 => (409, "{\"fault\":\"F11\"}"),
        Fault::F12 => (409, "{\"fault\":\"F12\"}"),
        Fault::F13 => (409, "{\"fault\":\"F13\"}"),
        Fault::F14 => (409, "{\"fault\":\"F14\"}"),
        Fault::F15 => (409, "{\"fault\":\"F15\"}"),
        Fault::F16 => (409, "{\"fault\":\"F16\"}"),
        Fault::F17 => (409, "{\"fault\":\"F17\"}"),
        Fault::F18 => (409, "{\"fault\":\"F18\"}"),
        Fault::F19 => unreachable!(),
        Fault::F20 => (503, "{\"fault\":\"F20\"}"),
    }
}
