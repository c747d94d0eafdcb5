//! Requests answered over a store, from their texts to the texts of their replies.

ghost use Rattle.std.specs.Prelude.{◌≡◌, ◌≢◌, ◌⊎◌, Err, [], IfOk, IfErr, string_bytes};
ghost use Rattle.std.specs.Fn.{FnOnceReturnsAt};
ghost use Rattle.mf_model.specs.declared.reply.Reply.{Reply};
ghost use Rattle.mf_model.specs.Desk.{reply};
ghost use Rattle.mf_desk.specs.Answers.{Tells, Changes};
ghost use Rattle.mf_wire_requests.specs.RequestLine.{parts_now};
ghost use Rattle.mf_wire_lines.specs.Replies.{reply_line, reply_line_of};
ghost use Rattle.mf_wire_replies.specs.Shown.{reply_status, reply_body, shown_line, IsReplyText};
ghost use Rattle.mf_wire_requests.specs.Requests.{call_of_parts, call_in};
ghost use Rattle.mf_wire.specs.Runs.{Calls};

use mf_base::Fault;
use mf_desk::answer;
use mf_model::{InstitutionStore, ReceivedText, Reply, RequestText};
use mf_office::Caller;
use mf_wire_lines::LineDesk;
use mf_wire_replies::{body_text, line_text, status};
use mf_wire_requests::{LineParts, Routes, is_token, parts_in, read_request};
use std::alloc::{AllocError, Global};

/// Answers a request in its parts. The caller and the method are looked at first, then the route and the rest.
fn answer_parts<S: InstitutionStore, T: Drop, F: FnOnce(&Reply) -> Result<T, Fault> + Drop>(
    alloc: Global,
    routes: &Routes,
    store: &mut S,
    parts: LineParts<'_>,
    show: F,
) -> Result<T, Fault>
    requires { F.IsAlwaysCallable show }
    ensures told { Tells S.InstitutionStore (FnOnceReturnsAt F.FnOnce show)
        (reply (call_of_parts (parts_now parts.entry))) store.old store.new result }
    ensures changes { Changes S.InstitutionStore (call_of_parts (parts_now parts.entry)) store.old store.new result }
    ensures refusal { IfErr result (λ f. (f ≢ Fault.F19)
        ⊎ ((reply : Reply) × FnOnceReturnsAt F.FnOnce show reply (Err f))) }
{
    let Some(caller) = Caller::parse(parts.caller) else {
        return Err(Fault::F1);
    };
    if !is_token(parts.method) {
        return Err(Fault::F1);
    }
    let request = read_request(alloc, routes, parts.method, parts.path, parts.body)?;
    let text = RequestText::Received(ReceivedText {
        told: parts.told,
        method: parts.method,
        path: parts.path,
        body: parts.body,
    });
    answer(alloc, store, caller, request, &text, show)
}

/// The line of the reply to a request in its parts.
fn answer_line_parts<S: InstitutionStore>(
    alloc: Global,
    routes: &Routes,
    store: &mut S,
    parts: LineParts<'_>,
) -> Result<String, Fault>
    ensures calls { Calls S.InstitutionStore (λ r. reply_line_of result ≡ shown_line r)
        (call_of_parts (parts_now parts.entry)) store.old store.new }
    ensures refusal { IfErr result (λ f. f ≢ Fault.F19) }
{
    answer_parts(
        alloc,
        routes,
        store,
        parts,
        |reply: &Reply| -> Result<String, Fault>
            ensures ok { IfOk result (λ s. string_bytes s ≡ reply_line (reply_status reply.now)
                (reply_body reply.now)) }
            ensures err { IfErr result (λ f. f ≡ Fault.F20) }
        { line_text(alloc, reply) },
    )
}

fn status_and_body(alloc: Global, reply: &Reply) -> Result<(u16, String), Fault>
    ensures ok { IfOk result (λ t. (t.0 ≡ reply_status reply.now) × (string_bytes t.1 ≡ reply_body reply.now)) }
    ensures err { IfErr result (λ f. f ≡ Fault.F20) }
{
    let body = body_text(alloc, reply)?;
    Ok((status(reply), body))
}

/// The status and the body of the reply to a request in its parts.
pub(crate) fn answer_text_parts<S: InstitutionStore>(
    alloc: Global,
    routes: &Routes,
    store: &mut S,
    parts: LineParts<'_>,
) -> Result<(u16, String), Fault>
    ensures calls { Calls S.InstitutionStore (IsReplyText result) (call_of_parts (parts_now parts.entry)) store.old
        store.new }
    ensures refusal { IfErr result (λ f. f ≢ Fault.F19) }
{
    answer_parts(
        alloc,
        routes,
        store,
        parts,
        |reply: &Reply| -> Result<(u16, String), Fault>
            ensures ok { IfOk result (λ t. (t.0 ≡ reply_status reply.now) × (string_bytes t.1 ≡ reply_body reply.now)) }
            ensures err { IfErr result (λ f. f ≡ Fault.F20) }
        { status_and_body(alloc, reply) },
    )
}

/// The status and the body of the reply to a request, by the texts of its caller, method, path and body; nothing is
/// told of it. At `Err` the refusal, whose text is that of `fault_text`, and nothing is changed.
pub fn answer_text<S: InstitutionStore>(
    alloc: Global,
    store: &mut S,
    caller: &[u8],
    method: &[u8],
    path: &[u8],
    body: &[u8],
) -> Result<(u16, String), Fault>
    ensures calls { Calls S.InstitutionStore (IsReplyText result)
        (call_of_parts (record {
          told = [];
          caller = caller.now;
          method = method.now;
          path = path.now;
          body = body.now;
        })) store.old store.new }
    ensures refusal { IfErr result (λ f. f ≢ Fault.F19) }
{
    let Ok(routes) = Routes::new(alloc) else {
        return Err(Fault::F20);
    };
    let parts = LineParts {
        told: [].as_slice(),
        caller,
        method,
        path,
        body,
    };
    answer_text_parts(alloc, &routes, store, parts)
}

/// The desk as it is reached by bytes, with its routes made once: for a run, or for a server.
#[derive(Drop)]
pub struct Desk {
    /// The routes of the requests.
    pub routes: Routes,
    /// Whether something is told of each request, for a journal: by the first word of a line, or by the field X-Told of
    /// a message.
    pub told: bool,
}

impl Desk {
    /// A desk, which is told something of each request or not. It fails only when out of memory.
    pub fn new(alloc: Global, told: bool) -> Result<Desk, AllocError>
        ensures { IfOk result (λ desk. desk.told ≡ told) }
    {
        match Routes::new(alloc) {
            Ok(routes) => Ok(Desk { routes, told }),
            Err(_) => Err(AllocError),
        }
    }
}

impl<S: InstitutionStore> LineDesk<S> for Desk {
    ghost may_answer = { λ desk old line text new. Calls S.InstitutionStore (λ r. text ≡ shown_line r)
        (call_in desk.told line) old new };

    fn answer(&self, alloc: Global, state: &mut S, line: &[u8]) -> Result<String, Fault> {
        let Some(parts) = parts_in(self.told, line) else {
            return Err(Fault::F1);
        };
        answer_line_parts(alloc, &self.routes, state, parts)
    }
}
