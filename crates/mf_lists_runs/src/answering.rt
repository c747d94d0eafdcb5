//! Requests answered by the desk or by the lists.

ghost use Rattle.std.specs.Prelude.{◌≡◌, ◌≢◌, ◌⊎◌, ◌&&◌, true, cond, is_some, Some, None, IfOk, IfErr};
ghost use Rattle.mf_lists_desk.specs.Readings.{AnswersBy};
ghost use Rattle.mf_lists_replies.specs.Shown.{shown_list};
ghost use Rattle.mf_lists_runs.specs.Choice.{asks_list, choice_if, is_listed_path, list_asked, list_told};
ghost use Rattle.mf_lists_runs.specs.Choice.{told_line};
ghost use Rattle.mf_lists_runs.specs.Runs.{CallsWith};
ghost use Rattle.mf_office.specs.Texts.{caller_of};
ghost use Rattle.mf_wire_lines.specs.Replies.{fault_line, reply_line_of};
ghost use Rattle.mf_wire_requests.specs.RequestLine.{is_token, parts_now};
ghost use Rattle.mf_wire_requests.specs.Requests.{call_in, call_of_parts, received_in_parts};

use mf_base::Fault;
use mf_lists::ListAnswer;
use mf_lists_desk::{Lists, answer};
use mf_lists_replies::list_line;
use mf_lists_wire::{is_list_path, read_list_request};
use mf_model::InstitutionStore;
use mf_office::Caller;
use mf_wire::Desk;
use mf_wire_lines::LineDesk;
use mf_wire_requests::{LineParts, Routes, is_token, parts_in};
use std::alloc::{AllocError, Global};

/// The desk as it is reached by bytes, beside the lists where they may be asked for.
#[derive(Drop)]
pub struct ListDesk<'a, L> {
    pub(crate) desk: Desk,
    /// What tells the lists of a store; without it each path of theirs has no route.
    pub lists: Option<&'a L>,
}

impl<'a, L> ListDesk<'a, L> {
    /// A desk, with the lists or without, which is told something of each request or not. It fails only when out of
    /// memory.
    pub fn new(alloc: Global, lists: Option<&'a L>, told: bool) -> Result<Self, AllocError>
        ensures { IfOk result (λ desk. (desk.desk.told ≡ told) × (desk.lists ≡ lists.entry)) }
    {
        let desk = Desk::new(alloc, told)?;
        Ok(ListDesk { desk, lists })
    }
}

/// Whether a request in its parts asks for a list, whoever sends it.
fn is_listed(routes: &Routes, parts: &LineParts<'_>) -> bool
    ensures { result ≡ (is_token parts.now.method.now && is_listed_path parts.now.path.now) }
{
    is_token(parts.method) && !routes.has(parts.path) && is_list_path(parts.path)
}

/// Who asks the lists by a request in its parts, if it does so.
pub(crate) fn list_caller(routes: &Routes, parts: &LineParts<'_>) -> Option<Caller>
    ensures { result ≡ cond (asks_list (call_of_parts (parts_now parts.now))) (caller_of parts.now.caller.now) None }
{
    if !is_listed(routes, parts) {
        return None;
    }
    Caller::parse(parts.caller)
}

/// Answers a request in its parts by a list.
pub(crate) fn answer_list<S: InstitutionStore, L: Lists<S>>(
    alloc: Global,
    lists: &L,
    store: &mut S,
    caller: Caller,
    parts: &LineParts<'_>,
) -> Result<ListAnswer, Fault>
    ensures told { AnswersBy S.InstitutionStore (list_told L.folded caller
        (list_asked (received_in_parts (parts_now parts.now)))) store.old store.new result }
    ensures refusal { IfErr result (λ f. f ≢ Fault.F19) }
{
    let request = read_list_request(alloc, parts.method, parts.path, parts.body)?;
    answer(alloc, lists, store, caller, request)
}

/// The line of what the lists told, or F20 where there is no memory for it.
fn line_of_list(alloc: Global, told: Result<ListAnswer, Fault>) -> Result<String, Fault>
    ensures line { (reply_line_of result ≡ shown_list told) ⊎ (reply_line_of result ≡ fault_line Fault.F20) }
    ensures refusal { IfErr told (λ f. f ≢ Fault.F19) → IfErr result (λ f. f ≢ Fault.F19) }
{
    list_line(alloc, &told?)
}

/// The line of the list that answers a request in its parts.
fn answer_list_line<S: InstitutionStore, L: Lists<S>>(
    alloc: Global,
    lists: &L,
    store: &mut S,
    caller: Caller,
    parts: &LineParts<'_>,
) -> Result<String, Fault>
    ensures calls { asks_list (call_of_parts (parts_now parts.now)) ≡ true →
        caller_of parts.now.caller.now ≡ Some caller →
        CallsWith S.InstitutionStore (Some L.folded) (λ t. reply_line_of result ≡ told_line t)
        (call_of_parts (parts_now parts.now)) store.old store.new }
    ensures refusal { IfErr result (λ f. f ≢ Fault.F19) }
{
    let told = answer_list(alloc, lists, store, caller, parts);
    line_of_list(alloc, told)
}

impl<S: InstitutionStore, L: Lists<S>> LineDesk<S> for ListDesk<'_, L> {
    ghost may_answer = { λ desk old line text new. CallsWith S.InstitutionStore
        (choice_if L.folded (is_some desk.lists)) (λ t. text ≡ told_line t) (call_in desk.desk.told line) old new };

    fn answer(&self, alloc: Global, state: &mut S, line: &[u8]) -> Result<String, Fault> {
        let Some(lists) = self.lists else {
            return self.desk.answer(alloc, state, line);
        };
        let Some(parts) = parts_in(self.desk.told, line) else {
            return Err(Fault::F1);
        };
        match list_caller(&self.desk.routes, &parts) {
            Some(caller) => answer_list_line(alloc, lists, state, caller, &parts),
            None => self.desk.answer(alloc, state, line),
        }
    }
}
