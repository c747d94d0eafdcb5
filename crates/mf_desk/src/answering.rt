//! A request answered: decided by what a store shows, and committed where it changes something.

ghost use Rattle.std.specs.Prelude.{◌≢◌, ◌⊎◌, Err, IfErr};
ghost use Rattle.std.specs.Fn.{FnOnceReturnsAt};
ghost use Rattle.mf_model.specs.declared.reply.Reply.{Reply};
ghost use Rattle.mf_model.specs.Sound.{IsInRange};
ghost use Rattle.mf_model.specs.Tree.{view};
ghost use Rattle.mf_model.specs.Desk.{outcome, reply};
ghost use Rattle.mf_desk.specs.Answers.{Decides, Tells, Changes};
ghost use Rattle.mf_model.specs.Unseen.{call_from};
ghost use Rattle.mf_model.specs.Calls.{nothing_received};
ghost use Rattle.mf_model.specs.Notes.{received_now, noted_as};
ghost use Rattle.mf_model.specs.Store.{Commits};

use crate::decision::Decision;
use crate::roles::may_send;
use crate::routes::act;
use mf_base::Fault;
use mf_model::{Commit, InstitutionStore, Names, Note, Reply, Request, RequestText, laws};
use mf_office::Caller;
use std::alloc::Global;

/// Decides a request: the refusals of the caller come first, then those of what is asked. It changes nothing.
pub fn decide<S: InstitutionStore>(
    alloc: Global,
    store: &mut S,
    caller: &Caller,
    request: Request,
) -> Result<Decision, Fault>
    requires in_range { IsInRange request }
    ensures decides { Decides S.InstitutionStore (outcome (call_from caller.now request
        nothing_received)) store.old store.new result }
    ensures refusal { IfErr result (λ f. f ≢ Fault.F19) }
{
    if let Request::Unreadable(flaw) = &request {
        return Err(flaw.fault());
    }
    let Some(role) = store.caller(alloc, *caller)? else {
        return Err(Fault::F2);
    };
    if !may_send(&request, role, caller.office) {
        return Err(Fault::F3);
    }
    act(alloc, store, *caller, request)
}

/// Makes a commit, and notes the request that it comes of.
pub fn commit_noted<S: InstitutionStore>(
    alloc: Global,
    store: &mut S,
    commit: Commit,
    caller: Caller,
    text: &RequestText<'_>,
    names: Names,
) -> Result<(), Fault>
    ensures { Commits S.stands S.clean S.leaves commit (noted_as caller (received_now text.now) names) store.old
        store.new result }
{
    let note = Note {
        caller,
        text,
        names,
    };
    store.commit(alloc, commit, note)
}

/// Answers a request, of which this text was received. What `show` makes of the reply is the answer. It is made before
/// the change, so that no allocation can fail once the change stands. At Err nothing is changed: it is the refusal, or
/// what `show` refused, or F20 where it is out of memory or the store failed. It is F19, which is reported of a file
/// that is opened, only where `show` refused so.
///
/// What is answered is also what the caller would be answered by an institution that has only what the caller's
/// office sees. Where the store keeps a journal, the request is noted in the change's own commit.
pub fn answer<S: InstitutionStore, T: Drop, F: FnOnce(&Reply) -> Result<T, Fault> + Drop>(
    alloc: Global,
    store: &mut S,
    caller: Caller,
    request: Request,
    text: &RequestText<'_>,
    show: F,
) -> Result<T, Fault>
    requires show { F.IsAlwaysCallable show }
    requires in_range { IsInRange request }
    ensures told { Tells S.InstitutionStore (FnOnceReturnsAt F.FnOnce show) (reply (call_from caller request
        (received_now text.now))) store.old store.new result }
    ensures changes { Changes S.InstitutionStore (call_from caller request (received_now text.now)) store.old
        store.new result }
    ensures own_view { Tells S.InstitutionStore (FnOnceReturnsAt F.FnOnce show) (λ i. reply (call_from caller request
        (received_now text.now)) (view caller.office i)) store.old store.new result }
    ensures refusal { IfErr result (λ f. (f ≢ Fault.F19)
        ⊎ ((reply : Reply) × FnOnceReturnsAt F.FnOnce show reply (Err f))) }
{
    laws::answered_by_view();
    laws::soundness();
    let Decision { reply, commit } = decide(alloc, store, &caller, request)?;
    let shown = show(&reply)?;
    let names = reply.names();
    // Dropped here, so that this is proved once and not at each return below.
    drop(reply);
    match commit {
        None => Ok(shown),
        Some(commit) => {
            commit_noted(alloc, store, commit, caller, text, names)?;
            Ok(shown)
        }
    }
}
