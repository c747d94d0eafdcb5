//! Connections served one after another, a message each.

ghost use Rattle.std.specs.Prelude.{◌≡◌, false, is_some, IfOk, IfErr, OnErr};
ghost use Rattle.mf_base.specs.declared.fault.Cause.TheVariants as cause;
ghost use Rattle.mf_lists_runs.specs.Choice.{choice_if};
ghost use Rattle.microloan_commands.specs.Served.{ServesConnections, whole_of};

use crate::listening::Listener;
use mf_base::{Cause, StreamFault};
use mf_lists_desk::Lists;
use mf_lists_runs::{ListDesk, serve_one};
use mf_model::InstitutionStore;
use mf_wire_lines::{WatchedReader, WatchedWriter};
use std::alloc::Global;

/// How many responses were written whole.
fn whole(served: Result<bool, StreamFault>) -> u64
    ensures { result ≡ whole_of served }
{
    match served {
        Ok(true) => 1,
        Ok(false) => 0,
        Err(_) => 0,
    }
}

/// Serves the next connection, where it can be accepted, and gives how many responses were written whole. A fault of
/// its streams ends the connection and nothing else.
fn serve_next<S: InstitutionStore, L: Lists<S>, N: Listener>(
    alloc: Global,
    desk: &ListDesk<'_, L>,
    store: &mut S,
    listener: &mut N,
) -> u64
    requires { N.is_open listener.old ≡ false }
    ensures served { ServesConnections S.InstitutionStore (choice_if L.folded (is_some desk.now.lists))
        desk.now.desk.told 1 (N.ended listener.old) (N.ended listener.new) store.old store.new result }
    ensures closed { N.is_open listener.new ≡ false }
{
    let Ok((reader, writer)) = listener.accept() else {
        return 0;
    };
    let mut source = WatchedReader::new(reader);
    let mut sink = WatchedWriter::new(writer);
    let answered = whole(serve_one(alloc, desk, store, &mut source, &mut sink));
    listener.end(source.into_inner(), sink.into_inner(), answered > 0);
    answered
}

/// Accepts so many connections, one after another, and answers the HTTP message of each over a store, as
/// `mf_lists_runs::serve_one` does, with lists or without. It gives how many responses were written whole. Where `told`
/// says so, a message's field X-Told is told of it.
///
/// Where the listener knows what passes over its connections: to the connection that a message came by its response was
/// written, or a beginning of it where the writer failed, and to no other connection anything.
///
/// A connection that can't be accepted counts as one, and so does one whose streams fail; the next is served. Memory is
/// reported where there is none for the routes, which are made first: nothing is accepted or answered then.
pub fn serve_connections<S: InstitutionStore, L: Lists<S>, N: Listener>(
    alloc: Global,
    lists: Option<&L>,
    told: bool,
    store: &mut S,
    listener: &mut N,
    connections: u64,
) -> Result<u64, StreamFault>
    requires { N.is_open listener.old ≡ false }
    ensures served { IfOk result (ServesConnections S.InstitutionStore (choice_if L.folded (is_some lists.entry)) told
        connections (N.ended listener.old) (N.ended listener.new) store.old store.new) }
    ensures memory { IfErr result (λ fault. (fault ≡ record { answered = 0; cause = cause.Memory })
        × (store.new ≡ store.old)) }
    ensures unheard { OnErr result (N.ended listener.new ≡ N.ended listener.old) }
    ensures closed { N.is_open listener.new ≡ false }
{
    let Ok(desk) = ListDesk::new(alloc, lists, told) else {
        return Err(StreamFault {
            answered: 0,
            cause: Cause::Memory,
        });
    };
    let mut answered = 0u64;
    for _ in 0..connections {
        answered += serve_next(alloc, &desk, store, listener);
    }
    Ok(answered)
}
