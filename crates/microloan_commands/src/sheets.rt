//! A collection sheet read from a source, and collected.

ghost use Rattle.std.specs.Prelude.{◌≡◌, ◌≢◌, length, IfOk, IfErr};
ghost use Rattle.mf_base.specs.declared.fault.Cause.TheVariants as cause;
ghost use Rattle.mf_sheet.specs.Runs.{RunsRows};
ghost use Rattle.mf_wire_lines.specs.Streams.{stream_of, streams_of};
ghost use Rattle.microloan_commands.specs.Sheets.{IsWholeSheet, IsReadFault, Ends};

use mf_base::{Cause, StreamFault};
use mf_model::InstitutionStore;
use mf_office::Caller;
use mf_sheet::{LONGEST, collect};
use mf_wire_lines::{Sink, Source};
use mf_wire_messages::fill;
use std::alloc::{AllocError, Global};

/// Why a collection sheet was not collected to its end.
#[derive(Clone, Copy, PartialEq, Eq, Debug)]
pub enum SheetFault {
    /// It has more than 1,048,576 bytes: nothing was answered or written.
    TooLong,
    /// A stream failed, or there was no memory. It says how many results were written whole.
    Stream(StreamFault),
}

/// Room for the longest sheet and a byte more.
fn room(alloc: Global) -> Result<Vec<u8>, AllocError>
    ensures { IfOk result (λ v. length v.items ≡ 1048577) }
{
    vec![in alloc; 0; LONGEST + 1]
}

/// Before anything was answered, a stream failed, or there was no memory.
fn before_any(cause: Cause) -> SheetFault
    ensures { result ≡ SheetFault.Stream (record { answered = 0; cause = cause }) }
{
    SheetFault::Stream(StreamFault { answered: 0, cause })
}

/// The bytes of a source, read to its end, where they are no more than a sheet may have.
fn read_whole<R: Source>(alloc: Global, source: &mut R) -> Result<Vec<u8>, SheetFault>
    ensures whole { IfOk result (λ bytes. IsWholeSheet (R.unread source.old) (R.unread source.new) bytes.items
        × (R.faults source.new ≡ R.faults source.old)) }
    ensures refusal { IfErr result (λ fault. IsReadFault R.unread R.faults source.old source.new fault) }
{
    let Ok(mut bytes) = room(alloc) else {
        return Err(before_any(Cause::Memory));
    };
    let Ok(size) = fill(source, bytes.as_mut_slice()) else {
        return Err(before_any(Cause::Read));
    };
    if LONGEST < size {
        return Err(SheetFault::TooLong);
    }
    bytes.truncate(size);
    Ok(bytes)
}

/// Reads a source to its end, answers it as a collection sheet that somebody sends, as `mf_sheet::collect` does, and
/// writes the sheet of its results. A journal notes what is told with each repayment.
///
/// A source of more than 1,048,576 bytes is refused, and nothing is answered or written. `Read` is reported where the
/// reader failed in this call, and nothing was answered or written then. `Memory` is also reported where there is no
/// room to read, and nothing was read then.
pub fn collect_sheet<S: InstitutionStore, R: Source, W: Sink>(
    alloc: Global,
    store: &mut S,
    told: &[u8],
    caller: Caller,
    source: &mut R,
    sink: &mut W,
) -> Result<(), SheetFault>
    ensures ends { Ends (RunsRows S.InstitutionStore told.now caller) store.old store.new
        (streams_of (stream_of R.unread R.faults source.old source.new)
        (stream_of W.written W.faults sink.old sink.new)) result }
{
    let sheet = read_whole(alloc, source)?;
    match collect(alloc, store, told, caller, sheet.as_slice(), sink) {
        Ok(()) => Ok(()),
        Err(fault) => Err(SheetFault::Stream(fault)),
    }
}
