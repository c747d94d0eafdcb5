//! A head read from a stream.

ghost use Rattle.std.specs.Prelude.{◌≡◌, ◌≢◌, ◌==◌, if◌then◌else◌, length, IfOk, OnOk, OnErr};
ghost use Rattle.mf_wire_messages.specs.Arrivals.{TellsHead};

use httparse::Status;
use httparse::spans::{HeaderSpan, RequestSpans, parse_request};
use mf_wire_lines::{ReadFault, Source};

/// The longest head, in bytes, with empty lines before it and the one after it.
pub const LONGEST_HEAD: usize = 16384;

/// The most fields of a head.
pub const MOST_FIELDS: usize = 64;

/// What was read for a head.
#[derive(Clone, Copy)]
pub enum HeadRead {
    /// The stream ended before any byte.
    Nothing,
    /// No head, one that is too long, or only a part of one.
    Refused,
    /// Where the parts of the head are, and how many bytes were read.
    Complete(RequestSpans, usize),
}

fn ended_after(size: usize) -> HeadRead
    ensures { result ≡ (if size == 0 then HeadRead.Nothing else HeadRead.Refused) }
{
    if size == 0 {
        HeadRead::Nothing
    } else {
        HeadRead::Refused
    }
}

/// Reads until the head is there or refused, the room is full or the stream ends.
pub fn read_head<R: Source>(
    source: &mut R,
    room: &mut [u8],
    fields: &mut [HeaderSpan],
) -> Result<HeadRead, ReadFault>
    requires room { length room.old ≡ 16384 }
    requires fields { length fields.old ≡ 64 }
    ensures ok { IfOk result (TellsHead (R.unread source.old) (R.unread source.new) room.new fields.new) }
    ensures sound { OnOk result (R.faults source.new ≡ R.faults source.old) }
    ensures fault { OnErr result (R.faults source.new ≢ R.faults source.old) }
{
    let mut size = 0;
    while size < room.len() {
        let Ok(n) = source.read_some(&mut room[size..]) else {
            return Err(ReadFault);
        };
        if n == 0 {
            return Ok(ended_after(size));
        }
        size += n;
        match parse_request(&room[..size], fields) {
            Ok(Status::Complete(spans)) => return Ok(HeadRead::Complete(spans, size)),
            Ok(Status::Partial) => {}
            Err(_) => return Ok(HeadRead::Refused),
        }
    }
    Ok(HeadRead::Refused)
}
