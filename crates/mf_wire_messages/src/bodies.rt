//! A body read from a stream.

ghost use Rattle.std.specs.Prelude.{◌≡◌, ◌≢◌, ◌<◌, ◌≤◌, length, take, IfOk, OnOk, OnErr};
ghost use Rattle.std.specs.Io.KnownBytes.{Consumes, IsAtEnd};
ghost use Rattle.mf_wire_messages.specs.Arrivals.{TellsBody};

use mf_wire_lines::{ReadFault, Source};

/// Reads until the room is full or the stream ends. It gives how many bytes were read.
pub fn fill<R: Source>(source: &mut R, room: &mut [u8]) -> Result<usize, ReadFault>
    ensures within { IfOk result (λ n. n ≤ length room.new) }
    ensures read { IfOk result (λ n. Consumes (R.unread source.old) (R.unread source.new) (take n room.new)) }
    ensures end { IfOk result (λ n. n < length room.new → IsAtEnd (R.unread source.new)) }
    ensures sound { OnOk result (R.faults source.new ≡ R.faults source.old) }
    ensures fault { OnErr result (R.faults source.new ≢ R.faults source.old) }
{
    let mut size = 0;
    while size < room.len() {
        let Ok(n) = source.read_some(&mut room[size..]) else {
            return Err(ReadFault);
        };
        if n == 0 {
            return Ok(size);
        }
        size += n;
    }
    Ok(size)
}

/// The same for a body of which less than the whole is there.
fn read_rest<R: Source>(source: &mut R, begun: &[u8], body: &mut [u8]) -> Result<bool, ReadFault>
    requires { length begun.now < length body.old }
    ensures ok { IfOk result (TellsBody (R.unread source.old) (R.unread source.new) begun.now body.new) }
    ensures sound { OnOk result (R.faults source.new ≡ R.faults source.old) }
    ensures fault { OnErr result (R.faults source.new ≢ R.faults source.old) }
{
    let size = begun.len();
    body[..size].copy_from_slice(begun);
    let Ok(n) = fill(source, &mut body[size..]) else {
        return Err(ReadFault);
    };
    Ok(n == body.len() - size)
}

/// Fills a body by the bytes that are there already and by those that follow. It gives whether the body is whole.
pub fn read_body<R: Source>(
    source: &mut R,
    begun: &[u8],
    body: &mut [u8],
) -> Result<bool, ReadFault>
    ensures ok { IfOk result (TellsBody (R.unread source.old) (R.unread source.new) begun.now body.new) }
    ensures kept { length body.new ≡ length body.old }
    ensures sound { OnOk result (R.faults source.new ≡ R.faults source.old) }
    ensures fault { OnErr result (R.faults source.new ≢ R.faults source.old) }
{
    if begun.len() < body.len() {
        return read_rest(source, begun, body);
    }
    body.copy_from_slice(&begun[..body.len()]);
    Ok(true)
}
