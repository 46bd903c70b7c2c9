//! The next request of a stream.
ghost use Rattle.std.specs.Prelude.{◌≡◌, ◌≢◌, ◌<◌, ◌≤◌, ◌-◌, ◌++◌, ℕ, List, [], MatchResult, Err};
ghost use Rattle.http_wire.specs.Input.{unread, room_of};
ghost use Rattle.http_wire.specs.Wire.{IsOpenBelow};
ghost use Rattle.http_wire.specs.Reading.{ReadsOn, StopsAs, Takes, KeepsRoom, finish_by};
ghost use Rattle.http_wire.specs.Replies.{waiting, HoldsOrSends, SendsBefore};
ghost use Rattle.http_wire.specs.declared.reading.StopCause.TheVariants.{WriteFault};

use crate::framing::FramingError;
use crate::input::{Input, Piece};
use crate::next::{Next, next_request};
use crate::replies::Replies;
use crate::request::Request;
use counted_io::Counted;
use std::alloc::Global;
use std::io::{Read, Write};

/// Why no further request was taken from a stream.
#[derive(Drop)]
pub enum StopCause {
    /// The input ended before a request.
    Closed,
    /// The input ended inside a request.
    Cut,
    /// A read was needed, and none was left.
    ReadsSpent,
    /// A read failed.
    ReadFault,
    /// Memory was missing: nothing of a request was read yet, or one that is served stands in front.
    NoMemory,
    Refused(FramingError),
    /// The head of a HEAD request for this target.
    Head(Vec<u8>),
    /// A read was needed, and the replies that waited for it weren't all taken.
    WriteFault,
}

/// Reads until so many bytes are there, of which at most `reads` reads are left. No reply may wait meanwhile.
fn read_up_to<R: Read>(
    input: &mut Input,
    reader: &mut Counted<R>,
    reads: &mut u32,
    wanted: usize,
    _replies: &Replies,
) -> Result<(), StopCause>
    requires wanted { IsOpenBelow wanted (unread input.old) }
    requires none { waiting _replies.now ≡ [] }
    ensures read { (given : List ℕ)
        × ReadsOn R.remaining reader.old reader.new (unread input.old) given reads.old reads.new (finish_by result)
        × MatchResult result
        (λ _. (unread input.new ≡ unread input.old ++ given) × (reads.new < reads.old))
        (StopsAs R.remaining reader.new reads.old reads.new (room_of input.old) (unread input.old ++ given)) }
    ensures room { KeepsRoom (room_of input.old) (room_of input.new) reads.old reads.new }
    ensures unwritten { result ≢ Err WriteFault }
{
    while input.len() < wanted {
        if *reads == 0 {
            return Err(StopCause::ReadsSpent);
        }
        let Ok(piece) = input.fill(reader) else {
            return Err(StopCause::NoMemory);
        };
        *reads -= 1;
        match piece {
            Piece::Bytes => {}
            Piece::Fault => return Err(StopCause::ReadFault),
            Piece::End if input.len() == 0 => return Err(StopCause::Closed),
            Piece::End => return Err(StopCause::Cut),
        }
    }
    Ok(())
}

/// Reads until a whole request stands at the front, and takes it. The replies that wait are written before the
/// first read.
pub fn read_request<R: Read, W: Write>(
    alloc: Global,
    input: &mut Input,
    reader: &mut Counted<R>,
    reads: &mut u32,
    writer: &mut Counted<W>,
    replies: &mut Replies,
) -> Result<Request, StopCause>
    ensures read { (given : List ℕ)
        × ReadsOn R.remaining reader.old reader.new (unread input.old) given reads.old reads.new (finish_by result)
        × MatchResult result
        (Takes (unread input.old ++ given) (unread input.new))
        (StopsAs R.remaining reader.new reads.old reads.new (room_of input.old) (unread input.old ++ given)) }
    ensures room { KeepsRoom (room_of input.old) (room_of input.new) reads.old reads.new }
    ensures sending { MatchResult result
        (λ _. HoldsOrSends W.contents writer.old writer.new (waiting replies.old) (waiting replies.new) reads.old reads.new)
        (SendsBefore W.contents writer.old writer.new (waiting replies.old) (waiting replies.new) reads.old reads.new) }
{
    loop {
        let wanted = match next_request(alloc, input.bytes()) {
            Ok(Next::More(wanted)) => wanted,
            Ok(Next::Whole(request, len)) => {
                input.take(len);
                return Ok(request);
            }
            Ok(Next::Head(target)) => return Err(StopCause::Head(target)),
            Ok(Next::Refused(e)) => return Err(StopCause::Refused(e)),
            Err(_) => return Err(StopCause::NoMemory),
        };
        if !replies.send(writer) {
            return Err(StopCause::WriteFault);
        }
        read_up_to(input, reader, reads, wanted, replies)?;
    }
}
