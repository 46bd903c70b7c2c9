//! Serving a stream of requests.
ghost use Rattle.std.specs.Prelude.{◌||◌};
ghost use Rattle.http_wire.specs.Wire.{asked};
ghost use Rattle.http_wire.specs.ClosingReply.{SendsLast, ClosingReply, SendsAndParts};
ghost use Rattle.http_wire.specs.Replies.{waiting};
ghost use Rattle.http_wire.specs.Stream.{Serves};

use crate::clock::Clock;
use crate::input::Input;
use crate::reading::{StopCause, read_request};
use crate::replies::Replies;
use crate::reply::Reply;
use crate::request::Request;
use counted_io::{Counted, write_whole};
use std::alloc::Global;
use std::io::{Read, Write};

/// The most requests of a stream.
const MAX_REQUESTS: u32 = 1000;

/// The most calls of `read` for a stream.
const MAX_READS: u32 = 100_000;

/// How a stream ended.
#[derive(Clone, Copy, Debug, PartialEq, Eq)]
pub enum StreamEnd {
    /// The input ended between requests.
    Closed,
    /// The last request asked to close.
    Asked,
    /// 1,000 requests were answered.
    Served,
    /// The framing of a request was refused and answered, or a HEAD request was.
    Refused,
    /// The input ended inside a request, which got no reply.
    Cut,
    /// A read was needed after 100,000.
    ReadsSpent,
    /// A read failed.
    ReadFault,
    /// A write failed, or took nothing.
    WriteFault,
    /// A fixed reply was sent: memory was missing or the store failed.
    Failed,
}

/// What answers requests. Each implementation says by `handles` and `handles_head` which replies it may give,
/// and what becomes of it.
pub trait Handler {
    ghost use Rattle.std.specs.Prelude.{ℕ, ℤ, List};
    ghost use Rattle.http_wire.specs.Wire.{Asked};
    ghost use Rattle.http_wire.specs.declared.reply.Reply.{Reply};

    // the old state, the moment, the request, the reply, the new state
    ghost handles: { Self → ℤ → Asked → Reply → Self → Type 0 };

    // the old state, the target, the reply, the new state
    ghost handles_head: { Self → List ℕ → Reply → Self → Type 0 };

    /// The reply to a request that came at this moment, in seconds since 1970-01-01T00:00:00Z.
    fn handle(&mut self, alloc: Global, at: i64, request: &Request) -> Reply
        ensures { handles self.old at (asked request.now) result self.new };

    /// The reply to a HEAD request, whose body isn't read.
    fn head(&mut self, alloc: Global, target: &[u8]) -> Reply
        ensures { handles_head self.old target.now result self.new };
}

/// The reply to a request that came whole at this moment. The last one of a stream closes it.
fn reply_to<H: Handler>(
    alloc: Global,
    at: i64,
    handler: &mut H,
    mut request: Request,
    last: bool,
) -> Reply
    ensures { H.handles handler.old at (record (asked request) { close = request.close || last }) result handler.new }
{
    if last {
        request.close = true;
    }
    handler.handle(alloc, at, &request)
}

/// Writes the replies that wait, and answers how the stream ended that ends so with them.
fn last_sent<W: Write>(writer: &mut Counted<W>, replies: &mut Replies, end: StreamEnd) -> StreamEnd
    ensures { SendsLast W.contents writer.old writer.new (waiting replies.old) end result }
{
    if replies.send(writer) {
        end
    } else {
        StreamEnd::WriteFault
    }
}

/// Writes what a stop of the reading asks for, and answers how the stream ended.
fn part_with<W: Write, H: Handler>(
    alloc: Global,
    writer: &mut Counted<W>,
    handler: &mut H,
    stop: StopCause,
) -> StreamEnd
    ensures { ClosingReply W.contents H.handles_head writer.old writer.new handler.old handler.new stop result }
{
    match stop {
        StopCause::Closed => StreamEnd::Closed,
        StopCause::Cut => StreamEnd::Cut,
        StopCause::ReadsSpent => StreamEnd::ReadsSpent,
        StopCause::ReadFault => StreamEnd::ReadFault,
        StopCause::WriteFault => StreamEnd::WriteFault,
        StopCause::NoMemory => {
            if write_whole(writer, Reply::NoMemory.as_bytes()) {
                StreamEnd::Failed
            } else {
                StreamEnd::WriteFault
            }
        }
        StopCause::Refused(e) => {
            if write_whole(writer, e.reply()) {
                StreamEnd::Refused
            } else {
                StreamEnd::WriteFault
            }
        }
        StopCause::Head(target) => {
            let reply = handler.head(alloc, &target);
            if !write_whole(writer, reply.as_bytes()) {
                StreamEnd::WriteFault
            } else if reply.is_made() {
                StreamEnd::Refused
            } else {
                StreamEnd::Failed
            }
        }
    }
}

/// Writes the replies that wait and then what a stop of the reading asks for, and answers how the stream ended.
fn end_stream<W: Write, H: Handler>(
    alloc: Global,
    writer: &mut Counted<W>,
    handler: &mut H,
    replies: &mut Replies,
    stop: StopCause,
) -> StreamEnd
    ensures { SendsAndParts W.contents H.handles_head (writer.old, handler.old) (writer.new, handler.new) (waiting replies.old) stop result }
{
    if replies.send(writer) {
        part_with(alloc, writer, handler, stop)
    } else {
        StreamEnd::WriteFault
    }
}

/// Answers the requests of a stream, one after another, each at the moment that the clock gives once it came
/// whole, until the stream ends. The replies to requests that came by one read are written together, before the
/// next one. At most 1,000 requests are answered, the thousandth as one that asks to close, and at most 100,000
/// reads are made. Requests and replies are HTTP/1.1.
pub fn serve_requests<R: Read, W: Write, C: Clock, H: Handler>(
    alloc: Global,
    reader: &mut Counted<R>,
    writer: &mut Counted<W>,
    clock: &mut C,
    handler: &mut H,
) -> StreamEnd
    ensures { Serves R.remaining W.contents C.ticks H.handles H.handles_head
        (record { reader = reader.old; writer = writer.old; clock = clock.old; handler = handler.old })
        (record { reader = reader.new; writer = writer.new; clock = clock.new; handler = handler.new })
        result }
{
    let mut input = Input::new(alloc);
    let mut replies = Replies::new(alloc);
    let mut reads = MAX_READS;
    for served in 0..MAX_REQUESTS {
        let request = match read_request(
            alloc,
            &mut input,
            reader,
            &mut reads,
            writer,
            &mut replies,
        ) {
            Ok(request) => request,
            Err(stop) => return end_stream(alloc, writer, handler, &mut replies, stop),
        };
        let asks = request.close;
        let at = clock.seconds();
        let reply = reply_to(alloc, at, handler, request, served + 1 == MAX_REQUESTS);
        if !replies.add(writer, reply.as_bytes()) {
            return StreamEnd::WriteFault;
        }
        if !reply.is_made() {
            return last_sent(writer, &mut replies, StreamEnd::Failed);
        }
        if asks {
            return last_sent(writer, &mut replies, StreamEnd::Asked);
        }
    }
    last_sent(writer, &mut replies, StreamEnd::Served)
}
