//! Replies to requests that came by one read go out together: how many writes are made, and what a writer that
//! takes no more leaves.
ghost use Rattle.std.specs.Prelude.{⊤};

use super::ends::{Drip, OK, Same, Still};
use counted_io::Counted;
use http::StatusCode;
use http_wire::{Handler, Reply, Request, StreamEnd, json_reply, serve_requests};
use std::alloc::{AllocError, Global};
use std::io;
use std::io::{ErrorKind, Read, Write};
use std::process::Abort;

const REQUEST: &[u8] = b"GET / HTTP/1.1\r\n\r\n";

/// A text, over and over.
fn repeated(rt: &(impl AllocGlobal + Abort), text: &[u8], times: u32) -> Vec<u8> {
    let mut all = Vec::new(rt.alloc());
    for _ in 0..times {
        all.extend_from_slice(text).expect(rt, "memory");
    }
    all
}

/// What is written for an input, by how many writes, and how the stream ends.
fn serve<R: Read>(alloc: Global, reader: R) -> (Vec<u8>, u64, StreamEnd)
where
    R: Drop,
{
    let mut reader = Counted::new(reader);
    let mut writer = Counted::new(Vec::new(alloc));
    let end = serve_requests(alloc, &mut reader, &mut writer, &mut Still(0), &mut Same);
    let writes = writer.calls();
    (writer.into_inner(), writes, end)
}

/// Whether this many requests that come by one read get their replies by so many writes.
fn are_written(rt: &(impl AllocGlobal + Abort), requests: u32, writes: u64) -> bool {
    let input = repeated(rt, REQUEST, requests);
    let (written, calls, end) = serve(rt.alloc(), input.as_slice());
    written == repeated(rt, OK, requests) && calls == writes && end == StreamEnd::Closed
}

/// Numbers of requests.
const BY_ONE_READ: [u32; 3] = [1, 20, 200];

#[test]
fn one_read_has_one_write(rt: HostRuntime) {
    for requests in &BY_ONE_READ {
        assert!(rt; are_written(&rt, *requests, 1), "{requests}");
    }
}

/// Whether requests that come byte by byte get a write each.
fn are_written_each(rt: &(impl AllocGlobal + Abort), requests: u32) -> bool {
    let input = repeated(rt, REQUEST, requests);
    let (written, calls, _) = serve(rt.alloc(), Drip { left: &input });
    written == repeated(rt, OK, requests) && calls == u64::from(requests)
}

#[test]
fn each_read_has_its_write(rt: HostRuntime) {
    assert!(rt; are_written_each(&rt, 20));
}

/// Answers each request with a reply of 1,000 bytes, and counts them.
#[derive(Drop)]
struct Long {
    handled: u32,
}

const LONG_HEAD: &[u8] =
    b"HTTP/1.1 200 OK\r\nContent-Type: application/json\r\nContent-Length: 928\r\n\r\n";

const LONG_BODY: [u8; 928] = [b'1'; 928];

fn long_reply(alloc: Global, close: bool) -> Result<Vec<u8>, AllocError> {
    let body = String::from_utf8_lossy(alloc, &LONG_BODY)?;
    json_reply(alloc, StatusCode::OK, None, close, &body)
}

impl Handler for Long {
    ghost handles = { λ s at asked reply t. ⊤ };

    ghost handles_head = { λ s target reply t. ⊤ };

    fn handle(&mut self, alloc: Global, _at: i64, request: &Request) -> Reply {
        self.handled = self.handled.saturating_add(1);
        match long_reply(alloc, request.close) {
            Ok(bytes) => Reply::Made(bytes),
            Err(_) => Reply::NoMemory,
        }
    }

    fn head(&mut self, _alloc: Global, _target: &[u8]) -> Reply {
        Reply::NoMemory
    }
}

/// Takes so many bytes, each write whole while it can, and fails then.
#[derive(Drop)]
struct Takes {
    left: usize,
    taken: Vec<u8>,
}

impl Write for Takes {
    fn write(&mut self, buf: &[u8]) -> io::Result<usize> {
        let n = buf.len().min(self.left);
        if n == 0 && !buf.is_empty() {
            return Err(ErrorKind::Other.into());
        }
        if self.taken.extend_from_slice(&buf[..n]).is_err() {
            return Err(ErrorKind::OutOfMemory.into());
        }
        self.left -= n;
        Ok(n)
    }

    fn flush(&mut self) -> io::Result<()> {
        Ok(())
    }
}

/// What became of requests that came by one read, over a writer that takes so many bytes: bytes and writes taken,
/// requests handled, the end.
type Served = (usize, u64, u32, StreamEnd);

/// The replies of 1,000 bytes to so many requests.
fn long_replies(rt: &(impl AllocGlobal + Abort), requests: u32) -> Vec<u8> {
    let mut one = LONG_HEAD.to_vec(rt.alloc()).expect(rt, "memory");
    one.extend_from_slice(&LONG_BODY).expect(rt, "memory");
    repeated(rt, &one, requests)
}

/// What becomes of them, and what was written.
fn serve_long(alloc: Global, input: &[u8], left: usize) -> (Served, Vec<u8>) {
    let mut reader = Counted::new(input);
    let mut handler = Long { handled: 0 };
    let mut writer = Counted::new(Takes {
        left,
        taken: Vec::new(alloc),
    });
    let end = serve_requests(alloc, &mut reader, &mut writer, &mut Still(0), &mut handler);
    let writes = writer.calls();
    let taken = writer.into_inner().taken;
    ((taken.len(), writes, handler.handled, end), taken)
}

/// Whether so becomes of them, and what was written begins the replies in their order.
fn is_served_long(
    rt: &(impl AllocGlobal + Abort),
    requests: u32,
    left: usize,
    due: Served,
) -> bool {
    let input = repeated(rt, REQUEST, requests);
    let (served, written) = serve_long(rt.alloc(), &input, left);
    served == due && long_replies(rt, requests).starts_with(&written)
}

/// Numbers of requests and of bytes that the writer takes; bytes and writes taken, requests handled, the end.
/// There is room for sixteen replies.
const LONG_ROWS: [(u32, usize, usize, u64, u32, StreamEnd); 6] = [
    (16, 100_000, 16_000, 1, 16, StreamEnd::Closed),
    (17, 100_000, 17_000, 2, 17, StreamEnd::Closed),
    (20, 100_000, 20_000, 3, 20, StreamEnd::Closed),
    (10, 2_500, 2_500, 2, 10, StreamEnd::WriteFault),
    (20, 2_500, 2_500, 2, 17, StreamEnd::WriteFault),
    (20, 16_500, 16_500, 3, 17, StreamEnd::WriteFault),
];

#[test]
fn replies_beyond_the_room_are_written(rt: HostRuntime) {
    for (requests, left, taken, writes, handled, end) in &LONG_ROWS {
        let due = (*taken, *writes, *handled, *end);
        assert!(rt;
            is_served_long(&rt, *requests, *left, due),
            "{requests} {left}"
        );
    }
}
