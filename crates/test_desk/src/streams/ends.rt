//! The public calls at concrete types, with ample memory. The expected bytes are those of the wire format.
ghost use Rattle.std.specs.Prelude.{◌≡◌, ⊤, drop, Some};

use counted_io::Counted;
use http::StatusCode;
use http_wire::{
    Clock, FramingError, Handler, Next, Reply, Request, StreamEnd, error_body, head_reply,
    json_reply, next_request, one_reading, serve_requests,
};
use std::alloc::{AllocError, Global};
use std::io;
use std::io::{ErrorKind, Read};
use std::process::Abort;

/// A clock that stands still.
#[derive(Drop)]
pub(super) struct Still(pub(super) i64);

impl Clock for Still {
    ghost ticks = { λ s at t. (at ≡ s.0) × (t ≡ s) };

    fn seconds(&mut self) -> i64 {
        self.0
    }
}

/// Answers every request alike.
#[derive(Drop)]
pub(super) struct Same;

fn made(bytes: Result<Vec<u8>, AllocError>) -> Reply {
    match bytes {
        Ok(bytes) => Reply::Made(bytes),
        Err(_) => Reply::NoMemory,
    }
}

impl Handler for Same {
    ghost handles = { λ s at asked reply t. ⊤ };

    ghost handles_head = { λ s target reply t. ⊤ };

    fn handle(&mut self, alloc: Global, _at: i64, request: &Request) -> Reply {
        made(json_reply(alloc, StatusCode::OK, None, request.close, "{}"))
    }

    fn head(&mut self, alloc: Global, _target: &[u8]) -> Reply {
        made(head_reply(alloc, Some("GET")))
    }
}

/// Gives one byte a read, and fails at the end.
#[derive(Drop)]
pub(super) struct Drip<'a> {
    pub(super) left: &'a [u8],
}

impl Read for Drip<'_> {
    fn read(&mut self, buf: &mut [u8]) -> io::Result<usize> {
        if let [first, rest @ ..] = self.left {
            if buf.is_empty() {
                return Ok(0);
            }
            buf[0] = *first;
            self.left = rest;
            return Ok(1);
        }
        Err(ErrorKind::Other.into())
    }
}

pub(super) const OK: &[u8] =
    b"HTTP/1.1 200 OK\r\nContent-Type: application/json\r\nContent-Length: 2\r\n\r\n{}";

const OK_CLOSE: &[u8] =
    b"HTTP/1.1 200 OK\r\nContent-Type: application/json\r\nContent-Length: 2\r\nConnection: close\r\n\r\n{}";

/// Inputs, what is written for them, and how the stream ends.
const ROWS: [(&[u8], &[u8], StreamEnd); 14] = [
    (b"", b"", StreamEnd::Closed),
    (
        b"PUT /a HTTP/1.1\r\nContent-Length: 2\r\n\r\nhi",
        OK,
        StreamEnd::Closed,
    ),
    (
        b"PUT /a HTTP/1.1\r\ncontent-length: 0002\r\n\r\nh",
        b"",
        StreamEnd::Cut,
    ),
    (
        b"GET / HTTP/1.0\r\nConnection: keep-alive\r\n\r\nGET",
        OK_CLOSE,
        StreamEnd::Asked,
    ),
    (
        b"GET / HTTP/1.1\r\nConnection: keep-alive\r\nCONNECTION: a ,\tClose\r\n\r\n",
        OK_CLOSE,
        StreamEnd::Asked,
    ),
    (
        b"GET /\r\n\r\n",
        b"HTTP/1.1 400 Bad Request\r\nContent-Type: application/json\r\nContent-Length: 20\r\nConnection: close\r\n\r\n{\"error\":\"bad-head\"}",
        StreamEnd::Refused,
    ),
    (
        b"PUT / HTTP/1.1\r\nContent-Length: +5\r\nTransfer-encoding: chunked\r\n\r\n",
        b"HTTP/1.1 501 Not Implemented\r\nContent-Type: application/json\r\nContent-Length: 29\r\nConnection: close\r\n\r\n{\"error\":\"transfer-encoding\"}",
        StreamEnd::Refused,
    ),
    (
        b"PUT / HTTP/1.1\r\nContent-Length: +5\r\n\r\n",
        b"HTTP/1.1 400 Bad Request\r\nContent-Type: application/json\r\nContent-Length: 22\r\nConnection: close\r\n\r\n{\"error\":\"bad-length\"}",
        StreamEnd::Refused,
    ),
    (
        b"PUT / HTTP/1.1\r\nContent-Length: 99999\r\nContent-Length: 99999\r\n\r\n",
        b"HTTP/1.1 400 Bad Request\r\nContent-Type: application/json\r\nContent-Length: 22\r\nConnection: close\r\n\r\n{\"error\":\"bad-length\"}",
        StreamEnd::Refused,
    ),
    (
        b"PUT / HTTP/1.1\r\nContent-Length: 65537\r\n\r\n",
        b"HTTP/1.1 413 Payload Too Large\r\nContent-Type: application/json\r\nContent-Length: 26\r\nConnection: close\r\n\r\n{\"error\":\"body-too-large\"}",
        StreamEnd::Refused,
    ),
    (
        b"PUT / HTTP/1.1\r\nContent-Length: 99999999999999999999999\r\n\r\n",
        b"HTTP/1.1 413 Payload Too Large\r\nContent-Type: application/json\r\nContent-Length: 26\r\nConnection: close\r\n\r\n{\"error\":\"body-too-large\"}",
        StreamEnd::Refused,
    ),
    (
        b"PUT / HTTP/1.1\r\nContent-Length: 65536\r\n\r\n",
        b"",
        StreamEnd::Cut,
    ),
    (
        b"HEAD /a HTTP/1.1\r\nContent-Length: 3\r\n\r\nGET",
        b"HTTP/1.1 405 Method Not Allowed\r\nAllow: GET\r\nConnection: close\r\n\r\n",
        StreamEnd::Refused,
    ),
    (
        b"GET / HTTP/1.1\r\n\r\nHEAD / HTTP/1.1\r\nContent-Length: \r\n\r\n",
        b"HTTP/1.1 200 OK\r\nContent-Type: application/json\r\nContent-Length: 2\r\n\r\n{}HTTP/1.1 400 Bad Request\r\nContent-Type: application/json\r\nContent-Length: 22\r\nConnection: close\r\n\r\n{\"error\":\"bad-length\"}",
        StreamEnd::Refused,
    ),
];

/// What is written for an input, and how the stream ends.
fn serve(alloc: Global, input: &[u8]) -> (Vec<u8>, StreamEnd) {
    let mut reader = Counted::new(input);
    let mut writer = Counted::new(Vec::new(alloc));
    let end = serve_requests(alloc, &mut reader, &mut writer, &mut Still(0), &mut Same);
    (writer.into_inner(), end)
}

/// Whether this is written for an input, and the stream ends so.
fn is_served(alloc: Global, input: &[u8], written: &[u8], end: StreamEnd) -> bool {
    let (got, how) = serve(alloc, input);
    got.as_slice() == written && how == end
}

#[test]
fn streams_are_served(rt: HostRuntime) {
    for (input, written, end) in &ROWS {
        assert!(rt; is_served(rt.alloc(), input, written, *end));
    }
}

/// The same for an input that comes byte by byte and then fails, and the number of reads.
fn serve_drip(alloc: Global, left: &[u8]) -> (Vec<u8>, StreamEnd, u64) {
    let mut reader = Counted::new(Drip { left });
    let mut writer = Counted::new(Vec::new(alloc));
    let end = serve_requests(alloc, &mut reader, &mut writer, &mut Still(0), &mut Same);
    (writer.into_inner(), end, reader.calls())
}

#[test]
fn bytes_come_one_by_one(rt: HostRuntime) {
    let input = b"PUT /a HTTP/1.1\r\nContent-Length: 2\r\n\r\nhiGET / HT";
    let (written, end, reads) = serve_drip(rt.alloc(), input);
    assert!(rt; written.as_slice() == OK && end == StreamEnd::ReadFault && reads == 49);
}

const NO_METHOD: &[u8] =
    b"HTTP/1.1 405 Method Not Allowed\r\nContent-Type: application/json\r\nContent-Length: 21\r\nAllow: GET, PUT\r\nConnection: close\r\n\r\n{\"error\":\"no-method\"}";

const HEAD_ALONE: &[u8] = b"HTTP/1.1 405 Method Not Allowed\r\nConnection: close\r\n\r\n";

const NO_MEMORY: &[u8] =
    b"HTTP/1.1 503 Service Unavailable\r\nContent-Type: application/json\r\nContent-Length: 21\r\nConnection: close\r\n\r\n{\"error\":\"no-memory\"}";

const STORE: &[u8] =
    b"HTTP/1.1 500 Internal Server Error\r\nContent-Type: application/json\r\nContent-Length: 17\r\nConnection: close\r\n\r\n{\"error\":\"store\"}";

const HEAD_TOO_LARGE: &[u8] =
    b"HTTP/1.1 431 Request Header Fields Too Large\r\nContent-Type: application/json\r\nContent-Length: 26\r\nConnection: close\r\n\r\n{\"error\":\"head-too-large\"}";

/// The reply that tells the methods of a path and closes the stream.
fn no_method(rt: &(impl AllocGlobal + Abort)) -> Vec<u8> {
    let body = error_body(rt.alloc(), "no-method").expect(rt, "memory");
    let reply = json_reply(
        rt.alloc(),
        StatusCode::METHOD_NOT_ALLOWED,
        Some("GET, PUT"),
        true,
        &body,
    );
    reply.expect(rt, "memory")
}

#[test]
fn replies_are_made(rt: HostRuntime) {
    assert!(rt; no_method(&rt).as_slice() == NO_METHOD);
    let head = head_reply(rt.alloc(), None).expect(&rt, "memory");
    assert!(rt; head.as_slice() == HEAD_ALONE);
}

#[test]
fn fixed_replies_are_told(rt: HostRuntime) {
    assert!(rt; Reply::NoMemory.as_bytes() == NO_MEMORY);
    assert!(rt; Reply::Store.as_bytes() == STORE);
    assert!(rt; FramingError::HeadTooLarge.reply() == HEAD_TOO_LARGE);
}

/// Whether the first of these requests is not whole, and has so many bytes.
fn asks_for_more(alloc: Global, input: &[u8], bytes: usize) -> bool {
    match next_request(alloc, input) {
        Ok(Next::More(wanted)) => wanted == bytes,
        _ => false,
    }
}

#[test]
fn half_a_request_asks_for_more(rt: HostRuntime) {
    let input = b"PUT / HTTP/1.1\r\nContent-Length: 9\r\n\r\n1";
    assert!(rt; asks_for_more(rt.alloc(), input, 46));
    one_reading();
}
