//! Replies that are longer than a packet of a network, or than any buffer on the way, are written whole.
ghost use Rattle.std.specs.Prelude.{⊤};

use super::ends::Still;
use counted_io::Counted;
use http::StatusCode;
use http_wire::{Handler, Reply, Request, StreamEnd, head_reply, json_reply, serve_requests};
use std::alloc::{AllocError, Global};
use std::process::Abort;

/// Answers each request with its own body.
#[derive(Drop)]
struct Echo;

fn echoed(alloc: Global, request: &Request) -> Result<Vec<u8>, AllocError> {
    let body = String::from_utf8_lossy(alloc, &request.body)?;
    json_reply(alloc, StatusCode::OK, None, request.close, &body)
}

impl Handler for Echo {
    ghost handles = { λ s at asked reply t. ⊤ };

    ghost handles_head = { λ s target reply t. ⊤ };

    fn handle(&mut self, alloc: Global, _at: i64, request: &Request) -> Reply {
        match echoed(alloc, request) {
            Ok(bytes) => Reply::Made(bytes),
            Err(_) => Reply::NoMemory,
        }
    }

    fn head(&mut self, alloc: Global, _target: &[u8]) -> Reply {
        match head_reply(alloc, None) {
            Ok(bytes) => Reply::Made(bytes),
            Err(_) => Reply::NoMemory,
        }
    }
}

/// A JSON text of so many bytes: a string of `a`.
fn text_of(alloc: Global, length: usize) -> Result<String, AllocError> {
    let mut text = String::from_str(alloc, "\"")?;
    for _ in 2..length {
        text.push('a')?;
    }
    text.push('"')?;
    Ok(text)
}

/// Two requests with this body.
fn requests(alloc: Global, body: &str) -> Result<String, AllocError> {
    let length = body.len();
    format!(in alloc;
        "PUT / HTTP/1.1\r\nContent-Length: {length}\r\n\r\n{body}PUT / HTTP/1.1\r\nContent-Length: {length}\r\n\r\n{body}"
    )
}

/// The replies to them.
fn replies(alloc: Global, body: &str) -> Result<String, AllocError> {
    let length = body.len();
    format!(in alloc;
        "HTTP/1.1 200 OK\r\nContent-Type: application/json\r\nContent-Length: {length}\r\n\r\n{body}HTTP/1.1 200 OK\r\nContent-Type: application/json\r\nContent-Length: {length}\r\n\r\n{body}"
    )
}

fn is_echoed(alloc: Global, input: &str, written: &str) -> bool {
    let mut reader = Counted::new(input.as_bytes());
    let mut writer = Counted::new(Vec::new(alloc));
    let end = serve_requests(alloc, &mut reader, &mut writer, &mut Still(0), &mut Echo);
    end == StreamEnd::Closed && writer.into_inner().as_slice() == written.as_bytes()
}

fn is_long_reply_whole(rt: &(impl AllocGlobal + Abort), length: usize) -> bool {
    let body = text_of(rt.alloc(), length).expect(rt, "memory");
    let input = requests(rt.alloc(), &body).expect(rt, "memory");
    let written = replies(rt.alloc(), &body).expect(rt, "memory");
    is_echoed(rt.alloc(), &input, &written)
}

const LENGTHS: [usize; 4] = [1500, 1501, 16_384, 65_536];

#[test]
fn long_replies_are_whole(rt: HostRuntime) {
    for length in &LENGTHS {
        assert!(rt; is_long_reply_whole(&rt, *length), "{length}");
    }
}
