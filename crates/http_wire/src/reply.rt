//! The bytes of replies.
ghost use Rattle.std.specs.Prelude.{◌≡◌, IfOk, Some, string_bytes};
ghost use Rattle.std.specs.Option.{option_copied};
ghost use Rattle.http_wire.specs.ReplyText.{allow_line, close_line, reply_text, json_head, head_text, error_text, framing_reply, bytes_of, is_made};

use crate::framing::FramingError;
use http::StatusCode;
use std::alloc::{AllocError, Global};
use std::fmt;

const NO_MEMORY: &[u8] =
    b"HTTP/1.1 503 Service Unavailable\r\nContent-Type: application/json\r\nContent-Length: 21\r\nConnection: close\r\n\r\n{\"error\":\"no-memory\"}";

const STORE: &[u8] =
    b"HTTP/1.1 500 Internal Server Error\r\nContent-Type: application/json\r\nContent-Length: 17\r\nConnection: close\r\n\r\n{\"error\":\"store\"}";

const BAD_HEAD: &[u8] =
    b"HTTP/1.1 400 Bad Request\r\nContent-Type: application/json\r\nContent-Length: 20\r\nConnection: close\r\n\r\n{\"error\":\"bad-head\"}";

const HEAD_TOO_LARGE: &[u8] =
    b"HTTP/1.1 431 Request Header Fields Too Large\r\nContent-Type: application/json\r\nContent-Length: 26\r\nConnection: close\r\n\r\n{\"error\":\"head-too-large\"}";

const TRANSFER_ENCODING: &[u8] =
    b"HTTP/1.1 501 Not Implemented\r\nContent-Type: application/json\r\nContent-Length: 29\r\nConnection: close\r\n\r\n{\"error\":\"transfer-encoding\"}";

const BAD_LENGTH: &[u8] =
    b"HTTP/1.1 400 Bad Request\r\nContent-Type: application/json\r\nContent-Length: 22\r\nConnection: close\r\n\r\n{\"error\":\"bad-length\"}";

const BODY_TOO_LARGE: &[u8] =
    b"HTTP/1.1 413 Payload Too Large\r\nContent-Type: application/json\r\nContent-Length: 26\r\nConnection: close\r\n\r\n{\"error\":\"body-too-large\"}";

/// The first lines of a reply with a JSON body of the status 200.
const OK_HEAD: &str = "HTTP/1.1 200 OK\r\nContent-Type: application/json\r\nContent-Length: ";

/// What is written for a request.
#[derive(Drop)]
pub enum Reply {
    /// These bytes.
    Made(Vec<u8>),
    /// A fixed reply: memory was missing, and the request changed nothing.
    NoMemory,
    /// A fixed reply: the store failed. What was asked may stand when the store is opened again, or not.
    Store,
}

impl Reply {
    /// The bytes. Those of a fixed reply take no memory.
    pub fn as_bytes(&self) -> &[u8]
        ensures { result.now ≡ bytes_of self.now }
    {
        match self {
            Reply::Made(bytes) => bytes,
            Reply::NoMemory => NO_MEMORY,
            Reply::Store => STORE,
        }
    }

    /// Whether it isn't a fixed one.
    pub fn is_made(&self) -> bool
        ensures { result ≡ is_made self.now }
    {
        matches!(self, Reply::Made(_))
    }
}

impl FramingError {
    /// The whole reply, after which the stream stops. It takes no memory.
    pub fn reply(self) -> &'static [u8]
        ensures { result.now ≡ framing_reply self }
    {
        match self {
            FramingError::BadHead => BAD_HEAD,
            FramingError::HeadTooLarge => HEAD_TOO_LARGE,
            FramingError::TransferEncoding => TRANSFER_ENCODING,
            FramingError::BadLength => BAD_LENGTH,
            FramingError::BodyTooLarge => BODY_TOO_LARGE,
        }
    }
}

/// The body that names an error.
pub fn error_body(alloc: Global, name: &str) -> Result<String, AllocError>
    ensures { IfOk result (λ s. string_bytes s ≡ error_text name.now) }
{
    format!(in alloc; "{{\"error\":\"{name}\"}}")
}

/// The bytes for which memory is taken at once for a head. A longer head takes more as it is written.
const HEAD_CAPACITY: usize = 256;

/// The line of the methods that a 405 tells, if any.
#[derive(Drop)]
struct AllowLine<'a>(Option<&'a str>);

impl fmt::Display for AllowLine<'_> {
    ghost output = { λ line. Some (allow_line (option_copied line.0)) };

    fn fmt<W: fmt::Write>(&self, f: &mut fmt::Formatter<W>) -> fmt::Result {
        match self.0 {
            None => Ok(()),
            Some(methods) => write!(f, "Allow: {methods}\r\n"),
        }
    }
}

/// The line that tells that the stream stops, if it does.
#[derive(Drop)]
struct CloseLine(bool);

impl fmt::Display for CloseLine {
    ghost output = { λ line. Some (close_line line.0) };

    fn fmt<W: fmt::Write>(&self, f: &mut fmt::Formatter<W>) -> fmt::Result {
        if self.0 {
            f.write_str("Connection: close\r\n")
        } else {
            Ok(())
        }
    }
}

/// The first lines of a reply with a JSON body, up to the body's length.
#[derive(Drop)]
struct JsonHead(StatusCode);

impl fmt::Display for JsonHead {
    ghost output = { λ head. Some (json_head head.0) };

    fn fmt<W: fmt::Write>(&self, f: &mut fmt::Formatter<W>) -> fmt::Result {
        // most replies have this status, and nothing of theirs is put together anew
        if self.0 == StatusCode::OK {
            return f.write_str(OK_HEAD);
        }
        write!(
            f,
            "HTTP/1.1 {}\r\nContent-Type: application/json\r\nContent-Length: ",
            self.0
        )
    }
}

/// A reply with a JSON body. `allow` has the methods that a 405 tells, as `GET, PUT`; `close` says that the
/// stream stops.
pub fn json_reply(
    alloc: Global,
    status: StatusCode,
    allow: Option<&str>,
    close: bool,
    body: &str,
) -> Result<Vec<u8>, AllocError>
    ensures { IfOk result (λ v. v.items ≡ reply_text status (option_copied allow.entry) close body.now) }
{
    let mut text = String::with_capacity(alloc, body.len().saturating_add(HEAD_CAPACITY))?;
    write!(
        text,
        "{}{}\r\n{}{}\r\n{body}",
        JsonHead(status),
        body.len(),
        AllowLine(allow),
        CloseLine(close)
    )?;
    Ok(text.into_bytes())
}

/// The reply to a HEAD request: 405 with neither a length nor a body. `allow` has the methods of its path, if
/// that is known.
pub fn head_reply(alloc: Global, allow: Option<&str>) -> Result<Vec<u8>, AllocError>
    ensures { IfOk result (λ v. v.items ≡ head_text (option_copied allow.entry)) }
{
    let mut text = String::with_capacity(alloc, HEAD_CAPACITY)?;
    write!(
        text,
        "HTTP/1.1 {}\r\n{}{}\r\n",
        StatusCode::METHOD_NOT_ALLOWED,
        AllowLine(allow),
        CloseLine(true)
    )?;
    Ok(text.into_bytes())
}
