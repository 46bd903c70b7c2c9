//! The next request at the front of the bytes that were read.
ghost use Rattle.std.specs.Prelude.{◌≡◌, ◌≤◌, length, Ok, None, IfOk, IfSome, OnErr};
ghost use Rattle.httparse.specs.Grammar.{IsToken};
ghost use Rattle.http_wire.specs.Wire.{BeginsServed, IsBadHead, IsNext, asked};

use crate::framing::{FramingError, asks_close, read_body_length};
use crate::request::Request;
use http::Method;
use http::method::MethodError;
use httparse::Status;
use httparse::spans::{EMPTY_HEADER_SPAN, HeaderSpan, parse_request};
use std::alloc::{AllocError, Global};

/// The most bytes of a head.
pub const MAX_HEAD: usize = 8192;

/// The most fields of a head.
const MAX_FIELDS: usize = 64;

/// The fields that most heads have at most. Room for these is made for each request, and for more where there
/// are more.
const FEW_FIELDS: usize = 8;

/// What stands at the front of some bytes.
#[derive(Drop)]
pub enum Next {
    /// A request, and its length in bytes.
    Whole(Request, usize),
    /// The head of a HEAD request for this target.
    Head(Vec<u8>),
    /// Nothing that is served.
    Refused(FramingError),
    /// No whole request, and none before there are so many bytes.
    More(usize),
}

/// A request of these parts.
fn copy_request(
    alloc: Global,
    method: &[u8],
    target: &[u8],
    body: &[u8],
    close: bool,
) -> Result<Request, AllocError>
    requires token { IsToken method.now }
    ensures { IfOk result (λ r.
        asked r ≡ record { method = method.now; target = target.now; body = body.now; close = close }) }
{
    let method = match Method::from_bytes(alloc, method) {
        Ok(method) => method,
        Err(MethodError::OutOfMemory) => return Err(AllocError),
        Err(MethodError::Invalid) => unreachable!(),
    };
    let target = Vec::from_slice(alloc, target)?;
    let body = Vec::from_slice(alloc, body)?;
    Ok(Request {
        method,
        target,
        body,
        close,
    })
}

// What stands at the front of the bytes, by a parser that has room for so many fields. `None`: it refuses the
// head, which is a bad one where the room is for 64. A request is copied, and nothing else takes memory.
fn next_by(
    alloc: Global,
    buf: &[u8],
    headers: &mut [HeaderSpan],
) -> Result<Option<Next>, AllocError>
    requires { length headers.old ≤ 64 }
    ensures next { IfOk result (λ next. IfSome next (IsNext buf.now)) }
    ensures none { length headers.old ≡ 64 → result ≡ Ok None → IsBadHead buf.now }
    ensures memory { OnErr result (BeginsServed buf.now) }
{
    let window = &buf[..buf.len().min(MAX_HEAD)];
    let head = match parse_request(window, headers) {
        Err(_) => return Ok(None),
        Ok(Status::Partial) => {
            return Ok(Some(if window.len() < MAX_HEAD {
                Next::More(window.len() + 1)
            } else {
                Next::Refused(FramingError::HeadTooLarge)
            }));
        }
        Ok(Status::Complete(head)) => head,
    };
    let fields = &headers[..head.headers];
    let len = match read_body_length(window, fields) {
        Ok(len) => len,
        Err(e) => return Ok(Some(Next::Refused(e))),
    };
    if head.method.of(window) == b"HEAD".as_slice() {
        let target = Vec::from_slice(alloc, head.path.of(window))?;
        return Ok(Some(Next::Head(target)));
    }
    if buf.len() - head.len < len {
        return Ok(Some(Next::More(head.len + len)));
    }
    let request = copy_request(
        alloc,
        head.method.of(window),
        head.path.of(window),
        &buf[head.len..head.len + len],
        asks_close(window, fields, head.version),
    )?;
    Ok(Some(Next::Whole(request, head.len + len)))
}

// The same for a head of any number of fields. It stands apart, since its room is large and few heads need it.
#[cold]
#[inline(never)]
fn next_of_many_fields(alloc: Global, buf: &[u8]) -> Result<Next, AllocError>
    ensures next { IfOk result (IsNext buf.now) }
    ensures memory { OnErr result (BeginsServed buf.now) }
{
    let mut headers = [EMPTY_HEADER_SPAN; MAX_FIELDS];
    match next_by(alloc, buf, &mut headers)? {
        Some(next) => Ok(next),
        None => Ok(Next::Refused(FramingError::BadHead)),
    }
}

/// What stands at the front of the bytes, of which a head takes at most 8,192. It fails where memory is
/// missing for the parts of a request that is served; a refusal takes none.
pub fn next_request(alloc: Global, buf: &[u8]) -> Result<Next, AllocError>
    ensures next { IfOk result (IsNext buf.now) }
    ensures memory { OnErr result (BeginsServed buf.now) }
{
    let mut headers = [EMPTY_HEADER_SPAN; FEW_FIELDS];
    match next_by(alloc, buf, &mut headers)? {
        Some(next) => Ok(next),
        None => next_of_many_fields(alloc, buf),
    }
}
