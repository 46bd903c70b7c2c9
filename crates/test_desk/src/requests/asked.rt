//! Requests as a stream has them.
use http::Method;
use std::process::Abort;
use td_http::Request;

pub(super) fn request(
    rt: &(impl AllocGlobal + Abort),
    method: &str,
    target: &[u8],
    body: &[u8],
) -> Request {
    Request {
        method: Method::from_bytes(rt.alloc(), method.as_bytes()).expect(rt, "a method"),
        target: Vec::from_slice(rt.alloc(), target).expect(rt, "memory"),
        body: Vec::from_slice(rt.alloc(), body).expect(rt, "memory"),
        close: false,
    }
}
