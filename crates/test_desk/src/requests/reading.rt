//! Faults of requests that no stream sends, and a route by itself. (Requests that are read, and others that are not, stand
//! in the transcripts.)
use super::asked::request;
use crate::examples::{MRN, holder, mrn};
use http::Method;
use std::process::Abort;
use td_base::RefFault;
use td_http::{Route, WebFault, read_command, route};

/// Targets that the framing of a stream lets nobody send, and their faults.
const NOT_SENT: [(&[u8], WebFault); 4] = [
    (b"", WebFault::NoRoute),
    (b"/holders/00000\xff", WebFault::NoRoute),
    (b"/holders/000001?\xff", WebFault::NoRoute),
    (
        b"/holders/000001/guarantees/25CH000001000001 ",
        WebFault::BadGrn(RefFault::Form),
    ),
];

// Whether this is why a view can't be read.
fn is_fault(rt: &(impl AllocGlobal + Abort), target: &[u8], fault: WebFault) -> bool {
    let request = request(rt, "GET", target, b"");
    read_command(rt.alloc(), &request).err() == Some(fault)
}

#[test]
fn tells_what_no_stream_sends(rt: HostRuntime) {
    for (target, fault) in &NOT_SENT {
        assert!(rt; is_fault(&rt, target, *fault));
    }
}

#[test]
fn finds_a_route(rt: HostRuntime) {
    let (holder, mrn) = (holder(&rt, 1), mrn(&rt, MRN));
    let method = Method::from_bytes(rt.alloc(), b"GET").expect(&rt, "a method");
    let path = b"/holders/000001/movements/25CH000001000001J8";
    let found = route(rt.alloc(), &method, path);
    assert!(rt; found == Ok(Route::SeeMovement { holder, mrn }));
}
