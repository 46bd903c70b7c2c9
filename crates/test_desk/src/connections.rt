//! Connections in memory, and over sockets of this machine. Expected bytes are those of the desk's formats,
//! written out.
mod memory;
mod sockets;

use crate::examples::country;
use std::process::Abort;
use td_desk::PlainDesk;
use td_http::{Clock, Service};

/// What a connection's peer sends, and what it is told.
type Connection = (&'static [u8], &'static [u8]);

/// Registers holder 000001, and shows it; the last request asks to close.
const REGISTERS: Connection = (
    b"PUT /office/holders/000001 HTTP/1.1\r\nContent-Length: 20\r\n\r\n{\"eori\":\"CH1234567\"}GET /holders/000001 HTTP/1.1\r\nConnection: close\r\n\r\n",
    b"HTTP/1.1 200 OK\r\nContent-Type: application/json\r\nContent-Length: 67\r\n\r\n{\"eori\":\"CH1234567\",\"guarantees\":0,\"holder\":\"000001\",\"movements\":0}HTTP/1.1 200 OK\r\nContent-Type: application/json\r\nContent-Length: 67\r\nConnection: close\r\n\r\n{\"eori\":\"CH1234567\",\"guarantees\":0,\"holder\":\"000001\",\"movements\":0}",
);

/// Registers holder 000002, and is cut inside its next request.
const IS_CUT: Connection = (
    b"PUT /office/holders/000002 HTTP/1.1\r\nContent-Length: 20\r\n\r\n{\"eori\":\"DE7654321\"}GET /holders/00",
    b"HTTP/1.1 200 OK\r\nContent-Type: application/json\r\nContent-Length: 67\r\n\r\n{\"eori\":\"DE7654321\",\"guarantees\":0,\"holder\":\"000002\",\"movements\":0}",
);

/// Shows both holders.
const SEES: Connection = (
    b"GET /holders/000001 HTTP/1.1\r\n\r\nGET /holders/000002 HTTP/1.1\r\n\r\n",
    b"HTTP/1.1 200 OK\r\nContent-Type: application/json\r\nContent-Length: 67\r\n\r\n{\"eori\":\"CH1234567\",\"guarantees\":0,\"holder\":\"000001\",\"movements\":0}HTTP/1.1 200 OK\r\nContent-Type: application/json\r\nContent-Length: 67\r\n\r\n{\"eori\":\"DE7654321\",\"guarantees\":0,\"holder\":\"000002\",\"movements\":0}",
);

/// The middle one of them is cut, and the last one is told what the first two have done.
const THREE: [Connection; 3] = [REGISTERS, IS_CUT, SEES];

/// A clock that stands still.
#[derive(Clone, Copy)]
struct Still;

impl Clock for Still {
    ghost ticks = { λ _ _ _. Unit {0} };

    fn seconds(&mut self) -> i64 {
        1_740_819_600
    }
}

/// A service of a new desk.
fn new_service(rt: &(impl AllocGlobal + Abort)) -> Service<PlainDesk> {
    Service::new(PlainDesk::new(rt.alloc(), country(rt)).expect(rt, "memory"))
}

fn text_of(bytes: &[u8]) -> &str {
    str::from_utf8(bytes).unwrap_or("what is no text")
}

/// These bytes were told, as text.
fn assert_told(rt: &impl Abort, told: &[u8], due: &[u8]) {
    assert_eq!(rt; text_of(told), text_of(due));
}
