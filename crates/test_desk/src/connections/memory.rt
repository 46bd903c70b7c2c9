//! Connections in memory.
use super::{Connection, IS_CUT, REGISTERS, Still, THREE, assert_told, new_service};
use std::alloc::Global;
use std::io;
use std::io::ErrorKind;
use std::process::Abort;
use td_desk::PlainDesk;
use td_http::{
    Connections, acknowledged_connections_are_kept, agreeing_connections_tell_the_same,
    serve_connections,
};
use td_split_jobs::serve_share;

/// Gives these connections and then fails, and keeps what was written to each.
#[derive(Drop)]
struct Table<'a> {
    alloc: Global,
    left: &'a [Connection],
    told: Vec<Vec<u8>>,
}

impl<'a> Connections for Table<'a> {
    type Reader = &'a [u8];

    type Writer = Vec<u8>;

    ghost gives = { λ _ _ _ _. Unit {0} };

    ghost refuses = { λ _ _ _. Unit {0} };

    ghost takes = { λ _ _ _ _. Unit {0} };

    fn accept(&mut self) -> io::Result<(&'a [u8], Vec<u8>)> {
        match self.left {
            [(sent, _), rest @ ..] => {
                self.left = rest;
                Ok((sent, Vec::new(self.alloc)))
            }
            [] => Err(ErrorKind::ConnectionAborted.into()),
        }
    }

    fn close(&mut self, _reader: &'a [u8], writer: Vec<u8>) {
        let _kept = self.told.push(writer);
    }
}

/// What so many connections left, asked for of those three at a new desk: how it ended, and what they were told.
fn serve_of_three(
    rt: &(impl AllocGlobal + Abort),
    count: u32,
) -> (Option<ErrorKind>, Vec<Vec<u8>>) {
    let mut table = Table {
        alloc: rt.alloc(),
        left: &THREE,
        told: Vec::new(rt.alloc()),
    };
    let fault = serve_table(rt, &mut table, count);
    (fault, table.told)
}

/// Serves so many connections of the table, and gives the kind of the fault that ends it.
fn serve_table(
    rt: &(impl AllocGlobal + Abort),
    table: &mut Table<'_>,
    count: u32,
) -> Option<ErrorKind> {
    let mut service = new_service(rt);
    let served = serve_connections(rt.alloc(), table, count, &mut Still, &mut service);
    served.err().map(|error| error.kind())
}

/// The first connections were told what is due to them, and no other was served.
fn assert_served(rt: &impl Abort, told: &[Vec<u8>], count: usize) {
    assert!(rt; told.len() == count);
    for (told, (_, due)) in told.iter().zip(&THREE) {
        assert_told(rt, told, due);
    }
}

/// Where so many connections are asked for, it ends so, and so many are served.
fn assert_ends(
    rt: &(impl AllocGlobal + Abort),
    asked: u32,
    fault: Option<ErrorKind>,
    served: usize,
) {
    let (ended, told) = serve_of_three(rt, asked);
    assert!(rt; ended == fault);
    assert_served(rt, &told, served);
}

#[test]
fn a_connection_that_is_cut_stops_no_other(rt: HostRuntime) {
    assert_ends(&rt, 3, None, 3);
}

#[test]
fn no_more_connections_are_served_than_were_asked_for(rt: HostRuntime) {
    assert_ends(&rt, 2, None, 2);
}

#[test]
fn a_failed_accept_is_told_after_the_connections_before_it(rt: HostRuntime) {
    assert_ends(&rt, 5, Some(ErrorKind::ConnectionAborted), 3);
}

/// What is asked of the desk of holder 000001, and what is told: what one desk for all tells. Then of the desk of 000002.
const OF_TWO_DESKS: [[Connection; 2]; 2] = [
    [
        REGISTERS,
        (
            b"GET /holders/000001 HTTP/1.1\r\n\r\n",
            b"HTTP/1.1 200 OK\r\nContent-Type: application/json\r\nContent-Length: 67\r\n\r\n{\"eori\":\"CH1234567\",\"guarantees\":0,\"holder\":\"000001\",\"movements\":0}",
        ),
    ],
    [
        IS_CUT,
        (
            b"GET /holders/000002 HTTP/1.1\r\n\r\n",
            b"HTTP/1.1 200 OK\r\nContent-Type: application/json\r\nContent-Length: 67\r\n\r\n{\"eori\":\"DE7654321\",\"guarantees\":0,\"holder\":\"000002\",\"movements\":0}",
        ),
    ],
];

/// A new desk serves these connections, and tells what is due to each.
fn assert_share(rt: &(impl AllocGlobal + Abort), share: &[Connection]) {
    let mut table = Table {
        alloc: rt.alloc(),
        left: share,
        told: Vec::new(rt.alloc()),
    };
    let mut service = new_service(rt);
    let served = serve_share(rt.alloc(), &mut table, 2, &mut Still, &mut service);
    assert!(rt; served.is_ok() && table.told.len() == 2);
    for (told, (_, due)) in table.told.iter().zip(share) {
        assert_told(rt, told, due);
    }
}

#[test]
fn two_desks_tell_what_one_desk_tells(rt: HostRuntime) {
    for share in &OF_TWO_DESKS {
        assert_share(&rt, share);
    }
}

// There is nothing to run: the laws hold at these types.
#[test]
fn the_laws_hold_at_concrete_types() {
    acknowledged_connections_are_kept::<Table<'_>, Still, PlainDesk>();
    agreeing_connections_tell_the_same::<
        Table<'_>,
        Still,
        PlainDesk,
        Table<'_>,
        Still,
        PlainDesk,
    >();
}
