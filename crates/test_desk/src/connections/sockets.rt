//! Connections over sockets of this machine. Each peer has written all before the first is served, and reads only once
//! the last one is.
use super::{Connection, IS_CUT, REGISTERS, Still, THREE, assert_told, new_service, text_of};
use std::io;
use std::io::{Read, Write};
use std::net::{Ipv4Addr, Net, Shutdown, SocketAddr, TcpListener, TcpStream};
use std::process::Abort;
use td_http::serve_on;

/// How long a read waits, and the writes behind it, in seconds.
const IDLE: u16 = 1;

/// A peer that has written this.
fn writer_of<N: Net<Stream = TcpStream>>(
    rt: &N,
    at: SocketAddr,
    sent: &[u8],
) -> io::Result<TcpStream> {
    let mut peer = TcpStream::connect(rt, at)?;
    peer.write_all(sent)?;
    Ok(peer)
}

/// A peer that has written this and writes no more.
fn peer_of<N: Net<Stream = TcpStream> + Abort>(rt: &N, at: SocketAddr, sent: &[u8]) -> TcpStream {
    let peer = writer_of(rt, at, sent).expect(rt, "a peer");
    let ended = peer.shutdown(Shutdown::Write);
    assert!(rt; ended.is_ok());
    peer
}

fn peers_of<N: Net<Stream = TcpStream> + AllocGlobal + Abort>(
    rt: &N,
    at: SocketAddr,
    connections: &[Connection],
) -> Vec<TcpStream> {
    let mut peers = Vec::new(rt.alloc());
    for (sent, _) in connections {
        peers.push(peer_of(rt, at, sent)).expect(rt, "memory");
    }
    peers
}

/// The peer was told this, and then that nothing more comes.
fn assert_peer_told(rt: &(impl AllocGlobal + Abort), peer: &mut TcpStream, due: &[u8]) {
    let mut told = Vec::new(rt.alloc());
    let read = peer.read_to_end(&mut told);
    assert!(rt; read.is_ok());
    assert_told(rt, &told, due);
}

/// A listener at a port that the machine chooses.
fn listener_of<N: Net<Listener = TcpListener, Stream = TcpStream> + Abort>(rt: &N) -> TcpListener {
    let at = SocketAddr::from((Ipv4Addr::LOCALHOST, 0));
    TcpListener::bind(rt, at).expect(rt, "a port")
}

fn address(rt: &impl Abort, listener: &TcpListener) -> SocketAddr {
    listener.local_addr().expect(rt, "an address")
}

/// So many connections to the listener are served at a new desk, by the machine's clock.
fn serve_all(
    rt: &(impl AllocGlobal + Abort),
    machine: HostRuntime,
    listener: &TcpListener,
    count: u32,
) {
    let mut service = new_service(rt);
    let served = serve_on(machine, listener, count, IDLE, &mut Still, &mut service);
    assert!(rt; served.is_ok());
}

/// The peers were told what is due to them.
fn assert_all_told(
    rt: &(impl AllocGlobal + Abort),
    peers: &mut [TcpStream],
    connections: &[Connection],
) {
    for (peer, (_, due)) in peers.iter_mut().zip(connections) {
        assert_peer_told(rt, peer, due);
    }
}

/// Each of the connections to a listener is told what is due to it.
fn assert_served<N>(rt: &N, machine: HostRuntime, connections: &[Connection], count: u32)
where
    N: Net<Listener = TcpListener, Stream = TcpStream> + AllocGlobal + Abort,
{
    let listener = listener_of(rt);
    let mut peers = peers_of(rt, address(rt, &listener), connections);
    serve_all(rt, machine, &listener, count);
    assert_all_told(rt, &mut peers, connections);
}

#[test]
fn a_connection_is_served(rt: HostRuntime) {
    assert_served(&rt, rt, &[REGISTERS], 1);
}

#[test]
fn a_connection_that_is_cut_stops_no_other(rt: HostRuntime) {
    assert_served(&rt, rt, &THREE, 3);
}

/// More than is read before the request that asks to close is answered.
fn long_input(rt: &(impl AllocGlobal + Abort)) -> Vec<u8> {
    let mut input = REGISTERS.0.to_vec(rt.alloc()).expect(rt, "memory");
    for _ in 0..32_768 {
        input.push(b'x').expect(rt, "memory");
    }
    input
}

/// A peer that has written all that, and may write more.
fn long_peer<N: Net<Stream = TcpStream> + AllocGlobal + Abort>(
    rt: &N,
    at: SocketAddr,
) -> TcpStream {
    writer_of(rt, at, &long_input(rt)).expect(rt, "a peer")
}

/// The connection of the peer is whole.
fn is_whole(peer: &TcpStream) -> bool {
    matches!(peer.take_error(), Ok(None))
}

#[test]
fn a_peer_that_wrote_more_is_not_reset(rt: HostRuntime) {
    let listener = listener_of(&rt);
    let mut peer = long_peer(&rt, address(&rt, &listener));
    serve_all(&rt, rt, &listener, 1);
    assert_peer_told(&rt, &mut peer, REGISTERS.1);
    assert!(rt; is_whole(&peer));
}

/// Peers that write nothing, half a request, or half of the second one, and then wait.
const WAITING: [Connection; 3] = [(b"", b""), (b"GET /holders/000001 HT", b""), IS_CUT];

/// Peers that have written this, and may write more.
fn waiting_peers_of<N: Net<Stream = TcpStream> + AllocGlobal + Abort>(
    rt: &N,
    at: SocketAddr,
    connections: &[Connection],
) -> Vec<TcpStream> {
    let mut peers = Vec::new(rt.alloc());
    for (sent, _) in connections {
        let peer = writer_of(rt, at, sent).expect(rt, "a peer");
        peers.push(peer).expect(rt, "memory");
    }
    peers
}

// Each is waited for no longer than the limit, and the last one is served.
#[test]
fn peers_that_wait_hold_no_other(rt: HostRuntime) {
    let listener = listener_of(&rt);
    let at = address(&rt, &listener);
    let mut waiting = waiting_peers_of(&rt, at, &WAITING);
    let mut last = peer_of(&rt, at, REGISTERS.0);
    serve_all(&rt, rt, &listener, 4);
    assert_all_told(&rt, &mut waiting, &WAITING);
    assert_peer_told(&rt, &mut last, REGISTERS.1);
}

/// Registers holder 000001.
const REGISTRATION: &[u8] =
    b"PUT /office/holders/000001 HTTP/1.1\r\nContent-Length: 20\r\n\r\n{\"eori\":\"CH1234567\"}";

/// Opens a guarantee for that holder.
const OPENS: &[u8] =
    b"POST /office/holders/000001/guarantees HTTP/1.1\r\nContent-Length: 42\r\n\r\n{\"reference\":100,\"cover\":50,\"code\":\"AB12\"}";

/// Lists all guarantees of that holder.
const LISTS: &[u8] = b"GET /holders/000001/guarantees HTTP/1.1\r\n\r\n";

/// How many lists are asked for: those of a hundred guarantees are more than the buffers of two sockets hold.
const MANY_LISTS: usize = 600;

/// A request, and then another one so many times.
fn then_many(
    rt: &(impl AllocGlobal + Abort),
    first: &[u8],
    request: &[u8],
    times: usize,
) -> Vec<u8> {
    let mut all = first.to_vec(rt.alloc()).expect(rt, "memory");
    for _ in 0..times {
        all.extend_from_slice(request).expect(rt, "memory");
    }
    all
}

/// How many replies the peer was told.
fn replies_to(rt: &(impl AllocGlobal + Abort), peer: &mut TcpStream) -> usize {
    let mut told = Vec::new(rt.alloc());
    let read = peer.read_to_end(&mut told);
    assert!(rt; read.is_ok());
    text_of(&told).matches("HTTP/1.1 200 OK").count()
}

// It is told what the buffers hold, and the next one is served.
#[test]
fn a_peer_that_reads_nothing_holds_no_other(rt: HostRuntime) {
    let listener = listener_of(&rt);
    let at = address(&rt, &listener);
    let opening = then_many(&rt, REGISTRATION, OPENS, 100);
    let _opened = peer_of(&rt, at, &opening);
    let asked = then_many(&rt, b"", LISTS, MANY_LISTS);
    let mut mute = writer_of(&rt, at, &asked).expect(&rt, "a peer");
    let mut last = peer_of(&rt, at, IS_CUT.0);
    serve_all(&rt, rt, &listener, 3);
    assert_peer_told(&rt, &mut last, IS_CUT.1);
    let told = replies_to(&rt, &mut mute);
    assert!(rt; 0 < told && told < MANY_LISTS, "{told}");
}
