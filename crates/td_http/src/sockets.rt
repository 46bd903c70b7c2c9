//! Connections that come to a listening socket.
ghost use Rattle.std.specs.Prelude.{map};
ghost use Rattle.td_http.specs.Connections.{ServesSockets, desk_server};
ghost use Rattle.td_http.specs.Private.{IsPrivateOver};

use crate::connections::{Connections, serve_connections};
use crate::sides::{ReplySide, RequestSide, sides};
use crate::waiting::Waiting;
use crate::{Clock, Service};
use std::alloc::AllocError;
use std::collections::VecDeque;
use std::io;
use std::net::{TcpListener, TcpStream};
use std::rc::Rc;
use td_desk::Desk;

/// The most connections whose stream has ended and whose peer may still send.
const MOST_LEAVING: usize = 16;

/// The connections that come to a listening socket, which it owns.
#[derive(Drop)]
pub struct Incoming {
    waiting: Rc<Waiting>,
    /// The next one, where it came while the one before was waited for.
    next: Option<TcpStream>,
    /// Those whose stream has ended and whose peer may still send, the oldest first.
    leaving: VecDeque<RequestSide>,
}

impl Incoming {
    /// Those that come to a listener that blocks. A read waits at most `idle` seconds, from 1 on, and behind a reply for
    /// some 10 ms alone where another connection waits: then it fails, and so the stream ends. Between two reads that
    /// bring bytes the writes wait at most `idle` seconds in all, however many they are and whatever each of them takes:
    /// then they fail, and so the stream ends. So a peer that takes its replies slowly is left after the same time as one
    /// that takes none. `AllocError`: want of memory.
    pub fn new(rt: HostRuntime, listener: TcpListener, idle: u16) -> Result<Incoming, AllocError> {
        Ok(Incoming {
            waiting: Rc::new(rt.alloc(), Waiting::new(rt, listener, idle))?,
            next: None,
            leaving: VecDeque::new(rt.alloc()),
        })
    }

    // The next connection. Peers that may still send are waited for where no other connection has come, or too many
    // of them are there.
    fn next_one(&mut self) -> io::Result<TcpStream> {
        if self.leaving.len() < MOST_LEAVING {
            if let Some(socket) = self.waiting.take() {
                return Ok(socket);
            }
        }
        while let Some(mut requests) = self.leaving.pop_front() {
            requests.read_out(true);
            if let Some(socket) = requests.take_next() {
                return Ok(socket);
            }
        }
        self.waiting.take_later()
    }

    /// Waits for the peers that may still send, by up to 128 reads of at most half a second each, and leaves the listener
    /// as it came.
    pub fn end(&mut self) {
        for requests in &mut self.leaving {
            requests.read_out(false);
        }
        let _blocks = self.waiting.end();
    }
}

impl Connections for Incoming {
    type Reader = RequestSide;

    type Writer = ReplySide;

    ghost gives = { λ _ _ _ _. Unit {0} };

    ghost refuses = { λ _ _ _. Unit {0} };

    ghost takes = { λ _ _ _ _. Unit {0} };

    fn accept(&mut self) -> io::Result<(RequestSide, ReplySide)> {
        let socket = match self.next.take() {
            Some(socket) => socket,
            None => self.next_one()?,
        };
        sides(socket, &self.waiting)
    }

    // A socket that is dropped with bytes unread resets its peer, which may lose replies that it hasn't read
    // yet. So the peer is told that nothing more comes, and what it still sends is read and dropped, while other
    // connections are served. Where there is no memory to remember it, it is dropped.
    fn close(&mut self, mut requests: RequestSide, replies: ReplySide) {
        self.next = requests.take_next();
        if replies.end().is_err() {
            return;
        }
        if self.leaving.len() >= MOST_LEAVING {
            let _oldest = self.leaving.pop_front();
        }
        let _remembered = self.leaving.push_back(requests);
    }
}

/// Serves that many connections that come to the listening socket, one after another, at one service of a
/// desk, as `serve_connections` does, and waits for them as `Incoming` says. After its stream each peer is told that
/// nothing more comes, and what it still sends is read, by up to 128 reads of at most half a second each, or a tenth
/// where another connection waits, so that a peer that wrote more than was asked of it is not reset. The listener is
/// one that blocks. An `Err`: the socket gave no further connection, or none that can be read and written; those before
/// it were served.
pub fn serve_on<C: Clock, D: Desk>(
    rt: HostRuntime,
    listener: &TcpListener,
    connections: u32,
    idle: u16,
    clock: &mut C,
    service: &mut Service<D>,
) -> io::Result<()>
    ensures { (served : ServesSockets (desk_server C.ticks D.seen) clock.old service.old clock.new service.new connections result)
        × IsPrivateOver D.seen service.old service.new
        (map (λ connection. connection.exchanges) served.all_served) }
{
    if connections == 0 {
        return Ok(());
    }
    let mut incoming = Incoming::new(rt, listener.try_clone()?, idle)?;
    let served = serve_connections(rt.alloc(), &mut incoming, connections, clock, service);
    incoming.end();
    served
}
