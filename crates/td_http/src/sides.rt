//! The two sides of a connection of a socket.
use crate::waiting::{Waiting, is_idle, wait_a_step};
use std::io;
use std::io::{ErrorKind, Read, Write};
use std::net::{Shutdown, TcpStream};
use std::rc::Rc;
use std::time::Duration;

/// The most reads that a connection gets after its stream has ended.
const LAST_READS: u32 = 128;

/// How long the socket itself waits at each of them, in milliseconds: one step.
const LAST_STEP: u64 = 100;

/// How many steps each of them waits: half a second.
const LAST_STEPS: u32 = 5;

/// The side from which requests are read. A read that has waited for the idle limit fails; one that waits for the
/// request behind a reply fails after a step if another connection has come too, which is kept.
#[derive(Drop)]
pub struct RequestSide {
    socket: TcpStream,
    waiting: Rc<Waiting>,
    /// The most steps that a read waits.
    steps: u32,
    /// The connection that came meanwhile.
    next: Option<TcpStream>,
}

/// The side to which replies are written. A write fails once those after the last bytes that came have taken as long
/// as the idle limit in all.
#[derive(Drop)]
pub struct ReplySide {
    socket: TcpStream,
    waiting: Rc<Waiting>,
}

/// The two sides of a connection that came. An `Err`: it can't be read and written.
pub(crate) fn sides(
    socket: TcpStream,
    waiting: &Rc<Waiting>,
) -> io::Result<(RequestSide, ReplySide)> {
    wait_a_step(&socket)?;
    waiting.begin();
    let requests = RequestSide {
        socket: socket.try_clone()?,
        waiting: Rc::clone(waiting)?,
        steps: waiting.steps(),
        next: None,
    };
    let replies = ReplySide {
        socket,
        waiting: Rc::clone(waiting)?,
    };
    Ok((requests, replies))
}

impl RequestSide {
    /// The connection that came while this one was waited for.
    pub(crate) fn take_next(&mut self) -> Option<TcpStream> {
        self.next.take()
    }

    // Whether a read behind a reply gives way to another connection, which has come.
    fn yields(&mut self) -> bool {
        if self.waiting.has_replied() {
            self.next = self.waiting.take();
        }
        self.next.is_some()
    }

    /// Reads what still comes, and drops it: up to 128 reads of at most half a second each. Where it `yields`, it
    /// ends when nothing came for a tenth of a second and another connection has.
    pub(crate) fn read_out(&mut self, yields: bool) {
        let step = Duration::from_millis(LAST_STEP);
        if self.socket.set_read_timeout(Some(step)).is_err() {
            return;
        }
        self.steps = LAST_STEPS;
        let mut dropped = [0; 8192];
        for _ in 0..LAST_READS {
            self.waiting.set_replied(yields);
            match self.read(&mut dropped) {
                Ok(0) | Err(_) => return,
                Ok(_) => {}
            }
        }
    }
}

impl Read for RequestSide {
    fn read(&mut self, buf: &mut [u8]) -> io::Result<usize> {
        let began = self.waiting.now();
        let mut read = self.socket.read(buf);
        for _ in 1..self.steps {
            if !is_idle(&read) || self.yields() || self.waiting.is_over(began) {
                break;
            }
            read = self.socket.read(buf);
        }
        self.waiting.begin();
        read
    }
}

impl ReplySide {
    ghost use Rattle.std.specs.Io.{WritesAtMost};

    /// Tells the peer that nothing more comes.
    pub(crate) fn end(&self) -> io::Result<()> {
        self.socket.shutdown(Shutdown::Write)
    }

    // Writes what the socket takes within one step.
    fn write_a_step(&mut self, buf: &[u8]) -> io::Result<usize>
        ensures { WritesAtMost result buf.now }
    {
        let began = self.waiting.now();
        let written = self.socket.write(buf);
        self.waiting.add_write(began);
        written
    }
}

impl Write for ReplySide {
    fn write(&mut self, buf: &[u8]) -> io::Result<usize> {
        self.waiting.set_replied(true);
        let mut written = Err(ErrorKind::WouldBlock.into());
        for _ in 0..self.waiting.steps() {
            if !is_idle(&written) || self.waiting.is_written_out() {
                break;
            }
            written = self.write_a_step(buf);
        }
        written
    }

    fn flush(&mut self) -> io::Result<()> {
        self.socket.flush()
    }
}
