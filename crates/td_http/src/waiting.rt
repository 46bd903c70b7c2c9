//! The connections that come to a listening socket, and how long they are waited for.
use std::cell::Cell;
use std::io;
use std::io::ErrorKind;
use std::net::{TcpListener, TcpStream};
use std::time::{Duration, Instant};

/// How long a socket itself waits for bytes, or for room for them, in milliseconds: one step. A kernel counts it in
/// ticks of its own and takes one more, so that of 250 ticks a second it makes 8 to 12 ms.
const STEP: u64 = 8;

/// How many of them are a second.
const STEPS_A_SECOND: u32 = 125;

/// A listening socket, and how its connections are waited for.
#[derive(Drop)]
pub(crate) struct Waiting {
    rt: HostRuntime,
    listener: TcpListener,
    /// Whether an accept waits until a connection has come.
    blocks: Cell<bool>,
    /// Whether replies were written after the last bytes that came.
    has_replied: Cell<bool>,
    /// How long the writes after the last bytes that came have taken.
    written_for: Cell<Duration>,
    /// How long a read waits, and the writes between two reads that bring bytes: so many seconds.
    idle: u16,
}

impl Waiting {
    /// Of a listener that blocks, whose connections are waited for so many seconds.
    pub(crate) fn new(rt: HostRuntime, listener: TcpListener, idle: u16) -> Waiting {
        Waiting {
            rt,
            listener,
            blocks: Cell::new(true),
            has_replied: Cell::new(false),
            written_for: Cell::new(Duration::ZERO),
            idle,
        }
    }

    // The idle limit.
    fn limit(&self) -> Duration {
        Duration::from_secs(u64::from(self.idle))
    }

    /// How many steps are the idle limit. A step takes no less than it says, so that a wait ends after so many
    /// also where the machine's clock fails.
    pub(crate) fn steps(&self) -> u32 {
        u32::from(self.idle) * STEPS_A_SECOND
    }

    /// What the machine's clock shows, which only goes forward. None: it fails.
    pub(crate) fn now(&self) -> Option<Instant> {
        Instant::now(&self.rt).ok()
    }

    // How long it is since then, or a step where the clock fails.
    fn since(&self, began: Option<Instant>) -> Duration {
        match (began, self.now()) {
            (Some(began), Some(now)) => now.duration_since(began),
            _ => Duration::from_millis(STEP),
        }
    }

    /// Whether what began then has taken as long as the idle limit.
    pub(crate) fn is_over(&self, began: Option<Instant>) -> bool {
        self.since(began) >= self.limit()
    }

    /// Bytes came, or the connection did: no reply was written since.
    pub(crate) fn begin(&self) {
        self.has_replied.set(false);
        self.written_for.set(Duration::ZERO);
    }

    /// Whether replies were written after the last bytes that came.
    pub(crate) fn has_replied(&self) -> bool {
        self.has_replied.get()
    }

    pub(crate) fn set_replied(&self, has_replied: bool) {
        self.has_replied.set(has_replied);
    }

    /// A write began then, and has ended.
    pub(crate) fn add_write(&self, began: Option<Instant>) {
        let all = self.written_for.get().saturating_add(self.since(began));
        self.written_for.set(all);
    }

    /// Whether the writes after the last bytes that came have taken as long as the idle limit.
    pub(crate) fn is_written_out(&self) -> bool {
        self.written_for.get() >= self.limit()
    }

    // Has an accept wait until a connection has come, or not.
    fn set_blocks(&self, blocks: bool) -> io::Result<()> {
        if self.blocks.get() != blocks {
            self.listener.set_nonblocking(!blocks)?;
            self.blocks.set(blocks);
        }
        Ok(())
    }

    /// The next connection, where one has come.
    pub(crate) fn take(&self) -> Option<TcpStream> {
        self.set_blocks(false).ok()?;
        let (socket, _peer) = self.listener.accept().ok()?;
        Some(socket)
    }

    /// The next connection, which is waited for without limit.
    pub(crate) fn take_later(&self) -> io::Result<TcpStream> {
        self.set_blocks(true)?;
        let (socket, _peer) = self.listener.accept()?;
        Ok(socket)
    }

    /// Leaves the listener as it came.
    pub(crate) fn end(&self) -> io::Result<()> {
        self.set_blocks(true)
    }
}

/// Has each read and each write of the socket wait for one step.
pub(crate) fn wait_a_step(socket: &TcpStream) -> io::Result<()> {
    let step = Some(Duration::from_millis(STEP));
    socket.set_read_timeout(step)?;
    socket.set_write_timeout(step)
}

/// Whether a read or a write waited for a step, and nothing came or was taken. A program that was frozen and goes on has
/// its wait cut short, which is a step too.
pub(crate) fn is_idle(moved: &io::Result<usize>) -> bool {
    matches!(moved, Err(error) if matches!(error.kind(), ErrorKind::WouldBlock | ErrorKind::Interrupted))
}
