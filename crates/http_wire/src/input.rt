//! The bytes that were read and not yet taken.
ghost use Rattle.std.specs.Prelude.{◌≡◌, ◌+◌, ◌<◌, ◌≤◌, [], length, drop, OnOk, OnErr, IfOk, vec_len, vec_capacity};
ghost use Rattle.http_wire.specs.declared.input.TheConstants.{MOST};

use crate::framing::MAX_BODY;
use crate::next::MAX_HEAD;
use counted_io::Counted;
use std::alloc::{AllocError, Global};
use std::io::Read;

/// The most bytes of a read.
const PIECE: usize = 4096;

/// The most bytes that the buffer holds: a head of 8,192, a body of 65,536 and one piece, 77,824 in all.
const MOST: usize = MAX_HEAD + MAX_BODY + PIECE;

/// What a read brought.
#[derive(Clone, Copy, Debug, PartialEq, Eq)]
pub enum Piece {
    Bytes,
    /// The end of the input.
    End,
    /// The read failed.
    Fault,
}

/// Bytes that were read. Those before `start` were taken.
#[derive(Drop)]
pub struct Input {
    buffer: Vec<u8>,
    start: usize,
    ghost within: { start ≤ vec_len buffer },
    ghost bounded: { vec_len buffer ≤ MOST },
    // with its first byte it has room for all that may follow
    ghost roomy: { 0 < vec_len buffer → MOST ≤ vec_capacity buffer },
}

impl Input {
    ghost use Rattle.http_wire.specs.Input.{unread, room_of, Fills};

    pub fn new(alloc: Global) -> Input
        ensures { unread result ≡ [] }
    {
        Input {
            buffer: Vec::new(alloc),
            start: 0,
        }
    }

    /// Those that weren't taken.
    pub fn bytes(&self) -> &[u8]
        ensures { result.now ≡ unread self.now }
    {
        &self.buffer[self.start..]
    }

    /// Their number.
    pub fn len(&self) -> usize
        ensures { result ≡ length (unread self.now) }
    {
        self.buffer.len() - self.start
    }

    /// Takes the first of them.
    pub fn take(&mut self, len: usize)
        requires { len ≤ length (unread self.old) }
        ensures bytes { unread self.new ≡ drop len (unread self.old) }
        ensures room { room_of self.new ≡ room_of self.old }
    {
        self.start += len;
    }

    /// Moves them to the front, and makes the buffer's whole room. It takes memory, and may fail, only where
    /// the buffer has not had it yet.
    fn make_room(&mut self) -> Result<(), AllocError>
        ensures bytes { unread self.new ≡ unread self.old }
        ensures front { self.new.start ≡ 0 }
        ensures room { OnOk result (MOST ≤ vec_capacity self.new.buffer) }
        ensures kept { vec_capacity self.old.buffer ≤ vec_capacity self.new.buffer }
        ensures memory { OnErr result (vec_capacity self.old.buffer < MOST) }
    {
        let start = self.start;
        let left = self.buffer.len() - start;
        self.start = 0;
        self.buffer.copy_within(start.., 0);
        self.buffer.truncate(left);
        self.buffer.reserve(MOST - left)
    }

    /// Reads one piece behind them. It fails, and reads nothing, where memory for the buffer is missing;
    /// never while it has bytes that weren't taken, so none is lost.
    pub fn fill<R: Read>(&mut self, reader: &mut Counted<R>) -> Result<Piece, AllocError>
        requires { length (unread self.old) < 8192 + 65536 }
        ensures kept { OnErr result ((reader.new ≡ reader.old) × (unread self.new ≡ unread self.old)) }
        ensures memory { OnErr result (unread self.old ≡ []) }
        ensures missing { OnErr result (room_of self.old < MOST) }
        ensures room { OnOk result (MOST ≤ room_of self.new) }
        ensures grown { room_of self.old ≤ room_of self.new }
        ensures read { IfOk result (Fills R.remaining reader.old reader.new (unread self.old) (unread self.new)) }
    {
        self.make_room()?;
        let mut piece = [0; PIECE];
        match reader.read(&mut piece) {
            Err(_) => Ok(Piece::Fault),
            Ok(0) => Ok(Piece::End),
            Ok(n) => {
                self.buffer.extend_from_slice(&piece[..n]).unwrap();
                Ok(Piece::Bytes)
            }
        }
    }
}
