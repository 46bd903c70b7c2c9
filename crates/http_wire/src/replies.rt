//! Replies that wait, to be written together.
ghost use Rattle.std.specs.Prelude.{◌≡◌, ◌≤◌, ◌⊎◌, [], ◌++◌, length, true, false, OnOk, OnErr, vec_len, vec_capacity};

use counted_io::{Counted, write_whole};
use std::alloc::Global;
use std::io::Write;

/// The bytes of replies that there is room for.
const ROOM: usize = 16_384;

/// The bytes of replies, in the order of their requests. None is kept back while the stream is read: they are
/// written before each further read, at each end, and with the first that they have no room for.
#[derive(Drop)]
pub struct Replies {
    bytes: Vec<u8>,
}

impl Replies {
    ghost use Rattle.counted_io.specs.Chains.{Wrote};
    ghost use Rattle.counted_io.specs.Chains.{IsCutShort};
    ghost use Rattle.http_wire.specs.declared.replies.TheConstants.{ROOM};
    ghost use Rattle.http_wire.specs.Replies.{waiting, room_of, Adds};

    /// No reply waits. Their room is made here, once; where memory for it is missing there is none, and each
    /// reply is written by itself.
    pub fn new(alloc: Global) -> Replies
        ensures none { waiting result ≡ [] }
        ensures room { (ROOM ≤ room_of result) ⊎ (room_of result ≡ 0) }
    {
        let mut bytes = Vec::new(alloc);
        let _roomy = bytes.reserve(ROOM);
        Replies { bytes }
    }

    /// Writes those that wait, and answers whether all of them were taken. None waits then: what wasn't taken is
    /// lost.
    pub fn send<W: Write>(&mut self, writer: &mut Counted<W>) -> bool
        ensures none { waiting self.new ≡ [] }
        ensures room { room_of self.new ≡ room_of self.old }
        ensures sent { result ≡ true → Wrote W.contents writer.old writer.new (waiting self.old) true }
        ensures cut { result ≡ false → IsCutShort W.contents writer.old writer.new (waiting self.old) }
    {
        let whole = write_whole(writer, &self.bytes);
        self.bytes.clear();
        whole
    }

    /// Has a reply wait behind the others, where there is room for it; else writes them and then the reply.
    /// Answers whether all that was written was taken.
    pub fn add<W: Write>(&mut self, writer: &mut Counted<W>, reply: &[u8]) -> bool
        ensures room { room_of self.old ≤ room_of self.new }
        ensures added { result ≡ true
            → Adds W.contents (room_of self.old) writer.old writer.new (waiting self.old) reply.now (waiting self.new) }
        ensures cut { result ≡ false → IsCutShort W.contents writer.old writer.new (waiting self.old ++ reply.now) }
    {
        if reply.len() <= self.bytes.capacity() - self.bytes.len() {
            self.bytes.extend_from_slice(reply).unwrap();
            return true;
        }
        self.send(writer) && write_whole(writer, reply)
    }
}
