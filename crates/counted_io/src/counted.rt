//! Readers and writers whose calls are counted.
ghost use Rattle.std.specs.Prelude.{◌≡◌, ◌<◌, ◌↔◌, ◌⊎◌, length, IsTrue, IsErr, Ok, false};
ghost use Rattle.std.specs.Io.{ReadsAtMost, WritesAtMost};
ghost use Rattle.std.specs.Io.KnownBytes.{ReadConsumes, WriteAppends, Keeps};

use std::io;
use std::io::{Read, Write};

/// A reader or a writer that counts its calls and knows whether the last one failed.
/// What the inner one does with memory is its own.
#[derive(Drop)]
pub struct Counted<T> {
    inner: T,
    calls: u64,
    failed: bool,
}

impl<T> Counted<T> {
    ghost use Rattle.counted_io.specs.Counted.{calls_of, has_failed, inner_of};

    /// No call was made yet, and none failed.
    pub fn new(inner: T) -> Counted<T>
        ensures inner { inner_of result ≡ inner }
        ensures calls { calls_of result ≡ 0 }
        ensures failed { has_failed result ≡ false }
    {
        Counted {
            inner,
            calls: 0,
            failed: false,
        }
    }

    /// The reader or writer itself.
    pub fn into_inner(self) -> T
        ensures { result ≡ inner_of self }
    {
        self.inner
    }

    /// The number of calls of `read` or `write`, which stays at `u64::MAX`.
    pub fn calls(&self) -> u64
        ensures { result ≡ calls_of self.now }
    {
        self.calls
    }

    /// Whether the last of them answered an `Err`, or took nothing of a piece that isn't empty.
    pub fn failed(&self) -> bool
        ensures { result ≡ has_failed self.now }
    {
        self.failed
    }
}

impl<R: Read> Read for Counted<R> {
    ghost use Rattle.counted_io.specs.Counted.{calls_of, has_failed, known_bytes, one_more};

    ghost remaining = { known_bytes R.remaining };

    fn read(&mut self, buf: &mut [u8]) -> io::Result<usize>
        ensures bound { ReadsAtMost result buf.new }
        ensures bytes { ReadConsumes (known_bytes R.remaining self.old)
            (known_bytes R.remaining self.new) result buf.new }
        ensures calls { calls_of self.new ≡ one_more (calls_of self.old) }
        ensures failed { IsTrue (has_failed self.new) ↔ IsErr result }
    {
        self.calls = self.calls.saturating_add(1);
        let result = self.inner.read(buf);
        self.failed = result.is_err();
        result
    }
}

impl<W: Write> Write for Counted<W> {
    ghost use Rattle.counted_io.specs.Counted.{calls_of, has_failed, known_bytes, one_more};

    ghost contents = { known_bytes W.contents };

    fn write(&mut self, buf: &[u8]) -> io::Result<usize>
        ensures bound { WritesAtMost result buf.now }
        ensures bytes { WriteAppends (known_bytes W.contents self.old)
            (known_bytes W.contents self.new) result buf.now }
        ensures calls { calls_of self.new ≡ one_more (calls_of self.old) }
        ensures failed { IsTrue (has_failed self.new) ↔ (IsErr result ⊎ ((result ≡ Ok 0) × (0 < length buf.now))) }
    {
        self.calls = self.calls.saturating_add(1);
        let result = self.inner.write(buf);
        self.failed = match &result {
            Ok(taken) => *taken == 0 && !buf.is_empty(),
            Err(_) => true,
        };
        result
    }

    fn flush(&mut self) -> io::Result<()>
        ensures bytes { Keeps (known_bytes W.contents self.old) (known_bytes W.contents self.new) }
        ensures calls { calls_of self.new ≡ calls_of self.old }
        ensures failed { has_failed self.new ≡ has_failed self.old }
    {
        self.inner.flush()
    }
}
