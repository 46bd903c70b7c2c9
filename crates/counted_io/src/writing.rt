//! All bytes to a writer.
ghost use Rattle.std.specs.Prelude.{◌≡◌, ◌≤◌, ℕ, length, take, true, false};
ghost use Rattle.std.specs.Io.KnownBytes.{Appends};
ghost use Rattle.counted_io.specs.Counted.{calls_of, has_failed, known_bytes, HasCalled};
ghost use Rattle.counted_io.specs.Chains.{IsCutShort, MadeWrites, Wrote};

use crate::counted::Counted;
use std::io::Write;

/// Writes the bytes, and answers whether all of them were taken. Otherwise a write failed or took nothing,
/// and those before it were taken.
pub fn write_whole<W: Write>(writer: &mut Counted<W>, bytes: &[u8]) -> bool
    ensures whole { result ≡ true
        → Appends (known_bytes W.contents writer.old) (known_bytes W.contents writer.new) bytes.now }
    ensures cut { result ≡ false → IsCutShort W.contents writer.old writer.new bytes.now }
    ensures writes { MadeWrites writer.old writer.new result }
    ensures written { (n : ℕ) × (n ≤ length bytes.now)
        × Appends (known_bytes W.contents writer.old) (known_bytes W.contents writer.new) (take n bytes.now)
        × (result ≡ true → n ≡ length bytes.now) }
    ensures failed { result ≡ false → has_failed writer.new ≡ true }
    ensures called { result ≡ false → HasCalled (calls_of writer.old) (calls_of writer.new) }
    // no write of an empty piece, and none that failed
    ensures chain { result ≡ true → Wrote W.contents writer.old writer.new bytes.now true }
{
    let mut sent = 0;
    while sent < bytes.len() {
        match writer.write(&bytes[sent..]) {
            Ok(0) | Err(_) => return false,
            Ok(n) => sent += n,
        }
    }
    true
}
