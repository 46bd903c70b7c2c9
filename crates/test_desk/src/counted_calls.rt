//! A counted reader or writer hands each call on, and answers what the inner one answered. No contract can
//! say this of any inner one: what a reader has left doesn't tell how often it was asked.
ghost use Rattle.std.specs.Prelude.{◌≤◌, IfOk};

use counted_io::Counted;
use std::io;
use std::io::{ErrorKind, Read, Write};
use std::test::Fail;

/// Fails at each third call, has nothing at each fifth, and else gives or takes one byte.
#[derive(Drop)]
struct Steps {
    calls: u8,
}

/// What is answered at a call.
fn answer_at(call: u8) -> io::Result<usize>
    ensures { IfOk result (λ n. n ≤ 1) }
{
    if call.is_multiple_of(3) {
        Err(ErrorKind::Other.into())
    } else if call.is_multiple_of(5) {
        Ok(0)
    } else {
        Ok(1)
    }
}

impl Read for Steps {
    fn read(&mut self, buf: &mut [u8]) -> io::Result<usize> {
        self.calls = self.calls.saturating_add(1);
        if let [first, ..] = buf {
            *first = self.calls;
            answer_at(self.calls)
        } else {
            Ok(0)
        }
    }
}

impl Write for Steps {
    fn write(&mut self, buf: &[u8]) -> io::Result<usize> {
        self.calls = self.calls.saturating_add(1);
        if buf.is_empty() {
            return Ok(0);
        }
        answer_at(self.calls)
    }

    fn flush(&mut self) -> io::Result<()> {
        Ok(())
    }
}

// Whether an answer is the inner one's at that call, or both failed.
fn is_answer_at(call: u8, got: &io::Result<usize>) -> bool {
    match (got, answer_at(call)) {
        (Ok(some), Ok(want)) => *some == want,
        (Err(_), Err(_)) => true,
        _ => false,
    }
}

// Whether the next read is the inner one's at that call, byte and all.
fn reads_on(reader: &mut Counted<Steps>, call: u8) -> bool {
    let mut piece = [0; 4];
    let got = reader.read(&mut piece);
    is_answer_at(call, &got) && piece[0] == call && reader.calls() == u64::from(call)
}

// Whether the next write is the inner one's at that call.
fn writes_on(writer: &mut Counted<Steps>, call: u8) -> bool {
    let got = writer.write(b"text");
    is_answer_at(call, &got) && writer.calls() == u64::from(call)
}

#[test]
fn each_read_is_handed_on(rt: HostRuntime) -> Result<(), Fail> {
    let mut reader = Counted::new(Steps { calls: 0 });
    for call in 1..=200 {
        assert!(rt; reads_on(&mut reader, call));
    }
    assert!(rt; reader.into_inner().calls == 200);
    Ok(())
}

#[test]
fn each_write_is_handed_on(rt: HostRuntime) -> Result<(), Fail> {
    let mut writer = Counted::new(Steps { calls: 0 });
    for call in 1..=200 {
        assert!(rt; writes_on(&mut writer, call));
    }
    assert!(rt; writer.into_inner().calls == 200);
    Ok(())
}
