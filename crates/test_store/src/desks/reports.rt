//! Reports into a writer that fails, and how many writes a long one takes. (The rows of reports stand in the transcripts.)
use super::accepted::{accept, lodge, open, register, release};
use super::made;
use crate::examples::{GRN, MRN, grn, mrn};
use sqlite::MemStore;
use std::alloc::Global;
use std::io;
use std::io::{ErrorKind, Write};
use std::process::Abort;
use td_base::Counted;
use td_reports::{ReportFault, guarantees};
use td_store::SqlDesk;

/// Takes so many bytes, and then fails.
#[derive(Drop)]
struct Paper {
    left: usize,
    taken: Vec<u8>,
}

impl Write for Paper {
    fn write(&mut self, buf: &[u8]) -> io::Result<usize> {
        let n = buf.len().min(self.left);
        if n == 0 && !buf.is_empty() {
            return Err(ErrorKind::Other.into());
        }
        if self.taken.extend_from_slice(&buf[..n]).is_err() {
            return Err(ErrorKind::OutOfMemory.into());
        }
        self.left -= n;
        Ok(n)
    }

    fn flush(&mut self) -> io::Result<()> {
        Ok(())
    }
}

fn blank_paper(alloc: Global, left: usize) -> Counted<Paper> {
    Counted::new(Paper {
        left,
        taken: Vec::new(alloc),
    })
}

/// More than any report has here.
const ENOUGH: usize = 1_000_000;

/// The report of guarantees is this text.
fn assert_guarantees(rt: &(impl AllocGlobal + Abort), desk: &mut SqlDesk<MemStore>, text: &str) {
    let mut writer = blank_paper(rt.alloc(), ENOUGH);
    let end = guarantees(rt.alloc(), desk, &mut writer);
    assert!(rt; end.is_ok());
    let taken = writer.into_inner().taken;
    assert_eq!(rt; taken.as_slice(), text.as_bytes());
}

/// A desk of one holder with a guarantee of 10,000.00, of which 5,000.00 are in use for a movement that is released.
fn released(rt: &(impl AllocGlobal + Abort)) -> SqlDesk<MemStore> {
    let mut desk = made(rt);
    accept(rt, &mut desk, register(rt, 1));
    accept(rt, &mut desk, open(rt, 1, 1_000_000, 50));
    accept(rt, &mut desk, lodge(rt, 1, b"A1", grn(rt, GRN), 500_000));
    let released = release(rt, mrn(rt, MRN), b"2025-03-08");
    accept(rt, &mut desk, released);
    desk
}

#[test]
fn a_writer_that_fails_has_the_beginning(rt: HostRuntime) {
    let mut desk = released(&rt);
    let mut writer = blank_paper(rt.alloc(), 30);
    let end = guarantees(rt.alloc(), &mut desk, &mut writer);
    assert!(rt; end == Err(ReportFault::Write) && writer.failed());
    let taken = writer.into_inner().taken;
    assert_eq!(rt;
        taken.as_slice(),
        b"GUARANTEES\n25CH0000010000014 0".as_slice()
    );
    let text = "GUARANTEES\n\
        25CH0000010000014 000001  50          10000.00           5000.00           5000.00           5000.00 -\n\
        TOTAL 1\n";
    assert_guarantees(&rt, &mut desk, text);
}

/// A desk of one holder with a hundred guarantees.
fn long(rt: &(impl AllocGlobal + Abort)) -> SqlDesk<MemStore> {
    let mut desk = made(rt);
    accept(rt, &mut desk, register(rt, 1));
    for _ in 0..100 {
        accept(rt, &mut desk, open(rt, 1, 1_000_000, 50));
    }
    desk
}

#[test]
fn a_long_report_takes_few_writes(rt: HostRuntime) {
    let mut desk = long(&rt);
    let mut writer = blank_paper(rt.alloc(), ENOUGH);
    let end = guarantees(rt.alloc(), &mut desk, &mut writer);
    assert!(rt; end.is_ok() && writer.calls() == 3);
    let taken = writer.into_inner().taken;
    assert!(rt; taken.len() == 10_321 && taken.as_slice().ends_with(b"\nTOTAL 100\n"));
}

#[test]
fn a_long_report_is_cut_short_after_a_piece(rt: HostRuntime) {
    let mut desk = long(&rt);
    let mut writer = blank_paper(rt.alloc(), 5_000);
    let end = guarantees(rt.alloc(), &mut desk, &mut writer);
    assert!(rt; end == Err(ReportFault::Write) && writer.calls() == 3);
    let taken = writer.into_inner().taken;
    assert!(rt;
        taken.len() == 5_000
            && taken
                .as_slice()
                .starts_with(b"GUARANTEES\n25CH0000010000014 ")
    );
}

#[test]
fn faults_have_their_words(rt: HostRuntime) {
    let faults = [
        (ReportFault::Write, "write"),
        (ReportFault::Store, "store"),
        (ReportFault::NoMemory, "no-memory"),
    ];
    for (fault, word) in &faults {
        let told = format!(in rt.alloc(); "{fault}").expect(&rt, "memory");
        assert_eq!(rt; told.as_str(), *word);
    }
}
