//! The file in which a journal stands.
ghost use Rattle.std.specs.Prelude.{◌≡◌, ◌⊎◌, ◌+◌, ◌++◌, ◌≤◌, IfSome, IsTrue, None, OnErr, OnOk, false, length, take, true};
ghost use Rattle.std.proofs.Math.Bridge.{le_prop};

use sqlite_disk::Disk;
use std::io;

/// A journal in a file. Its text is the rows that stand: what a write that failed has left behind them isn't part of it, and is cut
/// off before the next row is written.
#[derive(Drop)]
pub struct Journal<F: Disk> {
    file: F,
    // How many bytes of the file are the text.
    end: usize,
    // The number of the next row.
    next: u64,
    // Once a row that was written can't be cut off again, or its change may stand or not, no further one is written.
    is_open: bool,
    ghost inside: { end ≤ length (F.Disk.seen file) } by { le_prop },
}

/// Where the text of a journal ends with the row that was written, and the number of the row behind it.
#[derive(Clone, Copy)]
pub(crate) struct Written {
    end: usize,
    next: u64,
}

impl<F: Disk> Journal<F> {
    ghost use Rattle.td_journal.specs.Journal.{IsBehind, IsDurable, IsFull, IsSafe, IsTight, JournalFailed, faults_of, file_of, is_open, is_usable, next_number, text_of};

    /// The journal in a file, of which the first `end` bytes are the rows that stand, whose next row has this number.
    pub fn new(file: F, end: usize, next: u64) -> Self
        requires { end ≤ length (F.Disk.seen file) }
        ensures file { result.file ≡ file }
        ensures text { text_of result ≡ take end (F.Disk.seen file) }
        ensures tight { length (F.Disk.seen file) ≡ end → IsTight result }
        ensures next { next_number result ≡ next }
        ensures open { is_open result ≡ true }
    {
        Journal {
            file,
            end,
            next,
            is_open: true,
        }
    }

    /// The file.
    pub fn into_file(self) -> F
        ensures { result ≡ self.file }
    {
        self.file
    }

    /// Whether a row can be written.
    pub fn is_open(&self) -> bool
        ensures { result ≡ is_open self.now }
    {
        self.is_open
    }

    /// The number of the next row.
    pub fn next(&self) -> u64
        ensures { result ≡ next_number self.now }
    {
        self.next
    }

    /// Writes a row behind the text, and syncs it; `None`: it couldn't. The text is as it was: the row isn't part of it yet.
    pub(crate) fn write_behind(&mut self, row: &[u8]) -> Option<Written>
        ensures text { text_of self.new ≡ text_of self.old }
        ensures next { next_number self.new ≡ next_number self.old }
        ensures open { is_open self.new ≡ is_open self.old }
        ensures end { IfSome result (λ w. w.end ≡ self.old.end + length row.now) }
        ensures within { IfSome result (λ w. w.end ≤ length (file_of self.new)) }
        ensures row { IfSome result (λ w. take w.end (file_of self.new) ≡ text_of self.old ++ row.now) }
        ensures number { IfSome result (λ w. w.next ≡ next_number self.old + 1) }
        ensures tight { IfSome result (λ w. IsTight self.old → length (file_of self.new) ≡ w.end) }
        ensures durable { IfSome result (λ _. IsDurable self.new) }
        ensures safe { IsSafe self.old → IsSafe self.new }
        ensures failed { result ≡ None → JournalFailed self.old self.new ⊎ IsFull (length row.now) self.old }
        ensures counts { IfSome result (λ _. (faults_of self.old ≤ faults_of self.new) × IsTrue (is_usable self.new)) }
    {
        let end = self.end.checked_add(row.len())?;
        let next = self.next.checked_add(1)?;
        self.put(row).ok()?;
        Some(Written { end, next })
    }

    fn put(&mut self, row: &[u8]) -> io::Result<()>
        ensures text { text_of self.new ≡ text_of self.old }
        ensures end { self.new.end ≡ self.old.end }
        ensures next { self.new.next ≡ self.old.next }
        ensures open { self.new.is_open ≡ self.old.is_open }
        ensures behind { OnOk result (IsBehind row.now self.new) }
        ensures failed { OnErr result (JournalFailed self.old self.new) }
        ensures counts { OnOk result ((faults_of self.old ≤ faults_of self.new) × IsTrue (is_usable self.new)) }
        ensures tight { OnOk result (IsTight self.old → length (file_of self.new) ≡ self.new.end + length row.now) }
        ensures durable { OnOk result (IsDurable self.new) }
        ensures safe { IsSafe self.old → IsSafe self.new }
    {
        if !self.file.may_be_used() {
            return Err(io::Error::other("a sync has failed"));
        }
        self.file.write_at(self.end, row)?;
        self.file.sync()
    }

    /// Takes the row that was written behind the text into it.
    pub(crate) fn take_in(&mut self, written: Written)
        requires { written.end ≤ length (file_of self.old) }
        ensures text { text_of self.new ≡ take written.end (file_of self.old) }
        ensures next { next_number self.new ≡ written.next }
        ensures open { is_open self.new ≡ is_open self.old }
        ensures tight { length (file_of self.old) ≡ written.end → IsTight self.new }
        ensures file { self.new.file ≡ self.old.file }
    {
        self.end = written.end;
        self.next = written.next;
    }

    /// Cuts off what stands behind the text, and answers whether that was done; else no further row is written.
    pub(crate) fn cut(&mut self) -> bool
        ensures text { text_of self.new ≡ text_of self.old }
        ensures next { next_number self.new ≡ next_number self.old }
        ensures open { is_open self.new ≡ result }
        ensures was_open { IsTrue result → IsTrue (is_open self.old) }
        ensures failed { result ≡ false → IsTrue (is_open self.old) → JournalFailed self.old self.new }
        ensures counts { faults_of self.old ≤ faults_of self.new }
        ensures tight { IsTrue result → IsTight self.new }
        ensures durable { IsTrue result → IsDurable self.new }
        ensures safe { IsSafe self.old → IsSafe self.new }
    {
        let is_cut = self.is_open && self.cut_off().is_ok();
        self.is_open = is_cut;
        is_cut
    }

    fn cut_off(&mut self) -> io::Result<()>
        ensures text { text_of self.new ≡ text_of self.old }
        ensures next { self.new.next ≡ self.old.next }
        ensures open { self.new.is_open ≡ self.old.is_open }
        ensures tight { OnOk result (IsTight self.new) }
        ensures counts { faults_of self.old ≤ faults_of self.new }
        ensures failed { OnErr result (JournalFailed self.old self.new) }
        ensures durable { OnOk result (IsDurable self.new) }
        ensures safe { IsSafe self.old → IsSafe self.new }
    {
        if !self.file.may_be_used() {
            return Err(io::Error::other("a sync has failed"));
        }
        self.file.set_len(self.end)?;
        self.file.sync()
    }

    /// Writes no further row: whether the last one's change stands isn't known.
    pub(crate) fn shut(&mut self)
        ensures text { text_of self.new ≡ text_of self.old }
        ensures next { next_number self.new ≡ next_number self.old }
        ensures open { self.new.is_open ≡ false }
        ensures file { self.new.file ≡ self.old.file }
        ensures end { self.new.end ≡ self.old.end }
    {
        self.is_open = false;
    }
}
