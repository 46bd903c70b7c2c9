//! The end of a journal's file, and the last row in it.
ghost use Rattle.std.specs.Prelude.{◌≡◌, ◌+◌, ◌-◌, ◌≤◌, ℕ, Err, IfOk, IfSome, IsTrue, List, None, Ok, OnOk, drop, length, slice_range, take};
ghost use Rattle.td_desk.specs.declared.fault.Fault.{Fault};
ghost use Rattle.td_journal.specs.Journal.{FileFailed};
ghost use Rattle.td_journal_start.specs.Lines.{IsNoJournal};
ghost use Rattle.td_journal_start.specs.Starts.{IsAsFound};
ghost use Rattle.td_journal_start.specs.Tails.{Fits, HasNext, IsEndOf, IsFound, IsFull};
ghost use Rattle.td_journal_start.specs.Texts.{HasLast, Splits};

use sqlite_disk::Disk;
use std::alloc::{AllocError, Global};
use td_desk::Fault;
use td_journal_lines::{ChangeRow, row_of};

/// How many bytes at the end of a journal's file are read. A row has some 20,000 at most, and so has a torn one behind it.
const TAIL: usize = 65_536;

/// The last bytes of a file, and how many stand before them.
#[derive(Drop)]
struct Tail {
    before: usize,
    bytes: Vec<u8>,
}

/// Where the text of a journal ends in its file, the number of its next row, and the last row, if there is one.
#[derive(Drop)]
pub(crate) struct Found {
    pub(crate) end: usize,
    pub(crate) next: u64,
    pub(crate) last: Option<ChangeRow>,
}

/// The text in a journal's file, and its last row; `None`: the file is no journal.
pub(crate) fn find_last<F: Disk>(alloc: Global, file: &mut F) -> Result<Option<Found>, Fault>
    ensures file { IsAsFound F.Disk file.old file.new }
    ensures usable { OnOk result (IsTrue (F.Disk.is_usable file.new)) }
    ensures faults { OnOk result (F.Disk.faults file.new ≡ F.Disk.faults file.old) }
    ensures next { IfOk result (λ found. IfSome found HasNext) }
    ensures found { IfOk result (λ found. IsTrue (F.Disk.is_clean file.new) → IfSome found (IsFound (F.Disk.seen file.old))) }
    ensures none { IfOk result (λ found. IsTrue (F.Disk.is_clean file.new) → found ≡ None → IsNoJournal (F.Disk.seen file.old)) }
    ensures store { result ≡ Err Fault.Store → FileFailed F.Disk file.old file.new }
{
    let tail = read_tail(alloc, file)?;
    Ok(found_in(alloc, &tail)?)
}

// The last bytes of a file.
fn read_tail<F: Disk>(alloc: Global, file: &mut F) -> Result<Tail, Fault>
    ensures file { IsAsFound F.Disk file.old file.new }
    ensures usable { OnOk result (IsTrue (F.Disk.is_usable file.new)) }
    ensures faults { OnOk result (F.Disk.faults file.new ≡ F.Disk.faults file.old) }
    ensures full { IfOk result IsFull }
    ensures fits { IfOk result Fits }
    ensures end { IfOk result (λ t. IsTrue (F.Disk.is_clean file.new) → IsEndOf t (F.Disk.seen file.old)) }
    ensures store { result ≡ Err Fault.Store → FileFailed F.Disk file.old file.new }
{
    if !file.may_be_used() {
        return Err(Fault::Store);
    }
    let Ok(len) = file.len() else {
        return Err(Fault::Store);
    };
    let size = len.min(TAIL);
    let mut bytes = vec![in alloc; 0u8; size]?;
    let before = len - size;
    if file.read_at(before, &mut bytes).is_err() {
        return Err(Fault::Store);
    }
    Ok(Tail { before, bytes })
}

// The same of the last bytes of a file.
fn found_in(alloc: Global, tail: &Tail) -> Result<Option<Found>, AllocError>
    requires { Fits tail.now }
    ensures next { IfOk result (λ found. IfSome found HasNext) }
    ensures found { IfOk result (λ found. IfSome found (λ f. (bytes : List ℕ) → IsFull tail.now → IsEndOf tail.now bytes → IsFound bytes f)) }
    ensures none { IfOk result (λ found. found ≡ None → (bytes : List ℕ) → IsFull tail.now → IsEndOf tail.now bytes → IsNoJournal bytes) }
{
    let (begin, end) = last_line(&tail.bytes);
    if begin == 0 && tail.before > 0 {
        return Ok(None);
    }
    if end == 0 {
        return Ok(Some(Found {
            end,
            next: 1,
            last: None,
        }));
    }
    match row_of(alloc, &tail.bytes[begin..end])? {
        Some(row) => Ok(Some(Found {
            end: tail.before + end,
            next: row.number + 1,
            last: Some(row),
        })),
        None => Ok(None),
    }
}

// Where the last whole line of a text begins, and where it ends; both are 0 where there is none.
fn last_line(text: &[u8]) -> (usize, usize)
    ensures last { HasLast text.now (take result.0 text.now) (slice_range text.now result.0 result.1) (drop result.1 text.now) }
    ensures begin { result.0 ≤ result.1 }
    ensures end { result.1 ≤ length text.now }
{
    let end = lines_end(text);
    if end == 0 {
        return (0, 0);
    }
    (lines_end(&text[..end - 1]), end)
}

// Where the last line of a text ends, behind its line feed; 0 where none does.
fn lines_end(text: &[u8]) -> usize
    ensures split { Splits text.now (take result text.now) (drop result text.now) }
    ensures end { result ≤ length text.now }
{
    let mut end = text.len();
    while end > 0 && text[end - 1] != b'\n' {
        end -= 1;
    }
    end
}
