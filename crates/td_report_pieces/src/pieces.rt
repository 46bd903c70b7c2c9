//! Reports whose lines are put behind one another and written in pieces.
ghost use Rattle.std.specs.Prelude.{◌≡◌};
ghost use Rattle.td_report_pieces.specs.Written.{fault_after_write, stop_of};

use crate::fault::ReportFault;
use std::alloc::{AllocError, Global};
use std::io::Write;
use td_base::{Counted, write_whole};
use td_desk::Fault;
use typed_sql::Visitor;

/// How many bytes are written at a time: these, and less than a line more.
const PIECE: usize = 4096;

/// What a report has of rows.
pub trait Report<T> {
    ghost use Rattle.std.specs.Prelude.{◌≡◌, ℕ, IfOk, IsSome, List, OnErr, Option, option_map, string_bytes};

    /// The line of a row, if it has one.
    ghost line: { Self → T → Option (List ℕ) };

    /// The line of a row, if it has one: only for a line memory is taken. `AllocError`: want of memory.
    fn line(&self, alloc: Global, row: &T) -> Result<Option<String>, AllocError>
        ensures line { IfOk result (λ found. option_map string_bytes found ≡ line self.now row.now) }
        ensures none { OnErr result (IsSome (line self.now row.now)) };
}

/// A report that is being written.
#[derive(Drop)]
pub struct Pieces<R> {
    alloc: Global,
    report: R,
    // what isn't written yet
    text: String,
    // how many lines there were so far
    lines: u64,
    // why no row more is taken up
    fault: Option<ReportFault>,
}

// Why a report isn't ended by its total.
fn stop_of(visited: Result<bool, Fault>, fault: Option<ReportFault>) -> Option<ReportFault>
    ensures { result ≡ stop_of visited fault }
{
    match visited {
        Err(Fault::Store) => Some(ReportFault::Store),
        Err(Fault::NoMemory) => fault.or(Some(ReportFault::NoMemory)),
        Ok(_) => fault,
    }
}

// What is told where the last write failed of a report that was closed so: a fault of the store before it, and it before want of
// memory.
fn fault_after_write(closed: Result<(), ReportFault>) -> ReportFault
    ensures { result ≡ fault_after_write closed }
{
    match closed {
        Err(ReportFault::Store) => ReportFault::Store,
        _ => ReportFault::Write,
    }
}

impl<R> Pieces<R> {
    ghost use Rattle.std.specs.Prelude.{[], None, Some, false, true, IfErr, IfOk, IsErr, OnErr, OnOk, string_bytes};
    ghost use Rattle.counted_io.specs.Chains.{Wrote};
    ghost use Rattle.td_report_pieces.specs.declared.fault.ReportFault.TheVariants.{NoMemory};
    ghost use Rattle.std.specs.Result.{result_err};
    ghost use Rattle.td_report_pieces.specs.Pieces.{Ends, TakesUp, left_of};
    ghost use Rattle.td_report_pieces.specs.Written.{BreaksOff, IsStopped};

    /// A report that begins with this header, if there was memory for it.
    pub fn begin(alloc: Global, report: R, header: Result<String, AllocError>) -> Self
        ensures report { result.report ≡ report }
        ensures lines { result.lines ≡ 0 }
        ensures header { IfOk header (λ text. (string_bytes result.text ≡ string_bytes text) × (result.fault ≡ None)) }
        ensures none { IsErr header → (string_bytes result.text ≡ []) × (result.fault ≡ Some NoMemory) }
    {
        let (text, fault) = match header {
            Ok(text) => (text, None),
            Err(_) => (String::new(alloc), Some(ReportFault::NoMemory)),
        };
        Pieces {
            alloc,
            report,
            text,
            lines: 0,
            fault,
        }
    }

    // Writes what waits, and answers whether all of it was taken. None of it is kept.
    fn write_text<W: Write>(&mut self, writer: &mut Counted<W>) -> bool
        ensures whole { result ≡ true → Wrote W.contents writer.old writer.new (string_bytes self.old.text) true }
        ensures part { result ≡ false → BreaksOff W.contents writer.old writer.new (string_bytes self.old.text) }
        ensures still { string_bytes self.old.text ≡ [] → writer.new ≡ writer.old }
        ensures none { string_bytes self.new.text ≡ [] }
        ensures report { self.new.report ≡ self.old.report }
        ensures lines { self.new.lines ≡ self.old.lines }
        ensures fault { self.new.fault ≡ self.old.fault }
    {
        let is_written = write_whole(writer, self.text.as_bytes());
        self.text.clear();
        is_written
    }

    // Puts the line of a row, if it has one, behind what waits, and writes this where it makes a piece. The error is why no row
    // more is taken up; `Store`: there are more lines than a number of 64 bits counts.
    fn take_up<T, W: Write>(&mut self, row: &T, writer: &mut Counted<W>) -> Result<(), ReportFault>
    where
        R: Report<T>,
        ensures { TakesUp W.contents (R.line self.old.report row.now) self.old writer.old (result_err result) self.new writer.new }
    {
        let Some(line) = self.report.line(self.alloc, row)? else {
            return Ok(());
        };
        let Some(lines) = self.lines.checked_add(1) else {
            return Err(ReportFault::Store);
        };
        self.text.push_str(line.as_str())?;
        self.lines = lines;
        if self.text.len() >= PIECE && !self.write_text(writer) {
            return Err(ReportFault::Write);
        }
        Ok(())
    }

    // Puts the total behind what waits, after a visit that nothing stopped. The error is why it isn't put; nothing is put then.
    fn add_total(&mut self, visited: Result<bool, Fault>) -> Result<(), ReportFault>
        ensures ok { OnOk result ((stop_of visited self.old.fault ≡ None) × (string_bytes self.new.text ≡ left_of self.old visited)) }
        ensures err { OnErr result (string_bytes self.new.text ≡ string_bytes self.old.text) }
        ensures why { IfErr result (IsStopped (stop_of visited self.old.fault)) }
    {
        if let Some(fault) = stop_of(visited, self.fault) {
            return Err(fault);
        }
        let total = format!(in self.alloc; "TOTAL {}\n", self.lines)?;
        self.text.push_str(total.as_str())?;
        Ok(())
    }

    /// Writes what waits and, after a visit that nothing stopped, the total. The error is why the report isn't whole: a fault of
    /// the visit's store, else a write that failed, else want of memory. What waited is written before it is told.
    pub fn end<W: Write>(
        mut self,
        visited: Result<bool, Fault>,
        writer: &mut Counted<W>,
    ) -> Result<(), ReportFault>
    where
        R: Drop,
        ensures { Ends W.contents self visited writer.old result writer.new }
    {
        let closed = self.add_total(visited);
        let is_written = self.write_text(writer);
        if is_written {
            closed
        } else {
            Err(fault_after_write(closed))
        }
    }
}

impl<T: Drop, R: Report<T>, W: Write> Visitor<T, Counted<W>> for Pieces<R> {
    ghost use Rattle.std.specs.Prelude.{IsSome};
    ghost use Rattle.td_report_pieces.specs.Pieces.{SeesBy};

    ghost sees = { λ old before row new after. SeesBy W.contents old.fault (R.line old.report row) old before new after };

    ghost stops = { λ now _. IsSome now.fault };

    fn see(&mut self, row: T, writer: &mut Counted<W>) -> bool {
        if self.fault.is_none() {
            self.fault = self.take_up(&row, writer).err();
        }
        self.fault.is_none()
    }
}
