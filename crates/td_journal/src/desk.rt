//! A desk around another, that writes the row of each accepted change before it is carried.
ghost use Rattle.std.specs.Prelude.{◌≡◌, Err, IfOk, None};
ghost use Rattle.td_base.specs.Days.{moment_of};
ghost use Rattle.td_desk.specs.declared.fault.Fault.{Fault};
ghost use Rattle.td_journal.specs.Texts.{IsLineOf};

use crate::journal::Journal;
use sqlite_disk::Disk;
use std::alloc::Global;
use td_acts::known;
use td_answers::said_body;
use td_base::{Country, Moment};
use td_desk::{Command, Decision, Desk, Fault, Said};
use td_journal_rows::{row_of_change, write_row};

/// A desk that keeps a journal of its accepted changes. It answers nothing but `Store` after a fault by which it isn't known
/// whether a change stands, and after one that left a row in the journal whose change doesn't stand.
#[derive(Drop)]
pub struct JournaledDesk<D: Desk, F: Disk> {
    desk: D,
    journal: Journal<F>,
    // The row of the change that was weighed last, until it is carried.
    row: Option<Vec<u8>>,
}

impl<D: Desk, F: Disk> JournaledDesk<D, F> {
    ghost use Rattle.td_journal.specs.Journaled.{waiting};

    /// The desk with this journal, in which the rows of its further changes are written.
    pub fn new(desk: D, journal: Journal<F>) -> Self
        ensures desk { result.desk ≡ desk }
        ensures journal { result.journal ≡ journal }
        ensures waiting { waiting result ≡ None }
    {
        JournaledDesk {
            desk,
            journal,
            row: None,
        }
    }

    /// The desk, and its journal.
    pub fn into_parts(self) -> (D, Journal<F>)
        ensures desk { result.0 ≡ self.desk }
        ensures journal { result.1 ≡ self.journal }
    {
        (self.desk, self.journal)
    }
}

// The line of the row with this number, of a command that comes at that number of seconds since 1970, and to which that is said.
fn line_of(
    alloc: Global,
    number: u64,
    at: i64,
    command: &Command,
    said: &Said,
) -> Result<Vec<u8>, Fault>
    ensures line { IfOk result (λ line. IsLineOf number at command.now said.now line.items) }
    ensures store { result ≡ Err Fault.Store → moment_of at ≡ None }
{
    let Ok(moment) = Moment::new(at) else {
        return Err(Fault::Store);
    };
    let reply = said_body(alloc, said)?;
    let seconds = moment.get().unsigned_abs();
    let row = row_of_change(alloc, number, seconds, command, reply.as_bytes())?;
    Ok(write_row(alloc, &row)?)
}

impl<D: Desk, F: Disk> Desk for JournaledDesk<D, F> {
    ghost use Rattle.td_journal.specs.Journaled.{MayCarry, journaled};

    ghost seen = { journaled D.seen };

    ghost decided = { MayCarry D.seen D.decided };

    fn country(&self) -> Country {
        self.desk.country()
    }

    fn weigh(&mut self, alloc: Global, at: i64, command: &Command) -> Result<Decision, Fault> {
        // For its clause: the parts of the command are in the ranges of their types.
        let _known = known(command);
        self.row = None;
        if !self.journal.is_open() {
            return Err(Fault::Store);
        }
        let decision = match self.desk.weigh(alloc, at, command) {
            Ok(decision) => decision,
            Err(fault) => return Err(fault),
        };
        if !decision.changes() {
            return Ok(decision);
        }
        match line_of(alloc, self.journal.next(), at, command, decision.said()) {
            Ok(line) => {
                self.row = Some(line);
                Ok(decision)
            }
            Err(fault) => {
                decision.waive();
                Err(fault)
            }
        }
    }

    fn carry(&mut self, alloc: Global, decision: Decision) -> Result<Said, Fault> {
        if !decision.changes() {
            return self.desk.carry(alloc, decision);
        }
        let Some(row) = self.row.take() else {
            decision.waive();
            return Err(Fault::Store);
        };
        let Some(written) = self.journal.write_behind(&row) else {
            decision.waive();
            let _is_cut = self.journal.cut();
            return Err(Fault::Store);
        };
        match self.desk.carry(alloc, decision) {
            Ok(said) => {
                self.journal.take_in(written);
                Ok(said)
            }
            Err(Fault::NoMemory) => {
                if self.journal.cut() {
                    Err(Fault::NoMemory)
                } else {
                    Err(Fault::Store)
                }
            }
            Err(Fault::Store) => {
                self.journal.shut();
                Err(Fault::Store)
            }
        }
    }
}
