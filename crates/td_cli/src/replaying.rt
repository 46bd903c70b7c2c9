//! A journal, done again at a desk.
ghost use Rattle.std.specs.Prelude.{◌≡◌, IfErr, IfOk, None, map, option_map};
ghost use Rattle.td_journal_lines.specs.Rows.{numbered};
ghost use Rattle.td_cli.specs.Journaled.{named_desk};
ghost use Rattle.td_cli.specs.Replayed.{AreRowsOf, IsJournalReplayed, IsReplayAtDesk, IsUnreadFor};
ghost use Rattle.td_cli.specs.Worked.{AnyWork};
ghost use Rattle.td_cli.specs.World.{IsLentStill, OpensDeskFileAlone, lent_by, world_of};
ghost use Rattle.td_cli.specs.declared.exits.Cause.TheVariants.{Differs};

use crate::context::JobContext;
use crate::exits::{Cause, fault, of_file, of_journal, of_read_error};
use std::alloc::Global;
use std::io::{Read, Write};
use td_journal_jobs::Replaying;
use td_journal_lines::ChangeRow;
use td_machine::{Drive, Machine, Surroundings};
use td_replay::{first_fall, first_gap, read_changes};
use td_words::{Office, Records};

impl<M, V, O, R, W, E> JobContext<'_, '_, '_, '_, '_, '_, M, V, O, R, W, E>
where
    M: Machine,
    V: Drive,
    O: Drive,
    R: Read,
    W: Write,
    E: Write,
{
    /// Does the rows of the journal in the machine's file at the path `csv` again, each at its own moment, at a desk of the office whose
    /// records stand there; prints what is said to each, and gives the status. Numbers run from 1 on, or rise at least where the rows are
    /// a `part` of a journal. No desk's file is opened where the rows can't be read. The input isn't read, and no clock is asked.
    pub(crate) fn replay(
        &mut self,
        alloc: Global,
        office: Office,
        csv: &str,
        part: bool,
        records: &Records,
    ) -> u8
        ensures lent { IsLentStill self.old self.new }
        ensures done { IsJournalReplayed (lent_by ⟦<M as Surroundings>⟧.around R.remaining W.contents E.contents V.known V.Disk.Disk O.known O.Disk.Disk)
            AnyWork (named_desk office records.now None) csv.now part (world_of _ self.old) (world_of _ self.new) result }
    {
        let bytes = match self.machine.read_file(alloc, csv) {
            Ok(bytes) => bytes,
            Err(why) => return fault(alloc, of_read_error(why), self.errors),
        };
        match rows_of(alloc, part, &bytes) {
            Ok(rows) => self.replay_rows(alloc, office, records, rows),
            Err(cause) => fault(alloc, cause, self.errors),
        }
    }

    // Does the rows at the desk, and tells what became of them: the fault that stopped the run, or the first row that is told something
    // else.
    fn replay_rows(
        &mut self,
        alloc: Global,
        office: Office,
        records: &Records,
        rows: Vec<ChangeRow>,
    ) -> u8
        ensures lent { IsLentStill self.old self.new }
        ensures kept { OpensDeskFileAlone (lent_by ⟦<M as Surroundings>⟧.around R.remaining W.contents E.contents V.known V.Disk.Disk O.known O.Disk.Disk)
            (world_of _ self.old) (world_of _ self.new) }
        ensures done { IsReplayAtDesk (lent_by ⟦<M as Surroundings>⟧.around R.remaining W.contents E.contents V.known V.Disk.Disk O.known O.Disk.Disk)
            AnyWork (named_desk office records.now None) (map numbered rows.items) (world_of _ self.old) (world_of _ self.new) result }
    {
        let job = Replaying { rows };
        match self.at_desk(alloc, office, records, job) {
            Ok(run) => self.tell_result(alloc, &run.text, run.stopped, differs_cause(run.differs)),
            Err(undone) => fault(alloc, of_file(undone.why), self.errors),
        }
    }
}

// The cause by which a replay ended in which a row is told something else.
fn differs_cause(differs: Option<u64>) -> Option<Cause>
    ensures { result ≡ option_map Differs differs }
{
    match differs {
        Some(row) => Some(Cause::Differs(row)),
        None => None,
    }
}

// The rows that the bytes of a file are, in their order. An error: why they aren't.
fn rows_of(alloc: Global, part: bool, bytes: &[u8]) -> Result<Vec<ChangeRow>, Cause>
    ensures rows { IfOk result (λ rows. AreRowsOf part bytes.now (map numbered rows.items)) }
    ensures unread { IfErr result (IsUnreadFor part bytes.now) }
{
    let rows = match read_changes(alloc, bytes) {
        Ok(changes) => changes.rows,
        Err(why) => return Err(of_journal(why)),
    };
    let misplaced = if part {
        first_fall(&rows)
    } else {
        first_gap(&rows)
    };
    match misplaced {
        Some(row) => Err(Cause::ForeignRow(row)),
        None => Ok(rows),
    }
}
