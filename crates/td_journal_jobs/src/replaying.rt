//! The rows of a journal, done again at a desk.
ghost use Rattle.std.specs.Prelude.{◌≡◌, map};
ghost use Rattle.td_jobs.specs.Jobs.{IsStillBeside};
ghost use Rattle.td_journal_lines.specs.Rows.{numbered};
ghost use Rattle.td_replay.specs.Replays.{IsReplayOf};

use std::alloc::Global;
use std::io::{Read, Write};
use td_base::Counted;
use td_desk::Desk;
use td_jobs::DeskJob;
use td_journal_lines::ChangeRow;
use td_machine::Machine;
use td_replay::{ReplayRun, replay};

/// The job that does these rows again, each at its own moment, and answers what became of them. It reads and prints nothing, and asks no
/// clock: what is printed of the rows is in its answer.
#[derive(Drop)]
pub struct Replaying {
    pub rows: Vec<ChangeRow>,
}

impl DeskJob for Replaying {
    type End = ReplayRun;

    ghost does = { λ D R W M L Reads Writes view known at job old new run.
        IsStillBeside old new × IsReplayOf view (map numbered job.rows.items) run old.desk new.desk };

    fn on<D: Desk, M: Machine, R: Read, W: Write>(
        self,
        alloc: Global,
        mut desk: D,
        _machine: &mut M,
        _at: Option<i64>,
        _input: &mut Counted<R>,
        _out: &mut Counted<W>,
    ) -> (ReplayRun, D) {
        let run = replay(alloc, &mut desk, &self.rows);
        (run, desk)
    }
}
