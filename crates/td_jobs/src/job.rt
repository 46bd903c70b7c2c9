//! A job at a desk: at one that was handed in, or at a new one in memory.
ghost use Rattle.std.specs.Prelude.{◌≡◌, MatchResult};
ghost use Rattle.td_desk.specs.declared.plain.PlainDesk.{PlainDesk};
ghost use Rattle.td_jobs.specs.Desks.{BeginsEmpty, IsReady, in_memory};
ghost use Rattle.td_jobs.specs.Jobs.{Doing, IsUntouched, job_known, state_of};

use std::alloc::Global;
use std::io::{Read, Write};
use td_base::Counted;
use td_desk::{Desk, PlainDesk};
use td_machine::{Machine, Surroundings};
use td_words::Office;

/// A job that is done at a desk, wherever its records stand.
pub trait DeskJob: Drop {
    /// How it ended.
    type End;

    // what it does
    ghost does: { Doing Self Self.End };

    /// Does it at a desk, which is handed back: at this moment, in seconds since 1970, or by the machine's clock where none
    /// is given.
    fn on<D: Desk, M: Machine, R: Read, W: Write>(
        self,
        alloc: Global,
        desk: D,
        machine: &mut M,
        at: Option<i64>,
        input: &mut Counted<R>,
        out: &mut Counted<W>,
    ) -> (Self::End, D)
        ensures { IsReady D.seen desk
            → does _ _ _ _ _ _ _ D.seen (job_known R.remaining W.contents ⟦<M as Surroundings>⟧.around) at self
            (state_of desk input.old out.old machine.old) (state_of result.1 input.new out.new machine.new) result.0 };
}

/// Does a job at a new desk of the office in memory, which is gone after it, and answers how the job ended. An error: there was no
/// memory for the desk, and the job wasn't done; nothing was read, written, or asked of the machine.
pub fn in_memory<M: Machine, R: Read, W: Write, J: DeskJob>(
    alloc: Global,
    machine: &mut M,
    office: Office,
    job: J,
    input: &mut Counted<R>,
    out: &mut Counted<W>,
) -> Result<J::End, J>
    ensures { MatchResult result
        (λ end. (opened left : PlainDesk) × BeginsEmpty office.country opened
        × J.does _ _ _ _ _ _ _ in_memory (job_known R.remaining W.contents ⟦<M as Surroundings>⟧.around) office.at job
        (state_of opened input.old out.old machine.old) (state_of left input.new out.new machine.new) end)
        (λ undone. (undone ≡ job) × IsUntouched input.old input.new out.old out.new machine.old machine.new) }
{
    let Ok(desk) = PlainDesk::new(alloc, office.country) else {
        return Err(job);
    };
    let (end, _desk) = job.on(alloc, desk, machine, office.at, input, out);
    Ok(end)
}
