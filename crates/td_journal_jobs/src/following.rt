//! A job that is done at a desk once the desk has followed a journal.
ghost use Rattle.std.specs.Prelude.{◌≡◌};
ghost use Rattle.td_journal_jobs.specs.Following.{DoesAfter};

use std::alloc::Global;
use std::io::{Read, Write};
use td_base::Counted;
use td_desk::Desk;
use td_jobs::DeskJob;
use td_machine::Machine;
use td_replay::{FollowFault, follow};

/// The job that does the rows of a journal that come by the input, each as it comes and at its own moment, and another one where the
/// input has ended. That one is given what is left of the input. Where the rows aren't followed to the end it isn't begun.
#[derive(Drop)]
pub struct Following<J> {
    pub job: J,
}

impl<J: DeskJob> DeskJob for Following<J> {
    type End = Result<J::End, FollowFault>;

    ghost does = { λ D R W M L Reads Writes view known at job old new end.
        DoesAfter view known.remaining old new
        (λ begun end. J.does D R W M L Reads Writes view known at job.job begun new end) end };

    fn on<D: Desk, M: Machine, R: Read, W: Write>(
        self,
        alloc: Global,
        mut desk: D,
        machine: &mut M,
        at: Option<i64>,
        input: &mut Counted<R>,
        out: &mut Counted<W>,
    ) -> (Result<J::End, FollowFault>, D) {
        match follow(alloc, &mut desk, input) {
            Ok(_) => {
                let (end, desk) = self.job.on(alloc, desk, machine, at, input, out);
                (Ok(end), desk)
            }
            Err(why) => (Err(why), desk),
        }
    }
}
