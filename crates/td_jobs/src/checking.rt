//! No request at all: whether there is a desk.
ghost use Rattle.std.specs.Prelude.{◌≡◌};
ghost use Rattle.td_jobs.specs.Jobs.{IsStillBeside};

use crate::job::DeskJob;
use std::alloc::Global;
use std::io::{Read, Write};
use td_base::Counted;
use td_desk::Desk;
use td_machine::Machine;

/// The job that leaves a desk as it was opened. It reads and prints nothing, and asks no clock.
#[derive(Drop)]
pub struct Checking;

impl DeskJob for Checking {
    type End = ();

    ghost does = { λ D R W M L Reads Writes view known at job old new end. IsStillBeside old new × (new.desk ≡ old.desk) };

    fn on<D: Desk, M: Machine, R: Read, W: Write>(
        self,
        _alloc: Global,
        desk: D,
        _machine: &mut M,
        _at: Option<i64>,
        _input: &mut Counted<R>,
        _out: &mut Counted<W>,
    ) -> ((), D) {
        ((), desk)
    }
}
