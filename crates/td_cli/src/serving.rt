//! A stream served at a desk, and connections to a port: at once, or by a standby desk, once it has followed a journal.
ghost use Rattle.std.specs.Prelude.{◌≡◌, option_map, string_bytes};
ghost use Rattle.td_cli.specs.Exits.{of_job, of_serving, of_standby, of_stream};
ghost use Rattle.td_cli.specs.Journaled.{named_desk};
ghost use Rattle.td_cli.specs.Served.{IsPipeDone, IsServingDone};
ghost use Rattle.td_cli.specs.Worked.{AnyWork};
ghost use Rattle.td_cli.specs.World.{IsLentStill, lent_by, world_of};

use crate::context::JobContext;
use crate::exits::{Cause, exit, of_file, of_serving, of_standby, of_stream};
use std::alloc::Global;
use std::io::{Read, Write};
use td_files::DeskFault;
use td_http::StreamEnd;
use td_jobs::{Piping, ServingEnd};
use td_journal_jobs::{FollowFault, Following};
use td_machine::{Drive, Machine, Surroundings};
use td_words::{Listening, Office, Records};

impl<M, V, O, R, W, E> JobContext<'_, '_, '_, '_, '_, '_, M, V, O, R, W, E>
where
    M: Machine,
    V: Drive,
    O: Drive,
    R: Read,
    W: Write,
    E: Write,
{
    /// Serves one stream at a desk of the office whose records stand there, tells how it ended, and gives the status; where a journal is
    /// named, that desk keeps it.
    pub(crate) fn pipe(
        &mut self,
        alloc: Global,
        office: Office,
        records: &Records,
        journal: &Option<String>,
    ) -> u8
        ensures lent { IsLentStill self.old self.new }
        ensures done { IsPipeDone (lent_by ⟦<M as Surroundings>⟧.around R.remaining W.contents E.contents V.known V.Disk.Disk O.known O.Disk.Disk)
            AnyWork (named_desk office records.now (option_map string_bytes journal.now))
            (world_of _ self.old) (world_of _ self.new) result }
    {
        let end = self.with_journal(alloc, office, records, journal, Piping);
        exit(alloc, stream_cause(end), self.errors)
    }

    /// Serves connections at a desk of the office whose records stand there, and gives the status; where a journal is named, that desk
    /// keeps it. With `first` the rows of a journal that come by the input are done before, as they come, and the port is opened where the
    /// input ends; without it the input isn't read.
    pub(crate) fn serve(
        &mut self,
        alloc: Global,
        office: Office,
        listening: Listening,
        first: bool,
        records: &Records,
        journal: &Option<String>,
    ) -> u8
        ensures lent { IsLentStill self.old self.new }
        ensures done { IsServingDone (lent_by ⟦<M as Surroundings>⟧.around R.remaining W.contents E.contents V.known V.Disk.Disk O.known O.Disk.Disk)
            AnyWork first (named_desk office records.now (option_map string_bytes journal.now)) listening
            (world_of _ self.old) (world_of _ self.new) result }
    {
        if first {
            let job = Following { job: listening };
            let end = self.with_journal(alloc, office, records, journal, job);
            exit(alloc, standby_cause(end), self.errors)
        } else {
            let end = self.with_journal(alloc, office, records, journal, listening);
            exit(alloc, serving_cause(end), self.errors)
        }
    }
}

// The cause by which a stream ended, or for which there was no desk for it, if any.
fn stream_cause(end: Result<StreamEnd, DeskFault>) -> Option<Cause>
    ensures { result ≡ of_job of_stream end }
{
    match end {
        Ok(end) => of_stream(end),
        Err(why) => Some(of_file(why)),
    }
}

// The cause by which a serving ended, or for which there was no desk for it, if any.
fn serving_cause(end: Result<ServingEnd, DeskFault>) -> Option<Cause>
    ensures { result ≡ of_job of_serving end }
{
    match end {
        Ok(end) => of_serving(end),
        Err(why) => Some(of_file(why)),
    }
}

// The same of a standby desk.
fn standby_cause(end: Result<Result<ServingEnd, FollowFault>, DeskFault>) -> Option<Cause>
    ensures { result ≡ of_job of_standby end }
{
    match end {
        Ok(end) => of_standby(end),
        Err(why) => Some(of_file(why)),
    }
}
