//! One stream of requests, from the input to the output.
ghost use Rattle.td_http.specs.Serving.{desk_of};
ghost use Rattle.td_jobs.specs.Desks.{IsReady};
ghost use Rattle.td_jobs.specs.Jobs.{job_known, state_of};
ghost use Rattle.td_jobs.specs.Piped.{IsPipedAt};

use crate::job::DeskJob;
use std::alloc::Global;
use std::io::{Read, Write};
use td_base::Counted;
use td_desk::Desk;
use td_http::{Service, StreamEnd, serve_stream};
use td_machine::{FixedClock, Machine, Surroundings};

/// The job that serves one stream, and answers how it ended. It asks nothing of the machine but its clock.
#[derive(Drop)]
pub struct Piping;

impl DeskJob for Piping {
    type End = StreamEnd;

    ghost does = { λ D R W M L Reads Writes view known at job old new end. IsPipedAt view known at old new end };

    fn on<D: Desk, M: Machine, R: Read, W: Write>(
        self,
        alloc: Global,
        desk: D,
        machine: &mut M,
        at: Option<i64>,
        input: &mut Counted<R>,
        out: &mut Counted<W>,
    ) -> (StreamEnd, D) {
        let mut service = Service::new(desk);
        let end = pipe(alloc, machine, at, &mut service, input, out);
        (end, service.into_desk())
    }
}

// Serves it at a service.
fn pipe<D: Desk, M: Machine, R: Read, W: Write>(
    alloc: Global,
    machine: &mut M,
    at: Option<i64>,
    service: &mut Service<D>,
    input: &mut Counted<R>,
    out: &mut Counted<W>,
) -> StreamEnd
    ensures { IsReady D.seen (desk_of service.old)
        → IsPipedAt D.seen (job_known R.remaining W.contents ⟦<M as Surroundings>⟧.around) at
        (state_of (desk_of service.old) input.old out.old machine.old)
        (state_of (desk_of service.new) input.new out.new machine.new) result }
{
    match at {
        Some(at) => serve_stream(alloc, input, out, &mut FixedClock { at }, service),
        None => serve_stream(alloc, input, out, machine, service),
    }
}
