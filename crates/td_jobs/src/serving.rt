//! Connections to a port of this machine.
ghost use Rattle.std.specs.Prelude.{◌≡◌};
ghost use Rattle.td_http.specs.Serving.{desk_of};
ghost use Rattle.td_jobs.specs.Desks.{IsReady};
ghost use Rattle.td_jobs.specs.Listening.{AreLinesOf, HasServedAt, ServesAs, ServesThere, server_of, without_input};

use crate::job::DeskJob;
use std::alloc::{AllocError, Global};
use std::io;
use std::io::{Read, Write};
use td_base::{Counted, write_whole};
use td_desk::Desk;
use td_http::{Service, serve_connections};
use td_machine::{FixedClock, Machine, Surroundings};
use td_words::Listening;

/// How a serving ended.
#[derive(Clone, Copy, Debug, PartialEq, Eq)]
pub enum ServingEnd {
    /// All connections were served, and that was printed.
    Done,
    /// There was no memory for what is printed.
    NoMemory,
    /// The port couldn't be listened on, or no further connection came.
    Socket,
    /// What is printed couldn't be written.
    Write,
}

// What is printed: once the port is listened on, and once all connections were served.
#[derive(Drop)]
struct PrintedLines {
    first: String,
    last: String,
}

impl PrintedLines {
    ghost use Rattle.std.specs.Prelude.{IfOk};
    ghost use Rattle.td_jobs.specs.Listening.{AreLinesOf};

    fn of(alloc: Global, listening: Listening) -> Result<Self, AllocError>
        ensures { IfOk result (AreLinesOf listening) }
    {
        Ok(PrintedLines {
            first: format!(in alloc; "listening 127.0.0.1:{}\n", listening.port)?,
            last: format!(in alloc; "served {}\n", listening.connections)?,
        })
    }
}

/// The job that serves so many connections to a port. It reads no input, and prints that the port is listened on, and in
/// the end that all were served.
impl DeskJob for Listening {
    type End = ServingEnd;

    ghost does = { λ D R W M L Reads Writes view known at job old new end.
        (new.input ≡ old.input) × ServesAs view known.contents known.around at job end (without_input old) (without_input new) };

    fn on<D: Desk, M: Machine, R: Read, W: Write>(
        self,
        alloc: Global,
        desk: D,
        machine: &mut M,
        at: Option<i64>,
        _input: &mut Counted<R>,
        out: &mut Counted<W>,
    ) -> (ServingEnd, D) {
        let mut service = Service::new(desk);
        let end = serve_printing(alloc, self, machine, at, &mut service, out);
        (end, service.into_desk())
    }
}

// Serves them at a service.
fn serve_printing<D: Desk, M: Machine, W: Write>(
    alloc: Global,
    listening: Listening,
    machine: &mut M,
    at: Option<i64>,
    service: &mut Service<D>,
    out: &mut Counted<W>,
) -> ServingEnd
    ensures { IsReady D.seen (desk_of service.old)
        → ServesAs D.seen W.contents ⟦<M as Surroundings>⟧.around at listening result
        (server_of (desk_of service.old) out.old machine.old) (server_of (desk_of service.new) out.new machine.new) }
{
    match PrintedLines::of(alloc, listening) {
        Ok(lines) => listen(alloc, listening, &lines, machine, at, service, out),
        Err(_) => ServingEnd::NoMemory,
    }
}

// Listens on the port, and serves the connections at a service.
fn listen<D: Desk, M: Machine, W: Write>(
    alloc: Global,
    listening: Listening,
    lines: &PrintedLines,
    machine: &mut M,
    at: Option<i64>,
    service: &mut Service<D>,
    out: &mut Counted<W>,
) -> ServingEnd
    ensures { IsReady D.seen (desk_of service.old) → AreLinesOf listening lines.now
        → ServesAs D.seen W.contents ⟦<M as Surroundings>⟧.around at listening result
        (server_of (desk_of service.old) out.old machine.old) (server_of (desk_of service.new) out.new machine.new) }
{
    let Ok(mut incoming) = machine.listen(alloc, listening.port, listening.idle) else {
        return ServingEnd::Socket;
    };
    let end = serve_there(
        alloc,
        listening,
        lines,
        machine,
        at,
        &mut incoming,
        service,
        out,
    );
    machine.stop_listening(incoming);
    end
}

// Serves the connections that come, and prints the lines before and after.
fn serve_there<D: Desk, M: Machine, W: Write>(
    alloc: Global,
    listening: Listening,
    lines: &PrintedLines,
    machine: &mut M,
    at: Option<i64>,
    incoming: &mut M::Incoming,
    service: &mut Service<D>,
    out: &mut Counted<W>,
) -> ServingEnd
    ensures { IsReady D.seen (desk_of service.old) → AreLinesOf listening lines.now
        → ServesThere D.seen W.contents ⟦<M as Surroundings>⟧.around at listening result
        (record { serving = record { source = incoming.old; clock = machine.old; desk = desk_of service.old }; output = out.old })
        (record { serving = record { source = incoming.new; clock = machine.new; desk = desk_of service.new }; output = out.new }) }
{
    if !write_whole(out, lines.first.as_bytes()) {
        return ServingEnd::Write;
    }
    let count = listening.connections;
    match serve_by(alloc, count, machine, at, incoming, service) {
        Ok(()) => {}
        Err(_) => return ServingEnd::Socket,
    }
    if !write_whole(out, lines.last.as_bytes()) {
        return ServingEnd::Write;
    }
    ServingEnd::Done
}

// Serves so many of them by the clock of the job.
fn serve_by<D: Desk, M: Machine>(
    alloc: Global,
    connections: u32,
    machine: &mut M,
    at: Option<i64>,
    incoming: &mut M::Incoming,
    service: &mut Service<D>,
) -> io::Result<()>
    ensures { IsReady D.seen (desk_of service.old)
        → HasServedAt D.seen ⟦<M as Surroundings>⟧.around at connections
        (record { source = incoming.old; clock = machine.old; desk = desk_of service.old })
        (record { source = incoming.new; clock = machine.new; desk = desk_of service.new }) result }
{
    match at {
        Some(at) => {
            let mut clock = FixedClock { at };
            serve_connections(alloc, incoming, connections, &mut clock, service)
        }
        None => serve_connections(alloc, incoming, connections, machine, service),
    }
}
