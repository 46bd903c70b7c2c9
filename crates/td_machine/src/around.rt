//! All that is known of a machine as one record, which contracts of generic code quote.
use crate::machine::Machine;
use td_http::Connections;

/// A machine, with what is known of its clock and of the connections to it. It has no function.
pub trait Surroundings {
    ghost use Rattle.td_machine.specs.Machine.{Around};

    /// Where connections come from.
    type Source;

    /// The side of a connection from which requests are read.
    type Reader;

    /// The side to which replies are written.
    type Writer;

    ghost around: { Around Self Self.Source Self.Reader Self.Writer };
}

impl<M: Machine> Surroundings for M {
    type Source = M::Incoming;

    type Reader = <M::Incoming as Connections>::Reader;

    type Writer = <M::Incoming as Connections>::Writer;

    ghost around = { record {
      known = M.known;
      ticks = M.ticks;
      connections = record {
        remaining = M.Incoming.Reader.remaining;
        contents = M.Incoming.Writer.contents;
        gives = M.Incoming.gives;
        takes = M.Incoming.takes;
        refuses = M.Incoming.refuses;
      };
    } };
}
