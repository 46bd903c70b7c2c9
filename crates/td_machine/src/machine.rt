//! The machine that a program stands in, as generic code is lent it.
ghost use Rattle.std.specs.Prelude.{◌≡◌};

use std::alloc::Global;
use td_http::{Clock, Connections};

/// Why a file wasn't read.
#[derive(Clone, Copy, Debug, PartialEq, Eq)]
pub enum ReadError {
    /// There is none at the path, or it can't be read.
    File,
    /// Want of memory.
    NoMemory,
}

/// A port couldn't be listened on.
#[derive(Clone, Copy, Debug, PartialEq, Eq)]
pub struct ListenError;

/// What a program is lent in place of the system. Its clock is that of its supertrait, which answers -1 where it fails.
/// Each implementation says by `known` what is known of it.
pub trait Machine: Clock {
    ghost use Rattle.std.specs.Prelude.{◌≡◌, IfErr, IfOk, MatchResult, None};
    ghost use Rattle.td_machine.specs.Machine.{AreHeld, Known};
    ghost use Rattle.td_machine.specs.declared.machine.ReadError.TheVariants.{File};

    /// Where the connections to a port come from.
    type Incoming: Connections + Drop;

    ghost known: { Known Self Self.Incoming };

    /// The bytes of the file at a path. `File`: there is none, or it can't be read; `NoMemory`: want of memory.
    fn read_file(&mut self, alloc: Global, path: &str) -> Result<Vec<u8>, ReadError>
        ensures bytes { IfOk result (λ bytes. AreHeld (known.holds self.old path.now) bytes.items) }
        ensures unread { IfErr result (λ why. why ≡ File → known.holds self.old path.now ≡ None) }
        ensures stays { known.reads self.old self.new };

    /// Listens on a port of this machine at 127.0.0.1. A read of a connection waits at most `idle` seconds, from 1 on.
    fn listen(&mut self, alloc: Global, port: u16, idle: u16) -> Result<Self::Incoming, ListenError>
        ensures { MatchResult result (λ incoming. known.listens self.old port idle incoming self.new)
            (λ why. known.cannot_listen self.old port idle self.new) };

    /// Listens no more on the port that these connections came to.
    fn stop_listening(&mut self, incoming: Self::Incoming)
        ensures { known.stops_listening self.old incoming self.new };
}
