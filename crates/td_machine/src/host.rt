//! The machine itself, of which nothing is known. What is trusted is here: that each call does on the system what its name says.
ghost use Rattle.td_machine.specs.Machine.{Known};

use crate::clock::MachineClock;
use crate::machine::{ListenError, Machine, ReadError};
use std::alloc::Global;
use std::fs;
use std::io::ErrorKind;
use std::net::{Ipv4Addr, SocketAddr, TcpListener};
use td_http::{Clock, Incoming};

/// The machine that the handle stands for.
#[derive(Drop)]
pub struct HostMachine<'r> {
    pub rt: &'r HostRuntime,
}

impl Clock for HostMachine<'_> {
    ghost ticks = { λ _ _ _. Unit {0} };

    fn seconds(&mut self) -> i64 {
        MachineClock { rt: self.rt }.seconds()
    }
}

impl Machine for HostMachine<'_> {
    type Incoming = Incoming;

    ghost use Rattle.std.specs.Prelude.{None};

    ghost known = { record {
      holds = λ _ _. None;
      reads = λ _ _. Unit {0};
      listens = λ _ _ _ _ _. Unit {0};
      cannot_listen = λ _ _ _ _. Unit {0};
      stops_listening = λ _ _ _. Unit {0};
    } };

    fn read_file(&mut self, _alloc: Global, path: &str) -> Result<Vec<u8>, ReadError> {
        fs::read(self.rt, path).map_err(|error| match error.kind() {
            ErrorKind::OutOfMemory => ReadError::NoMemory,
            _ => ReadError::File,
        })
    }

    fn listen(&mut self, _alloc: Global, port: u16, idle: u16) -> Result<Incoming, ListenError> {
        let address = SocketAddr::from((Ipv4Addr::LOCALHOST, port));
        let listener = TcpListener::bind(self.rt, address).map_err(|_| ListenError)?;
        Incoming::new(*self.rt, listener, idle).map_err(|_| ListenError)
    }

    fn stop_listening(&mut self, mut incoming: Incoming) {
        incoming.end();
    }
}
