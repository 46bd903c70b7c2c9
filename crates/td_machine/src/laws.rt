//! A law of a machine in memory, as the contract of a function that does nothing.
ghost use Rattle.std.specs.Prelude.{List};
ghost use Rattle.td_http.specs.Connections.{Between, Connection, ServedConnections, connections_by, desk_server};
ghost use Rattle.td_http.specs.declared.service.Service.{Service};
ghost use Rattle.td_machine.specs.Pinned.{AreServedInOrder};

use crate::memory::MemoryIncoming;
use std::collections::VecDeque;
use std::io::{Read, Write};
use td_desk::Desk;
use td_http::{Clock, Connections};

/// The connections that were served of a machine in memory are those of its clients, in their order, and what was written to each is
/// kept in that client's place.
pub fn clients_are_served_in_order<C: Clock, D: Desk>()
    ensures { (old new : Between MemoryIncoming C (Service D)) (all_served : List (Connection _ _))
        → ServedConnections (connections_by ⟦<VecDeque<u8> as Read>⟧.remaining ⟦<Vec<u8> as Write>⟧.contents
        ⟦<MemoryIncoming as Connections>⟧.gives ⟦<MemoryIncoming as Connections>⟧.takes ⟦<MemoryIncoming as Connections>⟧.refuses)
        (desk_server C.ticks D.seen) old all_served new
        → AreServedInOrder old.source.clients.items new.source.clients.items old.source.told.items new.source.told.items
        old.source.gone all_served }
{}
