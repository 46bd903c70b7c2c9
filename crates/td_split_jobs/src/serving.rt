//! Connections served at a desk, as the laws of split requests speak of them.
ghost use Rattle.std.specs.Prelude.{map};
ghost use Rattle.td_model.specs.Content.{IsSound};
ghost use Rattle.td_http.specs.Connections.{ServesConnections, connections_by, desk_server};
ghost use Rattle.td_http.specs.Serving.{desk_of};
ghost use Rattle.td_split_jobs.specs.Requests.{IsServingAt};

use std::alloc::Global;
use std::io;
use td_desk::Desk;
use td_http::{Clock, Connections, Service, serve_connections};

/// Serves that many connections, one after another, as `serve_connections` does, and says of them what the laws ask for.
pub fn serve_share<L: Connections, C: Clock, D: Desk>(
    alloc: Global,
    connections: &mut L,
    count: u32,
    clock: &mut C,
    service: &mut Service<D>,
) -> io::Result<()>
    ensures { (served : ServesConnections
        (connections_by L.Reader.remaining L.Writer.contents L.gives L.takes L.refuses) (desk_server C.ticks D.seen)
        (record { source = connections.old; clock = clock.old; handler = service.old })
        (record { source = connections.new; clock = clock.new; handler = service.new }) count result)
        × (D.seen.is_clean (desk_of service.new) → D.seen.is_live (desk_of service.old) → IsSound (D.seen.content (desk_of service.old))
        → IsServingAt D.seen (D.seen.content (desk_of service.old)).country
        (map (λ connection. connection.exchanges) served.all_served) service.old service.new) }
{
    serve_connections(alloc, connections, count, clock, service)
}
