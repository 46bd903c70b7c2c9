//! Connections served one after another.
ghost use Rattle.std.specs.Prelude.{map};
ghost use Rattle.td_http.specs.Connections.{ServesConnections, ServesNext, connections_by, desk_server};
ghost use Rattle.td_http.specs.Private.{IsPrivateOver};

use crate::{Clock, Service, serve_stream};
use std::alloc::Global;
use std::io;
use std::io::{Read, Write};
use td_base::Counted;
use td_desk::Desk;

/// Where connections come from. Each implementation says by `gives`, `refuses` and `takes` what it may do.
pub trait Connections {
    ghost use Rattle.std.specs.Prelude.{MatchResult};
    ghost use Rattle.std.specs.declared.io.Error.{Error};

    /// The side of a connection from which its requests are read.
    type Reader: Read + Drop;

    /// The side to which its replies are written.
    type Writer: Write + Drop;

    // the source, the two sides that it gave, the source after it
    ghost gives: { Self → Self.Reader → Self.Writer → Self → Type 0 };

    // the source, why it had no connection, the source after it
    ghost refuses: { Self → Error → Self → Type 0 };

    // the source, the two sides that it took back, the source after it
    ghost takes: { Self → Self.Reader → Self.Writer → Self → Type 0 };

    /// The two sides of the next connection. An `Err`: there is none, and why.
    fn accept(&mut self) -> io::Result<(Self::Reader, Self::Writer)>
        ensures { MatchResult result (λ sides. gives self.old sides.0 sides.1 self.new)
            (λ why. refuses self.old why self.new) };

    /// Takes back both sides of a connection whose stream has ended.
    fn close(&mut self, reader: Self::Reader, writer: Self::Writer)
        ensures { takes self.old reader writer self.new };
}

// Serves the next connection. An `Err`: the source had none, and why.
fn serve_next<L: Connections, C: Clock, D: Desk>(
    alloc: Global,
    connections: &mut L,
    clock: &mut C,
    service: &mut Service<D>,
) -> io::Result<()>
    ensures { ServesNext (connections_by L.Reader.remaining L.Writer.contents L.gives L.takes L.refuses) (desk_server C.ticks D.seen)
        (record { source = connections.old; clock = clock.old; handler = service.old })
        (record { source = connections.new; clock = clock.new; handler = service.new }) result }
{
    let (reader, writer) = connections.accept()?;
    let mut reader = Counted::new(reader);
    let mut writer = Counted::new(writer);
    let _end = serve_stream(alloc, &mut reader, &mut writer, clock, service);
    connections.close(reader.into_inner(), writer.into_inner());
    Ok(())
}

/// Serves that many connections, one after another, at one service of a desk. The stream of each is served
/// from what the one before left, and its end, whatever it is, ends that connection alone. An `Err`: the
/// source had no further connection, and this is its reason; those before it were served.
///
/// `served`: each connection is one stream at the desk that the earlier ones left, in order. `private`: to
/// each holder at once, the bytes of the replies over all connections are those of the holder's own machine
/// on the holder's requests in the order of the connections.
pub fn serve_connections<L: Connections, C: Clock, D: Desk>(
    alloc: Global,
    connections: &mut L,
    count: u32,
    clock: &mut C,
    service: &mut Service<D>,
) -> io::Result<()>
    ensures { (served : ServesConnections
        (connections_by L.Reader.remaining L.Writer.contents L.gives L.takes L.refuses) (desk_server C.ticks D.seen)
        (record { source = connections.old; clock = clock.old; handler = service.old })
        (record { source = connections.new; clock = clock.new; handler = service.new }) count result)
        × IsPrivateOver D.seen service.old service.new
        (map (λ connection. connection.exchanges) served.all_served) }
{
    for _ in 0..count {
        serve_next(alloc, connections, clock, service)?;
    }
    Ok(())
}
