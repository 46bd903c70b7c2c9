//! Streams of requests served by a desk.
ghost use Rattle.std.specs.Prelude.{◌≡◌};
ghost use Rattle.td_http.specs.Serving.{IsHandledBy, IsHeadHandledBy, IsPrivate};
ghost use Rattle.http_wire.specs.Stream.{Serves};

use crate::service::Service;
use http_wire::{Clock, Handler, Reply, Request, StreamEnd, serve_requests};
use std::alloc::Global;
use std::io::{Read, Write};
use td_base::Counted;
use td_desk::Desk;

impl<D: Desk> Handler for Service<D> {
    ghost use Rattle.td_http.specs.Serving.{IsHandledBy, IsHeadHandledBy};

    ghost handles = { IsHandledBy D.seen };

    ghost handles_head = { IsHeadHandledBy };

    fn handle(&mut self, alloc: Global, at: i64, request: &Request) -> Reply {
        Service::handle(self, alloc, at, request)
    }

    fn head(&mut self, alloc: Global, target: &[u8]) -> Reply {
        Service::head(self, alloc, target)
    }
}

/// Serves a stream of HTTP/1.1 requests at a desk: the replies are written in order, each request is handled
/// at the moment that the clock then shows, and a fault is told by a fixed reply whose request changed
/// nothing.
///
/// `served`: the bytes consumed are whole requests and a rest, what is written is the replies to them and
/// what parts with the rest, and each way to end says its cause. `private`: to each holder at once, the bytes
/// of the replies to the holder's requests are those of the holder's own machine over these requests alone.
pub fn serve_stream<R: Read, W: Write, C: Clock, D: Desk>(
    alloc: Global,
    reader: &mut Counted<R>,
    writer: &mut Counted<W>,
    clock: &mut C,
    service: &mut Service<D>,
) -> StreamEnd
    ensures { (served : Serves R.remaining W.contents C.ticks
        (IsHandledBy D.seen) IsHeadHandledBy
        (record { reader = reader.old; writer = writer.old; clock = clock.old; handler = service.old })
        (record { reader = reader.new; writer = writer.new; clock = clock.new; handler = service.new }) result)
        × IsPrivate D.seen service.old service.new served.run.exchanges }
{
    serve_requests(alloc, reader, writer, clock, service)
}
