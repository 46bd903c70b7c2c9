//! What a journal has of the commands that were answered while it was kept: the contracts are laws, and the calls do nothing.
ghost use Rattle.td_http.specs.Connections.{connections_by};
ghost use Rattle.td_journal.specs.Growth.{BatchIsJournaled, ServingIsJournaled, StreamIsJournaled};
ghost use Rattle.td_journal.specs.Parts.{PartTellsTheSame};

use http_wire::Clock;
use sqlite_disk::Disk;
use td_desk::Desk;
use td_http::Connections;

/// A stream of requests: the journal of a desk that is clean and live in the end has the rows of its accepted changes, in their
/// order, and none of any other request.
pub fn a_stream_is_journaled<D: Desk, F: Disk, C: Clock>()
    ensures { StreamIsJournaled F.Disk D.seen C.ticks }
{}

/// The same of connections that were served one after the other.
pub fn a_serving_is_journaled<D: Desk, F: Disk, L: Connections, C: Clock>()
    ensures { ServingIsJournaled F.Disk D.seen (connections_by L.Reader.remaining L.Writer.contents L.gives L.takes L.refuses) C.ticks }
{}

/// The same of the rows of a batch.
pub fn a_batch_is_journaled<D: Desk, F: Disk>()
    ensures { BatchIsJournaled F.Disk D.seen }
{}

/// A holder's part of the commands, done by itself at a desk that has the same of that holder, has the replies that the holder's
/// commands had among all others: the rows of one holder are told the same without the rows of any other.
pub fn a_part_tells_the_same()
    ensures { PartTellsTheSame }
{}
