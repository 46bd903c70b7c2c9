//! What a journal has after a job, and what a standby desk tells: the contracts are laws, and the calls do nothing.
ghost use Rattle.td_journal_jobs.specs.Kept.{BatchIsKept, ServingIsKept, StreamIsKept};
ghost use Rattle.td_journal_jobs.specs.Standby.{StandbyGoesOn};

use http_wire::Clock;
use sqlite_disk::Disk;
use std::io::{Read, Write};
use td_desk::Desk;
use td_journal::{a_batch_is_journaled, a_serving_is_journaled, a_stream_is_journaled};
use td_machine::{Machine, Surroundings};

/// A stream that was served at a desk which keeps a journal, and is clean and live in the end: the journal has grown by the rows of the
/// accepted changes among the requests that were answered, in their order, and by nothing else.
pub fn a_streams_changes_are_kept<D: Desk, F: Disk, R: Read, W: Write, C: Clock>()
    ensures { StreamIsKept F.Disk D.seen R.remaining W.contents C.ticks }
{
    a_stream_is_journaled::<D, F, C>();
}

/// The same of connections that were served one after the other.
pub fn a_servings_changes_are_kept<D: Desk, F: Disk, M: Machine, C: Clock>()
    ensures { ServingIsKept F.Disk D.seen ⟦<M as Surroundings>⟧.around C.ticks }
{
    a_serving_is_journaled::<D, F, M::Incoming, C>();
}

/// The same of the rows of a batch.
pub fn a_batchs_changes_are_kept<D: Desk, F: Disk, M: Machine>()
    ensures { BatchIsKept F.Disk D.seen M.ticks }
{
    a_batch_is_journaled::<D, F>();
}

/// A standby desk that followed a journal to its end, and then served connections, told each holder what the holder's own machine says:
/// the replies of the rows, and then those of the serving from where the rows left it.
pub fn a_standby_goes_on<D: Desk, R: Read, M: Machine, C: Clock>()
    ensures { StandbyGoesOn D.seen R.remaining ⟦<M as Surroundings>⟧.around C.ticks }
{}
