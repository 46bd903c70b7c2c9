//! Laws of replays, as contracts of functions that do nothing.
ghost use Rattle.td_replay.specs.Laws.{ChangedReplyIsTold, DeskIsRebuilt, PartDiffersNowhere, ReadInOneWay};

use td_desk::Desk;
use td_journal::a_part_tells_the_same;

/// Bytes are the lines of one list of rows, with one torn rest.
pub fn changes_are_read_in_one_way()
    ensures { ReadInOneWay }
{}

/// The rows of a journal, replayed at a desk of the content with which it began, differ nowhere, and rebuild the content.
pub fn desk_is_rebuilt<D: Desk>()
    ensures { DeskIsRebuilt D.seen }
{}

/// The rows of one holder alone, replayed at a desk that has the same of that holder as the journal's had, differ nowhere.
pub fn part_differs_nowhere<D: Desk>()
    ensures { PartDiffersNowhere D.seen }
{
    a_part_tells_the_same();
}

/// Where the reply of one row was changed, the replay tells that row.
pub fn changed_reply_is_told<D: Desk>()
    ensures { ChangedReplyIsTold D.seen }
{}
