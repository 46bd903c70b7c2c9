//! Laws of requests that are split by holder, as contracts of functions that do nothing.
ghost use Rattle.td_split_jobs.specs.RequestLaws.{RepliesAreGathered, ServingsHoldAsOne, ServingsTellAsOne};

use td_desk::Desk;
use td_split::union_is_one_content;

/// Where the same of a holder's commands failed, the holder's own desk replies to them, byte for byte, what one desk for
/// all replies, over whatever connections they come, and in the end both have the same rows of the holder.
pub fn servings_tell_as_one<D: Desk, E: Desk>()
    ensures { ServingsTellAsOne D.seen E.seen }
{}

/// Request by request, the bytes of the one desk's replies are those that are gathered from the desks that the requests
/// were sent to, where the same of them failed.
pub fn replies_are_gathered<D: Desk, E: Desk>()
    ensures { RepliesAreGathered D.seen E.seen }
{}

/// In the end the one desk's content is the union of what the desks hold of their own holders.
pub fn servings_hold_as_one<D: Desk, E: Desk>()
    ensures { ServingsHoldAsOne D.seen E.seen }
{
    union_is_one_content();
}
