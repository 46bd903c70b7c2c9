//! Laws of rows that are split by holder, as contracts of functions that do nothing.
ghost use Rattle.td_split_jobs.specs.RowLaws.{BatchesHoldAsOne, BatchesTellAsOne, ResultIsGathered, RowsAreGathered};

use td_desk::Desk;
use td_split::union_is_one_content;

/// Where the same of a holder's rows failed, the result file of the holder's own desk has for them what the result file
/// of one desk for all has, and in the end both have the same rows of the holder.
pub fn batches_tell_as_one<D: Desk, E: Desk>()
    ensures { BatchesTellAsOne D.seen E.seen }
{}

/// Row by row, for the rows that were done at both: what the one desk's result file says is what is gathered from the
/// result files of the desks that the rows were sent to.
pub fn rows_are_gathered<D: Desk, E: Desk>()
    ensures { RowsAreGathered D.seen E.seen }
{}

/// The same of whole files, where no fault stopped a desk.
pub fn result_is_gathered<D: Desk, E: Desk>()
    ensures { ResultIsGathered D.seen E.seen }
{}

/// In the end the one desk's content is the union of what the desks hold of their own holders.
pub fn batches_hold_as_one<D: Desk, E: Desk>()
    ensures { BatchesHoldAsOne D.seen E.seen }
{
    union_is_one_content();
}
