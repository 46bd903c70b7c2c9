//! Laws of batches, as contracts of functions that do nothing.
ghost use Rattle.td_batch.specs.Laws.{AgainChangesNothing, AgreeingBatchesTellTheSame, AnsweredAgain};

use td_desk::Desk;

/// The headline of batches: two that agree, moments included, on a holder's rows, of which the same failed, tell that
/// holder the same, whatever they have of others; at desks whose rows of that holder are equal.
pub fn agreeing_batches_tell_the_same<D: Desk, E: Desk>()
    ensures { AgreeingBatchesTellTheSame D.seen E.seen }
{}

/// A batch of declarations that no fault stopped changes nothing where it is done again at the same moment, with no
/// command between.
pub fn a_batch_done_again_changes_nothing<D: Desk>()
    ensures { AgainChangesNothing D.seen }
{}

/// A declaration of a batch that was answered has the same answer, and so the same result row, where it is done again
/// in a batch at any moment in range that isn't before the holder's own last change, whatever came between.
pub fn an_answered_declaration_is_answered_again<D: Desk>()
    ensures { AnsweredAgain D.seen }
{}
