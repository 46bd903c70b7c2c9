//! Laws of what a crash leaves, and of what a walk along a desk's rows gives, as contracts of functions that do nothing.
ghost use Rattle.td_table_model.specs.Listed.{guarantees_listed, movements_listed};
ghost use Rattle.td_store_load.specs.Placed.{guarantees_placed, movements_placed};
ghost use Rattle.td_store.specs.Kept.{sql_view};
ghost use Rattle.td_store.specs.Laws.{AcknowledgedIsKept, AcknowledgedIsKeptMeanwhile, DesksTreesOpen, WalksGiveWhatIsListed};

use sqlite_trees::store::Alter;

/// What a crash may leave of a desk (`may_leave` of what is seen of it) opens again: a connection that was opened over such trees
/// holds the desk's content, and so, by its clause `sound`, `SqlDesk::open` for the desk's country refuses it as `Store` or
/// `NoMemory` alone.
pub fn what_a_crash_leaves_opens<S: Alter>()
    ensures { DesksTreesOpen S.Store }
{}

/// A decision that was acknowledged is kept: after `Ok` of a `write`, and while later calls change no row, whatever a crash leaves
/// is a desk's file of the content with it (its clauses `written` and `settled` say which content that is); and during a
/// further `write` such a file, or one of the content after that change.
pub fn acknowledged_decisions_are_kept<S: Alter>()
    ensures kept { AcknowledgedIsKept S.Store }
    ensures meanwhile { AcknowledgedIsKeptMeanwhile S.Store }
{}

/// A walk gives what is listed: what calls of `MovementRows::next` one after another give, with the disk clean to the end, is the
/// first of the desk's movements, by holder and then by serial, and at the first `Ok(None)` all of them; and the desk has the content
/// that it had. So do those of `GuaranteeRows::next` with its guarantees. `IsNext` is what `next` says, clause by clause.
pub fn walks_give_what_is_listed<S: Alter>()
    ensures movements { WalksGiveWhatIsListed (sql_view S.Store) movements_placed movements_listed }
    ensures guarantees { WalksGiveWhatIsListed (sql_view S.Store) guarantees_placed guarantees_listed }
{}
