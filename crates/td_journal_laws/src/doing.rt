//! A command done at a desk that keeps a journal: what the laws of crashes suppose of its two calls holds of them.
ghost use Rattle.td_model.specs.Content.{IsSound};
ghost use Rattle.td_journal_laws.specs.Crashes.{IsDoneAt};

use sqlite_disk::Disk;
use std::alloc::Global;
use td_commands::Stamped;
use td_desk::{Desk, Outcome};
use td_journal::JournaledDesk;

/// Does one command, as it is done at any desk: it is weighed, and the decision is carried.
pub fn a_command_is_done<D: Desk, F: Disk>(
    alloc: Global,
    desk: &mut JournaledDesk<D, F>,
    stamped: &Stamped,
) -> Outcome
    ensures { D.seen.is_clean desk.new.desk → IsSound (D.seen.content desk.old.desk)
        → IsDoneAt D.seen desk.old stamped.now result desk.new }
{
    match desk.weigh(alloc, stamped.at, &stamped.command) {
        Ok(decision) => match desk.carry(alloc, decision) {
            Ok(said) => Outcome::Said(said),
            Err(fault) => Outcome::Failed(fault),
        },
        Err(fault) => Outcome::Failed(fault),
    }
}
