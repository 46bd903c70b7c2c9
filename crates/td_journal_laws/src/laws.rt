//! What a journal's rows make, whatever a crash leaves of its desk: the contracts are laws, and the calls do nothing but call the
//! laws below them.
ghost use Rattle.td_journal_laws.specs.Crashes.{ACrashAfterARunIsMadeGood, ACrashBetweenIsMadeGood, ACrashIsMadeGood, ARowFirstIsMadeGood};
ghost use Rattle.td_journal_laws.specs.Crashes.{ARunIsAtRest, AnAnswerIsAtRest, NoCrashAfterARunIsForeign, NoCrashBetweenIsForeign, NoCrashIsForeign};
ghost use Rattle.td_journal_laws.specs.Laws.{ARunIsWhole, AStartIsWhole, NoStartIsForeign, RowsAreDone};

use sqlite_disk::Disk;
use td_desk::Desk;
use td_journal::JournaledDesk;
use td_journal_rows::{changes_are_rows, requests_read_back};
use td_journal_start::{no_row_is_foreign, start_is_whole};
use td_redo::{crash_leaves_either, redone_over_its_beginning};

/// What a journal has grown by is the lines of rows of changes, which were done one after the other: a desk may be rebuilt of them.
pub fn rows_are_done()
    ensures { RowsAreDone }
{
    requests_read_back();
    changes_are_rows();
    redone_over_its_beginning::<()>();
}

/// Where a journal's rows make the content of its desk, they do so after further commands, whatever the way in which they came.
pub fn a_run_is_whole<D: Desk, F: Disk>()
    ensures { ARunIsWhole D.seen F.Disk }
{
    rows_are_done();
}

/// And they do so after a start over a desk that has all of them or lacks the last, with a torn row behind them or none.
pub fn a_start_is_whole<D: Desk, F: Disk>()
    ensures { AStartIsWhole D.seen F.Disk }
{
    start_is_whole::<D, F>();
}

/// Such a start isn't refused for a row of another desk.
pub fn no_start_is_foreign<D: Desk, F: Disk>()
    ensures { NoStartIsForeign D.seen F.Disk }
{
    no_row_is_foreign::<D, F>();
}

/// A desk at rest is at rest again once a command was answered, with the command's row.
pub fn an_answer_is_at_rest<D: Desk, F: Disk>()
    ensures { AnAnswerIsAtRest D.seen F.Disk }
{
    requests_read_back();
    changes_are_rows();
    redone_over_its_beginning::<()>();
}

/// And they do so after a start that follows a crash, where a decision was carried or failed. An answered change is among them.
pub fn a_crash_is_made_good<D: Desk, F: Disk>()
    ensures good { ACrashIsMadeGood D.seen F.Disk }
    ensures within { ARowFirstIsMadeGood D.seen F.Disk }
    ensures own { NoCrashIsForeign D.seen F.Disk }
{
    requests_read_back();
    changes_are_rows();
    redone_over_its_beginning::<()>();
    crash_leaves_either::<JournaledDesk<D, F>>();
    a_start_is_whole::<D, F>();
    no_start_is_foreign::<D, F>();
}

/// The same of a crash before a decision is carried, and between commands.
pub fn a_crash_between_is_made_good<D: Desk, F: Disk>()
    ensures good { ACrashBetweenIsMadeGood D.seen F.Disk }
    ensures own { NoCrashBetweenIsForeign D.seen F.Disk }
{
    a_start_is_whole::<D, F>();
    no_start_is_foreign::<D, F>();
}

/// A desk at rest is at rest after many commands, in whatever way they came; so a crash behind them costs none of their rows. That a
/// stream, connections and the rows of a batch are such commands is said by td_journal.
pub fn a_run_is_at_rest<D: Desk, F: Disk>()
    ensures rest { ARunIsAtRest D.seen F.Disk }
    ensures good { ACrashAfterARunIsMadeGood D.seen F.Disk }
    ensures own { NoCrashAfterARunIsForeign D.seen F.Disk }
{
    a_run_is_whole::<D, F>();
    a_crash_between_is_made_good::<D, F>();
}
