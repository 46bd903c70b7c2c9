//! Laws of starts, as contracts of functions that do nothing.
ghost use Rattle.td_journal_start.specs.Laws.{JournalIsRead, NoRowIsForeign, NotRefusedAgain, StartIsWhole, StartedTwice};

use sqlite_disk::Disk;
use td_desk::Desk;

/// A start behind a start, with the desk's content and the file as that left them, does nothing.
pub fn started_twice<D: Desk, F: Disk>()
    ensures { StartedTwice D.seen F.Disk }
{}

/// And it isn't refused for what stands in the journal.
pub fn not_refused_again<D: Desk, F: Disk>()
    ensures { NotRefusedAgain D.seen F.Disk }
{}

/// Where the desk's content is what all rows of the file make, or all but the last, it is after a start what all of them make, and
/// the text is their lines.
pub fn start_is_whole<D: Desk, F: Disk>()
    ensures { StartIsWhole D.seen F.Disk }
{}

/// And there the last row isn't told as foreign.
pub fn no_row_is_foreign<D: Desk, F: Disk>()
    ensures { NoRowIsForeign D.seen F.Disk }
{}

/// And, where the last row with what is torn behind it isn't too long for what is read of a file, the file is taken for a journal.
pub fn journal_is_read<D: Desk, F: Disk>()
    ensures { JournalIsRead D.seen F.Disk }
{}
