//! The headline over files that were split or joined, as contracts of a function that does nothing.
ghost use Rattle.td_cli.specs.PartLaws.{HoldersGoOnAfterExtract, HoldersGoOnAfterJoin, HoldersGoOnAtAJoin, HoldersGoOnAtAPart, JoinedAreTied, PartsAreTied};

use sqlite_disk::Disk;
use td_desk::fresh_books_are_tied;
use td_extract::accounts_are_of_the_range;
use td_join::accounts_are_of_either;

/// What each holder is told goes on where the holder's rows went: at a file that `extract` made as at the whole, and at one that `join`
/// put together as at the two.
///
/// `parts`, `joined`: the books that say what a content has say what its part has, and what two contents have in one. `part`, `join`: so
/// whatever runs do over such a file tells each holder what the holder's own machine says, from the book that it had before.
/// `after_extract`, `after_join`: and so do runs that go on from what an extract left of a new file, or a join of a file.
pub fn holders_go_on_where_their_rows_go<F: Disk>()
    ensures parts { PartsAreTied }
    ensures joined { JoinedAreTied }
    ensures part { HoldersGoOnAtAPart F.Disk }
    ensures join { HoldersGoOnAtAJoin F.Disk }
    ensures after_extract { HoldersGoOnAfterExtract F.Disk }
    ensures after_join { HoldersGoOnAfterJoin F.Disk }
{
    fresh_books_are_tied();
    accounts_are_of_the_range();
    accounts_are_of_either();
}
