//! What `migrate` leaves to the next run, as the contract of a function that does nothing.
ghost use Rattle.td_cli.specs.UpgradeLaws.{BeginsWithWhatWasHeld};

use sqlite_disk::Disk;

/// The next run over a file that `migrate` brought to the newest version begins with what the file held before. So it answers each
/// holder from the very book that stood in the older tables.
pub fn an_upgraded_file_goes_on_with_its_content<F: Disk>()
    ensures { BeginsWithWhatWasHeld F.Disk }
{}
