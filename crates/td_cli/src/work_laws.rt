//! The headline over all that runs do over one file, whether requests come over streams or as rows, as contracts of a function that
//! does nothing.
ghost use Rattle.std.specs.Prelude.{◌≡◌, ℕ, ℤ, List, [], ◌∷◌, ◌++◌, map, IsTrue};
ghost use Rattle.sqlite.specs.Files.{file_state};
ghost use Rattle.sqlite_wal.specs.Recovery.{Image};
ghost use Rattle.http_wire.specs.Stream.{Exchange};
ghost use Rattle.td_commands.specs.declared.command.Command.{Command};
ghost use Rattle.td_batch.specs.declared.running.BatchRun.{BatchRun};
ghost use Rattle.td_batch.specs.Runs.{IsRunOf};
ghost use Rattle.td_files.specs.Found.{FileSeen, IsClean, over_file};
ghost use Rattle.td_words.specs.declared.words.BatchKind.{BatchKind};
ghost use Rattle.td_jobs.specs.Batched.{header_of, result_line};
ghost use Rattle.td_jobs.specs.Desks.{BeginAlike};
ghost use Rattle.td_cli.specs.BatchLaws.{commands_tried, outcomes_tried};
ghost use Rattle.td_cli.specs.Desks.{BeginsKept};
ghost use Rattle.td_cli.specs.Parts.{IsWork, Part, heard_of, rows, stream, told_of};
ghost use Rattle.td_cli.specs.Runs.{GoesOnFrom, IsRun};

use sqlite_disk::Disk;

/// All that runs of the program do over one file, one after another, tells each holder what one machine tells to the holder's own
/// commands, in their order: a stream by day, the office's acts as rows by night, a stream again.
///
/// `streams`: runs of streams are such work. `batch`: so is a batch whose disk stayed clean and which no fault shut. `nothing`: a desk
/// that was opened is work without a part. `joined`: where the next run opened the file with what was left, the two are one work.
/// `alike`: two works, over files that began with the same of a holder, tell that holder the same where the holder's commands that
/// did not fail are equal in the two, with their moments and how they came. How they are spread over runs, and what other holders
/// asked for, makes no difference.
pub fn work_over_one_file_is_one_machines<F: Disk, OtherF: Disk>()
    ensures streams { (country : List ℕ) (opened left : FileSeen F.Disk) (streams : List (List Exchange))
        → IsRun country opened streams left → IsWork country opened (map (λ es. stream es) streams) left }
    ensures batch { (country : List ℕ) (image : Image) (which : BatchKind) (at : ℤ) (commands : List Command) (r : BatchRun)
        (opened left : FileSeen F.Disk)
        → BeginsKept image country opened → IsClean left → IsTrue (file_state left).is_open
        → (ran : IsRunOf over_file (result_line which) (header_of which) at commands r opened left)
        → IsWork country opened (rows (commands_tried at commands r ran) (outcomes_tried at commands r ran) ∷ []) left }
    ensures nothing { (country : List ℕ) (image : Image) (opened : FileSeen F.Disk)
        → BeginsKept image country opened → IsClean opened → IsWork country opened [] opened }
    ensures joined { (country : List ℕ) (opened between next left : FileSeen F.Disk) (parts others : List Part)
        → IsWork country opened parts between → GoesOnFrom country between next → IsWork country next others left
        → IsWork country opened (parts ++ others) left }
    ensures alike { (country : List ℕ) (H : ℕ) (opened left : FileSeen F.Disk) (other other_left : FileSeen OtherF.Disk)
        (parts others : List Part)
        → IsWork country opened parts left → IsWork country other others other_left
        → BeginAlike country H (over_file.content opened) (over_file.content other)
        → heard_of country H parts ≡ heard_of country H others → told_of country H parts ≡ told_of country H others }
{}
