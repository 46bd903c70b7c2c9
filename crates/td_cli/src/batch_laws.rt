//! Laws of batches over a file, of what a crash leaves on the way, and of a batch among other runs, as contracts of functions that
//! do nothing.
ghost use Rattle.std.specs.Prelude.{◌≡◌, ℕ, ℤ, List, ◌++◌, zip, IsTrue, Option};
ghost use Rattle.sqlite.specs.Files.{file_state};
ghost use Rattle.sqlite_wal.specs.Recovery.{Image};
ghost use Rattle.http_wire.specs.Stream.{Exchange};
ghost use Rattle.td_commands.specs.declared.command.Command.{Command};
ghost use Rattle.td_model.specs.Content.{Content};
ghost use Rattle.td_batch.specs.declared.running.BatchRun.{BatchRun};
ghost use Rattle.td_batch.specs.Laws.{IsLater};
ghost use Rattle.td_batch.specs.Runs.{IsBatchDone, IsRunOf, outcomes_of, tried};
ghost use Rattle.td_files.specs.Found.{FileSeen, IsClean, over_file};
ghost use Rattle.td_words.specs.declared.words.BatchKind.{BatchKind};
ghost use Rattle.td_cli.specs.BatchLaws.{IsAnsweredAfterCrash, IsKeptBetweenRows, TellAlikeByRows, TriedRow, commands_tried, outcomes_tried};
ghost use Rattle.td_jobs.specs.Batched.{HasDoneRows, header_of, result_line};
ghost use Rattle.td_jobs.specs.Desks.{BeginAlike, fresh_books};
ghost use Rattle.td_jobs.specs.Jobs.{DeskAndMachine};
ghost use Rattle.td_cli.specs.Desks.{BeginsKept};
ghost use Rattle.td_cli.specs.Runs.{GoesOnFrom, IsRun, OpensAfterCrash};

use sqlite_disk::Disk;
use td_http::Clock;

/// The headline of batches. Two files of rows that `perform_on` did at desks over files for one country, of declarations or of acts,
/// whose desks began with the same of a holder: that holder is told the same by both, where the rows that were tried agree on the
/// holder's commands, their moments included, and the same of these failed, and where the files' disks are clean in the end. What
/// other holders' rows stand in the files of rows, or what else the desks' files held, makes no difference.
///
/// A row of the result file is made of its command and of what was said to it (`result_rows`).
pub fn agreeing_batches_over_files_tell_the_same<C: Clock, F: Disk, OtherC: Clock, OtherF: Disk>()
    ensures { (country : List ℕ) (H : ℕ) (which other_which : BatchKind) (at other_at : Option ℤ) (image other_image : Image)
        (rows other_rows : List Command) (r other_r : BatchRun)
        (old new : DeskAndMachine (FileSeen F.Disk) C) (other_old other_new : DeskAndMachine (FileSeen OtherF.Disk) OtherC)
        → BeginsKept image country old.desk → BeginsKept other_image country other_old.desk
        → (one : HasDoneRows over_file C.ticks at which rows old new r)
        → (other : HasDoneRows over_file OtherC.ticks other_at other_which other_rows other_old other_new other_r)
        → IsClean new.desk → IsClean other_new.desk
        → BeginAlike country H (over_file.content old.desk) (over_file.content other_old.desk)
        → TellAlikeByRows country H (commands_tried one.moment rows r one.ran) (outcomes_tried one.moment rows r one.ran)
        (commands_tried other.moment other_rows other_r other.ran) (outcomes_tried other.moment other_rows other_r other.ran) }
{}

/// What a batch over a file has done is kept. However the rows that were tried are split in two, there was a moment between them at
/// which whatever a crash leaves is a desk's file, which the next opening takes: with the accepted changes of the first part, and at
/// most one more, of a row that failed. Only the last of the rows that were tried can have failed, so before it these changes alone
/// are left.
///
/// The text is printed behind the last row. So with no row in the second part this says what a crash leaves once the text was
/// printed: each change that it tells of.
pub fn acknowledged_rows_are_kept_in_the_file<F: Disk>()
    ensures { (country : List ℕ) (image : Image) (which : BatchKind) (at : ℤ) (rows : List Command) (r : BatchRun)
        (opened left : FileSeen F.Disk) (first others : List TriedRow)
        → BeginsKept image country opened → IsClean left
        → (one : IsBatchDone over_file (result_line which) (header_of which) at rows r opened left)
        → zip (tried rows one.said r.stopped) (outcomes_of one.said r.stopped) ≡ first ++ others
        → IsKeptBetweenRows over_file country (fresh_books (over_file.content opened)) at first others opened left }
{}

/// A batch of declarations that a crash cut short may be sent again. Whatever the crash left after a first part of its rows, and
/// whatever came between, each declaration of that part that had been answered, though nobody was told yet, has that answer, and so
/// that result row, where it is done again in a batch over the file: at any moment in range that isn't before the holder's own last
/// change then.
pub fn a_batch_cut_short_is_sent_again<F: Disk, OtherF: Disk>()
    ensures { (country : List ℕ) (image : Image) (at : ℤ) (opened left : FileSeen F.Disk) (first others : List TriedRow)
        → BeginsKept image country opened → IsClean left
        → (kept : IsKeptBetweenRows over_file country (fresh_books (over_file.content opened)) at first others opened left)
        → IsAnsweredAfterCrash over_file (over_file {g = OtherF.Disk}) first kept.between }
{}

/// Whatever is done over a file leads from the content that was opened to a later one, as a batch that is sent again asks of what
/// came between.
///
/// `streams`: so do runs of streams. `batch`: so does a batch whose disk stayed clean and which no fault shut. `crash`: so does a
/// batch that a crash cut short, to whatever the crash left. `nothing`: a desk that was opened is as late as itself. `joined`: where
/// the next run opened the file with what was left, the two lead on together. `found`: what the next run opens after a crash is a
/// content that the crash may leave.
pub fn runs_over_one_file_lead_on<F: Disk>()
    ensures streams { (country : List ℕ) (opened left : FileSeen F.Disk) (streams : List (List Exchange))
        → IsRun country opened streams left → IsLater (over_file.content opened) (over_file.content left) }
    ensures batch { (country : List ℕ) (image : Image) (which : BatchKind) (at : ℤ) (rows : List Command) (r : BatchRun)
        (opened left : FileSeen F.Disk)
        → BeginsKept image country opened → IsClean left → IsTrue (file_state left).is_open
        → IsRunOf over_file (result_line which) (header_of which) at rows r opened left
        → IsLater (over_file.content opened) (over_file.content left) }
    ensures crash { (country : List ℕ) (image : Image) (at : ℤ) (opened left : FileSeen F.Disk) (first others : List TriedRow) (x : Content)
        → BeginsKept image country opened → IsClean left
        → (kept : IsKeptBetweenRows over_file country (fresh_books (over_file.content opened)) at first others opened left)
        → over_file.may_leave kept.between x → IsLater (over_file.content opened) x }
    ensures nothing { (country : List ℕ) (image : Image) (opened : FileSeen F.Disk)
        → BeginsKept image country opened → IsClean opened → IsLater (over_file.content opened) (over_file.content opened) }
    ensures joined { (country : List ℕ) (before after : Content) (between next : FileSeen F.Disk)
        → IsLater before (over_file.content between) → GoesOnFrom country between next → IsLater (over_file.content next) after
        → IsLater before after }
    ensures found { (country : List ℕ) (crashed next : FileSeen F.Disk)
        → OpensAfterCrash country crashed next → over_file.may_leave crashed (over_file.content next) }
{}
