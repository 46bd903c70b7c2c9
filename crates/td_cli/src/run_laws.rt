//! Laws of runs over a file, one after another, and of what a crash leaves on the way, as contracts of functions that do nothing.
ghost use Rattle.std.specs.Prelude.{◌≡◌, ℕ, Bool, List, [], ◌∷◌, ◌++◌, map, IsTrue, Result};
ghost use Rattle.std.specs.declared.io.Error.{Error};
ghost use Rattle.sqlite.specs.Files.{file_state};
ghost use Rattle.sqlite_wal.specs.Recovery.{Image};
ghost use Rattle.http_wire.specs.Stream.{Exchange};
ghost use Rattle.http_wire.specs.declared.stream.StreamEnd.{StreamEnd};
ghost use Rattle.td_files.specs.Found.{FileSeen, IsClean, over_file};
ghost use Rattle.td_http.specs.ConnectionLaws.{TellAlikeOver};
ghost use Rattle.td_http.specs.Kept.{IsKeptBetween};
ghost use Rattle.td_http.specs.KeptOver.{Cut, IsKeptWithin};
ghost use Rattle.td_jobs.specs.Desks.{BeginAlike, fresh_books};
ghost use Rattle.td_cli.specs.Desks.{BeginsIn};
ghost use Rattle.td_jobs.specs.Jobs.{JobState};
ghost use Rattle.td_jobs.specs.Listening.{HasServed, ServingState};
ghost use Rattle.td_jobs.specs.Piped.{IsPiped};
ghost use Rattle.td_cli.specs.Runs.{GoesOnFrom, IsRun};

use sqlite_disk::Disk;
use std::io::{Read, Write};
use td_http::Clock;
use td_machine::{Machine, Surroundings};

/// Runs of the program over one file, one after another, tell each holder what one run tells for the requests of all of them in
/// order, as an office runs it: a run for each moment, or a restart each night.
///
/// `piped`, `served`: a job of `perform_on` over a file, whose disk stayed clean and which no fault shut, is a run, of one stream or
/// of one for each connection. `joined`: two runs, the second of which opened the file with what the first left, are one run of
/// the streams of both. `alike`: two such lists of runs, over files that began with the same of a holder, tell that holder the
/// same bytes where their requests agree on the holder's commands.
pub fn runs_over_one_file_are_one_run<
    R: Read,
    W: Write,
    M: Machine,
    C: Clock,
    F: Disk,
    OtherF: Disk,
>()
    ensures piped { (country : List ℕ) (is_new : Bool) (image : Image) (old new : JobState (FileSeen F.Disk) R W C) (end : StreamEnd)
        → BeginsIn is_new image country old.desk
        → (one : IsPiped over_file R.remaining W.contents C.ticks old new end)
        → IsClean new.desk → IsTrue (file_state new.desk).is_open → IsRun country old.desk (one.served.run.exchanges ∷ []) new.desk }
    ensures served { (country : List ℕ) (is_new : Bool) (image : Image) (connections : ℕ)
        (old new : ServingState M.Incoming C (FileSeen F.Disk)) (answer : Result Unit Error)
        → BeginsIn is_new image country old.desk
        → (one : HasServed over_file ⟦<M as Surroundings>⟧.around C.ticks connections old new answer)
        → IsClean new.desk → IsTrue (file_state new.desk).is_open
        → IsRun country old.desk (map (λ connection. connection.exchanges) one.served.all_served) new.desk }
    ensures joined { (country : List ℕ) (opened between next left : FileSeen F.Disk) (streams others : List (List Exchange))
        → IsRun country opened streams between → GoesOnFrom country between next → IsRun country next others left
        → IsRun country opened (streams ++ others) left }
    ensures alike { (country : List ℕ) (H : ℕ) (opened left : FileSeen F.Disk) (other other_left : FileSeen OtherF.Disk)
        (streams others : List (List Exchange))
        → IsRun country opened streams left → IsRun country other others other_left
        → BeginAlike country H (over_file.content opened) (over_file.content other) → TellAlikeOver country H streams others }
{}

/// What was acknowledged over a file is kept. However the exchanges of a job that served a stream over a file are split in two,
/// there was a moment between them at which whatever a crash leaves is a desk's file, which the next opening takes: with the
/// accepted changes of the first part, and at most one more, which was answered by a fixed reply.
pub fn acknowledged_replies_are_kept_in_the_file<R: Read, W: Write, C: Clock, F: Disk>()
    ensures { (country : List ℕ) (is_new : Bool) (image : Image) (old new : JobState (FileSeen F.Disk) R W C) (end : StreamEnd)
        (first others : List Exchange)
        → BeginsIn is_new image country old.desk
        → (one : IsPiped over_file R.remaining W.contents C.ticks old new end)
        → IsClean new.desk → one.served.run.exchanges ≡ first ++ others
        → IsKeptBetween C.ticks over_file country (fresh_books (over_file.content old.desk)) first others
        (old.machine, one.service) (new.machine, one.served.run.handler) }
{}

/// The same of a serving over a file. Take any of its connections, and any two parts of that one's exchanges, one after the other:
/// between them there was a moment at which whatever a crash leaves is a desk's file, which the next opening takes: with the
/// accepted changes of all connections before this one and of the first part, and at most one more, which was answered by a fixed
/// reply.
pub fn acknowledged_connections_are_kept_in_the_file<M: Machine, C: Clock, F: Disk>()
    ensures { (country : List ℕ) (is_new : Bool) (image : Image) (connections : ℕ)
        (old new : ServingState M.Incoming C (FileSeen F.Disk)) (answer : Result Unit Error)
        (cut : Cut M.Incoming.Reader M.Incoming.Writer)
        → BeginsIn is_new image country old.desk
        → (one : HasServed over_file ⟦<M as Surroundings>⟧.around C.ticks connections old new answer)
        → IsClean new.desk → one.served.all_served ≡ cut.before ++ cut.connection ∷ cut.after
        → cut.connection.exchanges ≡ cut.first ++ cut.others
        → IsKeptWithin ⟦<M as Surroundings>⟧.around.connections C.ticks over_file country (fresh_books (over_file.content old.desk)) cut
        (record { source = old.source; clock = old.clock; handler = one.service }) one.served.last }
{}
