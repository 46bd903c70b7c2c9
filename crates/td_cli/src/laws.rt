//! The headline over two runs of the program, as contracts of functions that do nothing.
ghost use Rattle.std.specs.Prelude.{◌≡◌, ℕ, Bool, List, map, Result};
ghost use Rattle.std.specs.declared.io.Error.{Error};
ghost use Rattle.sqlite_wal.specs.Recovery.{Image};
ghost use Rattle.td_files.specs.Found.{FileSeen, IsClean, over_file};
ghost use Rattle.td_desk.specs.declared.plain.PlainDesk.{PlainDesk};
ghost use Rattle.td_jobs.specs.Desks.{BeginAlike, BeginsEmpty, in_memory};
ghost use Rattle.td_cli.specs.Desks.{BeginsIn};
ghost use Rattle.td_cli.specs.Parts.{heard_of, told_of};
ghost use Rattle.td_cli.specs.Worked.{KeepsHeadline, Work};
ghost use Rattle.td_jobs.specs.Jobs.{JobState};
ghost use Rattle.td_jobs.specs.Listening.{HasServed, ServingState};
ghost use Rattle.td_jobs.specs.Piped.{IsPiped};
ghost use Rattle.td_http.specs.ConnectionLaws.{TellAlikeOver};
ghost use Rattle.td_http.specs.Laws.{TellAlike};
ghost use Rattle.http_wire.specs.declared.stream.StreamEnd.{StreamEnd};

use sqlite_disk::Disk;
use std::io::{Read, Write};
use td_http::Clock;
use td_machine::{Machine, Surroundings};

/// Two jobs in memory that `perform_on` did for one country, whatever their clocks, inputs and outputs: each holder
/// is told the same by both, byte for byte, where the requests that were handled agree on the holder's
/// commands (their moments, and whether a reply has to tell that the stream stops) and the same of these
/// failed. What other holders asked for, or how many there are, makes no difference.
pub fn agreeing_jobs_tell_the_same<
    R: Read,
    W: Write,
    C: Clock,
    OtherR: Read,
    OtherW: Write,
    OtherC: Clock,
>()
    ensures { (country : List ℕ) (H : ℕ) (old new : JobState PlainDesk R W C) (end : StreamEnd)
        (other_old other_new : JobState PlainDesk OtherR OtherW OtherC) (other_end : StreamEnd)
        → BeginsEmpty country old.desk → BeginsEmpty country other_old.desk
        → (one : IsPiped in_memory R.remaining W.contents C.ticks old new end)
        → (other : IsPiped in_memory OtherR.remaining OtherW.contents OtherC.ticks other_old other_new other_end)
        → TellAlike country H one.served.run.exchanges other.served.run.exchanges }
{}

/// Two jobs over files that `perform_on` did for one country, whose desks began with the same of a holder: that holder is told the
/// same by both, as above, where the files' disks are clean in the end. What else the files held, or that one was new, makes no
/// difference.
pub fn agreeing_jobs_over_files_tell_the_same<
    R: Read,
    W: Write,
    C: Clock,
    F: Disk,
    OtherR: Read,
    OtherW: Write,
    OtherC: Clock,
    OtherF: Disk,
>()
    ensures { (country : List ℕ) (H : ℕ) (image other_image : Image) (is_new is_other_new : Bool)
        (old new : JobState (FileSeen F.Disk) R W C) (end : StreamEnd)
        (other_old other_new : JobState (FileSeen OtherF.Disk) OtherR OtherW OtherC) (other_end : StreamEnd)
        → BeginsIn is_new image country old.desk → BeginsIn is_other_new other_image country other_old.desk
        → (one : IsPiped over_file R.remaining W.contents C.ticks old new end)
        → (other : IsPiped over_file OtherR.remaining OtherW.contents OtherC.ticks other_old other_new other_end)
        → IsClean new.desk → IsClean other_new.desk
        → BeginAlike country H (over_file.content old.desk) (over_file.content other_old.desk)
        → TellAlike country H one.served.run.exchanges other.served.run.exchanges }
{}

/// Two servings in memory of `perform_on` for one country, whatever their clocks, numbers of connections and peers: over all its connections, in their order, each holder is told the same by both, byte for byte, where
/// the requests that were handled agree on the holder's commands (their moments, and whether a reply has to tell
/// that the stream stops) and the same of these failed. How they are spread over connections, and what other
/// holders asked for, makes no difference; nor whether all connections came that were asked for.
pub fn agreeing_servings_tell_the_same<M: Machine, C: Clock, OtherM: Machine, OtherC: Clock>()
    ensures { (country : List ℕ) (H : ℕ) (connections other_connections : ℕ) (answer other_answer : Result Unit Error)
        (old new : ServingState M.Incoming C PlainDesk) (other_old other_new : ServingState OtherM.Incoming OtherC PlainDesk)
        → BeginsEmpty country old.desk → BeginsEmpty country other_old.desk
        → (one : HasServed in_memory ⟦<M as Surroundings>⟧.around C.ticks connections old new answer)
        → (other : HasServed in_memory ⟦<OtherM as Surroundings>⟧.around OtherC.ticks other_connections other_old other_new other_answer)
        → TellAlikeOver country H (map (λ connection. connection.exchanges) one.served.all_served)
        (map (λ connection. connection.exchanges) other.served.all_served) }
{}

/// The same of two servings over files, whose desks began with the same of a holder, where the files' disks are clean in the
/// end.
pub fn agreeing_servings_over_files_tell_the_same<
    M: Machine,
    C: Clock,
    F: Disk,
    OtherM: Machine,
    OtherC: Clock,
    OtherF: Disk,
>()
    ensures { (country : List ℕ) (H : ℕ) (image other_image : Image) (is_new is_other_new : Bool)
        (connections other_connections : ℕ) (answer other_answer : Result Unit Error)
        (old new : ServingState M.Incoming C (FileSeen F.Disk))
        (other_old other_new : ServingState OtherM.Incoming OtherC (FileSeen OtherF.Disk))
        → BeginsIn is_new image country old.desk → BeginsIn is_other_new other_image country other_old.desk
        → (one : HasServed over_file ⟦<M as Surroundings>⟧.around C.ticks connections old new answer)
        → (other : HasServed over_file ⟦<OtherM as Surroundings>⟧.around OtherC.ticks other_connections other_old other_new other_answer)
        → IsClean new.desk → IsClean other_new.desk
        → BeginAlike country H (over_file.content old.desk) (over_file.content other_old.desk)
        → TellAlikeOver country H (map (λ connection. connection.exchanges) one.served.all_served)
        (map (λ connection. connection.exchanges) other.served.all_served) }
{}

/// The headline over any two calls of `perform_on`, by what `IsPerformed` says of the work of each: wherever their desks'
/// records stand, and whether requests came over a stream, over connections or as rows, a holder of whom the two desks had the same at
/// first is told the same by both, where the holder's requests, acts and rows that did not fail are equal in the two, with their
/// moments and how they came.
pub fn agreeing_work_tells_the_same()
    ensures { (H : ℕ) (one other : Work) → KeepsHeadline one → KeepsHeadline other
        → BeginAlike one.begun.country H one.begun other.begun
        → heard_of one.begun.country H one.parts ≡ heard_of one.begun.country H other.parts
        → told_of one.begun.country H one.parts ≡ told_of one.begun.country H other.parts }
{}
