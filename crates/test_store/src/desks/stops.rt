//! Stops at each call of a file, as where the power fails: of a desk's file while it is made, while decisions are
//! carried, and while it is brought to the newest version; and what is found when the files are opened again. A call
//! is a read too, a look at the length, or a sync.
mod files;

use super::accepted::{START, lodge, open, register, release};
use super::made;
use super::migrations::{ROWS, SECOND_ROWS, rows_of, second_rows_of};
use super::opening::{opened as desk_over, seen};
use super::rows::tables;
use super::walks::{guarantees_told, movements_told};
use crate::examples::{GRN, MRN, country, fill, grn, make, mrn, office};
use files::{Calls, Contents, Crashed, File, FusedFiles, Left, blank, closed, opened};
use sqlite::{Alter, Connection};
use std::process::Abort;
use td_batch::{DeclarationRow, read_declarations, run_declarations};
use td_desk::{Command, Fault, Outcome, Said, Stamped, do_one};
use td_migrate::{MigrateFault, upgrade};
use td_movement::{Control, Ground};
use td_schema::Layout;
use td_store::{OpenFault, Refused, SqlDesk};

/// What is done to the files until they stop.
#[derive(Clone, Copy, Debug)]
enum Job {
    /// A desk is made.
    Making,
    /// The list is carried out, and then the batch.
    Carrying,
    /// The file is brought to the newest version: first to version 2, and then to version 3.
    Upgrading,
}

impl Job {
    /// How many of its parts are done by one call, which answers the last one alone.
    fn parts_at_once(self) -> usize {
        match self {
            Job::Making | Job::Carrying => 1,
            Job::Upgrading => 2,
        }
    }
}

fn at_start(command: Command) -> Stamped {
    Stamped { at: START, command }
}

/// A holder's way from the registration to the write-off of a movement.
pub fn list(rt: &(impl AllocGlobal + Abort)) -> [Stamped; 7] {
    let mrn = mrn(rt, MRN);
    let office = office(rt, b"DE005600");
    let (result, ground) = (Control::A1, Ground::Results);
    [
        at_start(register(rt, 1)),
        at_start(open(rt, 1, 1_000_000, 50)),
        at_start(lodge(rt, 1, b"A1", grn(rt, GRN), 500_000)),
        at_start(release(rt, mrn, b"2025-03-08")),
        at_start(Command::Ie007 { mrn, office }),
        at_start(Command::Ie018 { mrn, result }),
        at_start(Command::Ie045 { mrn, ground }),
    ]
}

/// Two further declarations.
const BATCH: &[u8] =
    b"holder,lrn,departure,destination,lines\n000001,B1,CH001251,DE005600,25CH0000010000014:AB12:5.00\n000001,B2,CH001251,DE005600,25CH0000010000014:AB12:7.50\n";

pub fn batch(rt: &(impl AllocGlobal + Abort)) -> Vec<DeclarationRow> {
    let rows = read_declarations(rt.alloc(), BATCH);
    rows.ok().expect(rt, "declarations")
}

// Whether the command was answered; else the file has stopped.
fn is_answered<S: Alter>(
    rt: &(impl AllocGlobal + Abort),
    desk: &mut SqlDesk<S>,
    stamped: &Stamped,
) -> bool {
    match do_one(rt.alloc(), desk, stamped) {
        Outcome::Said(Said::Answered(_)) => true,
        outcome => {
            assert!(rt; matches!(outcome, Outcome::Failed(Fault::Store)));
            false
        }
    }
}

// How many rows of a batch were done: else the file has stopped.
fn rows_done<S: Alter>(
    rt: &(impl AllocGlobal + Abort),
    desk: &mut SqlDesk<S>,
    rows: &[DeclarationRow],
) -> usize {
    let run = run_declarations(rt.alloc(), desk, START, rows);
    assert!(rt; !run.has_refusal());
    assert!(rt; run.stopped == None || run.stopped == Some(Fault::Store));
    run.done
}

// How many commands of the list, and rows of the batch behind it, were answered.
fn carried<S: Alter>(rt: &(impl AllocGlobal + Abort), desk: &mut SqlDesk<S>) -> usize {
    let list = list(rt);
    for (answered, stamped) in list.iter().enumerate() {
        if !is_answered(rt, desk, stamped) {
            return answered;
        }
    }
    rows_done(rt, desk, &batch(rt)).saturating_add(list.len())
}

/// All that the desk shows: its holders' views, and what it gives of movements and of guarantees, row by row.
fn told<S: Alter>(rt: &(impl AllocGlobal + Abort), desk: &mut SqlDesk<S>) -> String {
    let mut words = seen(rt, desk);
    let movements = movements_told(rt, desk);
    let guarantees = guarantees_told(rt, desk);
    words.push_str(&movements).expect(rt, "memory");
    words.push_str(&guarantees).expect(rt, "memory");
    words
}

// Why there is no desk, and of a file of an earlier version all its rows.
fn told_of_refused<S: Alter>(
    rt: &(impl AllocGlobal + Abort),
    fault: OpenFault,
    conn: &mut Connection<S>,
) -> String {
    let mut words = format!(in rt.alloc(); "{fault}").expect(rt, "memory");
    let rows = match fault {
        OpenFault::NeedsMigration(1) => rows_of(rt, conn),
        OpenFault::NeedsMigration(2) => second_rows_of(rt, conn),
        _ => return words,
    };
    words.push_str(&rows).expect(rt, "memory");
    words
}

// What a desk over a connection tells, or why there is none, and the connection after it.
fn looked_over<S: Alter>(
    rt: &(impl AllocGlobal + Abort),
    conn: Connection<S>,
) -> (String, Connection<S>) {
    assert!(rt; conn.is_autocommit());
    match SqlDesk::open(rt.alloc(), conn, country(rt)) {
        Ok(mut desk) => (told(rt, &mut desk), desk.close()),
        Err(mut refused) => {
            let words = told_of_refused(rt, refused.fault, &mut refused.connection);
            (words, refused.connection)
        }
    }
}

// The desk that was made or opened, or the connection, where the file has stopped.
fn desk_or_back<S: Alter + Drop>(
    rt: &impl Abort,
    found: Result<SqlDesk<S>, Refused<S>>,
) -> Result<SqlDesk<S>, Connection<S>> {
    match found {
        Ok(desk) => Ok(desk),
        Err(refused) => {
            assert!(rt; refused.fault == OpenFault::Store);
            Err(refused.connection)
        }
    }
}

// Whether the file was brought to the newest version; else it has stopped.
fn is_upgraded<S: Alter>(rt: &(impl AllocGlobal + Abort), conn: &mut Connection<S>) -> bool {
    assert!(rt; conn.is_autocommit());
    let upgraded = upgrade(rt.alloc(), conn);
    assert!(rt; upgraded == Ok(3) || upgraded == Err(MigrateFault::Store));
    upgraded.is_ok()
}

// The parts of a job that were answered, and the connection after them.
fn job_over<S: Alter + Drop>(
    rt: &(impl AllocGlobal + Abort),
    job: Job,
    mut conn: Connection<S>,
) -> (usize, Connection<S>) {
    assert!(rt; conn.is_autocommit());
    match job {
        Job::Making => match desk_or_back(rt, SqlDesk::create(conn, country(rt))) {
            Ok(desk) => (1, desk.close()),
            Err(conn) => (0, conn),
        },
        Job::Carrying => match desk_or_back(rt, SqlDesk::open(rt.alloc(), conn, country(rt))) {
            Ok(mut desk) => (carried(rt, &mut desk), desk.close()),
            Err(conn) => (0, conn),
        },
        Job::Upgrading => {
            let answered = if is_upgraded(rt, &mut conn) { 2 } else { 0 };
            (answered, conn)
        }
    }
}

/// What is done over files: it is told what is found there, the tables of a layout are made and get these rows, or a job is
/// done.
#[derive(Clone, Copy)]
enum Work<'a> {
    Looking,
    Filling(Layout, &'a [&'a str]),
    Doing(Job),
}

// What came of it: the parts that were answered, what was told, and the connection after it.
struct Over<S: Alter> {
    answered: usize,
    told: String,
    conn: Connection<S>,
}

// It is written over any store, since each call over the files themselves would be proved anew at their type, which takes
// half a minute.
fn done_over<S: Alter + Drop>(
    rt: &(impl AllocGlobal + Abort),
    work: Work<'_>,
    mut conn: Connection<S>,
) -> Over<S> {
    let none = String::new(rt.alloc());
    let (answered, told, conn) = match work {
        Work::Looking => {
            let (told, conn) = looked_over(rt, conn);
            (1, told, conn)
        }
        Work::Filling(layout, rows) => {
            make(rt, &mut conn, layout);
            fill(rt, &mut conn, rows);
            (1, none, conn)
        }
        Work::Doing(job) => {
            let (answered, conn) = job_over(rt, job, conn);
            (answered, none, conn)
        }
    };
    Over {
        answered,
        told,
        conn,
    }
}

// How many parts were answered until the files stopped, what was told, the files, and whether none stopped.
struct Ended {
    answered: usize,
    told: String,
    files: FusedFiles,
    is_whole: bool,
}

fn done(rt: &(impl AllocGlobal + Abort), work: Work<'_>, before: &Contents, calls: Calls) -> Ended {
    match opened(rt, before, calls) {
        Ok(conn) => {
            let Over {
                answered,
                told,
                conn,
            } = done_over(rt, work, conn);
            let (files, is_whole) = closed(conn);
            Ended {
                answered,
                told,
                files,
                is_whole,
            }
        }
        Err(files) => Ended {
            answered: 0,
            told: String::new(rt.alloc()),
            files,
            is_whole: false,
        },
    }
}

// The same where no file stops.
fn done_whole(
    rt: &(impl AllocGlobal + Abort),
    work: Work<'_>,
    before: &Contents,
) -> (String, FusedFiles) {
    let Ended {
        answered,
        told,
        files,
        is_whole,
    } = done(rt, work, before, Calls::ALL);
    assert!(rt; is_whole && answered == 1);
    (told, files)
}

// What is found where the files are opened that hold this: they can be opened.
fn found(rt: &(impl AllocGlobal + Abort), contents: &Contents) -> String {
    done_whole(rt, Work::Looking, contents).0
}

// What the files hold after it.
fn contents_after(rt: &(impl AllocGlobal + Abort), work: Work<'_>, before: &Contents) -> Contents {
    let (_told, files) = done_whole(rt, work, before);
    Crashed::new(rt, files).contents(rt, Left::All, Left::All)
}

// What the files hold that have the tables of a layout with these rows.
fn holding(rt: &(impl AllocGlobal + Abort), layout: Layout, rows: &[&str]) -> Contents {
    contents_after(rt, Work::Filling(layout, rows), &blank(rt))
}

// What the files hold before the job.
fn start(rt: &(impl AllocGlobal + Abort), job: Job) -> Contents {
    match job {
        Job::Making => blank(rt),
        Job::Carrying => contents_after(rt, Work::Doing(Job::Making), &blank(rt)),
        Job::Upgrading => holding(rt, Layout::Made1, &ROWS),
    }
}

// The desk after each of the list's commands and each of the batch's rows.
fn told_of_each(rt: &(impl AllocGlobal + Abort)) -> Vec<String> {
    let (mut desk, rows) = (made(rt), batch(rt));
    let mut all = Vec::new(rt.alloc());
    all.push(told(rt, &mut desk)).expect(rt, "memory");
    for stamped in &list(rt) {
        assert!(rt; is_answered(rt, &mut desk, stamped));
        all.push(told(rt, &mut desk)).expect(rt, "memory");
    }
    for row in rows.chunks(1) {
        assert!(rt; rows_done(rt, &mut desk, row) == 1);
        all.push(told(rt, &mut desk)).expect(rt, "memory");
    }
    all
}

// What is found before each part of the job, and after the last one.
fn wanted(rt: &(impl AllocGlobal + Abort), job: Job, start: &Contents) -> Vec<String> {
    let before = found(rt, start);
    match job {
        Job::Carrying => told_of_each(rt),
        Job::Making => {
            let after = told(rt, &mut made(rt));
            vec![in rt.alloc(); before, after].expect(rt, "memory")
        }
        Job::Upgrading => {
            let second = found(rt, &holding(rt, Layout::Grown2, &SECOND_ROWS));
            let after = told_of_tables(rt);
            vec![in rt.alloc(); before, second, after].expect(rt, "memory")
        }
    }
}

// The desk over tables of the newest version that have the rows of the file of version 1.
fn told_of_tables(rt: &(impl AllocGlobal + Abort)) -> String {
    let mut desk = desk_over(rt, tables(rt));
    told(rt, &mut desk)
}

/// What a crash leaves of the log and of the database file.
const LEFT: [(Left, Left); 7] = [
    (Left::Nothing, Left::Nothing),
    (Left::All, Left::All),
    (Left::Nothing, Left::All),
    (Left::All, Left::Nothing),
    (Left::Front, Left::Front),
    (Left::Back, Left::Back),
    (Left::Junk, Left::Junk),
];

// After a crash all that was answered is there, and of each part that comes next all or nothing.
fn assert_left(
    rt: &(impl AllocGlobal + Abort),
    job: Job,
    found: &str,
    answered: usize,
    wanted: &[String],
) {
    let most = job.parts_at_once().saturating_add(1);
    let may_be = wanted.iter().skip(answered).take(most);
    let mut is_one = false;
    for text in may_be {
        is_one = is_one || text.as_str() == found;
    }
    assert!(rt; is_one, "after {answered}: {found}");
}

// Whether the job was done to its end where the files take so many calls. Whatever a crash then leaves is found again.
fn is_done(
    rt: &(impl AllocGlobal + Abort),
    job: Job,
    start: &Contents,
    wanted: &[String],
    calls: Calls,
) -> bool {
    let Ended {
        answered,
        told: _,
        files,
        is_whole,
    } = done(rt, Work::Doing(job), start, calls);
    let crashed = Crashed::new(rt, files);
    let ways = if crashed.is_synced() {
        &LEFT[..1]
    } else {
        &LEFT[..]
    };
    for (log, db) in ways {
        let found = found(rt, &crashed.contents(rt, *log, *db));
        assert_left(rt, job, &found, answered, wanted);
    }
    is_whole && answered.saturating_add(1) == wanted.len()
}

/// More calls of a file than a job makes.
const MOST_CALLS: u64 = 1_000;

// At how many calls a file can stop, so that the job isn't done.
fn stops(rt: &(impl AllocGlobal + Abort), job: Job, file: File) -> u64 {
    let start = start(rt, job);
    let wanted = wanted(rt, job, &start);
    for calls in 0..MOST_CALLS {
        if is_done(rt, job, &start, &wanted, file.takes(calls)) {
            return calls;
        }
    }
    MOST_CALLS
}

// So many of the log, and so many of the database file.
fn stops_of_both(rt: &(impl AllocGlobal + Abort), job: Job) -> (u64, u64) {
    (stops(rt, job, File::Log), stops(rt, job, File::Database))
}

#[test]
fn a_stop_while_a_desk_is_made_leaves_none_or_an_empty_one(rt: HostRuntime) {
    assert_eq!(rt; stops_of_both(&rt, Job::Making), (61, 31));
}

#[test]
fn a_stop_while_decisions_are_carried_leaves_those_that_were_answered(rt: HostRuntime) {
    assert_eq!(rt; stops_of_both(&rt, Job::Carrying), (111, 70));
}

#[test]
fn a_stop_of_an_upgrade_leaves_one_of_the_versions(rt: HostRuntime) {
    assert_eq!(rt; stops_of_both(&rt, Job::Upgrading), (75, 71));
}
