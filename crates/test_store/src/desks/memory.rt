//! Want of memory in calls that no run of the program makes: on a desk in memory, and of a walk. What a call leaves that finds
//! none, and that it is done where it is asked again. tests/memory runs these tests again and again, and refuses another
//! request for memory in each run; with ample memory they show that the calls succeed. It shows the same of the built
//! program: of a desk over a file, its making, opening, audit and upgrade, of streams, batches, acts and reports.
use super::accepted::{START, accept, lodge, open, register};
use super::made;
use super::opening::seen;
use super::stops::{batch, list};
use crate::examples::{GRN, country, grn};
use sqlite::MemStore;
use std::process::Abort;
use td_batch::{ActRow, BatchRun, read_acts, run_acts, run_declarations};
use td_desk::{Fault, Outcome, PlainDesk, Stamped, do_one, run};
use td_store::SqlDesk;

/// So many bytes are asked for where the requests begin that tests/memory refuses, and where they end.
const BEGIN: usize = 1_000_003;

const END: usize = 1_000_033;

// Marks a place for tests/memory, which knows these sizes.
fn mark(rt: &(impl AllocGlobal + Abort), bytes: usize) {
    let room: Vec<u8> = Vec::with_capacity(rt.alloc(), bytes).expect(rt, "memory");
    assert!(rt; room.is_empty());
}

fn push_outcome(rt: &impl Abort, words: &mut String, outcome: &Outcome) {
    writeln!(words, "{outcome:?}").expect(rt, "memory");
}

// What is said to the list at that desk, without the commands that failed in these outcomes.
fn said_without(
    rt: &(impl AllocGlobal + Abort),
    desk: &mut PlainDesk,
    list: &[Stamped],
    outcomes: &[Outcome],
) -> String {
    let mut words = String::new(rt.alloc());
    for (stamped, outcome) in list.iter().zip(outcomes) {
        if matches!(outcome, Outcome::Failed(_)) {
            continue;
        }
        push_outcome(rt, &mut words, &do_one(rt.alloc(), desk, stamped));
    }
    words
}

// What was said in these outcomes: those that failed did so by want of memory.
fn said_in(rt: &(impl AllocGlobal + Abort), outcomes: &[Outcome]) -> String {
    let mut words = String::new(rt.alloc());
    for outcome in outcomes {
        match outcome {
            Outcome::Failed(fault) => assert!(rt; *fault == Fault::NoMemory),
            said => push_outcome(rt, &mut words, said),
        }
    }
    words
}

// What is said to the whole list.
fn said(rt: &(impl AllocGlobal + Abort), desk: &mut PlainDesk, list: &[Stamped]) -> String {
    let outcomes = run(rt.alloc(), desk, list).expect(rt, "memory");
    said_in(rt, &outcomes)
}

fn plain(rt: &(impl AllocGlobal + Abort)) -> PlainDesk {
    PlainDesk::new(rt.alloc(), country(rt)).expect(rt, "memory")
}

// A command that failed changed nothing, and so did a run that found no room: the other desk, which never missed
// memory and is told the commands that didn't fail, says the same to them, and to the whole list after them.
#[test]
fn running_commands_in_memory(rt: HostRuntime) {
    let (mut desk, mut other) = (plain(&rt), plain(&rt));
    let list = list(&rt);
    mark(&rt, BEGIN);
    let outcomes = run(rt.alloc(), &mut desk, &list);
    mark(&rt, END);
    if let Ok(outcomes) = outcomes {
        let due = said_without(&rt, &mut other, &list, &outcomes);
        assert!(rt; said_in(&rt, &outcomes).as_str() == due.as_str());
    }
    let due = said(&rt, &mut other, &list);
    assert!(rt; said(&rt, &mut desk, &list).as_str() == due.as_str());
}

// A desk at which the registration and the opening of a guarantee are done.
fn with_guarantee(rt: &(impl AllocGlobal + Abort)) -> PlainDesk {
    let (mut desk, list) = (plain(rt), list(rt));
    for stamped in &list[..2] {
        let outcome = do_one(rt.alloc(), &mut desk, stamped);
        assert!(rt; matches!(outcome, Outcome::Said(_)));
    }
    desk
}

// The text is that of the rows that were done, which another desk did too; where the header found no memory there is
// none.
fn assert_rows_done(rt: &impl Abort, found: &BatchRun, due: &BatchRun, rows: usize) {
    assert!(rt; found.done == due.done && due.stopped.is_none());
    assert!(rt; found.stopped.is_some() == (found.done < rows || found.text.is_empty()));
    assert!(rt; matches!(found.stopped, None | Some(Fault::NoMemory)));
    if found.done > 0 {
        assert_eq!(rt; found.text.as_slice(), due.text.as_slice());
    } else {
        assert!(rt; due.text.starts_with(&found.text));
    }
}

// Declarations stop where memory is missed, and go on with the rest: as at a desk that never missed any.
#[test]
fn declaring_in_memory(rt: HostRuntime) {
    let (mut desk, mut other) = (with_guarantee(&rt), with_guarantee(&rt));
    let rows = batch(&rt);
    mark(&rt, BEGIN);
    let found = run_declarations(rt.alloc(), &mut desk, START, &rows);
    mark(&rt, END);
    let (done, left) = rows.split_at(found.done.min(rows.len()));
    let due = run_declarations(rt.alloc(), &mut other, START, done);
    assert_rows_done(&rt, &found, &due, rows.len());
    let rest = run_declarations(rt.alloc(), &mut desk, START, left);
    let due = run_declarations(rt.alloc(), &mut other, START, left);
    assert_rows_done(&rt, &rest, &due, left.len());
}

const ACTS: &[u8] =
    b"message,mrn,value\nIE029,25CH000001000001J8,2025-03-08\nIE007,25CH000001000001J8,DE005600\nIE018,25CH000001000001J8,A1\nIE045,25CH000001000001J8,results\nIE029,25CH000001000002J7,2025-03-08\n";

fn acts(rt: &(impl AllocGlobal + Abort)) -> Vec<ActRow> {
    let rows = read_acts(rt.alloc(), ACTS);
    rows.ok().expect(rt, "acts")
}

// And two declarations.
fn with_movements(rt: &(impl AllocGlobal + Abort)) -> PlainDesk {
    let mut desk = with_guarantee(rt);
    let declared = run_declarations(rt.alloc(), &mut desk, START, &batch(rt));
    assert!(rt; declared.done == 2);
    desk
}

// The same of acts.
#[test]
fn acting_in_memory(rt: HostRuntime) {
    let (mut desk, mut other) = (with_movements(&rt), with_movements(&rt));
    let rows = acts(&rt);
    mark(&rt, BEGIN);
    let found = run_acts(rt.alloc(), &mut desk, START, &rows);
    mark(&rt, END);
    let (done, left) = rows.split_at(found.done.min(rows.len()));
    let due = run_acts(rt.alloc(), &mut other, START, done);
    assert_rows_done(&rt, &found, &due, rows.len());
    let rest = run_acts(rt.alloc(), &mut desk, START, left);
    let due = run_acts(rt.alloc(), &mut other, START, left);
    assert_rows_done(&rt, &rest, &due, left.len());
}

/// So many movements have one line each.
const MOVEMENTS: usize = 100;

// A desk of one holder who lodged them.
fn with_many(rt: &(impl AllocGlobal + Abort)) -> SqlDesk<MemStore> {
    let mut desk = made(rt);
    accept(rt, &mut desk, register(rt, 1));
    accept(rt, &mut desk, open(rt, 1, 1_000_000, 50));
    for number in 0..MOVEMENTS {
        let name = format!(in rt.alloc(); "L{number}").expect(rt, "memory");
        accept(
            rt,
            &mut desk,
            lodge(rt, 1, name.as_bytes(), grn(rt, GRN), 1),
        );
    }
    desk
}

// How many movements a walk gives, and whether all its calls found memory. What the calls behind the first one ask for is
// marked.
fn walked(rt: &(impl AllocGlobal + Abort), desk: &mut SqlDesk<MemStore>) -> (usize, bool) {
    let mut rows = desk.movement_rows().expect(rt, "a walk");
    let first = rows.next(rt.alloc()).expect(rt, "a movement");
    assert!(rt; first.is_some());
    let mut given: usize = 1;
    let mut found_memory = true;
    mark(rt, BEGIN);
    for _ in 1..MOVEMENTS {
        match rows.next(rt.alloc()) {
            Ok(Some(_movement)) => given = given.saturating_add(1),
            Ok(None) => {}
            Err(fault) => {
                assert!(rt; fault == Fault::NoMemory);
                found_memory = false;
            }
        }
    }
    mark(rt, END);
    (given, found_memory)
}

// tests/memory counts what a walk asks for: one that reads all movements by its first call asks for nothing later.
#[test]
fn walking_along_movements(rt: HostRuntime) {
    let mut desk = with_many(&rt);
    let before = seen(&rt, &mut desk);
    let (given, found_memory) = walked(&rt, &mut desk);
    assert!(rt; given == MOVEMENTS || !found_memory);
    assert_eq!(rt; seen(&rt, &mut desk).as_str(), before.as_str());
}
