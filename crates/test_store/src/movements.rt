//! A movement is written, found and moved, in a store in memory.
use crate::examples::{HOLDER, MRN, holder, lrn, movement, mrn, with_rows};
use sqlite::{Connection, MemStore};
use std::process::Abort;
use td_acts::{ListedMovement, NewStatus};
use td_base::{Day, HolderNo};
use td_movement::{Movement, State};
use td_store_rows::{
    counting_serials, find_by_lrn, find_by_mrn, insert_movement, listed_within, movements_within,
    set_status,
};

/// Writes a movement that was accepted for the holder, under serial 1.
fn write_one(rt: &(impl AllocGlobal + Abort), conn: &mut Connection<MemStore>, holder: HolderNo) {
    let movement = movement(rt, Vec::new(rt.alloc()));
    assert!(rt; conn.is_autocommit());
    let mut tx = conn.transaction();
    insert_movement(&mut tx, holder, 1, &movement).expect(rt, "a movement");
    tx.commit().expect(rt, "a commit");
}

/// Releases it, to arrive by a day.
fn release_one(rt: &impl Abort, conn: &mut Connection<MemStore>, holder: HolderNo) {
    let status = NewStatus {
        limit: Day::new(20156),
        ..NewStatus::of(mrn(rt, MRN), State::Released)
    };
    assert!(rt; conn.is_autocommit());
    let mut tx = conn.transaction();
    set_status(&mut tx, holder, 1, &status).expect(rt, "a status");
    tx.commit().expect(rt, "a commit");
}

fn is_accepted(movement: &Movement) -> bool {
    movement.state == State::Accepted && movement.limit.is_none() && movement.actual.is_none()
}

#[test]
fn a_movement_is_found_by_its_references(rt: HostRuntime) {
    let alloc = rt.alloc();
    let (holder, mrn, lrn) = (holder(&rt, 1), mrn(&rt, MRN), lrn(&rt, b"A1"));
    let mut conn = with_rows(&rt, &[HOLDER]);
    write_one(&rt, &mut conn, holder);
    assert!(rt; conn.is_autocommit());
    let mut tx = conn.transaction();
    let found = find_by_mrn(alloc, &mut tx, holder, 1, &mrn).expect(&rt, "a row");
    let found = found.expect(&rt, "a movement");
    assert!(rt; found.serial == 1 && is_accepted(&found.movement));
    let found = find_by_lrn(alloc, &mut tx, holder, &lrn).expect(&rt, "a row");
    let found = found.expect(&rt, "a movement");
    assert!(rt; found.movement.mrn == mrn && is_accepted(&found.movement));
    let listed = listed_within(alloc, &mut tx, holder, 0, 2).expect(&rt, "rows");
    assert!(rt; listed.len() == 1);
    let state = State::Accepted;
    assert!(rt; listed[0].shown == ListedMovement { lrn, mrn, state });
}

fn is_released(movement: &Movement) -> bool {
    movement.limit == Day::new(20156) && movement.state == State::Released
}

#[test]
fn a_movement_that_is_released_counts(rt: HostRuntime) {
    let alloc = rt.alloc();
    let holder = holder(&rt, 1);
    let mut conn = with_rows(&rt, &[HOLDER]);
    write_one(&rt, &mut conn, holder);
    release_one(&rt, &mut conn, holder);
    assert!(rt; conn.is_autocommit());
    let mut tx = conn.transaction();
    let counting = counting_serials(alloc, &mut tx, holder).expect(&rt, "rows");
    assert!(rt; counting.len() == 1);
    assert!(rt; counting[0].serial == 1);
    let all = movements_within(alloc, &mut tx, holder, 0, 2).expect(&rt, "rows");
    assert!(rt; all.len() == 1);
    assert!(rt; is_released(&all[0].movement));
    let before = movements_within(alloc, &mut tx, holder, 0, 1).expect(&rt, "rows");
    assert!(rt; before.is_empty());
    let behind = movements_within(alloc, &mut tx, holder, 2, 100).expect(&rt, "rows");
    assert!(rt; behind.is_empty());
}

#[test]
fn a_movement_that_is_accepted_does_not_count(rt: HostRuntime) {
    let holder = holder(&rt, 1);
    let mut conn = with_rows(&rt, &[HOLDER]);
    write_one(&rt, &mut conn, holder);
    assert!(rt; conn.is_autocommit());
    let mut tx = conn.transaction();
    let counting = counting_serials(rt.alloc(), &mut tx, holder).expect(&rt, "rows");
    assert!(rt; counting.is_empty());
}
