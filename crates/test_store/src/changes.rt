//! The tables are made once, and nothing is left of a change that can't be carried, in a store in memory. (What each kind of
//! change leaves in the tables stands in the transcripts, in changes.txt.)
use crate::examples::{GRN, MRN, country, guarantee, holder, line, movement, mrn, row};
use sqlite::{Connection, Error, ErrorCode, MemStore};
use std::alloc::Global;
use std::process::Abort;
use td_acts::Change;
use td_base::Country;
use td_movement::Movement;
use td_store_rows::{find_by_mrn, find_meta, lines_of};
use td_store_write::{carry_change, create_tables};

/// Carries a change where no transaction is begun.
fn carry(
    alloc: Global,
    conn: &mut Connection<MemStore>,
    country: Country,
    change: &Change,
) -> Result<(), Error> {
    if conn.is_autocommit() {
        carry_change(alloc, conn, country, change)?;
    }
    Ok(())
}

/// A change that is carried.
fn carried(rt: &(impl AllocGlobal + Abort), conn: &mut Connection<MemStore>, change: &Change) {
    carry(rt.alloc(), conn, country(rt), change).expect(rt, "a change");
}

/// The movement of a line of 5,000.00.
fn lodged(rt: &(impl AllocGlobal + Abort)) -> Movement {
    let lines = vec![in rt.alloc(); line(rt)].expect(rt, "memory");
    movement(rt, lines)
}

/// The first changes of holder 1: registered, a guarantee opened and a movement declared on it.
fn carry_first(rt: &(impl AllocGlobal + Abort), conn: &mut Connection<MemStore>) {
    carried(rt, conn, &Change::Registered(row(rt, 1, 0, 0)));
    carried(
        rt,
        conn,
        &Change::Opened(row(rt, 1, 1, 0), guarantee(rt, GRN)),
    );
    carried(rt, conn, &Change::Declared(row(rt, 1, 1, 1), lodged(rt)));
}

/// A store in memory with the tables of an office.
fn made(rt: &(impl AllocGlobal + Abort)) -> Connection<MemStore> {
    let mut conn = Connection::open_in_memory(rt.alloc()).expect(rt, "a database");
    assert!(rt; conn.is_autocommit());
    create_tables(&mut conn, country(rt)).expect(rt, "tables");
    conn
}

// A declaration of a movement without lines.
fn bare(rt: &(impl AllocGlobal + Abort)) -> Change {
    Change::Declared(row(rt, 1, 1, 1), movement(rt, Vec::new(rt.alloc())))
}

// The movement that was lodged first is there, with its line.
fn assert_lodged(rt: &(impl AllocGlobal + Abort), conn: &mut Connection<MemStore>) {
    let (mrn, holder) = (mrn(rt, MRN), holder(rt, 1));
    assert!(rt; conn.is_autocommit());
    let mut tx = conn.transaction();
    let found = find_by_mrn(rt.alloc(), &mut tx, holder, 1, &mrn).expect(rt, "a row");
    let lines = lines_of(rt.alloc(), &mut tx, holder, 1).expect(rt, "lines");
    assert!(rt; found.is_some() && lines.len() == 1);
}

#[test]
fn nothing_is_left_of_a_change_that_fails(rt: HostRuntime) {
    let country = country(&rt);
    let mut conn = made(&rt);
    let unknown = carry(rt.alloc(), &mut conn, country, &bare(&rt));
    assert!(rt; unknown == Err(Error::SqliteFailure(ErrorCode::DatabaseCorrupt)));
    carry_first(&rt, &mut conn);
    assert!(rt; carry(rt.alloc(), &mut conn, country, &bare(&rt)).is_err());
    assert_lodged(&rt, &mut conn);
}

#[test]
fn tables_are_made_once(rt: HostRuntime) {
    let other = Country::read(b"DE").expect(&rt, "a country");
    let mut conn = made(&rt);
    assert!(rt; conn.is_autocommit());
    assert!(rt; create_tables(&mut conn, other).is_err());
    let mut tx = conn.transaction();
    let meta = find_meta(&mut tx).expect(&rt, "a row");
    let meta = meta.expect(&rt, "the office's row");
    assert!(rt; meta.version == 3 && meta.country == Some(country(&rt)));
}
