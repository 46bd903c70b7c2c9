//! Desks are made, opened, refused and closed, over a store in memory, and stand want of memory and stops of their files.
mod accepted;
mod memory;
mod migrations;
mod opening;
mod reports;
mod rows;
mod stops;
mod visits;
mod walks;

use crate::examples::country;
use sqlite::{Connection, MemStore};
use std::process::Abort;
use td_desk::Store;
use td_store::{OpenFault, SqlDesk};
use td_store_rows::find_meta;
use td_table_model::Rule;

/// An empty database in memory.
fn database(rt: &(impl AllocGlobal + Abort)) -> Connection<MemStore> {
    Connection::open_in_memory(rt.alloc()).expect(rt, "a database")
}

/// The desk of a Swiss office, without holders.
fn made(rt: &(impl AllocGlobal + Abort)) -> SqlDesk<MemStore> {
    let conn = database(rt);
    assert!(rt; conn.is_autocommit());
    SqlDesk::create(conn, country(rt)).ok().expect(rt, "a desk")
}

#[test]
fn a_desk_is_made_and_closed(rt: HostRuntime) {
    let country = country(&rt);
    let desk = made(&rt);
    assert!(rt; desk.office() == country);
    let mut conn = desk.close();
    let mut tx = conn.transaction();
    let meta = find_meta(&mut tx).expect(&rt, "a row");
    let meta = meta.expect(&rt, "the office's row");
    assert!(rt; meta.version == 3 && meta.country == Some(country));
}

const LINES: [(OpenFault, &str); 6] = [
    (OpenFault::UnknownVersion, "unknown-version"),
    (OpenFault::NeedsMigration(2), "needs-migration 2"),
    (OpenFault::OtherCountry, "other-country"),
    (OpenFault::Damaged(Rule::S5), "damaged S5"),
    (OpenFault::Store, "store"),
    (OpenFault::NoMemory, "no-memory"),
];

fn assert_line(rt: &(impl AllocGlobal + Abort), fault: OpenFault, line: &str) {
    let words = format!(in rt.alloc(); "{fault}").expect(rt, "memory");
    assert_eq!(rt; words.as_str(), line);
}

#[test]
fn faults_have_their_lines(rt: HostRuntime) {
    for (fault, line) in &LINES {
        assert_line(&rt, *fault, line);
    }
}
