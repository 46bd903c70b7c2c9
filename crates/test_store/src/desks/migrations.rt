//! Files of version 1 and of version 2, whose tables and rows are made by hand: they are told as that, audited, and brought to
//! the newest version. (What they are refused for, and what they hold then, stands in the transcripts.)
use super::rows::push_rows;
use crate::examples::{fill, with_layout};
use sqlite::{Alter, Connection, MemStore};
use std::process::Abort;
use td_migrate::{MigrateFault, upgrade, version};
use td_schema::Layout;
use td_store::{OpenFault, audit, file_version};
use td_table_model::Rule;

const HOLDERS: &str =
    "INSERT INTO holders VALUES (1, 'CH1234567', 1740992400, 2, 3), (2, 'DE7654321', 1740819600, 1, 1), (3, 'FR1', 1740819600, 0, 0)";

const CODES: &str =
    "INSERT INTO codes VALUES (1, 1, 'AB12'), (1, 1, 'CD34'), (1, 2, 'EF56'), (2, 1, 'AB12')";

const MOVEMENTS: &str =
    "INSERT INTO movements VALUES (1, 1, '25CH00000100000013', 'A1', 'CH001251', 'DE005600', 20148, 'released', 20155, NULL, NULL), (1, 2, '25CH00000100000021', 'A2', 'CH001251', 'DE005600', 20148, 'arrived', 20155, 20150, 'FR000100')";

const LATER_MOVEMENTS: &str =
    "INSERT INTO movements VALUES (1, 3, '25CH00000100000030', 'A3', 'CH001251', 'DE005600', 20148, 'accepted', NULL, NULL, NULL), (2, 1, '25CH00000200000019', 'A1', 'CH001251', 'DE005600', 20148, 'accepted', NULL, NULL, NULL)";

const LINES_OF_ALL: &str =
    "INSERT INTO lines1 VALUES (1, 1, 1, 1, 500000), (1, 1, 2, 2, 200000), (1, 2, 1, 1, 400000), (1, 3, 1, 1, 100001), (2, 1, 1, 1, 600000)";

/// The rows of a desk of CH at version 1. Holder 1 has two guarantees and three movements: of the first one's 1000000 cents
/// 500000 are in use by movement 1, which is released, and 400000 by movement 2, which has arrived; of the second one's
/// 500000 cents 200000 by movement 1. Movement 3 and the one of holder 2 are accepted, and have nothing in use. Holder 3 has
/// nothing. Day 20148 is 2025-03-01.
pub const ROWS: [&str; 7] = [
    "INSERT INTO meta VALUES (1, 1, 'CH')",
    HOLDERS,
    "INSERT INTO guarantees1 VALUES (1, 1, '25CH0000010000014', 1000000, 50, NULL), (1, 2, '25CH0000010000023', 500000, 100, 20164), (2, 1, '25CH0000020000010', 1000000, 30, NULL)",
    CODES,
    MOVEMENTS,
    LATER_MOVEMENTS,
    LINES_OF_ALL,
];

const SEE_META: &str = "SELECT one, version, country FROM meta";

const SEE_HOLDERS: &str = "SELECT holder, eori, last_at, grn_count, mrn_count FROM holders";

const SEE_CODES: &str = "SELECT holder, serial, code FROM codes";

const SEE_MOVEMENTS: &str =
    "SELECT holder, serial, mrn, lrn, departure, destination, accepted, state, limit_day, arrival, actual FROM movements";

const SEE_LINES: &str = "SELECT holder, serial, no, guarantee, cents FROM lines1";

const TABLES: [&str; 6] = [
    SEE_META,
    SEE_HOLDERS,
    "SELECT holder, serial, grn, reference, cover, ends FROM guarantees1",
    SEE_CODES,
    SEE_MOVEMENTS,
    SEE_LINES,
];

/// A database of version 1 with these rows.
pub fn first(rt: &(impl AllocGlobal + Abort)) -> Connection<MemStore> {
    let mut conn = with_layout(rt, Layout::Made1);
    fill(rt, &mut conn, &ROWS);
    conn
}

/// What it is brought to, where no transaction is begun.
pub fn upgraded(
    rt: &(impl AllocGlobal + Abort),
    conn: &mut Connection<MemStore>,
) -> Result<u32, MigrateFault> {
    assert!(rt; conn.is_autocommit());
    upgrade(rt.alloc(), conn)
}

/// Its version, by either of the two calls that tell it.
pub fn version_of(
    rt: &(impl AllocGlobal + Abort),
    conn: &mut Connection<MemStore>,
) -> Result<u32, MigrateFault> {
    assert!(rt; conn.is_autocommit());
    let told = file_version(rt.alloc(), conn).ok();
    match version(rt.alloc(), conn) {
        Ok(found) => {
            assert!(rt; told == Some(found));
            Ok(found)
        }
        Err(fault) => {
            assert!(rt; told.is_none());
            Err(fault)
        }
    }
}

/// What its rows are as those of a version.
fn audited(
    rt: &(impl AllocGlobal + Abort),
    conn: &mut Connection<MemStore>,
    version: u32,
) -> Result<(), OpenFault> {
    assert!(rt; conn.is_autocommit());
    audit(rt.alloc(), conn, version)
}

#[test]
fn a_file_of_version_1_becomes_one_of_version_3(rt: HostRuntime) {
    let mut conn = first(&rt);
    assert!(rt; version_of(&rt, &mut conn) == Ok(1));
    assert!(rt; upgraded(&rt, &mut conn) == Ok(3));
    assert!(rt; version_of(&rt, &mut conn) == Ok(3));
    assert!(rt; upgraded(&rt, &mut conn) == Ok(3));
    assert!(rt; version_of(&rt, &mut conn) == Ok(3));
}

#[test]
fn an_audit_is_of_the_tables_of_its_version(rt: HostRuntime) {
    let mut conn = first(&rt);
    assert!(rt; audited(&rt, &mut conn, 1) == Ok(()));
    assert!(rt; audited(&rt, &mut conn, 2) == Err(OpenFault::Store));
    assert!(rt; audited(&rt, &mut conn, 3) == Err(OpenFault::Store));
    assert!(rt; upgraded(&rt, &mut conn) == Ok(3));
    assert!(rt; audited(&rt, &mut conn, 3) == Ok(()));
    assert!(rt; audited(&rt, &mut conn, 2) == Err(OpenFault::Store));
    assert!(rt; audited(&rt, &mut conn, 1) == Err(OpenFault::Store));
}

#[test]
fn an_audit_tells_the_rule_that_is_broken(rt: HostRuntime) {
    let mut conn = first(&rt);
    fill(&rt, &mut conn, &["INSERT INTO codes VALUES (2, 1, 'junk')"]);
    assert!(rt; audited(&rt, &mut conn, 1) == Err(OpenFault::Damaged(Rule::S4)));
}

/// All rows of the six tables, as a text.
pub fn rows_of<S: Alter>(rt: &(impl AllocGlobal + Abort), conn: &mut Connection<S>) -> String {
    let mut words = String::new(rt.alloc());
    for query in &TABLES {
        push_rows(rt, &mut words, conn, query);
    }
    words
}

/// The rows of the same desk at version 2.
pub const SECOND_ROWS: [&str; 7] = [
    "INSERT INTO meta VALUES (1, 2, 'CH')",
    HOLDERS,
    "INSERT INTO guarantees2 VALUES (1, 1, '25CH0000010000014', 1000000, 50, NULL, 900000), (1, 2, '25CH0000010000023', 500000, 100, 20164, 200000), (2, 1, '25CH0000020000010', 1000000, 30, NULL, 0)",
    CODES,
    MOVEMENTS,
    LATER_MOVEMENTS,
    LINES_OF_ALL,
];

const SECOND_TABLES: [&str; 6] = [
    SEE_META,
    SEE_HOLDERS,
    "SELECT holder, serial, grn, reference, cover, ends, used FROM guarantees2",
    SEE_CODES,
    SEE_MOVEMENTS,
    SEE_LINES,
];

/// The two layouts of version 2: made so, and migrated before.
pub const SECOND_LAYOUTS: [Layout; 2] = [Layout::Made2, Layout::Grown2];

/// A database of version 2 with these rows.
pub fn second(rt: &(impl AllocGlobal + Abort), layout: Layout) -> Connection<MemStore> {
    let mut conn = with_layout(rt, layout);
    fill(rt, &mut conn, &SECOND_ROWS);
    conn
}

/// All rows of the six tables of version 2, as a text.
pub fn second_rows_of<S: Alter>(
    rt: &(impl AllocGlobal + Abort),
    conn: &mut Connection<S>,
) -> String {
    let mut words = String::new(rt.alloc());
    for query in &SECOND_TABLES {
        push_rows(rt, &mut words, conn, query);
    }
    words
}

#[test]
fn a_file_of_version_2_becomes_one_of_version_3(rt: HostRuntime) {
    for layout in SECOND_LAYOUTS {
        let mut conn = second(&rt, layout);
        assert!(rt; version_of(&rt, &mut conn) == Ok(2));
        assert!(rt; audited(&rt, &mut conn, 2) == Ok(()));
        assert!(rt; audited(&rt, &mut conn, 1) == Err(OpenFault::Store));
        assert!(rt; audited(&rt, &mut conn, 3) == Err(OpenFault::Store));
        assert!(rt; upgraded(&rt, &mut conn) == Ok(3));
        assert!(rt; version_of(&rt, &mut conn) == Ok(3));
        assert!(rt; audited(&rt, &mut conn, 3) == Ok(()));
        assert!(rt; upgraded(&rt, &mut conn) == Ok(3));
    }
}

const LINES: [(MigrateFault, &str); 4] = [
    (MigrateFault::UnknownVersion, "unknown-version"),
    (MigrateFault::Damaged(Rule::S1), "damaged S1"),
    (MigrateFault::Store, "store"),
    (MigrateFault::NoMemory, "no-memory"),
];

fn assert_line(rt: &(impl AllocGlobal + Abort), fault: MigrateFault, line: &str) {
    let words = format!(in rt.alloc(); "{fault}").expect(rt, "memory");
    assert_eq!(rt; words.as_str(), line);
}

#[test]
fn faults_have_their_lines(rt: HostRuntime) {
    for (fault, line) in &LINES {
        assert_line(&rt, *fault, line);
    }
}
