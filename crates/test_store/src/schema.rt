//! The tables are made once, with their keys and checks, those of each version.
use crate::examples::{fill, with_layout, with_tables};
use sqlite::{Connection, MemStore};
use std::process::Abort;
use td_schema::{Layout, NEWEST_LAYOUT, make_guarantees2, make_lines3, make_tables};

/// Statements, one after another, and whether each is taken.
const STATEMENTS: [(&str, bool); 19] = [
    ("INSERT INTO meta VALUES (2, 1, 'CH')", false),
    ("INSERT INTO meta VALUES (1, 1, 'CH')", true),
    (
        "INSERT INTO holders VALUES (0, 'CH1234567', 1740819600, 1, 1)",
        false,
    ),
    (
        "INSERT INTO holders VALUES (1, 'CH1234567', 1740819600, 1, 1)",
        true,
    ),
    (
        "INSERT INTO holders VALUES (2, 'CH1234567', 'soon', 1, 1)",
        false,
    ),
    (
        "INSERT INTO guarantees2 VALUES (2, 1, '25CH0000010000014', 1000000, 50, NULL, 0)",
        false,
    ),
    (
        "INSERT INTO guarantees2 VALUES (1, 1, '25CH0000010000014', 1000000, 40, NULL, 0)",
        false,
    ),
    (
        "INSERT INTO guarantees2 VALUES (1, 1, '25CH0000010000014', 1000000, 50, NULL, -1)",
        false,
    ),
    (
        "INSERT INTO guarantees2 VALUES (1, 1, '25CH0000010000014', 1000000, 50, NULL, 1000001)",
        false,
    ),
    (
        "INSERT INTO guarantees2 VALUES (1, 1, '25CH0000010000014', 1000000, 50, NULL, NULL)",
        false,
    ),
    (
        "INSERT INTO guarantees2 VALUES (1, 1, '25CH0000010000014', 1000000, 50, NULL, 1000000)",
        true,
    ),
    ("INSERT INTO codes VALUES (1, 1, 'AB12')", true),
    ("INSERT INTO codes VALUES (1, 1, 'AB12')", false),
    (
        "INSERT INTO movements VALUES (1, 1, '25CH00000100000013', 'A1', 'CH001251', 'DE005600', 20148, 'lost', NULL, NULL, NULL)",
        false,
    ),
    (
        "INSERT INTO movements VALUES (1, 1, '25CH00000100000013', 'A1', 'CH001251', 'DE005600', 20148, 'accepted', NULL, NULL, NULL)",
        true,
    ),
    (
        "INSERT INTO movements VALUES (1, 2, '25CH00000100000029', 'A1', 'CH001251', 'DE005600', 20148, 'accepted', NULL, NULL, NULL)",
        false,
    ),
    ("INSERT INTO lines3 VALUES (1, 2, 1, 1, 500000)", false),
    ("INSERT INTO lines3 VALUES (1, 1, 100, 1, 500000)", false),
    ("INSERT INTO lines3 VALUES (1, 1, 99, 1, 500000)", true),
];

#[test]
fn rows_that_break_a_key_or_a_check_are_refused(rt: HostRuntime) {
    let mut conn = with_tables(&rt);
    for (text, taken) in &STATEMENTS {
        assert!(rt; conn.execute(text, &[]).is_ok() == *taken, "{text}");
    }
}

#[test]
fn tables_are_made_once(rt: HostRuntime) {
    let mut conn = with_tables(&rt);
    assert!(rt; conn.is_autocommit());
    let mut tx = conn.transaction();
    assert!(rt; make_tables(&mut tx, NEWEST_LAYOUT).is_err());
}

/// Makes the table of guarantees of version 2 beside the tables of version 1.
fn grow(rt: &impl Abort, conn: &mut Connection<MemStore>) {
    assert!(rt; conn.is_autocommit());
    let mut tx = conn.transaction();
    make_guarantees2(&mut tx).expect(rt, "a table");
    tx.commit().expect(rt, "a commit");
}

const HOLDER: &str = "INSERT INTO holders VALUES (1, 'CH1234567', 1740819600, 1, 0)";

const FIRST: &str = "INSERT INTO guarantees1 VALUES (1, 1, '25CH0000010000014', 1000000, 50, NULL)";

const SECOND: &str =
    "INSERT INTO guarantees2 VALUES (1, 1, '25CH0000010000014', 1000000, 50, NULL, 0)";

#[test]
fn the_later_table_is_made_beside_the_first(rt: HostRuntime) {
    let mut conn = with_layout(&rt, Layout::Made1);
    fill(&rt, &mut conn, &[HOLDER, FIRST]);
    assert!(rt; conn.execute(SECOND, &[]).is_err());
    grow(&rt, &mut conn);
    fill(&rt, &mut conn, &[SECOND]);
    assert!(rt; conn.execute(FIRST, &[]).is_err());
}

/// Makes the table of lines of version 3 beside the tables of version 2.
fn grow_lines(rt: &impl Abort, conn: &mut Connection<MemStore>) {
    assert!(rt; conn.is_autocommit());
    let mut tx = conn.transaction();
    make_lines3(&mut tx).expect(rt, "a table");
    tx.commit().expect(rt, "a commit");
}

const MOVEMENT: &str =
    "INSERT INTO movements VALUES (1, 1, '25CH00000100000013', 'A1', 'CH001251', 'DE005600', 20148, 'accepted', NULL, NULL, NULL)";

const TENTH: [&str; 2] = [
    "INSERT INTO lines1 VALUES (1, 1, 10, 1, 500000)",
    "INSERT INTO lines3 VALUES (1, 1, 10, 1, 500000)",
];

#[test]
fn a_tenth_line_is_taken_by_the_table_of_version_3_alone(rt: HostRuntime) {
    for layout in [Layout::Made2, Layout::Grown2] {
        let mut conn = with_layout(&rt, layout);
        fill(&rt, &mut conn, &[HOLDER, MOVEMENT]);
        assert!(rt; conn.execute(TENTH[0], &[]).is_err() && conn.execute(TENTH[1], &[]).is_err());
        grow_lines(&rt, &mut conn);
        assert!(rt; conn.execute(TENTH[0], &[]).is_err() && conn.execute(TENTH[1], &[]).is_ok());
    }
}

/// Each layout, and the number of its tables.
const LAYOUTS: [(Layout, i64); 6] = [
    (Layout::Made1, 6),
    (Layout::Made2, 6),
    (Layout::Grown2, 7),
    (Layout::Made3, 6),
    (Layout::Grown3From2, 7),
    (Layout::Grown3From1, 8),
];

#[test]
fn the_tables_of_each_layout_are_made(rt: HostRuntime) {
    for (layout, tables) in &LAYOUTS {
        let conn = with_layout(&rt, *layout);
        assert!(rt; conn.schema().tables.len() == *tables as usize);
    }
}
