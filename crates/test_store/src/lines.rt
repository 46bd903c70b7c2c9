//! Lines are written and found, in a store in memory.
use crate::examples::{cents, fill, holder, with_layout, with_rows};
use sqlite::{Connection, MemStore};
use std::process::Abort;
use td_base::HolderNo;
use td_schema::Layout;
use td_store_rows::{StoredLine, empty_lines1, insert_line, lines_of, lines_on, older_lines};

const ROWS: [&str; 3] = [
    "INSERT INTO holders VALUES (1, 'CH1234567', 1740819600, 0, 2)",
    "INSERT INTO movements VALUES (1, 1, '25CH00000100000013', 'A1', 'CH001251', 'DE005600', 20148, 'accepted', NULL, NULL, NULL)",
    "INSERT INTO movements VALUES (1, 2, '25CH00000100000029', 'A2', 'CH001251', 'DE005600', 20148, 'accepted', NULL, NULL, NULL)",
];

/// Writes a line of a movement in a transaction of its own.
fn write_line(rt: &impl Abort, conn: &mut Connection<MemStore>, line: &StoredLine) {
    assert!(rt; conn.is_autocommit());
    let mut tx = conn.transaction();
    insert_line(&mut tx, line).expect(rt, "a line");
    tx.commit().expect(rt, "a commit");
}

/// The first movement has two lines: this one, and one on the fourth guarantee.
fn assert_lines(
    rt: &(impl AllocGlobal + Abort),
    conn: &mut Connection<MemStore>,
    holder: HolderNo,
    first: &StoredLine,
) {
    assert!(rt; conn.is_autocommit());
    let mut tx = conn.transaction();
    let lines = lines_of(rt.alloc(), &mut tx, holder, 1).expect(rt, "lines");
    assert!(rt; lines.len() == 2);
    assert!(rt; lines[0] == *first && lines[1].guarantee == 4);
}

#[test]
fn the_lines_of_a_movement_are_found(rt: HostRuntime) {
    let holder = holder(&rt, 1);
    let first = StoredLine {
        holder,
        serial: 1,
        no: 1,
        guarantee: 3,
        cents: cents(&rt, 500_000),
    };
    let second = StoredLine {
        no: 2,
        guarantee: 4,
        ..first
    };
    let mut conn = with_rows(&rt, &ROWS);
    write_line(&rt, &mut conn, &second);
    write_line(&rt, &mut conn, &first);
    write_line(&rt, &mut conn, &StoredLine { serial: 2, ..first });
    assert_lines(&rt, &mut conn, holder, &first);
}

// Lines that stand in the table below version 3: of the first movement two, and of the second one.
const OLDER: &str =
    "INSERT INTO lines1 VALUES (1, 1, 1, 3, 500000), (1, 1, 2, 4, 7), (1, 2, 1, 3, 9)";

// So many lines are in the table below version 3, and so many of them on the third guarantee.
fn assert_older(
    rt: &(impl AllocGlobal + Abort),
    conn: &mut Connection<MemStore>,
    lines: usize,
    third: usize,
) {
    assert!(rt; conn.is_autocommit());
    let mut tx = conn.transaction();
    let all = older_lines(rt.alloc(), &mut tx).expect(rt, "lines");
    assert!(rt; all.len() == lines);
    let on_it = lines_on(rt.alloc(), &mut tx, holder(rt, 1), 3).expect(rt, "lines");
    assert!(rt; on_it.len() == third);
}

fn empty_older(rt: &impl Abort, conn: &mut Connection<MemStore>) {
    assert!(rt; conn.is_autocommit());
    let mut tx = conn.transaction();
    empty_lines1(&mut tx).expect(rt, "a deletion");
    tx.commit().expect(rt, "a commit");
}

#[test]
fn the_table_below_version_3_has_lines_of_its_own(rt: HostRuntime) {
    let line = StoredLine {
        holder: holder(&rt, 1),
        serial: 1,
        no: 99,
        guarantee: 3,
        cents: cents(&rt, 500_000),
    };
    for layout in [Layout::Grown3From2, Layout::Grown3From1] {
        let mut conn = with_layout(&rt, layout);
        fill(&rt, &mut conn, &ROWS);
        fill(&rt, &mut conn, &[OLDER]);
        write_line(&rt, &mut conn, &line);
        assert_older(&rt, &mut conn, 3, 2);
        empty_older(&rt, &mut conn);
        assert_older(&rt, &mut conn, 0, 0);
        assert!(rt; conn.is_autocommit());
        let mut tx = conn.transaction();
        let kept = lines_of(rt.alloc(), &mut tx, line.holder, 1).expect(&rt, "lines");
        assert!(rt; kept.len() == 1 && kept[0] == line);
    }
}
