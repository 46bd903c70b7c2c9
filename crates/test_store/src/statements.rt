//! Each statement once, on a table in memory.
use sqlite::{Connection, Error, ErrorCode, MemStore, Row};
use sqlite_value::value::ValueRef;
use std::alloc::Global;
use std::process::Abort;
use typed_sql::{
    FromRow, delete, empty, fetch, fetch_first, fetch_one, insert, integer_at, is_null_at,
    number_at, select, text_at, update,
};

const TABLE: &str =
    "CREATE TABLE crew (ship INTEGER NOT NULL, name TEXT NOT NULL, rank INTEGER, PRIMARY KEY (ship, name)) STRICT";

const ADD: &str = "INSERT INTO crew VALUES (?1, ?2, ?3)";

const PROMOTE: &str = "UPDATE crew SET rank = COALESCE(?3, rank) WHERE ship = ?1 AND name = ?2";

const RAISE: &str = "UPDATE crew SET rank = rank + ?3 WHERE ship = ?1 AND name = ?2";

const DISCHARGE: &str = "DELETE FROM crew WHERE ship = ?1 AND name = ?2";

const OF_SHIP: &str = "SELECT name, rank FROM crew WHERE ship = ?1 ORDER BY ship, name";

fn add(rt: &impl Abort, conn: &mut Connection<MemStore>, of_crew: [ValueRef<'_>; 3]) {
    assert!(rt; conn.is_autocommit());
    let mut tx = conn.transaction();
    insert(&mut tx, ADD, &of_crew).expect(rt, "one of the crew");
    tx.commit().expect(rt, "a commit");
}

/// A database in memory with the table, and three rows in it.
fn with_crew(rt: &(impl AllocGlobal + Abort)) -> Connection<MemStore> {
    let mut conn = Connection::open_in_memory(rt.alloc()).expect(rt, "a database");
    conn.execute(TABLE, &[]).expect(rt, "a table");
    add(
        rt,
        &mut conn,
        [ValueRef::Int(1), ValueRef::Text(b"Mio"), ValueRef::Int(4)],
    );
    add(
        rt,
        &mut conn,
        [ValueRef::Int(1), ValueRef::Text(b"Ana"), ValueRef::Null],
    );
    add(
        rt,
        &mut conn,
        [ValueRef::Int(2), ValueRef::Text(b"Ana"), ValueRef::Int(1)],
    );
    conn
}

fn is_named(row: &Row, name: &str) -> bool {
    match row.get::<String>(0) {
        Ok(text) => text.as_str() == name,
        Err(_) => false,
    }
}

fn has_rank(row: &Row, rank: i64) -> bool {
    row.get::<i64>(1) == Ok(rank)
}

fn has_no_rank(row: &Row) -> bool {
    row.get::<Option<i64>>(1) == Ok(None)
}

#[test]
fn rows_are_shown_in_order(rt: HostRuntime) {
    let mut conn = with_crew(&rt);
    assert!(rt; conn.is_autocommit());
    let mut tx = conn.transaction();
    let rows = select(&mut tx, OF_SHIP, &[ValueRef::Int(1)]).expect(&rt, "rows");
    assert!(rt; rows.len() == 2);
    assert!(rt; is_named(&rows[0], "Ana") && has_no_rank(&rows[0]) && has_rank(&rows[1], 4));
}

#[test]
fn one_row_is_set_anew(rt: HostRuntime) {
    let mut conn = with_crew(&rt);
    assert!(rt; conn.is_autocommit());
    let mut tx = conn.transaction();
    let to_three = [ValueRef::Int(1), ValueRef::Text(b"Ana"), ValueRef::Int(3)];
    update(&mut tx, PROMOTE, &to_three).expect(&rt, "an update");
    let as_it_was = [ValueRef::Int(1), ValueRef::Text(b"Mio"), ValueRef::Null];
    update(&mut tx, PROMOTE, &as_it_was).expect(&rt, "an update");
    let rows = select(&mut tx, OF_SHIP, &[ValueRef::Int(1)]).expect(&rt, "rows");
    assert!(rt; rows.len() == 2);
    assert!(rt; has_rank(&rows[0], 3) && has_rank(&rows[1], 4));
}

#[test]
fn one_row_is_deleted(rt: HostRuntime) {
    let mut conn = with_crew(&rt);
    assert!(rt; conn.is_autocommit());
    let mut tx = conn.transaction();
    let ana = [ValueRef::Int(1), ValueRef::Text(b"Ana")];
    delete(&mut tx, DISCHARGE, &ana).expect(&rt, "a deletion");
    let left = select(&mut tx, OF_SHIP, &[ValueRef::Int(1)]).expect(&rt, "rows");
    let others = select(&mut tx, OF_SHIP, &[ValueRef::Int(2)]).expect(&rt, "rows");
    assert!(rt; left.len() == 1 && others.len() == 1);
}

#[test]
fn an_update_computes(rt: HostRuntime) {
    let mut conn = with_crew(&rt);
    assert!(rt; conn.is_autocommit());
    let mut tx = conn.transaction();
    let by_three = [ValueRef::Int(1), ValueRef::Text(b"Mio"), ValueRef::Int(3)];
    update(&mut tx, RAISE, &by_three).expect(&rt, "an update");
    let rows = select(&mut tx, OF_SHIP, &[ValueRef::Int(1)]).expect(&rt, "rows");
    assert!(rt; rows.len() == 2);
    assert!(rt; has_no_rank(&rows[0]) && has_rank(&rows[1], 7));
}

#[test]
fn all_rows_are_deleted(rt: HostRuntime) {
    let mut conn = with_crew(&rt);
    assert!(rt; conn.is_autocommit());
    let mut tx = conn.transaction();
    empty(&mut tx, "DELETE FROM crew").expect(&rt, "a deletion");
    let first = select(&mut tx, OF_SHIP, &[ValueRef::Int(1)]).expect(&rt, "rows");
    let second = select(&mut tx, OF_SHIP, &[ValueRef::Int(2)]).expect(&rt, "rows");
    assert!(rt; first.is_empty() && second.is_empty());
    empty(&mut tx, "DELETE FROM crew").expect(&rt, "a deletion");
}

const CORRUPT: Error = Error::SqliteFailure(ErrorCode::DatabaseCorrupt);

#[test]
fn an_update_of_no_row_is_an_error(rt: HostRuntime) {
    let mut conn = with_crew(&rt);
    assert!(rt; conn.is_autocommit());
    let mut tx = conn.transaction();
    let nobody = [ValueRef::Int(3), ValueRef::Text(b"Ana"), ValueRef::Int(3)];
    assert!(rt; update(&mut tx, PROMOTE, &nobody) == Err(CORRUPT));
}

#[test]
fn a_deletion_of_several_rows_is_an_error(rt: HostRuntime) {
    let mut conn = with_crew(&rt);
    assert!(rt; conn.is_autocommit());
    let mut tx = conn.transaction();
    assert!(rt; delete(&mut tx, "DELETE FROM crew", &[]) == Err(CORRUPT));
}

#[test]
fn a_row_with_a_taken_key_is_refused(rt: HostRuntime) {
    let mut conn = with_crew(&rt);
    assert!(rt; conn.is_autocommit());
    let mut tx = conn.transaction();
    let again = [ValueRef::Int(1), ValueRef::Text(b"Mio"), ValueRef::Null];
    assert!(rt; insert(&mut tx, ADD, &again).is_err());
}

// The first row's name, and that it has no rank.
fn is_ana(row: &Row) -> bool {
    text_at(row, 0) == Some(b"Ana".as_slice()) && is_null_at(row, 1)
}

// What isn't there is null, and a text is no integer.
fn is_fourth(row: &Row) -> bool {
    let numbers = (number_at(row, 1), number_at(row, 0));
    let integers = (integer_at(row, 1), integer_at(row, 0), integer_at(row, 2));
    numbers == (Some(4), None)
        && integers == (Some(4), None, None)
        && is_null_at(row, 2)
        && !is_null_at(row, 1)
}

#[test]
fn columns_are_read(rt: HostRuntime) {
    let mut conn = with_crew(&rt);
    assert!(rt; conn.is_autocommit());
    let mut tx = conn.transaction();
    let rows = select(&mut tx, OF_SHIP, &[ValueRef::Int(1)]).expect(&rt, "rows");
    assert!(rt; rows.len() == 2);
    assert!(rt; is_ana(&rows[0]) && is_fourth(&rows[1]));
}

#[test]
fn a_negative_integer_is_no_number(rt: HostRuntime) {
    let mut conn = with_crew(&rt);
    assert!(rt; conn.is_autocommit());
    let mut tx = conn.transaction();
    let text = "SELECT -4 FROM crew WHERE ship = 2";
    let rows = select(&mut tx, text, &[]).expect(&rt, "rows");
    assert!(rt; rows.len() == 1);
    assert!(rt; integer_at(&rows[0], 0) == Some(-4) && number_at(&rows[0], 0).is_none());
}

/// The rank of one of the crew.
#[derive(Drop)]
struct Ranked {
    rank: u64,
}

impl FromRow for Ranked {
    ghost use Rattle.std.specs.Prelude.{ℕ};
    ghost use Rattle.sqlite_value.specs.Order.{column};
    ghost use Rattle.typed_sql.specs.Values.{number_in};

    ghost Typed = { ℕ };

    ghost typed = { λ ranked. ranked.rank };

    ghost from = { λ row. number_in (column row 1) };

    fn from_row(_alloc: Global, row: &Row) -> Option<Self> {
        Some(Ranked {
            rank: number_at(row, 1)?,
        })
    }
}

#[test]
fn rows_are_fetched_as_they_are_read(rt: HostRuntime) {
    let alloc = rt.alloc();
    let mut conn = with_crew(&rt);
    assert!(rt; conn.is_autocommit());
    let mut tx = conn.transaction();
    let all = fetch::<MemStore, Ranked>(alloc, &mut tx, OF_SHIP, &[ValueRef::Int(2)]);
    let all = all.expect(&rt, "rows");
    assert!(rt; all.len() == 1);
    assert!(rt; all[0].rank == 1);
    let unranked = fetch::<MemStore, Ranked>(alloc, &mut tx, OF_SHIP, &[ValueRef::Int(1)]);
    assert!(rt; unranked.err() == Some(CORRUPT));
}

#[test]
fn one_at_most_is_fetched(rt: HostRuntime) {
    let alloc = rt.alloc();
    let mut conn = with_crew(&rt);
    conn.execute("UPDATE crew SET rank = 2 WHERE rank IS NULL", &[])
        .expect(&rt, "an update");
    assert!(rt; conn.is_autocommit());
    let mut tx = conn.transaction();
    let one = fetch_one::<MemStore, Ranked>(alloc, &mut tx, OF_SHIP, &[ValueRef::Int(2)]);
    let one = one.expect(&rt, "a row").expect(&rt, "a rank");
    let none = fetch_one::<MemStore, Ranked>(alloc, &mut tx, OF_SHIP, &[ValueRef::Int(3)]);
    assert!(rt; one.rank == 1 && none.expect(&rt, "no row").is_none());
    let several = fetch_one::<MemStore, Ranked>(alloc, &mut tx, OF_SHIP, &[ValueRef::Int(1)]);
    assert!(rt; several.err() == Some(CORRUPT));
}

// On the first ship Ana is shown first, whose rank is set to 2; nobody is on the third ship; and on the second a rank is NULL, which
// is none.
#[test]
fn the_first_row_is_fetched(rt: HostRuntime) {
    let alloc = rt.alloc();
    let mut conn = with_crew(&rt);
    conn.execute(
        "UPDATE crew SET rank = CASE ship WHEN 1 THEN 2 END WHERE name = 'Ana'",
        &[],
    )
    .expect(&rt, "an update");
    assert!(rt; conn.is_autocommit());
    let mut tx = conn.transaction();
    let first = fetch_first::<MemStore, Ranked>(alloc, &mut tx, OF_SHIP, &[ValueRef::Int(1)]);
    let first = first.expect(&rt, "a row").expect(&rt, "a rank");
    let none = fetch_first::<MemStore, Ranked>(alloc, &mut tx, OF_SHIP, &[ValueRef::Int(3)]);
    assert!(rt; first.rank == 2 && none.expect(&rt, "no row").is_none());
    let unread = fetch_first::<MemStore, Ranked>(alloc, &mut tx, OF_SHIP, &[ValueRef::Int(2)]);
    assert!(rt; unread.err() == Some(CORRUPT));
}
