//! The schemas of two databases are told to be the same where the same statements made them, and others where a view is
//! more or a table has another name; of the first table alone likewise.
use crate::examples::fill;
use same_schema::{has_same_first_table, is_same_schema};
use sqlite::{Connection, MemStore};
use std::process::Abort;

/// A table with keys, a default and checks, an index, and a view.
const STATEMENTS: [&str; 5] = [
    "CREATE TABLE holders (holder INTEGER PRIMARY KEY) STRICT",
    "CREATE TABLE guarantees (holder INTEGER NOT NULL REFERENCES holders ON UPDATE CASCADE, serial INTEGER NOT NULL DEFAULT 1 CHECK (NOT serial = 0), grn TEXT UNIQUE CHECK (CASE WHEN grn = 'x' THEN 0 ELSE 1 END), PRIMARY KEY (holder, serial)) STRICT",
    "CREATE UNIQUE INDEX by_serial ON guarantees (serial)",
    "CREATE VIEW first AS SELECT 1",
    "CREATE VIEW second AS SELECT 1",
];

/// The same table under another name.
const OTHER: &str = "CREATE TABLE offices (holder INTEGER PRIMARY KEY) STRICT";

/// A database that these statements made.
fn made(rt: &(impl AllocGlobal + Abort), statements: &[&str]) -> Connection<MemStore> {
    let mut conn = Connection::open_in_memory(rt.alloc()).expect(rt, "a database");
    fill(rt, &mut conn, statements);
    conn
}

// Whether two databases that these statements made have the same schema, and the same first table.
fn compared(rt: &(impl AllocGlobal + Abort), statements: &[&str], others: &[&str]) -> (bool, bool) {
    let (first, second) = (made(rt, statements), made(rt, others));
    let (first, second) = (first.schema(), second.schema());
    (
        is_same_schema(first, second),
        has_same_first_table(first, second),
    )
}

#[test]
fn what_the_same_statements_made_is_the_same(rt: HostRuntime) {
    assert!(rt; compared(&rt, &STATEMENTS, &STATEMENTS) == (true, true));
    assert!(rt; compared(&rt, &[], &[]) == (true, false));
}

#[test]
fn what_is_more_is_told(rt: HostRuntime) {
    for statements in 1..5 {
        let (same, first) = compared(&rt, &STATEMENTS, &STATEMENTS[..statements]);
        assert!(rt; !same && first);
    }
}

#[test]
fn another_first_table_is_told(rt: HostRuntime) {
    assert!(rt; compared(&rt, &STATEMENTS[..1], &[OTHER]) == (false, false));
    assert!(rt; compared(&rt, &STATEMENTS[..1], &[]) == (false, false));
}
