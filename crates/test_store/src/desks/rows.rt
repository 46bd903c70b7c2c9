//! A desk of several holders by its rows, and what a query finds.
use super::made;
use crate::examples::fill;
use sqlite::{Alter, Connection, MemStore};
use std::process::Abort;

/// The rows of a desk of CH. Holder 1 has two guarantees and three movements: of the first one's 1000000 cents 500000
/// are in use by movement 1, which is released, and 400000 by movement 2, which has arrived; of the second one's 500000
/// cents 200000 by movement 1. Movement 3 and the one of holder 2 are accepted, and have nothing in use. Holder 3 has
/// nothing. Day 20148 is 2025-03-01.
const ROWS: [&str; 6] = [
    "INSERT INTO holders VALUES (1, 'CH1234567', 1740992400, 2, 3), (2, 'DE7654321', 1740819600, 1, 1), (3, 'FR1', 1740819600, 0, 0)",
    "INSERT INTO guarantees2 VALUES (1, 1, '25CH0000010000014', 1000000, 50, NULL, 900000), (1, 2, '25CH0000010000023', 500000, 100, 20164, 200000), (2, 1, '25CH0000020000010', 1000000, 30, NULL, 0)",
    "INSERT INTO codes VALUES (1, 1, 'AB12'), (1, 1, 'CD34'), (1, 2, 'EF56'), (2, 1, 'AB12')",
    "INSERT INTO movements VALUES (1, 1, '25CH00000100000013', 'A1', 'CH001251', 'DE005600', 20148, 'released', 20155, NULL, NULL), (1, 2, '25CH00000100000021', 'A2', 'CH001251', 'DE005600', 20148, 'arrived', 20155, 20150, 'FR000100')",
    "INSERT INTO movements VALUES (1, 3, '25CH00000100000030', 'A3', 'CH001251', 'DE005600', 20148, 'accepted', NULL, NULL, NULL), (2, 1, '25CH00000200000019', 'A1', 'CH001251', 'DE005600', 20148, 'accepted', NULL, NULL, NULL)",
    "INSERT INTO lines3 VALUES (1, 1, 1, 1, 500000), (1, 1, 2, 2, 200000), (1, 2, 1, 1, 400000), (1, 3, 1, 1, 100001), (2, 1, 1, 1, 600000)",
];

/// A database with these rows.
pub fn tables(rt: &(impl AllocGlobal + Abort)) -> Connection<MemStore> {
    let mut conn = made(rt).close();
    fill(rt, &mut conn, &ROWS);
    conn
}

/// Adds the rows of a query.
pub fn push_rows<S: Alter>(
    rt: &(impl AllocGlobal + Abort),
    words: &mut String,
    conn: &mut Connection<S>,
    query: &str,
) {
    let rows = conn.query_all(query, &[]).expect(rt, "rows");
    write!(words, "{rows:?}\n").expect(rt, "memory");
}
