//! Codes are written, found and deleted, in a store in memory.
use crate::examples::{HOLDER, code, holder, with_rows};
use sqlite::{Connection, MemStore};
use std::process::Abort;
use td_base::HolderNo;
use td_store_rows::{StoredCode, codes_of, delete_code, insert_code};

/// Writes a code in a transaction of its own.
fn write_code(rt: &impl Abort, conn: &mut Connection<MemStore>, code: &StoredCode) {
    assert!(rt; conn.is_autocommit());
    let mut tx = conn.transaction();
    insert_code(&mut tx, code).expect(rt, "a code");
    tx.commit().expect(rt, "a commit");
}

/// Deletes a code in a transaction of its own.
fn take_code(rt: &impl Abort, conn: &mut Connection<MemStore>, code: &StoredCode) {
    assert!(rt; conn.is_autocommit());
    let mut tx = conn.transaction();
    delete_code(&mut tx, code).expect(rt, "a code");
    tx.commit().expect(rt, "a commit");
}

/// The codes of the first guarantee are this one alone.
fn assert_left(
    rt: &(impl AllocGlobal + Abort),
    conn: &mut Connection<MemStore>,
    holder: HolderNo,
    left: &StoredCode,
) {
    assert!(rt; conn.is_autocommit());
    let mut tx = conn.transaction();
    let codes = codes_of(rt.alloc(), &mut tx, holder, 1).expect(rt, "codes");
    assert!(rt; codes.len() == 1);
    assert!(rt; codes[0] == *left);
}

#[test]
fn a_code_is_found_until_it_is_deleted(rt: HostRuntime) {
    let holder = holder(&rt, 1);
    let first = StoredCode {
        holder,
        serial: 1,
        code: code(&rt, b"AB12"),
    };
    let second = StoredCode {
        code: code(&rt, b"ZZ99"),
        ..first
    };
    let mut conn = with_rows(&rt, &[HOLDER]);
    write_code(&rt, &mut conn, &second);
    write_code(&rt, &mut conn, &first);
    write_code(&rt, &mut conn, &StoredCode { serial: 2, ..first });
    take_code(&rt, &mut conn, &first);
    assert_left(&rt, &mut conn, holder, &second);
}
