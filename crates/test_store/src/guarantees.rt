//! A guarantee is written, found and amended, in a store in memory, and the office's own row too.
use crate::examples::{
    GRN, HOLDER, SECOND_GRN, cents, country, fill, grn, guarantee, holder, with_layout, with_rows,
};
use sqlite::{Connection, Error, ErrorCode, MemStore};
use std::process::Abort;
use td_acts::NewTerms;
use td_base::{Country, Day, HolderNo};
use td_guarantee::Guarantee;
use td_schema::Layout;
use td_store_rows::{
    StoredMeta, add_used, empty_guarantees1, find_by_serial, find_kept, find_meta,
    guarantees_within, insert_guarantee, insert_meta, kept_within, next_guarantee_of, set_terms,
    set_version, take_used,
};

const CORRUPT: Error = Error::SqliteFailure(ErrorCode::DatabaseCorrupt);

/// Writes two guarantees for the holder, the later one first. On the first one 3,000.00 are in use.
fn write_two(rt: &(impl AllocGlobal + Abort), conn: &mut Connection<MemStore>, holder: HolderNo) {
    let (first, second) = (guarantee(rt, GRN), guarantee(rt, SECOND_GRN));
    assert!(rt; conn.is_autocommit());
    let mut tx = conn.transaction();
    insert_guarantee(&mut tx, holder, 2, &second, cents(rt, 0)).expect(rt, "a guarantee");
    insert_guarantee(&mut tx, holder, 1, &first, cents(rt, 300_000)).expect(rt, "a guarantee");
    tx.commit().expect(rt, "a commit");
}

/// Sets terms of the holder's guarantee with a serial, in a transaction of its own.
fn set_one(
    conn: &mut Connection<MemStore>,
    holder: HolderNo,
    serial: u32,
    terms: &NewTerms,
) -> Result<(), Error> {
    if conn.is_autocommit() {
        let mut tx = conn.transaction();
        set_terms(&mut tx, holder, serial, terms)?;
        tx.commit()?;
    }
    Ok(())
}

/// Writes the office's own row in a transaction of its own.
fn write_meta(conn: &mut Connection<MemStore>, country: Country) -> Result<(), Error> {
    if conn.is_autocommit() {
        let mut tx = conn.transaction();
        insert_meta(&mut tx, 1, country)?;
        tx.commit()?;
    }
    Ok(())
}

// Whether it has the terms that it was opened with. No code is found with it.
fn is_as_opened(guarantee: &Guarantee) -> bool {
    let amounts = (guarantee.reference.get(), guarantee.cover.get());
    amounts == (1_000_000, 50) && guarantee.ends.is_none() && guarantee.codes.len() == 0
}

#[test]
fn a_guarantee_is_found_by_its_references(rt: HostRuntime) {
    let alloc = rt.alloc();
    let (holder, grn) = (holder(&rt, 1), grn(&rt, GRN));
    let mut conn = with_rows(&rt, &[HOLDER]);
    write_two(&rt, &mut conn, holder);
    assert!(rt; conn.is_autocommit());
    let mut tx = conn.transaction();
    let found = find_kept(alloc, &mut tx, holder, 1, &grn).expect(&rt, "a row");
    let found = found.expect(&rt, "a guarantee");
    assert!(rt; found.used.get() == 300_000);
    assert!(rt; is_as_opened(&found.guarantee));
    let other = find_kept(alloc, &mut tx, holder, 2, &grn).expect(&rt, "no row");
    assert!(rt; other.is_none());
    let found = find_by_serial(alloc, &mut tx, holder, 1).expect(&rt, "a row");
    assert!(rt; found.expect(&rt, "a guarantee").guarantee.grn == grn);
    let third = find_by_serial(alloc, &mut tx, holder, 3).expect(&rt, "no row");
    assert!(rt; third.is_none());
}

// A guarantee's terms: its reference amount in cents, its cover and its end.
fn terms_of(guarantee: &Guarantee) -> (u64, u64, Option<Day>) {
    let (reference, cover) = (guarantee.reference.get(), guarantee.cover.get());
    (reference, cover, guarantee.ends)
}

// The holder has two guarantees, with these terms, and what was in use on them is.
fn assert_terms(
    rt: &(impl AllocGlobal + Abort),
    conn: &mut Connection<MemStore>,
    holder: HolderNo,
    terms: [(u64, u64, Option<Day>); 2],
) {
    assert!(rt; conn.is_autocommit());
    let mut tx = conn.transaction();
    let all = guarantees_within(rt.alloc(), &mut tx, 2, holder, 0, 100).expect(rt, "rows");
    assert!(rt; all.len() == 2);
    assert!(rt; terms_of(&all[0].guarantee) == terms[0]);
    assert!(rt; terms_of(&all[1].guarantee) == terms[1]);
    let kept = kept_within(rt.alloc(), &mut tx, holder, 0, 100).expect(rt, "rows");
    assert!(rt; kept.len() == 2);
    assert!(rt; terms_of(&kept[0].guarantee) == terms[0] && kept[0].used.get() == 300_000);
    assert!(rt; terms_of(&kept[1].guarantee) == terms[1] && kept[1].used.get() == 0);
}

#[test]
fn terms_that_are_not_said_stay(rt: HostRuntime) {
    let holder = holder(&rt, 1);
    let grn = grn(&rt, GRN);
    let lowered = NewTerms {
        reference: Some(cents(&rt, 400_000)),
        ..NewTerms::of(grn)
    };
    let ended = NewTerms {
        ends: Day::new(20_156),
        ..NewTerms::of(grn)
    };
    let mut conn = with_rows(&rt, &[HOLDER]);
    write_two(&rt, &mut conn, holder);
    set_one(&mut conn, holder, 1, &lowered).expect(&rt, "terms");
    set_one(&mut conn, holder, 1, &ended).expect(&rt, "terms");
    let missing = set_one(&mut conn, holder, 2, &lowered);
    assert!(rt; missing == Err(CORRUPT));
    let terms = [(400_000, 50, Day::new(20_156)), (1_000_000, 50, None)];
    assert_terms(&rt, &mut conn, holder, terms);
}

/// Puts so many cents to the amount in use on the holder's guarantee with a serial, in a transaction of its own.
fn add_one(
    rt: &impl Abort,
    conn: &mut Connection<MemStore>,
    holder: HolderNo,
    serial: u32,
    amount: u64,
) -> Result<(), Error> {
    let amount = cents(rt, amount);
    if conn.is_autocommit() {
        let mut tx = conn.transaction();
        add_used(&mut tx, holder, serial, amount)?;
        tx.commit()?;
    }
    Ok(())
}

/// Takes so many cents off it.
fn take_one(
    rt: &impl Abort,
    conn: &mut Connection<MemStore>,
    holder: HolderNo,
    serial: u32,
    amount: u64,
) -> Result<(), Error> {
    let amount = cents(rt, amount);
    if conn.is_autocommit() {
        let mut tx = conn.transaction();
        take_used(&mut tx, holder, serial, amount)?;
        tx.commit()?;
    }
    Ok(())
}

// So many cents are in use on the holder's two guarantees.
fn assert_used(
    rt: &(impl AllocGlobal + Abort),
    conn: &mut Connection<MemStore>,
    holder: HolderNo,
    used: [u64; 2],
) {
    assert!(rt; conn.is_autocommit());
    let mut tx = conn.transaction();
    let kept = kept_within(rt.alloc(), &mut tx, holder, 0, 100).expect(rt, "rows");
    assert!(rt; kept.len() == 2);
    assert!(rt; kept[0].used.get() == used[0] && kept[1].used.get() == used[1]);
}

#[test]
fn no_more_is_put_into_use_than_the_reference_amount(rt: HostRuntime) {
    let holder = holder(&rt, 1);
    let mut conn = with_rows(&rt, &[HOLDER]);
    write_two(&rt, &mut conn, holder);
    add_one(&rt, &mut conn, holder, 1, 700_000).expect(&rt, "an amount");
    assert_used(&rt, &mut conn, holder, [1_000_000, 0]);
    assert!(rt; add_one(&rt, &mut conn, holder, 1, 1).is_err());
    assert!(rt; add_one(&rt, &mut conn, holder, 3, 1) == Err(CORRUPT));
    assert_used(&rt, &mut conn, holder, [1_000_000, 0]);
}

#[test]
fn no_more_is_taken_than_is_in_use(rt: HostRuntime) {
    let holder = holder(&rt, 1);
    let mut conn = with_rows(&rt, &[HOLDER]);
    write_two(&rt, &mut conn, holder);
    take_one(&rt, &mut conn, holder, 1, 299_999).expect(&rt, "an amount");
    assert_used(&rt, &mut conn, holder, [1, 0]);
    assert!(rt; take_one(&rt, &mut conn, holder, 1, 2).is_err());
    assert!(rt; take_one(&rt, &mut conn, holder, 3, 1) == Err(CORRUPT));
    take_one(&rt, &mut conn, holder, 1, 1).expect(&rt, "an amount");
    assert_used(&rt, &mut conn, holder, [0, 0]);
}

// A file that was migrated, but that a guarantee stands in the table of each version.
const BOTH: [&str; 3] = [
    HOLDER,
    "INSERT INTO guarantees1 VALUES (1, 1, '25CH0000010000014', 1000000, 50, NULL)",
    "INSERT INTO guarantees2 VALUES (1, 2, '25CH0000010000023', 1000000, 50, NULL, 7)",
];

// The serials of the holder's guarantees in a file of that version, and the number of them.
fn assert_serials(
    rt: &(impl AllocGlobal + Abort),
    conn: &mut Connection<MemStore>,
    version: u32,
    serials: &[u32],
) {
    let holder = holder(rt, 1);
    assert!(rt; conn.is_autocommit());
    let mut tx = conn.transaction();
    let all = guarantees_within(rt.alloc(), &mut tx, version, holder, 0, 100).expect(rt, "rows");
    assert!(rt; all.len() == serials.len());
    for (at, serial) in serials.iter().enumerate() {
        assert!(rt; at < all.len());
        assert!(rt; all[at].serial == *serial);
    }
}

// The serial of the guarantee that the holder has next behind one, in a file of that version.
fn serial_behind(
    rt: &(impl AllocGlobal + Abort),
    conn: &mut Connection<MemStore>,
    version: u32,
    serial: u32,
) -> Option<u32> {
    assert!(rt; conn.is_autocommit());
    let mut tx = conn.transaction();
    let next = next_guarantee_of(rt.alloc(), &mut tx, version, 1, serial).expect(rt, "rows");
    next.map(|row| row.serial)
}

fn empty_first(rt: &impl Abort, conn: &mut Connection<MemStore>) {
    assert!(rt; conn.is_autocommit());
    let mut tx = conn.transaction();
    empty_guarantees1(&mut tx).expect(rt, "a deletion");
    tx.commit().expect(rt, "a commit");
}

#[test]
fn each_version_has_guarantees_of_its_own(rt: HostRuntime) {
    let mut conn = with_layout(&rt, Layout::Grown2);
    fill(&rt, &mut conn, &BOTH);
    assert_serials(&rt, &mut conn, 1, &[1]);
    assert_serials(&rt, &mut conn, 2, &[2]);
    assert!(rt; serial_behind(&rt, &mut conn, 1, 0) == Some(1));
    assert!(rt; serial_behind(&rt, &mut conn, 1, 1).is_none());
    assert!(rt; serial_behind(&rt, &mut conn, 2, 0) == Some(2));
    empty_first(&rt, &mut conn);
    assert_serials(&rt, &mut conn, 1, &[]);
    assert_serials(&rt, &mut conn, 2, &[2]);
}

/// Sets the version in a transaction of its own.
fn set_one_version(conn: &mut Connection<MemStore>, version: u32) -> Result<(), Error> {
    if conn.is_autocommit() {
        let mut tx = conn.transaction();
        set_version(&mut tx, version)?;
        tx.commit()?;
    }
    Ok(())
}

#[test]
fn a_version_is_set_and_the_country_stays(rt: HostRuntime) {
    let country = country(&rt);
    let mut conn = with_rows(&rt, &[HOLDER]);
    assert!(rt; set_one_version(&mut conn, 2) == Err(CORRUPT));
    write_meta(&mut conn, country).expect(&rt, "a row");
    set_one_version(&mut conn, 2).expect(&rt, "a version");
    assert!(rt; conn.is_autocommit());
    let mut tx = conn.transaction();
    let written = StoredMeta {
        version: 2,
        country: Some(country),
    };
    assert!(rt; find_meta(&mut tx) == Ok(Some(written)));
}

#[test]
fn the_office_has_one_row(rt: HostRuntime) {
    let country = country(&rt);
    let mut conn = with_rows(&rt, &[HOLDER]);
    write_meta(&mut conn, country).expect(&rt, "a row");
    assert!(rt; write_meta(&mut conn, country).is_err() && conn.is_autocommit());
    let mut tx = conn.transaction();
    let written = StoredMeta {
        version: 1,
        country: Some(country),
    };
    assert!(rt; find_meta(&mut tx) == Ok(Some(written)));
    let changed = tx.execute("UPDATE meta SET version = -7, country = 'Utopia'", &[]);
    changed.expect(&rt, "an update");
    let odd = StoredMeta {
        version: -7,
        country: None,
    };
    assert!(rt; find_meta(&mut tx) == Ok(Some(odd)));
    tx.execute("DELETE FROM meta", &[])
        .expect(&rt, "a deletion");
    assert!(rt; find_meta(&mut tx) == Ok(None));
}
