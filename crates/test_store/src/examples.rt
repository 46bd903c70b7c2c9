//! What the examples are made of. A text that is none of its kind stops the test, and so does what a database doesn't
//! do: a test has no exit but its end, which its proof costs less for.
use sqlite::{Alter, Connection, MemStore};
use std::process::Abort;
use td_acts::HolderRow;
use td_base::{
    AccessCode, Cents, Country, Cover, Day, Eori, Grn, HolderNo, Lrn, Moment, Mrn, OfficeNo,
};
use td_guarantee::{Codes, Guarantee};
use td_movement::{Line, Movement, MovementLines, State};
use td_schema::{Layout, NEWEST_LAYOUT, make_tables};

/// The first two guarantees of holder 000001 in 2025.
pub const GRN: &[u8] = b"25CH0000010000014";

pub const SECOND_GRN: &[u8] = b"25CH0000010000023";

/// The first movement of that holder, and its MRN in the older form.
pub const MRN: &[u8] = b"25CH000001000001J8";

pub const OLDER_MRN: &[u8] = b"25CH00000100000013";

/// That holder's row, after two guarantees and two movements.
pub const HOLDER: &str = "INSERT INTO holders VALUES (1, 'CH1234567', 1740819600, 2, 2)";

pub fn country(rt: &impl Abort) -> Country {
    Country::read(b"CH").expect(rt, "a country")
}

pub fn holder(rt: &impl Abort, number: u32) -> HolderNo {
    HolderNo::new(number).expect(rt, "a holder")
}

pub fn grn(rt: &impl Abort, text: &[u8]) -> Grn {
    Grn::read(text).ok().expect(rt, "a GRN")
}

pub fn mrn(rt: &impl Abort, text: &[u8]) -> Mrn {
    Mrn::read(text).ok().expect(rt, "an MRN")
}

pub fn cents(rt: &impl Abort, number: u64) -> Cents {
    Cents::new(number).expect(rt, "an amount")
}

pub fn cover(rt: &impl Abort, percent: u64) -> Cover {
    Cover::new(percent).expect(rt, "a cover")
}

pub fn code(rt: &impl Abort, text: &[u8]) -> AccessCode {
    AccessCode::read(text).expect(rt, "a code")
}

pub fn day(rt: &impl Abort, text: &[u8]) -> Day {
    Day::read(text).expect(rt, "a day")
}

pub fn office(rt: &impl Abort, text: &[u8]) -> OfficeNo {
    OfficeNo::read(text).expect(rt, "an office")
}

pub fn lrn(rt: &impl Abort, text: &[u8]) -> Lrn {
    Lrn::read(text).expect(rt, "an LRN")
}

pub fn eori(rt: &impl Abort, text: &[u8]) -> Eori {
    Eori::read(text).expect(rt, "an EORI")
}

/// A holder's row after so many guarantees and movements.
pub fn row(rt: &impl Abort, number: u32, grn_count: u32, mrn_count: u32) -> HolderRow {
    HolderRow {
        holder: holder(rt, number),
        eori: eori(rt, b"CH1234567"),
        last_at: Moment::new(1_740_819_600).ok().expect(rt, "a moment"),
        grn_count,
        mrn_count,
    }
}

/// A line of 5,000.00 on the first guarantee.
pub fn line(rt: &impl Abort) -> Line {
    Line {
        grn: grn(rt, GRN),
        cents: cents(rt, 500_000),
    }
}

/// A guarantee of 10,000.00 at half cover, with the code AB12.
pub fn guarantee(rt: &(impl AllocGlobal + Abort), text: &[u8]) -> Guarantee {
    Guarantee {
        grn: grn(rt, text),
        reference: cents(rt, 1_000_000),
        cover: cover(rt, 50),
        ends: None,
        codes: Codes::one(rt.alloc(), code(rt, b"AB12")),
    }
}

/// A movement with these lines that was accepted on 2025-03-01, which is day 20148.
pub fn movement(rt: &impl Abort, lines: Vec<Line>) -> Movement {
    Movement {
        mrn: mrn(rt, MRN),
        lrn: lrn(rt, b"A1"),
        departure: office(rt, b"CH001251"),
        destination: office(rt, b"DE005600"),
        accepted: day(rt, b"2025-03-01"),
        state: State::Accepted,
        limit: None,
        arrival: None,
        actual: None,
        lines: MovementLines::new(lines),
    }
}

/// Makes the tables of a layout in a database that has none.
pub fn make<S: Alter>(rt: &impl Abort, conn: &mut Connection<S>, layout: Layout) {
    assert!(rt; conn.is_autocommit());
    let mut tx = conn.transaction();
    make_tables(&mut tx, layout).expect(rt, "tables");
    tx.commit().expect(rt, "a commit");
}

/// A database in memory with the tables of a layout.
pub fn with_layout(rt: &(impl AllocGlobal + Abort), layout: Layout) -> Connection<MemStore> {
    let mut conn = Connection::open_in_memory(rt.alloc()).expect(rt, "a database");
    make(rt, &mut conn, layout);
    conn
}

/// A database in memory with the tables.
pub fn with_tables(rt: &(impl AllocGlobal + Abort)) -> Connection<MemStore> {
    with_layout(rt, NEWEST_LAYOUT)
}

/// Carries statements out, one after another.
pub fn fill<S: Alter>(rt: &impl Abort, conn: &mut Connection<S>, rows: &[&str]) {
    for statement in rows {
        conn.execute(statement, &[]).expect(rt, "a statement");
    }
}

/// The same with rows.
pub fn with_rows(rt: &(impl AllocGlobal + Abort), rows: &[&str]) -> Connection<MemStore> {
    let mut conn = with_tables(rt);
    fill(rt, &mut conn, rows);
    conn
}
