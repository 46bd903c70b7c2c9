//! Holders are written, found and set, and the fields of rows are read, in a store in memory.
use crate::examples::{HOLDER, row, with_rows, with_tables};
use sqlite::{Error, ErrorCode, Row};
use sqlite_value::value::ValueRef;
use std::process::Abort;
use td_base::{AccessCode, Cents, Cover, Day, Eori, Grn, HolderNo, Lrn, Moment, Mrn, OfficeNo};
use td_movement::State;
use td_schema::{
    amount_at, amount_or_null, code_at, cover_at, cover_or_null, day_at, day_or_null, eori_at,
    grn_at, holder_at, lrn_at, moment_at, mrn_at, number_of, office_at, office_or_null,
    optional_day_at, optional_office_at, serial_at, state_at,
};
use td_store_rows::{find_holder, insert_holder, set_holder};

#[test]
fn a_holder_is_found_as_it_was_set(rt: HostRuntime) {
    let alloc = rt.alloc();
    let (first, second) = (row(&rt, 1, 0, 0), row(&rt, 2, 0, 0));
    let changed = row(&rt, 1, 1, 0);
    let mut conn = with_tables(&rt);
    assert!(rt; conn.is_autocommit());
    let mut tx = conn.transaction();
    insert_holder(&mut tx, &first).expect(&rt, "a holder");
    insert_holder(&mut tx, &second).expect(&rt, "a holder");
    set_holder(&mut tx, &changed).expect(&rt, "a holder");
    assert!(rt; find_holder(alloc, &mut tx, first.holder) == Ok(Some(changed)));
    assert!(rt; find_holder(alloc, &mut tx, second.holder) == Ok(Some(second)));
}

#[test]
fn a_holder_who_is_not_registered_is_none(rt: HostRuntime) {
    let holder = row(&rt, 1, 0, 0);
    let mut conn = with_tables(&rt);
    assert!(rt; conn.is_autocommit());
    let mut tx = conn.transaction();
    let found = find_holder(rt.alloc(), &mut tx, holder.holder).expect(&rt, "no row");
    assert!(rt; found.is_none());
    let refused = set_holder(&mut tx, &holder);
    assert!(rt; refused == Err(Error::SqliteFailure(ErrorCode::DatabaseCorrupt)));
}

/// Values, of which each stands in the column of its name.
const VALUES: &str =
    "SELECT 1, -1, 1000000, 4294967296, NULL, '?', 20148, 10956, 1740819600, 50, 1000000000000001, 'CH1234567', '25CH0000010000014', '25CH00000100000013', 'A1', 'AB12', 'CH001251', 'released' FROM holders";

const ONE: usize = 0;

const MINUS_ONE: usize = 1;

const MILLION: usize = 2;

const ABOVE_32_BITS: usize = 3;

const NULL: usize = 4;

const MARK: usize = 5;

const DAY: usize = 6;

const BEFORE_2000: usize = 7;

const MOMENT: usize = 8;

const HALF: usize = 9;

const ABOVE_AMOUNTS: usize = 10;

const EORI: usize = 11;

const GRN: usize = 12;

const MRN: usize = 13;

const LRN: usize = 14;

const CODE: usize = 15;

const OFFICE: usize = 16;

const STATE: usize = 17;

/// What a SELECT shows of one holder's row.
fn shown(rt: &(impl AllocGlobal + Abort), text: &str, values: &[ValueRef<'_>]) -> Vec<Row> {
    let mut conn = with_rows(rt, &[HOLDER]);
    assert!(rt; conn.is_autocommit());
    let mut tx = conn.transaction();
    typed_sql::select(&mut tx, text, values).expect(rt, "rows")
}

fn are_numbers(row: &Row) -> bool {
    holder_at(row, ONE) == HolderNo::new(1)
        && holder_at(row, MILLION).is_none()
        && serial_at(row, MILLION) == Some(1_000_000)
        && serial_at(row, ABOVE_32_BITS).is_none()
        && amount_at(row, HALF) == Cents::new(50)
        && amount_at(row, ABOVE_AMOUNTS).is_none()
        && cover_at(row, HALF) == Cover::new(50)
        && cover_at(row, ONE).is_none()
}

fn are_times(row: &Row) -> bool {
    moment_at(row, MOMENT) == Moment::new(1_740_819_600).ok()
        && moment_at(row, DAY).is_none()
        && day_at(row, DAY) == Day::new(20148)
        && day_at(row, BEFORE_2000).is_none()
        && optional_day_at(row, DAY) == Some(Day::new(20148))
        && optional_day_at(row, NULL) == Some(None)
        && optional_day_at(row, BEFORE_2000).is_none()
}

#[test]
fn numbers_are_read_within_their_ranges(rt: HostRuntime) {
    let rows = shown(&rt, VALUES, &[]);
    assert!(rt; rows.len() == 1);
    assert!(rt; are_numbers(&rows[0]));
    assert!(rt; are_times(&rows[0]));
}

fn is_no_number(row: &Row, at: usize) -> bool {
    holder_at(row, at).is_none()
        && serial_at(row, at).is_none()
        && moment_at(row, at).is_none()
        && day_at(row, at).is_none()
        && amount_at(row, at).is_none()
        && cover_at(row, at).is_none()
}

const NO_NUMBERS: [usize; 3] = [MINUS_ONE, NULL, MARK];

#[test]
fn what_is_no_number_is_not_read_as_one(rt: HostRuntime) {
    let rows = shown(&rt, VALUES, &[]);
    assert!(rt; rows.len() == 1);
    let row = &rows[0];
    for at in &NO_NUMBERS {
        assert!(rt; is_no_number(row, *at), "{at}");
    }
    assert!(rt; optional_day_at(row, MARK).is_none() && optional_day_at(row, MINUS_ONE).is_none());
}

fn are_references(row: &Row) -> bool {
    eori_at(row, EORI) == Eori::read(b"CH1234567")
        && grn_at(row, GRN) == Grn::read(b"25CH0000010000014").ok()
        && mrn_at(row, MRN) == Mrn::read(b"25CH00000100000013").ok()
        && lrn_at(row, LRN) == Lrn::read(b"A1")
        && code_at(row, CODE) == AccessCode::read(b"AB12")
}

fn are_offices(row: &Row) -> bool {
    let office = OfficeNo::read(b"CH001251");
    office.is_some()
        && office_at(row, OFFICE) == office
        && optional_office_at(row, OFFICE) == Some(office)
        && optional_office_at(row, NULL) == Some(None)
}

#[test]
fn texts_are_read_in_their_forms(rt: HostRuntime) {
    let rows = shown(&rt, VALUES, &[]);
    assert!(rt; rows.len() == 1);
    assert!(rt; are_references(&rows[0]));
    assert!(rt; are_offices(&rows[0]));
    assert!(rt; state_at(&rows[0], STATE) == Some(State::Released));
}

fn is_no_text(row: &Row, at: usize) -> bool {
    eori_at(row, at).is_none()
        && grn_at(row, at).is_none()
        && mrn_at(row, at).is_none()
        && lrn_at(row, at).is_none()
        && code_at(row, at).is_none()
        && office_at(row, at).is_none()
        && state_at(row, at).is_none()
}

const NO_TEXTS: [usize; 3] = [ONE, NULL, MARK];

#[test]
fn what_is_no_such_text_is_not_read_as_one(rt: HostRuntime) {
    let rows = shown(&rt, VALUES, &[]);
    assert!(rt; rows.len() == 1);
    let row = &rows[0];
    for at in &NO_TEXTS {
        assert!(rt; is_no_text(row, *at), "{at}");
    }
    assert!(rt; optional_office_at(row, ONE).is_none() && optional_office_at(row, MARK).is_none());
}

fn is_read_back(row: &Row, office: Option<OfficeNo>) -> bool {
    serial_at(row, 0) == Some(7)
        && day_at(row, 1) == Day::new(20148)
        && amount_at(row, 2) == Cents::new(500_000)
        && cover_at(row, 3) == Cover::new(50)
        && office_at(row, 4) == office
        && optional_day_at(row, 5) == Some(None)
}

#[test]
fn what_is_given_to_a_statement_is_read_back(rt: HostRuntime) {
    let office = OfficeNo::read(b"CH001251");
    let values = [
        number_of(7),
        day_or_null(Day::new(20148)),
        amount_or_null(Cents::new(500_000)),
        cover_or_null(Cover::new(50)),
        office_or_null(&office),
        day_or_null(None),
    ];
    let rows = shown(&rt, "SELECT ?1, ?2, ?3, ?4, ?5, ?6 FROM holders", &values);
    assert!(rt; rows.len() == 1);
    assert!(rt; is_read_back(&rows[0], office));
}
