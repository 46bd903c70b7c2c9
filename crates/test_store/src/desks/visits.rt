//! The deadlines of all movements and all guarantees of a desk are shown one after another, by holder and then by serial, as long
//! as more are wanted.
use super::accepted::{accept, lodge, open, register, release};
use super::made;
use super::opening::seen;
use crate::examples::{GRN, MRN, SECOND_GRN, country, grn, holder, mrn};
use sqlite::MemStore;
use std::alloc::AllocError;
use std::process::Abort;
use td_base::{Day, Grn};
use td_store::{KeptGuarantee, MovementDeadlines, SqlDesk, Visitor};

/// Writes a line for each row that it is shown, as long as it wants more.
#[derive(Drop)]
struct Clerk {
    wanted: u32,
}

impl Clerk {
    fn wants_more(&mut self) -> bool {
        self.wanted = self.wanted.saturating_sub(1);
        self.wanted > 0
    }
}

fn push_day(told: &mut String, day: Option<Day>) -> Result<(), AllocError> {
    match day {
        Some(day) => write!(told, " {day}"),
        None => told.push_str(" -"),
    }
}

fn push_movement(told: &mut String, row: &MovementDeadlines) -> Result<(), AllocError> {
    let (holder, mrn, state) = (row.holder, row.mrn, row.state.name());
    write!(told, "{holder} {mrn} {state}")?;
    push_day(told, row.limit)?;
    push_day(told, row.arrival)?;
    told.push_str("\n")
}

fn push_guarantee(told: &mut String, row: &KeptGuarantee) -> Result<(), AllocError> {
    let (holder, serial, reference) = (row.holder, row.serial, row.guarantee.reference);
    let used = row.used;
    let codes = row.guarantee.codes.len();
    writeln!(told, "{holder}/{serial} {reference} {used} {codes}")
}

impl Visitor<MovementDeadlines, String> for Clerk {
    ghost sees = { λ _ _ _ _ _. Unit {0} };

    fn see(&mut self, row: MovementDeadlines, beside: &mut String) -> bool {
        push_movement(beside, &row).is_ok() && self.wants_more()
    }
}

impl Visitor<KeptGuarantee, String> for Clerk {
    ghost sees = { λ _ _ _ _ _. Unit {0} };

    fn see(&mut self, row: KeptGuarantee, beside: &mut String) -> bool {
        push_guarantee(beside, &row).is_ok() && self.wants_more()
    }
}

/// What a clerk wrote who wanted so many rows of movements, and whether all were shown.
fn movements_told(
    rt: &(impl AllocGlobal + Abort),
    desk: &mut SqlDesk<MemStore>,
    wanted: u32,
) -> (String, bool) {
    let (mut clerk, mut told) = (Clerk { wanted }, String::new(rt.alloc()));
    let all = desk.visit_deadlines(rt.alloc(), &mut clerk, &mut told);
    (told, all.ok().expect(rt, "no fault"))
}

/// The same of guarantees.
fn guarantees_told(
    rt: &(impl AllocGlobal + Abort),
    desk: &mut SqlDesk<MemStore>,
    wanted: u32,
) -> (String, bool) {
    let (mut clerk, mut told) = (Clerk { wanted }, String::new(rt.alloc()));
    let all = desk.visit_guarantees(rt.alloc(), &mut clerk, &mut told);
    (told, all.ok().expect(rt, "no fault"))
}

/// A desk of holders 1, 2 and 3, of which the second came first: 1 has two guarantees and two movements, of which the first is
/// released, 2 has one of each, and 3 has none.
fn busy(rt: &(impl AllocGlobal + Abort)) -> SqlDesk<MemStore> {
    let mut desk = made(rt);
    let others = Grn::make(25, country(rt), holder(rt, 2), 1).expect(rt, "a GRN");
    let (first, second) = (grn(rt, GRN), grn(rt, SECOND_GRN));
    for number in [2, 3, 1] {
        accept(rt, &mut desk, register(rt, number));
    }
    for (number, reference) in [(2, 700_000), (1, 1_000_000), (1, 800_000)] {
        accept(rt, &mut desk, open(rt, number, reference, 50));
    }
    accept(rt, &mut desk, lodge(rt, 2, b"B1", others, 300_000));
    accept(rt, &mut desk, lodge(rt, 1, b"A1", first, 500_000));
    accept(rt, &mut desk, lodge(rt, 1, b"A2", second, 100_000));
    let released = release(rt, mrn(rt, MRN), b"2025-03-09");
    accept(rt, &mut desk, released);
    desk
}

const MOVEMENTS: &str = "000001 25CH000001000001J8 released 2025-03-09 -\n\
    000001 25CH000001000002J7 accepted - -\n\
    000002 25CH000002000001J3 accepted - -\n";

/// Only the first movement is released, so 5,000.00 are in use on the first guarantee.
const GUARANTEES: &str =
    "000001/1 10000.00 5000.00 0\n000001/2 8000.00 0.00 0\n000002/1 7000.00 0.00 0\n";

#[test]
fn all_movements_are_shown_by_holder_and_serial(rt: HostRuntime) {
    let (told, all) = movements_told(&rt, &mut busy(&rt), 4);
    assert_eq!(rt; told.as_str(), MOVEMENTS);
    assert!(rt; all);
}

#[test]
fn all_guarantees_are_shown_with_what_is_in_use(rt: HostRuntime) {
    let (told, all) = guarantees_told(&rt, &mut busy(&rt), 4);
    assert_eq!(rt; told.as_str(), GUARANTEES);
    assert!(rt; all);
}

#[test]
fn a_desk_goes_on_after_visits_that_stopped(rt: HostRuntime) {
    let mut desk = busy(&rt);
    let (told, all) = movements_told(&rt, &mut desk, 1);
    assert_eq!(rt;
        told.as_str(),
        "000001 25CH000001000001J8 released 2025-03-09 -\n"
    );
    assert!(rt; !all);
    let (told, all) = guarantees_told(&rt, &mut desk, 2);
    assert_eq!(rt;
        told.as_str(),
        "000001/1 10000.00 5000.00 0\n000001/2 8000.00 0.00 0\n"
    );
    assert!(rt; !all);
    let (after, before) = (seen(&rt, &mut desk), seen(&rt, &mut busy(&rt)));
    assert_eq!(rt; after.as_str(), before.as_str());
    accept(&rt, &mut desk, register(&rt, 4));
}

#[test]
fn nothing_is_shown_of_an_empty_desk(rt: HostRuntime) {
    let mut desk = made(&rt);
    let (told, all) = movements_told(&rt, &mut desk, 4);
    assert!(rt; told.is_empty() && all);
    let (told, all) = guarantees_told(&rt, &mut desk, 4);
    assert!(rt; told.is_empty() && all);
}
