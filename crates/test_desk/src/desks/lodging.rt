//! Openings and declarations, by `run`: on the plain desk and at the desk over a store.
use super::{assert_run, assert_stored, open, plain_desk, register, see, stored_desk};
use crate::examples::{AT, GRN, MRN, SECOND_GRN, SECOND_MRN, declaration, grn, holder, lines, mrn};
use std::process::Abort;
use td_acts::{Command, Stamped};

// A holder lodges a declaration of a line on the first guarantee of holder 000001.
fn lodge(
    rt: &(impl AllocGlobal + Abort),
    number: u32,
    lrn: &[u8],
    code: &[u8],
    cents: u64,
    at: i64,
) -> Stamped {
    let command = declaration(rt, number, lrn, lines(rt, code, cents));
    Stamped { at, command }
}

// The openings and declarations of two holders.
fn list(rt: &(impl AllocGlobal + Abort)) -> [Stamped; 13] {
    [
        register(rt, 1, b"CH1234567", AT - 600),
        register(rt, 2, b"DE7654321", AT - 600),
        lodge(rt, 1, b"A1", b"AB12", 500_000, AT),
        open(rt, 1, AT),
        lodge(rt, 1, b"A1", b"AB12", 500_000, AT),
        lodge(rt, 1, b"A1", b"ZZZZ", 500_000, AT + 9),
        lodge(rt, 1, b"A1", b"AB12", 500_001, AT),
        lodge(rt, 1, b"A2", b"ZZZZ", 500_000, AT),
        lodge(rt, 1, b"A1", b"AB12", 500_000, AT - 1),
        open(rt, 2, AT - 1),
        lodge(rt, 2, b"A1", b"AB12", 500_000, AT),
        lodge(rt, 1, b"A2", b"AB12", 500_000, AT),
        see(rt, 1, AT),
    ]
}

// Holders look at a movement and at guarantees: their own, unknown ones and another's.
fn views(rt: &impl Abort) -> [Stamped; 10] {
    [
        see_movement(rt, 1, MRN),
        see_movement(rt, 1, SECOND_MRN),
        see_movement(rt, 1, b"25CH000001000003J6"),
        see_movement(rt, 1, b"24CH000001000001J6"),
        see_movement(rt, 2, MRN),
        see_movement(rt, 3, MRN),
        see_guarantee(rt, 1, GRN),
        see_guarantee(rt, 1, SECOND_GRN),
        see_guarantee(rt, 2, GRN),
        see_guarantee(rt, 3, GRN),
    ]
}

fn see_movement(rt: &impl Abort, number: u32, text: &[u8]) -> Stamped {
    let (holder, mrn) = (holder(rt, number), mrn(rt, text));
    Stamped {
        at: AT,
        command: Command::SeeMovement { holder, mrn },
    }
}

fn see_guarantee(rt: &impl Abort, number: u32, text: &[u8]) -> Stamped {
    let (holder, grn) = (holder(rt, number), grn(rt, text));
    Stamped {
        at: AT,
        command: Command::SeeGuarantee { holder, grn },
    }
}

/// What is said to each command of the list.
const LODGED: [&str; 13] = [
    "holder 000001 CH1234567 0 0",
    "holder 000002 DE7654321 0 0",
    "no-guarantee",
    "opened 25CH0000010000014",
    "IE028 A1 25CH000001000001J8",
    "IE028 A1 25CH000001000001J8",
    "lrn-used",
    "bad-code",
    "clock-back",
    "opened 25CH0000020000010",
    "no-guarantee",
    "IE028 A2 25CH000001000002J7",
    "holder 000001 CH1234567 1 2",
];

/// What is said to each view.
const VIEWED: [&str; 10] = [
    "movement 25CH000001000001J8 accepted A1",
    "movement 25CH000001000002J7 accepted A2",
    "no-movement",
    "no-movement",
    "no-movement",
    "no-holder",
    "guarantee 25CH0000010000014 10000.00 0.00",
    "no-guarantee",
    "no-guarantee",
    "no-holder",
];

#[test]
fn holders_lodge_on_the_plain_desk(rt: HostRuntime) {
    let mut desk = plain_desk(&rt);
    assert_run(&rt, &mut desk, &list(&rt), &LODGED);
    assert_run(&rt, &mut desk, &views(&rt), &VIEWED);
}

#[test]
fn holders_lodge_at_the_desk_over_a_store(rt: HostRuntime) {
    let mut desk = stored_desk(&rt, 100);
    assert_stored(&rt, &mut desk, &list(&rt), &LODGED);
    assert_stored(&rt, &mut desk, &views(&rt), &VIEWED);
}
