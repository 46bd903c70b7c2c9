//! The commands of two holders at a desk of each: what is said is what one desk says to all of them. The same of files of
//! rows: the rows of the desks' results, in the order of the file, are those of one desk's.
use super::{assert_said, open, plain_desk, register, see};
use crate::examples::AT;
use std::process::Abort;
use td_acts::Stamped;
use td_batch::{BatchRun, read_acts, read_declarations};
use td_desk::{PlainDesk, do_one};
use td_split::run_share;
use td_split_jobs::{
    batches_hold_as_one, batches_tell_as_one, replies_are_gathered, result_is_gathered,
    rows_are_gathered, run_act_share, run_declaration_share, servings_hold_as_one,
    servings_tell_as_one,
};

// Holder 000002's commands of the list that one desk does, and what is said to them there.
fn share_of_the_second(rt: &impl Abort) -> [Stamped; 3] {
    [
        register(rt, 2, b"CH1234567", AT),
        register(rt, 2, b"DE9", AT + 5),
        see(rt, 2, AT),
    ]
}

const OF_THE_SECOND: [&str; 3] = [
    "holder 000002 CH1234567 0 0",
    "holder-known",
    "holder 000002 CH1234567 0 0",
];

// Holder 000001's.
fn share_of_the_first(rt: &impl Abort) -> [Stamped; 4] {
    [
        see(rt, 1, AT),
        register(rt, 1, b"CH1234567", AT - 1),
        see(rt, 1, 946_684_799),
        see(rt, 1, 946_684_800),
    ]
}

const OF_THE_FIRST: [&str; 4] = [
    "no-holder",
    "holder 000001 CH1234567 0 0",
    "clock-range",
    "holder 000001 CH1234567 0 0",
];

fn assert_share(rt: &(impl AllocGlobal + Abort), list: &[Stamped], wanted: &[&str]) {
    let mut desk = plain_desk(rt);
    let outcomes = run_share(rt.alloc(), &mut desk, list).expect(rt, "memory");
    assert_said(rt, &outcomes, wanted);
}

#[test]
fn two_desks_say_what_one_desk_says(rt: HostRuntime) {
    assert_share(&rt, &share_of_the_second(&rt), &OF_THE_SECOND);
    assert_share(&rt, &share_of_the_first(&rt), &OF_THE_FIRST);
}

/// Tells the desk this, whatever is said to it.
fn tell(rt: &(impl AllocGlobal + Abort), desk: &mut PlainDesk, stamped: &Stamped) {
    let _said = do_one(rt.alloc(), desk, stamped);
}

/// A desk with holder 000001, who has a guarantee.
fn first_desk(rt: &(impl AllocGlobal + Abort)) -> PlainDesk {
    let mut desk = plain_desk(rt);
    tell(rt, &mut desk, &register(rt, 1, b"CH1234567", AT));
    tell(rt, &mut desk, &open(rt, 1, AT));
    desk
}

/// It went to its end, and this is its result file.
fn assert_result(rt: &impl Abort, run: &BatchRun, due: &str) {
    assert!(rt; run.stopped.is_none());
    assert_eq!(rt; str::from_utf8(&run.text).unwrap_or("what is no text"), due);
}

/// The declarations of the file are done at the desk, and then an act; these are the results.
fn assert_rows(
    rt: &(impl AllocGlobal + Abort),
    desk: &mut PlainDesk,
    (declared, due): (&[u8], &str),
    (acted, act_due): (&[u8], &str),
) {
    let rows = read_declarations(rt.alloc(), declared)
        .ok()
        .expect(rt, "a file");
    assert_result(rt, &run_declaration_share(rt.alloc(), desk, AT, &rows), due);
    let acts = read_acts(rt.alloc(), acted).ok().expect(rt, "a file");
    assert_result(rt, &run_act_share(rt.alloc(), desk, AT, &acts), act_due);
}

/// Declarations of three holders, and what one desk says to them.
const ALL_ROWS: (&[u8], &str) = (
    b"holder,lrn,departure,destination,lines\n000002,A1,CH001251,DE005600,25CH0000010000014:AB12:1.00\n000001,A1,CH001251,DE005600,25CH0000010000014:AB12:5000.00\n000003,A1,CH001251,DE005600,25CH0000010000014:AB12:1.00\n000001,A2,CH001251,DE005600,25CH0000010000014:AB12:12.50\n",
    "holder,lrn,outcome,mrn\n000002,A1,no-guarantee,\n000001,A1,IE028,25CH000001000001J8\n000003,A1,no-holder,\n000001,A2,IE028,25CH000001000002J7\n",
);

/// Those of holder 000001, at the desk that has this holder alone.
const ROWS_OF_THE_FIRST: (&[u8], &str) = (
    b"holder,lrn,departure,destination,lines\n000001,A1,CH001251,DE005600,25CH0000010000014:AB12:5000.00\n000001,A2,CH001251,DE005600,25CH0000010000014:AB12:12.50\n",
    "holder,lrn,outcome,mrn\n000001,A1,IE028,25CH000001000001J8\n000001,A2,IE028,25CH000001000002J7\n",
);

/// The others, at the desk of the others.
const OTHER_ROWS: (&[u8], &str) = (
    b"holder,lrn,departure,destination,lines\n000002,A1,CH001251,DE005600,25CH0000010000014:AB12:1.00\n000003,A1,CH001251,DE005600,25CH0000010000014:AB12:1.00\n",
    "holder,lrn,outcome,mrn\n000002,A1,no-guarantee,\n000003,A1,no-holder,\n",
);

/// An act of holder 000001's, and none.
const ACT: (&[u8], &str) = (
    b"message,mrn,value\nIE029,25CH000001000001J8,2025-03-08\n",
    "message,mrn,outcome\nIE029,25CH000001000001J8,released\n",
);

const NO_ACT: (&[u8], &str) = (b"message,mrn,value\n", "message,mrn,outcome\n");

#[test]
fn two_desks_give_the_rows_of_one(rt: HostRuntime) {
    let second = register(&rt, 2, b"DE7654321", AT);
    let mut one = first_desk(&rt);
    tell(&rt, &mut one, &second);
    assert_rows(&rt, &mut one, ALL_ROWS, ACT);
    assert_rows(&rt, &mut first_desk(&rt), ROWS_OF_THE_FIRST, ACT);
    let mut other = plain_desk(&rt);
    tell(&rt, &mut other, &second);
    assert_rows(&rt, &mut other, OTHER_ROWS, NO_ACT);
}

// There is nothing to run: the laws hold at these types.
#[test]
fn the_laws_of_split_jobs_hold_at_plain_desks() {
    batches_tell_as_one::<PlainDesk, PlainDesk>();
    rows_are_gathered::<PlainDesk, PlainDesk>();
    result_is_gathered::<PlainDesk, PlainDesk>();
    batches_hold_as_one::<PlainDesk, PlainDesk>();
    servings_tell_as_one::<PlainDesk, PlainDesk>();
    replies_are_gathered::<PlainDesk, PlainDesk>();
    servings_hold_as_one::<PlainDesk, PlainDesk>();
}
