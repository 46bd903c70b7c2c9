//! Amounts that no line has. (What is in use in each state, guaranteed amounts, ends and codes stand in the transcripts.)
use crate::examples::{GRN, MRN, SECOND_GRN, cents, grn, line, movement};
use std::process::Abort;
use td_guarantee::*;
use td_movement::{Movement, State};

// A movement of two lines: so many cents on the first guarantee, and one on the second.
fn with_lines(rt: &(impl AllocGlobal + Abort), state: State, number: u64) -> Movement {
    let first = line(rt, GRN, number);
    let second = line(rt, SECOND_GRN, 1);
    let lines = vec![in rt.alloc(); first, second].expect(rt, "memory");
    let lodged = movement(rt, MRN, b"A1", lines);
    Movement { state, ..lodged }
}

// What movements have in use on a guarantee, in cents.
fn used(rt: &impl Abort, movements: &[Movement], on: &[u8]) -> Option<u64> {
    in_use(movements, &grn(rt, on)).map(|cents| cents.get())
}

/// The greatest amount, in cents.
const MOST: u64 = 1_000_000_000_000_000;

#[test]
fn amounts_in_use_are_added_up(rt: HostRuntime) {
    let movements = [
        with_lines(&rt, State::Released, MOST - 1),
        with_lines(&rt, State::Accepted, 7),
        with_lines(&rt, State::Cleared, 1),
    ];
    assert!(rt; used(&rt, &movements, GRN) == Some(MOST));
    assert!(rt; used(&rt, &[], GRN) == Some(0));
    let movements = [
        with_lines(&rt, State::Released, MOST),
        with_lines(&rt, State::Cleared, 1),
    ];
    assert!(rt; used(&rt, &movements, GRN).is_none());
    let most = cents(&rt, MOST);
    assert!(rt; fits(most, most, cents(&rt, 0)));
}
