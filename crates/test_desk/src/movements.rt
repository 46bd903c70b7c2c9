//! Days of movements that no desk has, a fault, and a law. (Moves, names and days that are due stand in the transcripts.)
use crate::examples::day;
use std::process::Abort;
use td_movement::*;

const STATES: [State; 8] = [
    State::Accepted,
    State::Cancelled,
    State::Released,
    State::Enquired,
    State::Arrived,
    State::Discrepant,
    State::Cleared,
    State::WrittenOff,
];

/// Texts that name no state. (The tables let none of them in.)
const OTHERS: [&[u8]; 6] = [
    b"",
    b"Accepted",
    b"accepted ",
    b"accept",
    b"written off",
    b"A1",
];

#[test]
fn states_are_named(rt: HostRuntime) {
    for other in &OTHERS {
        assert!(rt; State::read(other).is_none());
    }
    names_differ();
    let wrong = step(State::Cleared, Move::Release)
        .err()
        .expect(&rt, "a fault");
    let line = format!(in rt.alloc(); "{wrong}").expect(&rt, "memory");
    assert!(rt; line.as_str() == "wrong-state");
}

/// A limit, the last day that there is, and whether an enquiry is open on it.
const ENQUIRIES: [(&[u8], bool); 2] = [(b"2100-12-24", true), (b"2100-12-31", false)];

#[test]
fn nothing_is_due_without_its_day(rt: HostRuntime) {
    let report = day(&rt, b"2025-03-20");
    for state in &STATES {
        assert!(rt;
            is_overdue(*state, None, None, report).is_none(),
            "{state:?}"
        );
    }
    let last = day(&rt, b"2100-12-31");
    assert!(rt; is_overdue(State::Arrived, Some(last), Some(last), last).is_none());
    for (limit, open) in &ENQUIRIES {
        assert!(rt; may_enquire(day(&rt, limit), last) == *open);
    }
}
