//! A desk over a store that may fail and shut, and runs at both desks.
mod batches;
mod lodging;
mod split;
mod store;

use crate::examples::{AT, code, country, cover, eori, holder};
use std::alloc::{AllocError, Global};
use std::process::Abort;
use store::{FaultyStore, run_stored};
use td_acts::{Answer, Command, Said, Stamped};
use td_base::Reference;
use td_desk::{Desk, Outcome, PlainDesk, run};

fn register(rt: &impl Abort, number: u32, text: &[u8], at: i64) -> Stamped {
    let command = Command::Register {
        holder: holder(rt, number),
        eori: eori(rt, text),
    };
    Stamped { at, command }
}

/// Opens a guarantee of 10,000.00 for a holder, with the code AB12.
fn open(rt: &impl Abort, number: u32, at: i64) -> Stamped {
    let command = Command::OpenGuarantee {
        holder: holder(rt, number),
        reference: Reference::new(1_000_000).expect(rt, "an amount"),
        cover: cover(rt, 50),
        code: code(rt, b"AB12"),
    };
    Stamped { at, command }
}

fn see(rt: &impl Abort, number: u32, at: i64) -> Stamped {
    let holder = holder(rt, number);
    Stamped {
        at,
        command: Command::SeeHolder { holder },
    }
}

/// A desk of CH without holders.
fn plain_desk(rt: &(impl AllocGlobal + Abort)) -> PlainDesk {
    PlainDesk::new(rt.alloc(), country(rt)).expect(rt, "memory")
}

/// The same over a store that serves so many calls.
fn stored_desk(rt: &(impl AllocGlobal + Abort), good_calls: u32) -> FaultyStore {
    FaultyStore::new(rt.alloc(), country(rt), good_calls).expect(rt, "memory")
}

/// What is said, in words.
fn words_of(alloc: Global, said: &Said) -> Result<String, AllocError> {
    match said {
        Said::Answered(answer) => answer_words(alloc, answer),
        Said::Refused(why) => String::from_str(alloc, why.name()),
    }
}

// The answers that are given here; the others have their words at the verdicts.
fn answer_words(alloc: Global, answer: &Answer) -> Result<String, AllocError> {
    match answer {
        Answer::Holder {
            holder,
            eori,
            guarantees,
            movements,
        } => format!(in alloc; "holder {holder} {eori} {guarantees} {movements}"),
        Answer::Opened { grn } => format!(in alloc; "opened {grn}"),
        Answer::Ie028 { lrn, mrn } => format!(in alloc; "IE028 {lrn} {mrn}"),
        Answer::Movement(movement) => {
            let (mrn, lrn, state) = (movement.mrn, movement.lrn, movement.state.name());
            format!(in alloc; "movement {mrn} {state} {lrn}")
        }
        Answer::Guarantee(guarantee, used) => {
            let (grn, reference) = (guarantee.grn, guarantee.reference);
            format!(in alloc; "guarantee {grn} {reference} {used}")
        }
        _ => String::from_str(alloc, "another answer"),
    }
}

fn outcome_words(alloc: Global, outcome: &Outcome) -> Result<String, AllocError> {
    match outcome {
        Outcome::Said(said) => words_of(alloc, said),
        Outcome::Failed(fault) => format!(in alloc; "{fault}"),
    }
}

fn assert_outcome(rt: &(impl AllocGlobal + Abort), outcome: &Outcome, want: &str) {
    let words = outcome_words(rt.alloc(), outcome).expect(rt, "memory");
    assert_eq!(rt; words.as_str(), want);
}

/// Each outcome is what is wanted, in words.
fn assert_said(rt: &(impl AllocGlobal + Abort), outcomes: &[Outcome], wanted: &[&str]) {
    assert_eq!(rt; outcomes.len(), wanted.len());
    for (outcome, want) in outcomes.iter().zip(wanted) {
        assert_outcome(rt, outcome, want);
    }
}

/// What is said to the commands at a plain desk is what is wanted.
fn assert_run(
    rt: &(impl AllocGlobal + Abort),
    desk: &mut PlainDesk,
    list: &[Stamped],
    wanted: &[&str],
) {
    let outcomes = run(rt.alloc(), desk, list).expect(rt, "memory");
    assert_said(rt, &outcomes, wanted);
}

/// The same at a desk over a store.
fn assert_stored(
    rt: &(impl AllocGlobal + Abort),
    desk: &mut FaultyStore,
    list: &[Stamped],
    wanted: &[&str],
) {
    let outcomes = run_stored(rt.alloc(), desk, list).expect(rt, "memory");
    assert_said(rt, &outcomes, wanted);
}

// Two holders with one EORI, registered, registered again and shown; one who isn't; and a moment out of range.
fn list(rt: &impl Abort) -> [Stamped; 7] {
    [
        register(rt, 2, b"CH1234567", AT),
        see(rt, 1, AT),
        register(rt, 1, b"CH1234567", AT - 1),
        register(rt, 2, b"DE9", AT + 5),
        see(rt, 2, AT),
        see(rt, 1, 946_684_799),
        see(rt, 1, 946_684_800),
    ]
}

/// What is said to each.
const WANTED: [&str; 7] = [
    "holder 000002 CH1234567 0 0",
    "no-holder",
    "holder 000001 CH1234567 0 0",
    "holder-known",
    "holder 000002 CH1234567 0 0",
    "clock-range",
    "holder 000001 CH1234567 0 0",
];

#[test]
fn runs_on_the_plain_desk(rt: HostRuntime) {
    let mut desk = plain_desk(&rt);
    assert_eq!(rt; desk.country().as_bytes(), b"CH".as_slice());
    assert_run(&rt, &mut desk, &list(&rt), &WANTED);
}

// What changes something is decided, and waived.
fn assert_waived(rt: &(impl AllocGlobal + Abort), desk: &mut PlainDesk, stamped: &Stamped) {
    let decision = desk.weigh(rt.alloc(), stamped.at, &stamped.command);
    let decision = decision.expect(rt, "memory");
    assert!(rt; decision.changes());
    decision.waive();
}

// What changes nothing is decided and carried, and says this both times.
fn assert_carried(
    rt: &(impl AllocGlobal + Abort),
    desk: &mut PlainDesk,
    stamped: &Stamped,
    want: &str,
) {
    let decision = desk.weigh(rt.alloc(), stamped.at, &stamped.command);
    let decision = decision.expect(rt, "memory");
    assert!(rt; !decision.changes() && is_said(rt, decision.said(), want));
    let said = desk.carry(rt.alloc(), decision).expect(rt, "memory");
    assert!(rt; is_said(rt, &said, want));
}

fn is_said(rt: &(impl AllocGlobal + Abort), said: &Said, want: &str) -> bool {
    words_of(rt.alloc(), said).expect(rt, "memory").as_str() == want
}

#[test]
fn decisions_are_weighed_waived_and_carried(rt: HostRuntime) {
    let mut desk = plain_desk(&rt);
    assert_waived(&rt, &mut desk, &register(&rt, 1, b"CH1234567", AT));
    assert_carried(&rt, &mut desk, &see(&rt, 1, AT), "no-holder");
}

/// What is wanted where so many are answered, and the store is shut from then on.
fn wanted_until(answered: usize) -> [&'static str; 7] {
    let mut wanted = WANTED;
    for at in answered..wanted.len() {
        wanted[at] = "store";
    }
    wanted
}

// The store serves so many calls, and is shut from then on: what was said before it stands, and the rest fails.
fn assert_shut(rt: &(impl AllocGlobal + Abort), good_calls: u32, answered: usize) {
    let mut desk = stored_desk(rt, good_calls);
    assert_stored(rt, &mut desk, &list(rt), &wanted_until(answered));
}

/// How many are answered where the store serves 0, 1, 2 calls and so on.
const ANSWERED: [usize; 12] = [0, 0, 1, 2, 2, 3, 4, 5, 6, 7, 7, 7];

#[test]
fn runs_over_a_store_that_fails(rt: HostRuntime) {
    for (good_calls, answered) in ANSWERED.iter().enumerate() {
        assert_shut(&rt, good_calls as u32, *answered);
    }
}
