//! Commands that a desk accepts.
use crate::examples::{cents, code, cover, day, eori, holder, lrn, office};
use sqlite::MemStore;
use std::process::Abort;
use td_acts::Lines;
use td_base::{Grn, Mrn, Reference};
use td_desk::{Command, Outcome, Said, Stamped, do_one};
use td_movement::Line;
use td_store::SqlDesk;

/// 2025-03-01, at 9 in the morning.
pub const START: i64 = 1_740_819_600;

pub fn register(rt: &impl Abort, number: u32) -> Command {
    Command::Register {
        holder: holder(rt, number),
        eori: eori(rt, b"CH1234567"),
    }
}

/// A guarantee of so many cents, of which so many percent are covered.
pub fn open(rt: &impl Abort, number: u32, reference: u64, percent: u64) -> Command {
    Command::OpenGuarantee {
        holder: holder(rt, number),
        reference: Reference::new(reference).expect(rt, "an amount"),
        cover: cover(rt, percent),
        code: code(rt, b"AB12"),
    }
}

/// A declaration with one line of so many cents.
pub fn lodge(
    rt: &(impl AllocGlobal + Abort),
    number: u32,
    name: &[u8],
    grn: Grn,
    amount: u64,
) -> Command {
    let line = Line {
        grn,
        cents: cents(rt, amount),
    };
    let items = vec![in rt.alloc(); (line, code(rt, b"AB12"))].expect(rt, "memory");
    Command::Ie015 {
        holder: holder(rt, number),
        lrn: lrn(rt, name),
        departure: office(rt, b"CH001251"),
        destination: office(rt, b"DE005600"),
        lines: Lines::new(items).expect(rt, "lines"),
    }
}

/// The release of a movement that has to arrive by this day.
pub fn release(rt: &impl Abort, mrn: Mrn, limit: &[u8]) -> Command {
    let limit = day(rt, limit);
    Command::Ie029 { mrn, limit }
}

/// Has the desk do at the start what it has to accept.
pub fn accept(rt: &(impl AllocGlobal + Abort), desk: &mut SqlDesk<MemStore>, command: Command) {
    let outcome = do_one(rt.alloc(), desk, &Stamped { at: START, command });
    assert!(rt; matches!(outcome, Outcome::Said(Said::Answered(_))));
}
