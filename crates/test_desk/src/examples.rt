//! What the examples are made of. A text that is none of its kind stops the test, and so does want of memory: a test has
//! no exit but its end, which its proof costs less for.
use std::process::Abort;
use td_base::*;
use td_commands::{Command, Lines};
use td_guarantee::{Codes, Guarantee};
use td_movement::{Line, Movement, MovementLines, State};

/// The first two guarantees of holder 000001 in 2025.
pub const GRN: &[u8] = b"25CH0000010000014";

pub const SECOND_GRN: &[u8] = b"25CH0000010000023";

/// The first two movements of that holder.
pub const MRN: &[u8] = b"25CH000001000001J8";

pub const SECOND_MRN: &[u8] = b"25CH000001000002J7";

/// 2025-03-01T09:00:00Z.
pub const AT: i64 = 1_740_819_600;

pub fn country(rt: &impl Abort) -> Country {
    Country::read(b"CH").expect(rt, "a country")
}

pub fn holder(rt: &impl Abort, number: u32) -> HolderNo {
    HolderNo::new(number).expect(rt, "a holder")
}

pub fn grn(rt: &impl Abort, text: &[u8]) -> Grn {
    Grn::read(text).ok().expect(rt, "a GRN")
}

pub fn mrn(rt: &impl Abort, text: &[u8]) -> Mrn {
    Mrn::read(text).ok().expect(rt, "an MRN")
}

pub fn cents(rt: &impl Abort, number: u64) -> Cents {
    Cents::new(number).expect(rt, "an amount")
}

pub fn cover(rt: &impl Abort, percent: u64) -> Cover {
    Cover::new(percent).expect(rt, "a cover")
}

pub fn code(rt: &impl Abort, text: &[u8]) -> AccessCode {
    AccessCode::read(text).expect(rt, "a code")
}

pub fn day(rt: &impl Abort, text: &[u8]) -> Day {
    Day::read(text).expect(rt, "a day")
}

pub fn office(rt: &impl Abort, text: &[u8]) -> OfficeNo {
    OfficeNo::read(text).expect(rt, "an office")
}

pub fn lrn(rt: &impl Abort, text: &[u8]) -> Lrn {
    Lrn::read(text).expect(rt, "an LRN")
}

pub fn eori(rt: &impl Abort, text: &[u8]) -> Eori {
    Eori::read(text).expect(rt, "an EORI")
}

/// A line of so many cents on a guarantee.
pub fn line(rt: &impl Abort, on: &[u8], number: u64) -> Line {
    Line {
        grn: grn(rt, on),
        cents: cents(rt, number),
    }
}

/// One line on the first guarantee, with its code.
pub fn lines(rt: &(impl AllocGlobal + Abort), code_text: &[u8], number: u64) -> Lines {
    let coded = (line(rt, GRN, number), code(rt, code_text));
    let items = vec![in rt.alloc(); coded].expect(rt, "memory");
    Lines::new(items).expect(rt, "lines")
}

/// The declaration of these lines by a holder.
pub fn declaration(rt: &impl Abort, number: u32, lrn_text: &[u8], lines: Lines) -> Command {
    Command::Ie015 {
        holder: holder(rt, number),
        lrn: lrn(rt, lrn_text),
        departure: office(rt, b"CH001251"),
        destination: office(rt, b"DE005600"),
        lines,
    }
}

/// A guarantee of 10,000.00 at half cover, with the code AB12.
pub fn guarantee(rt: &(impl AllocGlobal + Abort), text: &[u8]) -> Guarantee {
    Guarantee {
        grn: grn(rt, text),
        reference: cents(rt, 1_000_000),
        cover: cover(rt, 50),
        ends: None,
        codes: Codes::one(rt.alloc(), code(rt, b"AB12")),
    }
}

/// A movement with these lines, as it was lodged on 2025-03-01.
pub fn movement(rt: &impl Abort, text: &[u8], lrn_text: &[u8], lines: Vec<Line>) -> Movement {
    Movement {
        mrn: mrn(rt, text),
        lrn: lrn(rt, lrn_text),
        departure: office(rt, b"CH001251"),
        destination: office(rt, b"DE005600"),
        accepted: day(rt, b"2025-03-01"),
        state: State::Accepted,
        limit: None,
        arrival: None,
        actual: None,
        lines: MovementLines::new(lines),
    }
}
