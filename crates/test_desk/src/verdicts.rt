//! Verdicts that no run of the program shows: over what is lent to be read, and on a declaration of a holder who has had
//! more movements than a file is filled with; and their laws. (What is said to each command stands in the transcripts.)
mod shown;

use crate::examples;
use crate::examples::{
    AT, GRN, MRN, cents, code, country, eori, grn, guarantee, holder, line, mrn,
};
use std::process::Abort;
use td_acts::table::verdict;
use td_acts::*;
use td_base::*;
use td_movement::{Movement, State};

/// The row of holder 000001 with so many guarantees and movements.
fn row(rt: &impl Abort, grn_count: u32, mrn_count: u32) -> HolderRow {
    HolderRow {
        holder: holder(rt, 1),
        eori: eori(rt, b"CH1234567"),
        last_at: Moment::new(AT).ok().expect(rt, "a moment"),
        grn_count,
        mrn_count,
    }
}

/// The movement that was declared with a line of 5,000.00 under the LRN A1.
fn movement(rt: &(impl AllocGlobal + Abort)) -> Movement {
    let lines = vec![in rt.alloc(); line(rt, GRN, 500_000)].expect(rt, "memory");
    examples::movement(rt, MRN, b"A1", lines)
}

/// No rows but that of the holder, if there is one.
fn holder_alone(rt: &(impl AllocGlobal + Abort), holder: Option<HolderRow>) -> Loaded {
    Loaded {
        country: country(rt),
        holder,
        movements: Vec::new(rt.alloc()),
        listed: Vec::new(rt.alloc()),
        guarantees: Vec::new(rt.alloc()),
    }
}

/// The row of the holder, who has had so many movements, and the guarantee with what is in use on it.
fn with_guarantee(rt: &(impl AllocGlobal + Abort), mrn_count: u32, used: u64) -> Loaded {
    let mut loaded = holder_alone(rt, Some(row(rt, 1, mrn_count)));
    let opened = (guarantee(rt, GRN), cents(rt, used));
    loaded.guarantees.push(opened).expect(rt, "memory");
    loaded
}

/// The name of the refusal that is said, or that it is none.
fn refused(said: &Said) -> &'static str {
    match said {
        Said::Refused(refusal) => refusal.name(),
        Said::Answered(_) => "answered",
    }
}

/// Whether a declaration is told that the serials are spent, and nothing is written.
fn are_spent(rt: &(impl AllocGlobal + Abort), loaded: &Loaded) -> bool {
    let lines = examples::lines(rt, b"AB12", 500_000);
    let declaration = examples::declaration(rt, 1, b"A1", lines);
    let verdict = verdict(rt.alloc(), loaded, AT, &declaration).expect(rt, "memory");
    refused(&verdict.said) == "serials-spent" && verdict.change.row().is_none()
}

/// How many movements the holder has had.
const COUNTS: [u32; 4] = [999_999, 1_000_000, 9_999_998, 9_999_999];

#[test]
fn serials_are_spent(rt: HostRuntime) {
    for count in &COUNTS {
        let loaded = with_guarantee(&rt, *count, 0);
        assert!(rt; are_spent(&rt, &loaded), "{count}");
    }
}

#[test]
fn laws_hold() {
    writes_what_is_accepted();
    writes_what_the_book_says();
    fresh_book_says_its_account();
    keeps_rows_sound();
    other_form_names_nothing();
    nobody_writes();
}
