//! The last row of a journal, asked again at a desk in memory.
use crate::examples::{AT, GRN, code, country, cover, eori, grn, holder};
use crate::journal::SAID;
use std::process::Abort;
use td_base::Reference;
use td_commands::Command;
use td_desk::{PlainDesk, Stamped};
use td_redo::{Redone, redo_row};

/// What was said to the first opening of a guarantee.
const OPENED: &[u8] = b"{\"grn\":\"25CH0000010000014\"}";

/// What was said as a code was added to the first guarantee.
const ADDED: &[u8] =
    b"{\"codes\":[\"AB12\",\"CD34\"],\"cover\":50,\"ends\":null,\"free\":1000000,\"grn\":\"25CH0000010000014\",\"guaranteed\":500000,\"reference\":1000000,\"used\":0}";

fn register(rt: &impl Abort) -> Stamped {
    let command = Command::Register {
        holder: holder(rt, 1),
        eori: eori(rt, b"CH1234567"),
    };
    Stamped { at: AT, command }
}

/// Opens a guarantee of 10,000.00 at half cover, with the code AB12.
fn open(rt: &impl Abort) -> Stamped {
    let command = Command::OpenGuarantee {
        holder: holder(rt, 1),
        reference: Reference::new(1_000_000).expect(rt, "an amount"),
        cover: cover(rt, 50),
        code: code(rt, b"AB12"),
    };
    Stamped { at: AT, command }
}

fn add_code(rt: &impl Abort) -> Stamped {
    let command = Command::AddCode {
        holder: holder(rt, 1),
        grn: grn(rt, GRN),
        code: code(rt, b"CD34"),
    };
    Stamped { at: AT, command }
}

/// How the row of this command and this reply ends at the desk.
fn redone(
    rt: &(impl AllocGlobal + Abort),
    desk: &mut PlainDesk,
    row: &Stamped,
    reply: &[u8],
) -> Redone {
    redo_row(rt.alloc(), desk, row, reply).expect(rt, "no fault")
}

#[test]
fn a_row_is_carried_once(rt: HostRuntime) {
    let mut desk = PlainDesk::new(rt.alloc(), country(&rt)).expect(&rt, "memory");
    assert!(rt; redone(&rt, &mut desk, &register(&rt), SAID) == Redone::Carried);
    assert!(rt; redone(&rt, &mut desk, &register(&rt), SAID) == Redone::Stands);
    assert!(rt; redone(&rt, &mut desk, &open(&rt), OPENED) == Redone::Carried);
    assert!(rt; redone(&rt, &mut desk, &open(&rt), OPENED) == Redone::Stands);
    assert!(rt; redone(&rt, &mut desk, &add_code(&rt), ADDED) == Redone::Carried);
    assert!(rt; redone(&rt, &mut desk, &add_code(&rt), ADDED) == Redone::Stands);
}

#[test]
fn a_row_of_another_desk_is_told(rt: HostRuntime) {
    let mut desk = PlainDesk::new(rt.alloc(), country(&rt)).expect(&rt, "memory");
    assert!(rt; redone(&rt, &mut desk, &open(&rt), OPENED) == Redone::Foreign);
    assert!(rt; redone(&rt, &mut desk, &register(&rt), SAID) == Redone::Carried);
    assert!(rt; redone(&rt, &mut desk, &add_code(&rt), ADDED) == Redone::Foreign);
}
