//! A verdict is the same, whether what was loaded is lent to be read, or to be taken from.
use super::*;
use crate::examples::{SECOND_GRN, SECOND_MRN};
use td_acts::ListedMovement;
use td_acts::table::decide;
use td_guarantee::Guarantee;

/// The second movement of holder 000001, which is cancelled.
fn second_movement(rt: &(impl AllocGlobal + Abort)) -> Movement {
    Movement {
        mrn: mrn(rt, SECOND_MRN),
        state: State::Cancelled,
        ..movement(rt)
    }
}

/// The second guarantee of that holder, with two codes.
fn second_guarantee(rt: &(impl AllocGlobal + Abort)) -> Guarantee {
    let mut second = guarantee(rt, SECOND_GRN);
    second.codes.add(code(rt, b"CD34")).expect(rt, "memory");
    second
}

/// The holder's row, a movement and a guarantee.
fn one_of_each(rt: &(impl AllocGlobal + Abort)) -> Loaded {
    let mut loaded = with_guarantee(rt, 1, 500_000);
    loaded.movements.push(movement(rt)).expect(rt, "memory");
    loaded
}

/// The holder's row, and two movements and two guarantees, of which the second are those that are asked for.
fn two_of_each(rt: &(impl AllocGlobal + Abort)) -> Loaded {
    let mut loaded = one_of_each(rt);
    loaded
        .movements
        .push(second_movement(rt))
        .expect(rt, "memory");
    for movement in &[movement(rt), second_movement(rt)] {
        let (lrn, mrn, state) = (movement.lrn, movement.mrn, movement.state);
        let listed = ListedMovement { lrn, mrn, state };
        loaded.listed.push(listed).expect(rt, "memory");
    }
    let opened = (second_guarantee(rt), cents(rt, 0));
    loaded.guarantees.push(opened).expect(rt, "memory");
    loaded
}

/// The verdict in full, to the last field.
fn debugged(rt: &(impl AllocGlobal + Abort), verdict: &Verdict) -> String {
    format!(in rt.alloc(); "{verdict:?}").expect(rt, "memory")
}

/// The verdict over what is lent to be read, which is this refusal or an answer.
fn lent(rt: &(impl AllocGlobal + Abort), loaded: &Loaded, command: &Command, want: &str) -> String {
    let verdict = verdict(rt.alloc(), loaded, AT, command).expect(rt, "memory");
    assert!(rt; refused(&verdict.said) == want, "{want}");
    debugged(rt, &verdict)
}

/// The verdict over what is lent to be taken from.
fn taken(rt: &(impl AllocGlobal + Abort), loaded: &mut Loaded, command: &Command) -> String {
    let verdict = decide(rt.alloc(), loaded, AT, command).expect(rt, "memory");
    debugged(rt, &verdict)
}

/// Both calls give one verdict over the same, to the last field, and it is this refusal or an answer.
fn assert_one(rt: &(impl AllocGlobal + Abort), mut loaded: Loaded, command: &Command, want: &str) {
    let lent = lent(rt, &loaded, command, want);
    let taken = taken(rt, &mut loaded, command);
    assert!(rt; lent == taken, "{want}");
}

#[test]
fn views_show_the_same(rt: HostRuntime) {
    let holder = holder(&rt, 1);
    let (mrn, grn) = (mrn(&rt, SECOND_MRN), grn(&rt, SECOND_GRN));
    let views = [
        Command::SeeHolder { holder },
        Command::SeeMovement { holder, mrn },
        Command::SeeMovements { holder },
        Command::SeeGuarantee { holder, grn },
        Command::SeeGuarantees { holder },
    ];
    for view in &views {
        assert_one(&rt, two_of_each(&rt), view, "answered");
        assert_one(&rt, holder_alone(&rt, None), view, "no-holder");
    }
}

#[test]
fn what_is_not_there_is_refused_by_both(rt: HostRuntime) {
    let holder = holder(&rt, 1);
    let (mrn, grn) = (mrn(&rt, SECOND_MRN), grn(&rt, SECOND_GRN));
    let seen = Command::SeeMovement { holder, mrn };
    assert_one(&rt, one_of_each(&rt), &seen, "no-movement");
    let seen = Command::SeeGuarantee { holder, grn };
    assert_one(&rt, one_of_each(&rt), &seen, "no-guarantee");
    let cancelled = Command::Ie014 { holder, mrn };
    assert_one(&rt, two_of_each(&rt), &cancelled, "wrong-state");
}
