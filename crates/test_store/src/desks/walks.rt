//! Walks along a desk's rows: what is given of each, in which order, and what a walk that is dropped leaves.
ghost use Rattle.std.specs.Prelude.{◌≡◌};
ghost use Rattle.td_store_load.specs.Placed.{guarantees_placed, movements_placed};
ghost use Rattle.td_store.specs.Kept.{sql_view};
ghost use Rattle.td_store.specs.Pulled.{IsNext, guarantee_walk, guarantees_given, movement_walk};

use super::accepted::{accept, register, release};
use super::made;
use super::opening::seen;
use crate::examples::{cents, code, cover, grn, holder, lrn, mrn, office};
use sqlite::MemStore;
use sqlite_trees::store::Alter;
use std::alloc::{AllocError, Global};
use std::process::Abort;
use td_acts::Lines;
use td_base::{Cents, HolderNo, Reference};
use td_desk::{Command, Fault};
use td_guarantee::Guarantee;
use td_movement::{Line, Movement};
use td_store::{GuaranteeRows, MovementRows, SqlDesk};

// A call of `next` is one of those of which the law of walks speaks.
fn next_movement<S: Alter>(
    alloc: Global,
    rows: &mut MovementRows<'_, S>,
) -> Result<Option<(HolderNo, Movement)>, Fault>
    ensures same_reference { rows.new.desk.ghost_name ≡ rows.old.desk.ghost_name }
    ensures next { IsNext (sql_view S.Store) movements_placed (movement_walk rows.old) result (movement_walk rows.new) }
{
    rows.next(alloc)
}

// So is one of a walk along guarantees.
fn next_guarantee<S: Alter>(
    alloc: Global,
    rows: &mut GuaranteeRows<'_, S>,
) -> Result<Option<(HolderNo, Guarantee, Cents)>, Fault>
    ensures same_reference { rows.new.desk.ghost_name ≡ rows.old.desk.ghost_name }
    ensures next { IsNext (sql_view S.Store) guarantees_placed (guarantee_walk rows.old) (guarantees_given result) (guarantee_walk rows.new) }
{
    rows.next(alloc)
}

// A guarantee of 10,000.00 at half cover, with this code.
fn open(rt: &impl Abort, number: u32, text: &[u8]) -> Command {
    Command::OpenGuarantee {
        holder: holder(rt, number),
        reference: Reference::new(1_000_000).expect(rt, "an amount"),
        cover: cover(rt, 50),
        code: code(rt, text),
    }
}

// A declaration: the GRN, the amount in cents and the code of each line.
fn declare(
    rt: &(impl AllocGlobal + Abort),
    desk: &mut SqlDesk<MemStore>,
    number: u32,
    reference: &[u8],
    lines: &[(&[u8], u64, &[u8])],
) {
    let mut items = Vec::new(rt.alloc());
    for (own, amount, text) in lines {
        let line = Line {
            grn: grn(rt, *own),
            cents: cents(rt, *amount),
        };
        items.push((line, code(rt, *text))).expect(rt, "memory");
    }
    let command = Command::Ie015 {
        holder: holder(rt, number),
        lrn: lrn(rt, reference),
        departure: office(rt, b"CH001251"),
        destination: office(rt, b"DE005600"),
        lines: Lines::new(items).expect(rt, "lines"),
    };
    accept(rt, desk, command);
}

const FIRST: &[u8] = b"25CH0000010000014";

const SECOND: &[u8] = b"25CH0000010000023";

const OF_THREE: &[u8] = b"25CH0000030000015";

// A desk of three holders, who weren't registered in the order of their numbers: the first has two guarantees and two movements,
// the second a guarantee alone, and the third one of each. Of each of the two the first movement was released.
fn filled(rt: &(impl AllocGlobal + Abort)) -> SqlDesk<MemStore> {
    let mut desk = made(rt);
    for number in [3, 1, 2] {
        accept(rt, &mut desk, register(rt, number));
    }
    for (number, text) in [(3, b"EF56"), (1, b"CD34"), (2, b"AB12"), (1, b"GH78")] {
        accept(rt, &mut desk, open(rt, number, text));
    }
    let add = Command::AddCode {
        holder: holder(rt, 1),
        grn: grn(rt, FIRST),
        code: code(rt, b"AB12"),
    };
    accept(rt, &mut desk, add);
    declare(rt, &mut desk, 3, b"C1", &[(OF_THREE, 70, b"EF56")]);
    let lines: [(&[u8], u64, &[u8]); 2] = [(SECOND, 20_000, b"GH78"), (FIRST, 100, b"CD34")];
    declare(rt, &mut desk, 1, b"A1", &lines);
    declare(rt, &mut desk, 1, b"A2", &[(FIRST, 300, b"AB12")]);
    for text in [b"25CH000003000001J9", b"25CH000001000001J8"] {
        accept(rt, &mut desk, release(rt, mrn(rt, text), b"2025-03-09"));
    }
    desk
}

fn push_movement(
    words: &mut String,
    holder: HolderNo,
    movement: &Movement,
) -> Result<(), AllocError> {
    write!(words, "{holder} {} {}", movement.mrn, movement.state.name())?;
    for line in movement.lines.as_slice() {
        write!(words, " {}:{}", line.grn, line.cents)?;
    }
    words.push_str("\n")
}

fn push_guarantee(
    words: &mut String,
    holder: HolderNo,
    guarantee: &Guarantee,
    used: Cents,
) -> Result<(), AllocError> {
    write!(words, "{holder} {}", guarantee.grn)?;
    for code in guarantee.codes.as_slice() {
        write!(words, " {code}")?;
    }
    write!(words, " {used}\n")
}

// What five calls give of the desk's movements: the end is told by a dash.
pub fn movements_told<S: Alter>(rt: &(impl AllocGlobal + Abort), desk: &mut SqlDesk<S>) -> String {
    let mut words = String::new(rt.alloc());
    let mut rows = desk.movement_rows().expect(rt, "a walk");
    for _ in 0..5 {
        match next_movement(rt.alloc(), &mut rows).expect(rt, "a movement") {
            Some((holder, movement)) => push_movement(&mut words, holder, &movement),
            None => words.push_str("-\n"),
        }
        .expect(rt, "memory");
    }
    words
}

// What six calls give of its guarantees.
pub fn guarantees_told<S: Alter>(rt: &(impl AllocGlobal + Abort), desk: &mut SqlDesk<S>) -> String {
    let mut words = String::new(rt.alloc());
    let mut rows = desk.guarantee_rows().expect(rt, "a walk");
    for _ in 0..6 {
        match next_guarantee(rt.alloc(), &mut rows).expect(rt, "a guarantee") {
            Some((holder, guarantee, used)) => push_guarantee(&mut words, holder, &guarantee, used),
            None => words.push_str("-\n"),
        }
        .expect(rt, "memory");
    }
    words
}

const MOVEMENTS: &str =
    "000001 25CH000001000001J8 released 25CH0000010000023:200.00 25CH0000010000014:1.00
000001 25CH000001000002J7 accepted 25CH0000010000014:3.00
000003 25CH000003000001J9 released 25CH0000030000015:0.70
-
-
";

const GUARANTEES: &str = "000001 25CH0000010000014 AB12 CD34 1.00
000001 25CH0000010000023 GH78 200.00
000002 25CH0000020000010 AB12 0.00
000003 25CH0000030000015 EF56 0.70
-
-
";

#[test]
fn rows_are_given_in_order(rt: HostRuntime) {
    let mut desk = filled(&rt);
    assert_eq!(rt; movements_told(&rt, &mut desk).as_str(), MOVEMENTS);
    assert_eq!(rt; guarantees_told(&rt, &mut desk).as_str(), GUARANTEES);
}

// The holder of the first movement, of a walk that is dropped then.
fn first_holder(rt: &(impl AllocGlobal + Abort), desk: &mut SqlDesk<MemStore>) -> Option<HolderNo> {
    let mut rows = desk.movement_rows().expect(rt, "a walk");
    let first = rows.next(rt.alloc()).expect(rt, "a movement");
    let (holder, _movement) = first?;
    Some(holder)
}

#[test]
fn a_walk_that_is_dropped_leaves_the_desk(rt: HostRuntime) {
    let mut desk = filled(&rt);
    let before = seen(&rt, &mut desk);
    let first = first_holder(&rt, &mut desk);
    assert!(rt; first == Some(holder(&rt, 1)));
    assert_eq!(rt; seen(&rt, &mut desk).as_str(), before.as_str());
    assert_eq!(rt; movements_told(&rt, &mut desk).as_str(), MOVEMENTS);
}
