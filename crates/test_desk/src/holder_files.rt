//! One holder's rows in memory, as they are loaded for each need; and what no change of a desk writes. (What changes write
//! stands in the transcripts.)
use crate::examples::{
    AT, GRN, MRN, SECOND_GRN, SECOND_MRN, country, eori, grn, guarantee, holder, line, movement,
    mrn,
};
use keyed_rows::Keyed;
use std::alloc::AllocError;
use std::process::Abort;
use td_acts::{Change, HolderRow, ListedMovement, Loaded, Needs, NewStatus};
use td_base::{Cents, Moment};
use td_guarantee::Guarantee;
use td_holder_memory::HolderFile;
use td_movement::{Movement, State};

fn row(rt: &impl Abort) -> HolderRow {
    HolderRow {
        holder: holder(rt, 1),
        eori: eori(rt, b"CH1234567"),
        last_at: Moment::new(AT).ok().expect(rt, "a moment"),
        grn_count: 2,
        mrn_count: 2,
    }
}

fn write(rt: &(impl AllocGlobal + Abort), file: &mut HolderFile, change: Change) {
    file.write(rt.alloc(), change).expect(rt, "memory");
}

// A movement of 5.00 on the first guarantee is declared.
fn declare(rt: &(impl AllocGlobal + Abort), file: &mut HolderFile, mrn: &[u8], lrn: &[u8]) {
    let lines = vec![in rt.alloc(); line(rt, GRN, 500)].expect(rt, "memory");
    let declared = movement(rt, mrn, lrn, lines);
    write(rt, file, Change::Declared(row(rt), declared));
}

// The file of holder 000001, with two guarantees and two movements, of which the first is released.
fn file_in_use(rt: &(impl AllocGlobal + Abort)) -> HolderFile {
    let mut file = HolderFile::new(rt.alloc(), country(rt), row(rt));
    write(rt, &mut file, Change::Opened(row(rt), guarantee(rt, GRN)));
    write(
        rt,
        &mut file,
        Change::Opened(row(rt), guarantee(rt, SECOND_GRN)),
    );
    declare(rt, &mut file, MRN, b"A1");
    declare(rt, &mut file, SECOND_MRN, b"A2");
    let status = NewStatus {
        mrn: mrn(rt, MRN),
        state: State::Released,
        limit: None,
        arrival: None,
        actual: None,
    };
    write(rt, &mut file, Change::Moved(row(rt), status));
    file
}

#[test]
fn files_stand_under_their_holders(rt: HostRuntime) {
    let mut file = HolderFile::new(rt.alloc(), country(&rt), row(&rt));
    assert!(rt; file.holder() == holder(&rt, 1) && file.key() == 1);
    write(&rt, &mut file, Change::Nothing);
    let again = HolderRow {
        eori: eori(&rt, b"DE9"),
        ..row(&rt)
    };
    write(&rt, &mut file, Change::Registered(again));
    let needs = [Needs::Nothing];
    let loaded = file.load(rt.alloc(), country(&rt), &needs[0]);
    assert!(rt; loaded.expect(&rt, "memory").holder == Some(again));
}

fn push_movements(words: &mut String, movements: &[Movement]) -> Result<(), AllocError> {
    for movement in movements {
        let lines = movement.lines.as_slice().len();
        write!(words, "{} {lines} ", movement.mrn)?;
    }
    Ok(())
}

fn push_listed(words: &mut String, movements: &[ListedMovement]) -> Result<(), AllocError> {
    for movement in movements {
        let state = movement.state.name();
        write!(words, "{} {} {state} ", movement.mrn, movement.lrn)?;
    }
    Ok(())
}

fn push_guarantees(
    words: &mut String,
    guarantees: &[(Guarantee, Cents)],
) -> Result<(), AllocError> {
    for (guarantee, used) in guarantees {
        write!(words, "{} {used} ", guarantee.grn)?;
    }
    Ok(())
}

// The references of what was loaded, how many lines there are or, in a list, the states, and the amounts in use.
fn words_of(rt: &(impl AllocGlobal + Abort), loaded: &Loaded) -> String {
    let mut words = String::new(rt.alloc());
    push_movements(&mut words, &loaded.movements).expect(rt, "memory");
    push_listed(&mut words, &loaded.listed).expect(rt, "memory");
    push_guarantees(&mut words, &loaded.guarantees).expect(rt, "memory");
    words
}

// What is loaded of a file.
fn loaded(rt: &(impl AllocGlobal + Abort), file: &HolderFile, needs: &Needs<'_>) -> String {
    let loaded = file.load(rt.alloc(), country(rt), needs);
    words_of(rt, &loaded.expect(rt, "memory"))
}

#[test]
fn rows_are_loaded_by_needs(rt: HostRuntime) {
    let file = file_in_use(&rt);
    let mrn = mrn(&rt, SECOND_MRN);
    let grn = grn(&rt, GRN);
    let rows: [(Needs<'_>, &str); 7] = [
        (Needs::Nothing, ""),
        (Needs::Movement(mrn), "25CH000001000002J7 1 "),
        (Needs::Status(mrn), "25CH000001000002J7 0 "),
        (
            Needs::Release(mrn),
            "25CH000001000002J7 1 25CH0000010000014 5.00 ",
        ),
        (
            Needs::AllMovements,
            "25CH000001000001J8 A1 released 25CH000001000002J7 A2 accepted ",
        ),
        (Needs::Guarantee(grn), "25CH0000010000014 5.00 "),
        (
            Needs::AllGuarantees,
            "25CH0000010000014 5.00 25CH0000010000023 0.00 ",
        ),
    ];
    for (needs, words) in &rows {
        assert_eq!(rt; loaded(&rt, &file, needs).as_str(), *words);
    }
}
