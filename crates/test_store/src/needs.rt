//! Each shape of needs is loaded, with the amounts in use that are kept, from a store in memory.
use crate::examples::{GRN, OLDER_MRN, code, country, grn, line, lrn, mrn, with_rows};
use sqlite::{Connection, MemStore};
use std::alloc::AllocError;
use std::process::Abort;
use td_acts::{Lines, ListedMovement, Loaded, Needs};
use td_base::{Cents, HolderNo};
use td_guarantee::Guarantee;
use td_movement::Movement;
use td_store_load::load;

// Holder 1 has two guarantees, two movements that count and one that doesn't yet; holder 2 has one guarantee, a
// movement that counts and one that doesn't any more.
const ROWS: [&str; 20] = [
    "INSERT INTO holders VALUES (1, 'CH1234567', 1740819600, 2, 3)",
    "INSERT INTO holders VALUES (2, 'CH7654321', 1740819600, 1, 2)",
    "INSERT INTO guarantees2 VALUES (1, 1, '25CH0000010000014', 1000000, 50, NULL, 400)",
    "INSERT INTO guarantees2 VALUES (1, 2, '25CH0000010000023', 5000000, 100, NULL, 20000)",
    "INSERT INTO guarantees2 VALUES (2, 1, '25CH0000020000010', 1000000, 100, NULL, 70)",
    "INSERT INTO codes VALUES (1, 1, 'CD34')",
    "INSERT INTO codes VALUES (1, 1, 'AB12')",
    "INSERT INTO codes VALUES (1, 2, 'EF56')",
    "INSERT INTO codes VALUES (2, 1, 'GH78')",
    "INSERT INTO movements VALUES (1, 1, '25CH00000100000013', 'A1', 'CH001251', 'DE005600', 20148, 'released', 20156, NULL, NULL)",
    "INSERT INTO movements VALUES (1, 2, '25CH00000100000021', 'A2', 'CH001251', 'DE005600', 20148, 'cleared', 20156, NULL, NULL)",
    "INSERT INTO movements VALUES (1, 3, '25CH00000100000030', 'A3', 'CH001251', 'DE005600', 20148, 'accepted', NULL, NULL, NULL)",
    "INSERT INTO movements VALUES (2, 1, '25CH00000200000019', 'B1', 'CH001251', 'DE005600', 20148, 'enquired', 20156, NULL, NULL)",
    "INSERT INTO movements VALUES (2, 2, '25CH00000200000027', 'B2', 'CH001251', 'DE005600', 20148, 'written-off', 20156, NULL, NULL)",
    "INSERT INTO lines3 VALUES (1, 1, 1, 1, 100)",
    "INSERT INTO lines3 VALUES (1, 1, 2, 2, 20000)",
    "INSERT INTO lines3 VALUES (1, 2, 1, 1, 300)",
    "INSERT INTO lines3 VALUES (1, 3, 1, 1, 5000)",
    "INSERT INTO lines3 VALUES (2, 1, 1, 1, 70)",
    "INSERT INTO lines3 VALUES (2, 2, 1, 1, 9)",
];

fn push_movements(words: &mut String, movements: &[Movement]) -> Result<(), AllocError> {
    for movement in movements {
        write!(
            words,
            "{} {} ",
            movement.mrn,
            movement.lines.as_slice().len()
        )?;
    }
    Ok(())
}

fn push_listed(words: &mut String, movements: &[ListedMovement]) -> Result<(), AllocError> {
    for movement in movements {
        let state = movement.state.name();
        write!(words, "{} {} {state} ", movement.mrn, movement.lrn)?;
    }
    Ok(())
}

fn push_guarantees(
    words: &mut String,
    guarantees: &[(Guarantee, Cents)],
) -> Result<(), AllocError> {
    for (guarantee, used) in guarantees {
        write!(words, "{} {} {used} ", guarantee.grn, guarantee.codes.len())?;
    }
    Ok(())
}

/// The references of what was loaded, how many lines and codes there are or, in a list, the states, and the amounts in use; `-` where no holder is
/// registered.
fn push_words(words: &mut String, loaded: &Loaded) -> Result<(), AllocError> {
    match loaded.holder {
        None => words.push_str("-"),
        Some(_) => {
            push_movements(words, &loaded.movements)?;
            push_listed(words, &loaded.listed)?;
            push_guarantees(words, &loaded.guarantees)
        }
    }
}

/// This is loaded of a holder's number, in words.
fn assert_loaded(
    rt: &(impl AllocGlobal + Abort),
    conn: &mut Connection<MemStore>,
    owner: Option<HolderNo>,
    needs: &Needs<'_>,
    want: &str,
) {
    let mut words = String::new(rt.alloc());
    assert!(rt; conn.is_autocommit());
    let mut tx = conn.transaction();
    let loaded = load(rt.alloc(), &mut tx, country(rt), owner, needs).expect(rt, "rows");
    push_words(&mut words, &loaded).expect(rt, "memory");
    assert_eq!(rt; words.as_str(), want);
}

/// This is loaded of holders 1 and 2, and nothing of holder 3, who isn't registered, and of nobody.
fn assert_each(
    rt: &(impl AllocGlobal + Abort),
    conn: &mut Connection<MemStore>,
    needs: &Needs<'_>,
    first: &str,
    second: &str,
) {
    assert_loaded(rt, conn, HolderNo::new(1), needs, first);
    assert_loaded(rt, conn, HolderNo::new(2), needs, second);
    assert_loaded(rt, conn, HolderNo::new(3), needs, "-");
    assert_loaded(rt, conn, None, needs, "-");
}

/// The line of 5,000.00 on the first guarantee of holder 1, as it is declared.
fn lines(rt: &(impl AllocGlobal + Abort)) -> Lines {
    let items = vec![in rt.alloc(); (line(rt), code(rt, b"AB12"))].expect(rt, "memory");
    Lines::new(items).expect(rt, "lines")
}

#[test]
fn each_need_is_loaded_of_its_owner(rt: HostRuntime) {
    let lines = lines(&rt);
    let (lrn, mrn, grn) = (lrn(&rt, b"A2"), mrn(&rt, OLDER_MRN), grn(&rt, GRN));
    let rows: [(Needs<'_>, &str, &str); 8] = [
        (Needs::Nothing, "", ""),
        (
            Needs::Lodging(lrn, &lines),
            "25CH00000100000021 1 25CH0000010000014 2 4.00 ",
            "",
        ),
        (Needs::Movement(mrn), "25CH00000100000013 2 ", ""),
        (Needs::Status(mrn), "25CH00000100000013 0 ", ""),
        (
            Needs::Release(mrn),
            "25CH00000100000013 2 25CH0000010000014 0 4.00 25CH0000010000023 0 200.00 ",
            "",
        ),
        (
            Needs::AllMovements,
            "25CH00000100000013 A1 released 25CH00000100000021 A2 cleared 25CH00000100000030 A3 accepted ",
            "25CH00000200000019 B1 enquired 25CH00000200000027 B2 written-off ",
        ),
        (Needs::Guarantee(grn), "25CH0000010000014 2 4.00 ", ""),
        (
            Needs::AllGuarantees,
            "25CH0000010000014 2 4.00 25CH0000010000023 1 200.00 ",
            "25CH0000020000010 1 0.70 ",
        ),
    ];
    let mut conn = with_rows(&rt, &ROWS);
    for (needs, first, second) in &rows {
        assert_each(&rt, &mut conn, needs, first, second);
    }
}
