//! The rows of a journal done again at a desk in memory that has nothing, all at once or as they come, and what is found of a journal
//! that was changed.
use super::kept::{SECOND, THIRD};
use crate::examples::country;
use crate::journal::FIRST;
use std::process::Abort;
use td_base::Counted;
use td_desk::PlainDesk;
use td_journal_lines::ChangeRow;
use td_journal_rows::JournalFault;
use td_replay::{FollowFault, ReplayRun, first_fall, first_gap, follow, read_changes, replay};

/// The result file of the three rows.
const REPLIES: &[u8] =
    b"number,reply\n1,\"{\"\"eori\"\":\"\"CH1234567\"\",\"\"guarantees\"\":0,\"\"holder\"\":\"\"000001\"\",\"\"movements\"\":0}\"\n2,\"{\"\"grn\"\":\"\"25CH0000010000014\"\"}\"\n3,\"{\"\"lrn\"\":\"\"A1\"\",\"\"message\"\":\"\"IE028\"\",\"\"mrn\"\":\"\"25CH000001000001J8\"\"}\"\n";

/// The registration of another holder, as a second row.
const OTHER: &[u8] =
    b"2,1740819600,PUT,/office/holders/000002,\"{\"\"eori\"\":\"\"CH7654321\"\"}\",\"{\"\"eori\"\":\"\"CH7654321\"\",\"\"guarantees\"\":0,\"\"holder\"\":\"\"000002\"\",\"\"movements\"\":0}\"\n";

/// What is found of a journal.
#[derive(Clone, Copy, Debug, PartialEq, Eq)]
enum Found {
    /// A line is the row of no change.
    Bad(u64),
    /// A row isn't one above the one before it.
    Gap(u64),
    /// The reply to a row isn't what is said now.
    Differs(u64),
}

/// Each field of each row, another text in its place, and what is found.
const CHANGES: [(u64, &[u8], &[u8], Found); 18] = [
    (1, b"1,", b"2,", Found::Gap(2)),
    (1, b"1740819600", b"1740819601", Found::Differs(2)),
    (1, b"PUT", b"POST", Found::Bad(1)),
    (1, b"000001", b"000002", Found::Differs(1)),
    (1, b"CH1234567", b"CH1234568", Found::Differs(1)),
    (
        1,
        b"\"\"guarantees\"\":0",
        b"\"\"guarantees\"\":1",
        Found::Differs(1),
    ),
    (2, b"2,", b"3,", Found::Gap(3)),
    (2, b"1740819600", b"1772355600", Found::Differs(2)),
    (2, b"POST", b"PUT", Found::Bad(2)),
    (2, b"000001", b"000002", Found::Differs(2)),
    (2, b"AB12", b"AB13", Found::Differs(3)),
    (
        2,
        b"25CH0000010000014",
        b"25CH0000010000023",
        Found::Differs(2),
    ),
    (3, b"3,", b"4,", Found::Gap(4)),
    (3, b"1740819600", b"1740819599", Found::Differs(3)),
    (3, b"POST", b"GET", Found::Bad(3)),
    (3, b"000001", b"000002", Found::Differs(3)),
    (3, b"A1", b"A2", Found::Differs(3)),
    (3, b"J8", b"J7", Found::Differs(3)),
];

/// These texts in one.
fn joined(rt: &(impl AllocGlobal + Abort), parts: &[&[u8]]) -> Vec<u8> {
    let mut text = Vec::new(rt.alloc());
    for part in parts {
        text.extend_from_slice(part).expect(rt, "memory");
    }
    text
}

/// A row with another text in place of one that stands in it.
fn changed(rt: &(impl AllocGlobal + Abort), row: &[u8], old: &[u8], new: &[u8]) -> Vec<u8> {
    for start in 0..row.len() {
        if let Some(rest) = row[start..].strip_prefix(old) {
            return joined(rt, &[&row[..start], new, rest]);
        }
    }
    joined(rt, &[row])
}

/// The three rows, in which one has another text in place of one that stands in it.
fn with_row(rt: &(impl AllocGlobal + Abort), number: u64, old: &[u8], new: &[u8]) -> Vec<u8> {
    match number {
        1 => joined(rt, &[&changed(rt, FIRST, old, new), SECOND, THIRD]),
        2 => joined(rt, &[FIRST, &changed(rt, SECOND, old, new), THIRD]),
        _ => joined(rt, &[FIRST, SECOND, &changed(rt, THIRD, old, new)]),
    }
}

/// The rows replayed at a desk of CH without holders.
fn replayed(rt: &(impl AllocGlobal + Abort), rows: &[ChangeRow]) -> ReplayRun {
    let mut desk = PlainDesk::new(rt.alloc(), country(rt)).expect(rt, "memory");
    replay(rt.alloc(), &mut desk, rows)
}

/// What is found of a journal of this text.
fn what_is_found(rt: &(impl AllocGlobal + Abort), parts: &[&[u8]]) -> Option<Found> {
    match read_changes(rt.alloc(), &joined(rt, parts)) {
        Err(JournalFault::BadRow { row }) => Some(Found::Bad(row)),
        Err(JournalFault::NoMemory) => None,
        Ok(read) => match first_gap(&read.rows) {
            Some(number) => Some(Found::Gap(number)),
            None => match replayed(rt, &read.rows).differs {
                Some(number) => Some(Found::Differs(number)),
                None => None,
            },
        },
    }
}

/// The rows that come by this text followed at a desk of CH without holders.
fn followed(rt: &(impl AllocGlobal + Abort), parts: &[&[u8]]) -> Result<u64, FollowFault> {
    let text = joined(rt, parts);
    let mut desk = PlainDesk::new(rt.alloc(), country(rt)).expect(rt, "memory");
    follow(rt.alloc(), &mut desk, &mut Counted::new(text.as_slice()))
}

/// The same of a journal that was changed, as it is found where its rows are followed.
fn what_stops(rt: &(impl AllocGlobal + Abort), parts: &[&[u8]]) -> Option<Found> {
    match followed(rt, parts) {
        Err(FollowFault::BadRow(row)) => Some(Found::Bad(row)),
        Err(FollowFault::Misplaced(row)) => Some(Found::Gap(row)),
        Err(FollowFault::Differs(row)) => Some(Found::Differs(row)),
        _ => None,
    }
}

/// The rows of this text, which is a part of a journal.
fn part(rt: &(impl AllocGlobal + Abort), parts: &[&[u8]]) -> Vec<ChangeRow> {
    let read = read_changes(rt.alloc(), &joined(rt, parts));
    read.ok().expect(rt, "rows").rows
}

#[test]
fn a_journal_is_replayed(rt: HostRuntime) {
    let text = joined(&rt, &[FIRST, SECOND, THIRD, b"4,17"]);
    let read = read_changes(rt.alloc(), &text).ok().expect(&rt, "rows");
    assert!(rt; read.rows.len() == 3 && read.torn == 4);
    let run = replayed(&rt, &read.rows);
    assert!(rt; run.text.as_slice() == REPLIES);
    assert!(rt; run.done == 3 && run.differs.is_none() && run.stopped.is_none());
}

#[test]
fn a_journal_is_followed(rt: HostRuntime) {
    assert!(rt; followed(&rt, &[FIRST, SECOND, THIRD, b"4,17"]) == Ok(3));
    assert!(rt; followed(&rt, &[b""]) == Ok(0));
}

#[test]
fn a_change_of_a_field_is_found(rt: HostRuntime) {
    for (number, old, new, what) in CHANGES {
        let text = with_row(&rt, number, old, new);
        assert!(rt; what_is_found(&rt, &[&text]) == Some(what), "{what:?}");
        assert!(rt; what_stops(&rt, &[&text]) == Some(what), "{what:?}");
    }
}

#[test]
fn rows_in_another_order_are_found(rt: HostRuntime) {
    assert!(rt; what_is_found(&rt, &[FIRST, SECOND, THIRD]).is_none());
    assert!(rt; what_is_found(&rt, &[SECOND, FIRST, THIRD]) == Some(Found::Gap(2)));
    assert!(rt; what_is_found(&rt, &[FIRST, THIRD]) == Some(Found::Gap(3)));
    assert!(rt; what_is_found(&rt, &[FIRST, SECOND, SECOND, THIRD]) == Some(Found::Gap(2)));
}

#[test]
fn a_part_is_replayed_by_itself(rt: HostRuntime) {
    let third = changed(&rt, SECOND, b"2,", b"3,");
    let fourth = changed(&rt, THIRD, b"3,", b"4,");
    assert!(rt; what_is_found(&rt, &[FIRST, OTHER, &third, &fourth]).is_none());
    let own = part(&rt, &[FIRST, &third, &fourth]);
    assert!(rt; first_gap(&own) == Some(3) && first_fall(&own).is_none());
    let run = replayed(&rt, &own);
    assert!(rt; run.done == 3 && run.differs.is_none() && run.stopped.is_none());
    let doubled = part(&rt, &[FIRST, &third, &third]);
    assert!(rt; first_fall(&doubled) == Some(3));
}
