//! A desk in memory that keeps a journal in a file in memory: what stands in the file, also where it fails.
use crate::examples::{AT, code, country, cover, declaration, eori, holder, lines};
use crate::journal::FIRST;
use sqlite_disk::{Disk, Fuse, Memory};
use std::process::Abort;
use td_base::Reference;
use td_commands::Command;
use td_desk::{Fault, Outcome, PlainDesk, Stamped, do_one};
use td_journal::{Journal, JournaledDesk};

/// The rows behind the registration's: a guarantee, and a declaration on it.
pub(super) const SECOND: &[u8] =
    b"2,1740819600,POST,/office/holders/000001/guarantees,\"{\"\"reference\"\":1000000,\"\"cover\"\":50,\"\"code\"\":\"\"AB12\"\"}\",\"{\"\"grn\"\":\"\"25CH0000010000014\"\"}\"\n";

pub(super) const THIRD: &[u8] =
    b"3,1740819600,POST,/holders/000001/movements,\"{\"\"lrn\"\":\"\"A1\"\",\"\"departure\"\":\"\"CH001251\"\",\"\"destination\"\":\"\"DE005600\"\",\"\"lines\"\":[{\"\"cents\"\":100,\"\"code\"\":\"\"AB12\"\",\"\"grn\"\":\"\"25CH0000010000014\"\"}]}\",\"{\"\"lrn\"\":\"\"A1\"\",\"\"message\"\":\"\"IE028\"\",\"\"mrn\"\":\"\"25CH000001000001J8\"\"}\"\n";

/// Calls of a file that a row takes: a write and a sync.
const A_ROW: u64 = 2;

/// A desk of CH without holders, whose journal is this file, which is empty.
pub(super) fn journaled<F: Disk>(
    rt: &(impl AllocGlobal + Abort),
    file: F,
) -> JournaledDesk<PlainDesk, F> {
    let desk = PlainDesk::new(rt.alloc(), country(rt)).expect(rt, "memory");
    JournaledDesk::new(desk, Journal::new(file, 0, 1))
}

pub(super) fn register(rt: &impl Abort) -> Command {
    Command::Register {
        holder: holder(rt, 1),
        eori: eori(rt, b"CH1234567"),
    }
}

/// Opens a guarantee of 10,000.00 at half cover, with the code AB12.
pub(super) fn open(rt: &impl Abort) -> Command {
    Command::OpenGuarantee {
        holder: holder(rt, 1),
        reference: Reference::new(1_000_000).expect(rt, "an amount"),
        cover: cover(rt, 50),
        code: code(rt, b"AB12"),
    }
}

/// Whether the desk says something to a command, and doesn't fail.
pub(super) fn is_answered<F: Disk>(
    rt: &impl AllocGlobal,
    desk: &mut JournaledDesk<PlainDesk, F>,
    command: Command,
) -> bool {
    let stamped = Stamped { at: AT, command };
    matches!(do_one(rt.alloc(), desk, &stamped), Outcome::Said(_))
}

/// Whether a command fails by a fault of the store.
fn is_store<F: Disk>(
    rt: &impl AllocGlobal,
    desk: &mut JournaledDesk<PlainDesk, F>,
    command: Command,
) -> bool {
    let stamped = Stamped { at: AT, command };
    matches!(
        do_one(rt.alloc(), desk, &stamped),
        Outcome::Failed(Fault::Store)
    )
}

#[test]
fn accepted_changes_alone_are_written(rt: HostRuntime) {
    let mut desk = journaled(&rt, Memory::new(rt.alloc()));
    let holder = holder(&rt, 1);
    assert!(rt; is_answered(&rt, &mut desk, Command::SeeHolder { holder }));
    assert!(rt; is_answered(&rt, &mut desk, register(&rt)));
    assert!(rt; is_answered(&rt, &mut desk, register(&rt)));
    assert!(rt; is_answered(&rt, &mut desk, open(&rt)));
    for _ in 0..2 {
        let lodged = declaration(&rt, 1, b"A1", lines(&rt, b"AB12", 100));
        assert!(rt; is_answered(&rt, &mut desk, lodged));
    }
    let (_desk, journal) = desk.into_parts();
    assert!(rt; journal.is_open() && journal.next() == 4);
    let file = journal.into_file();
    let rest = file
        .bytes()
        .strip_prefix(FIRST)
        .expect(&rt, "the first row");
    let rest = rest.strip_prefix(SECOND).expect(&rt, "the second row");
    assert!(rt; rest == THIRD);
}

#[test]
fn a_change_whose_row_cannot_be_written_is_not_done(rt: HostRuntime) {
    for calls in A_ROW..2 * A_ROW {
        let mut desk = journaled(&rt, Fuse::new(Memory::new(rt.alloc()), calls));
        assert!(rt; is_answered(&rt, &mut desk, register(&rt)), "{calls}");
        assert!(rt; is_store(&rt, &mut desk, open(&rt)), "{calls}");
        let holder = holder(&rt, 1);
        assert!(rt;
            is_store(&rt, &mut desk, Command::SeeHolder { holder }),
            "{calls}"
        );
        let (_desk, journal) = desk.into_parts();
        assert!(rt; !journal.is_open() && journal.next() == 2, "{calls}");
        let file = journal.into_file();
        assert!(rt; file.inner().bytes().starts_with(FIRST), "{calls}");
    }
}
