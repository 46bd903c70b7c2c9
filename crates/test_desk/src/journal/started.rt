//! The start of a desk in memory that keeps a journal in a file in memory.
use super::kept::{SECOND, THIRD, is_answered, journaled, open, register};
use crate::examples::{AT, cents, code, country, declaration, holder, lines};
use crate::journal::FIRST;
use sqlite_disk::{Disk, Fuse, Memory};
use std::process::Abort;
use td_base::Grn;
use td_commands::{Command, Lines};
use td_desk::{Outcome, PlainDesk, Stamped, do_one};
use td_journal_start::{StartFault, start_journal};
use td_movement::Line;

/// Calls of a file that a start takes: its length, its end, a cut and a sync.
const A_START: u64 = 4;

/// How many bytes at the end of a file are read.
const TAIL: usize = 65_536;

/// Lines of the longest declaration.
const MOST_LINES: u32 = 99;

/// Lines that are no rows, or none in the one form, and that of a view.
const BAD: [&[u8]; 7] = [
    b"\n",
    b"1,2,PUT,/a,,\n",
    b"01,1740819600,PUT,/office/holders/000001,\"{\"\"eori\"\":\"\"CH1234567\"\"}\",\n",
    b"1,1740819600,PUT,/office/holders/000001,\"{ \"\"eori\"\":\"\"CH1234567\"\"}\",\n",
    b"1,1740819600,PUT,/office/holders/000001?a,\"{\"\"eori\"\":\"\"CH1234567\"\"}\",\n",
    b"1,17408196,PUT,/office/holders/000001,\"{\"\"eori\"\":\"\"CH1234567\"\"}\",\n",
    b"3,1740819600,GET,/holders/000001,,\"{\"\"eori\"\":\"\"CH1234567\"\",\"\"guarantees\"\":1,\"\"holder\"\":\"\"000001\"\",\"\"movements\"\":0}\"\n",
];

/// A file with these bytes, synced.
fn file_of(rt: &(impl AllocGlobal + Abort), parts: &[&[u8]]) -> Memory {
    let mut bytes = Vec::new(rt.alloc());
    for part in parts {
        bytes.extend_from_slice(part).expect(rt, "memory");
    }
    let mut file = Memory::new(rt.alloc());
    assert!(rt; file.write_at(0, &bytes).is_ok() && file.sync().is_ok());
    file
}

/// So many bytes without a line feed.
fn no_line(rt: &(impl AllocGlobal + Abort), size: usize) -> Vec<u8> {
    vec![in rt.alloc(); b'x'; size].expect(rt, "memory")
}

/// A desk of CH at which these commands were done.
fn desk_of(rt: &(impl AllocGlobal + Abort), commands: Vec<Command>) -> PlainDesk {
    let mut desk = PlainDesk::new(rt.alloc(), country(rt)).expect(rt, "memory");
    for command in commands {
        let stamped = Stamped { at: AT, command };
        let outcome = do_one(rt.alloc(), &mut desk, &stamped);
        assert!(rt; matches!(outcome, Outcome::Said(_)));
    }
    desk
}

/// A registration, and openings of so many guarantees.
fn opened(rt: &(impl AllocGlobal + Abort), count: u32) -> Vec<Command> {
    let mut commands = vec![in rt.alloc(); register(rt)].expect(rt, "memory");
    for _ in 0..count {
        commands.push(open(rt)).expect(rt, "memory");
    }
    commands
}

/// What stands in the file of a desk that is started over two rows and these bytes, and then is sent the declaration of the third.
fn sent_again(rt: &(impl AllocGlobal + Abort), behind: &[u8]) -> Memory {
    let file = file_of(rt, &[FIRST, SECOND, behind]);
    let start = start_journal(rt.alloc(), desk_of(rt, opened(rt, 1)), file);
    let mut desk = start.ok().expect(rt, "a start");
    let lodged = declaration(rt, 1, b"A1", lines(rt, b"AB12", 100));
    assert!(rt; is_answered(rt, &mut desk, lodged));
    let (_desk, journal) = desk.into_parts();
    assert!(rt; journal.is_open() && journal.next() == 4);
    journal.into_file()
}

/// Why a desk isn't started over these bytes, which stay.
fn refused(rt: &(impl AllocGlobal + Abort), desk: PlainDesk, parts: &[&[u8]]) -> StartFault {
    let start = start_journal(rt.alloc(), desk, file_of(rt, parts));
    let refused = start.err().expect(rt, "no start");
    assert!(rt; refused.file.bytes() == file_of(rt, parts).bytes());
    refused.why
}

/// The declaration of the longest row: its lines are on as many guarantees.
fn longest(rt: &(impl AllocGlobal + Abort)) -> Command {
    let mut items = Vec::new(rt.alloc());
    for serial in 1..=MOST_LINES {
        let grn = Grn::make(25, country(rt), holder(rt, 1), serial).expect(rt, "a GRN");
        let cents = cents(rt, 1_000_000_000_000);
        let coded = (Line { grn, cents }, code(rt, b"AB12"));
        items.push(coded).expect(rt, "memory");
    }
    let lines = Lines::new(items).expect(rt, "lines");
    declaration(rt, 1, b"1234567890123456789012", lines)
}

/// The file of a journal that ends with its row.
fn longest_file(rt: &(impl AllocGlobal + Abort)) -> Memory {
    let mut desk = journaled(rt, Memory::new(rt.alloc()));
    for command in opened(rt, MOST_LINES) {
        assert!(rt; is_answered(rt, &mut desk, command));
    }
    assert!(rt; is_answered(rt, &mut desk, longest(rt)));
    let (_desk, journal) = desk.into_parts();
    journal.into_file()
}

#[test]
fn a_file_of_no_bytes_is_a_new_journal(rt: HostRuntime) {
    let desk = desk_of(&rt, Vec::new(rt.alloc()));
    let start = start_journal(rt.alloc(), desk, Memory::new(rt.alloc()));
    let mut desk = start.ok().expect(&rt, "a start");
    assert!(rt; is_answered(&rt, &mut desk, register(&rt)));
    let (_desk, journal) = desk.into_parts();
    assert!(rt; journal.next() == 2);
    assert!(rt; journal.into_file().bytes() == FIRST);
}

#[test]
fn a_torn_row_is_cut_off_and_a_whole_one_carried(rt: HostRuntime) {
    for end in 0..=THIRD.len() {
        let file = sent_again(&rt, &THIRD[..end]);
        let wanted = file_of(&rt, &[FIRST, SECOND, THIRD]);
        assert!(rt; file.bytes() == wanted.bytes(), "{end}");
    }
}

#[test]
fn a_row_of_another_desk_is_told(rt: HostRuntime) {
    let desk = desk_of(&rt, Vec::new(rt.alloc()));
    let why = refused(&rt, desk, &[FIRST, SECOND, b"3,17"]);
    assert!(rt; why == StartFault::ForeignRow { row: 2 });
}

#[test]
fn a_file_that_is_no_journal_is_refused(rt: HostRuntime) {
    for bad in &BAD {
        let why = refused(&rt, desk_of(&rt, opened(&rt, 1)), &[FIRST, SECOND, bad]);
        assert!(rt; why == StartFault::BadJournal);
    }
    let long = no_line(&rt, TAIL);
    let why = refused(&rt, desk_of(&rt, opened(&rt, 1)), &[&long, FIRST]);
    assert!(rt; why == StartFault::BadJournal);
}

#[test]
fn a_call_of_the_file_that_fails_is_told(rt: HostRuntime) {
    for calls in 0..A_START {
        let file = Fuse::new(file_of(&rt, &[FIRST, b"2,"]), calls);
        let desk = desk_of(&rt, opened(&rt, 0));
        let refused = start_journal(rt.alloc(), desk, file)
            .err()
            .expect(&rt, "no start");
        assert!(rt; refused.why == StartFault::Store, "{calls}");
        assert!(rt; refused.file.inner().bytes().starts_with(FIRST), "{calls}");
    }
    let file = Fuse::new(file_of(&rt, &[FIRST, b"2,"]), A_START);
    assert!(rt; start_journal(rt.alloc(), desk_of(&rt, opened(&rt, 0)), file).is_ok());
}

#[test]
fn the_longest_row_is_found(rt: HostRuntime) {
    let journal = longest_file(&rt);
    let torn = no_line(&rt, 20_000);
    let file = file_of(&rt, &[journal.bytes(), &torn]);
    let start = start_journal(rt.alloc(), desk_of(&rt, opened(&rt, MOST_LINES)), file);
    let (_desk, started) = start.ok().expect(&rt, "a start").into_parts();
    assert!(rt; started.next() == 102);
    assert!(rt; started.into_file().bytes() == journal.bytes());
}
