//! Rows of a journal: their lines, and what is read of a text that ends within one.
mod kept;
mod redone;
mod replayed;
mod started;

use crate::examples::{AT, eori, holder};
use std::process::Abort;
use td_commands::Command;
use td_journal_rows::{
    JournalFault, changes_are_rows, read_rows, row_of_change, rows_read_back, write_row,
};

/// A registration, and the row behind it: an enquiry, whose request has no body.
const FIRST: &[u8] =
    b"1,1740819600,PUT,/office/holders/000001,\"{\"\"eori\"\":\"\"CH1234567\"\"}\",\"{\"\"eori\"\":\"\"CH1234567\"\",\"\"guarantees\"\":0,\"\"holder\"\":\"\"000001\"\",\"\"movements\"\":0}\"\n";

const SECOND: &[u8] =
    b"2,1741910400,POST,/office/movements/25CH000001000001J8/ie140,,\"{\"\"message\"\":\"\"IE140\"\",\"\"mrn\"\":\"\"25CH000001000001J8\"\",\"\"state\"\":\"\"enquired\"\"}\"\n";

/// What was said to the registration.
const SAID: &[u8] =
    b"{\"eori\":\"CH1234567\",\"guarantees\":0,\"holder\":\"000001\",\"movements\":0}";

/// Texts with a line that is no row, and the number of that line.
const BAD: [(&[u8], u64); 6] = [
    (b"\n", 1),
    (b"1,2,PUT,/a,\n", 1),
    (b"1,2,PUT,/a,,,\n", 1),
    (b",2,PUT,/a,,\n", 1),
    (b"1,2,PUT,/a,,\n2,x,PUT,/a,,\n3", 2),
    (b"1,2,PUT,/a,,\n1234567890123456789,2,PUT,/a,,\n", 2),
];

/// Whether this many rows, and this many bytes of a torn one, are read of the first row with this behind it.
fn are_read(rt: &(impl AllocGlobal + Abort), behind: &[u8], count: usize, torn: usize) -> bool {
    let mut text = Vec::from_slice(rt.alloc(), FIRST).expect(rt, "memory");
    text.extend_from_slice(behind).expect(rt, "memory");
    match read_rows(rt.alloc(), &text) {
        Ok(read) => read.rows.len() == count && read.torn == torn,
        Err(_) => false,
    }
}

/// Whether the line of this number is told.
fn is_told(rt: &impl AllocGlobal, text: &[u8], number: u64) -> bool {
    match read_rows(rt.alloc(), text) {
        Ok(_) => false,
        Err(fault) => fault == JournalFault::BadRow { row: number },
    }
}

#[test]
fn a_change_is_written_as_its_line(rt: HostRuntime) {
    let command = Command::Register {
        holder: holder(&rt, 1),
        eori: eori(&rt, b"CH1234567"),
    };
    let row = row_of_change(rt.alloc(), 1, AT as u64, &command, SAID).expect(&rt, "memory");
    let line = write_row(rt.alloc(), &row).expect(&rt, "memory");
    assert!(rt; line.as_slice() == FIRST);
}

#[test]
fn whole_rows_are_read_before_a_torn_one(rt: HostRuntime) {
    for end in 0..SECOND.len() {
        assert!(rt; are_read(&rt, &SECOND[..end], 1, end), "{end}");
    }
    assert!(rt; are_read(&rt, SECOND, 2, 0));
}

#[test]
fn a_line_that_is_no_row_is_told(rt: HostRuntime) {
    for (text, number) in &BAD {
        assert!(rt; is_told(&rt, text, *number), "{number}");
    }
}

#[test]
fn laws_of_rows_are_called(rt: HostRuntime) {
    rows_read_back();
    changes_are_rows();
    assert!(rt; read_rows(rt.alloc(), b"").is_ok());
}
