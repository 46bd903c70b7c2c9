//! Batches: what is read of files, and what is done of their rows at a desk. Files and results are written out.
use super::{open, plain_desk, register};
use crate::examples::AT;
use std::process::Abort;
use td_acts::Stamped;
use td_batch::{BatchFault, BatchRun, read_acts, read_declarations, run_acts, run_declarations};
use td_desk::{Outcome, PlainDesk, do_one};

/// A file, and its first bad row and column.
type Bad = (&'static [u8], u64, u32);

/// Files of declarations.
const BAD_DECLARATIONS: [Bad; 16] = [
    (b"", 1, 0),
    (b"\n\n", 1, 0),
    (b"holder,lrn,departure,destination\n", 1, 0),
    (b"message,mrn,value\n", 1, 0),
    (
        b"holder,lrn,departure,destination,lines\n000001,A1,CH001251,DE005600\n",
        2,
        0,
    ),
    (
        b"holder,lrn,departure,destination,lines\n1,A1,CH001251,DE005600,25CH0000010000014:AB12:5.00\n",
        2,
        1,
    ),
    (
        b"holder,lrn,departure,destination,lines\n000001,\xff,CH001251,DE005600,25CH0000010000014:AB12:5.00\n",
        2,
        2,
    ),
    (
        b"holder,lrn,departure,destination,lines\n000001,A1,CH1251,DE005600,25CH0000010000014:AB12:5.00\n",
        2,
        3,
    ),
    (
        b"holder,lrn,departure,destination,lines\n000001,A1,CH001251,,25CH0000010000014:AB12:5.00\n",
        2,
        4,
    ),
    (
        b"holder,lrn,departure,destination,lines\n000001,A1,CH001251,DE005600,\n",
        2,
        5,
    ),
    (
        b"holder,lrn,departure,destination,lines\n000001,A1,CH001251,DE005600,25CH0000010000014:AB12:0.00\n",
        2,
        5,
    ),
    (
        b"holder,lrn,departure,destination,lines\n000001,A1,CH001251,DE005600,25CH0000010000014:AB12:05.00\n",
        2,
        5,
    ),
    (
        b"holder,lrn,departure,destination,lines\n000001,A1,CH001251,DE005600,25CH0000010000015:AB12:5.00\n",
        2,
        5,
    ),
    (
        b"holder,lrn,departure,destination,lines\n000001,A1,CH001251,DE005600,25CH0000010000014:AB12:5.00:\n",
        2,
        5,
    ),
    (
        b"holder,lrn,departure,destination,lines\n000001,A1,CH001251,DE005600,25CH0000010000014:AB12:5.00;25CH0000010000014:AB12:1.00\n",
        2,
        5,
    ),
    (
        b"holder,lrn,departure,destination,lines\n000001,A1,CH001251,DE005600,25CH0000010000014:AB12:5000.00\n000001,A2,CH001251,DE005600,25CH0000010000014:AB12:12.5\n1,,,,\n",
        3,
        5,
    ),
];

/// Files of acts.
const BAD_ACTS: [Bad; 8] = [
    (b"", 1, 0),
    (b"message,mrn\n", 1, 0),
    (b"message,mrn,value\nIE140,25CH000001000001J8\n", 2, 0),
    (b"message,mrn,value\nIE014,25CH000001000001J8,\n", 2, 1),
    (b"message,mrn,value\nIE140,25CH000001000001J9,\n", 2, 2),
    (
        b"message,mrn,value\nIE029,25CH000001000001J8,2025-02-29\n",
        2,
        3,
    ),
    (b"message,mrn,value\nIE018,25CH000001000001J8,A3\n", 2, 3),
    (
        b"message,mrn,value\nIE045,25CH000001000001J8,results\nIE140,25CH000001000001J8,now\n",
        3,
        3,
    ),
];

#[test]
fn a_bad_declaration_is_told_by_row_and_column(rt: HostRuntime) {
    for (file, row, column) in BAD_DECLARATIONS {
        let read = read_declarations(rt.alloc(), file);
        assert!(rt; matches!(read, Err(why) if why == BatchFault::BadCsv { row, column }));
    }
}

#[test]
fn a_bad_act_is_told_by_row_and_column(rt: HostRuntime) {
    for (file, row, column) in BAD_ACTS {
        let read = read_acts(rt.alloc(), file);
        assert!(rt; matches!(read, Err(why) if why == BatchFault::BadCsv { row, column }));
    }
}

/// It is answered.
fn do_well(rt: &(impl AllocGlobal + Abort), desk: &mut PlainDesk, stamped: &Stamped) {
    let done = do_one(rt.alloc(), desk, stamped);
    assert!(rt; matches!(done, Outcome::Said(_)));
}

/// A desk with the holders 000001 and 000002, and one guarantee of the first, of 10,000.00 at half cover.
fn desk_with_guarantee(rt: &(impl AllocGlobal + Abort)) -> PlainDesk {
    let mut desk = plain_desk(rt);
    do_well(rt, &mut desk, &register(rt, 1, b"CH1234567", AT));
    do_well(rt, &mut desk, &register(rt, 2, b"DE7654321", AT));
    do_well(rt, &mut desk, &open(rt, 1, AT));
    desk
}

/// It went to its end, and this is its result file.
fn assert_result(rt: &impl Abort, run: &BatchRun, rows: usize, due: &str) {
    assert_eq!(rt; str::from_utf8(&run.text).unwrap_or("what is no text"), due);
    assert!(rt; run.done == rows && run.stopped.is_none());
}

/// The declarations of the file are done, and this is the result.
fn assert_declared(
    rt: &(impl AllocGlobal + Abort),
    desk: &mut PlainDesk,
    at: i64,
    file: &[u8],
    due: &str,
) {
    let rows = read_declarations(rt.alloc(), file)
        .ok()
        .expect(rt, "a file");
    let run = run_declarations(rt.alloc(), desk, at, &rows);
    assert_result(rt, &run, rows.len(), due);
}

fn assert_acted(rt: &(impl AllocGlobal + Abort), desk: &mut PlainDesk, file: &[u8], due: &str) {
    let rows = read_acts(rt.alloc(), file).ok().expect(rt, "a file");
    let run = run_acts(rt.alloc(), desk, AT, &rows);
    assert_result(rt, &run, rows.len(), due);
}

/// The first two declarations of holder 000001.
const TWO: &[u8] =
    b"holder,lrn,departure,destination,lines\n000001,A1,CH001251,DE005600,25CH0000010000014:AB12:5000.00\n000001,A2,CH001251,DE005600,25CH0000010000014:AB12:12.50\n";

/// The same with a byte order mark, CR LF, empty lines and quotes.
const TWO_OTHERWISE: &[u8] =
    b"\xef\xbb\xbfholder,lrn,departure,destination,lines\r\n\r\n\"000001\",A1,CH001251,DE005600,25CH0000010000014:AB12:5000.00\r\n000001,\"A2\",CH001251,DE005600,25CH0000010000014:AB12:12.50";

const TWO_DONE: &str =
    "holder,lrn,outcome,mrn\n000001,A1,IE028,25CH000001000001J8\n000001,A2,IE028,25CH000001000002J7\n";

/// Declarations, one after another at the same desk, and their results.
const DECLARED: [(&[u8], &str); 6] = [
    (
        b"holder,lrn,departure,destination,lines\n",
        "holder,lrn,outcome,mrn\n",
    ),
    (TWO, TWO_DONE),
    (TWO, TWO_DONE),
    (TWO_OTHERWISE, TWO_DONE),
    (
        b"holder,lrn,departure,destination,lines\n000001,A1,CH001251,DE005600,25CH0000010000014:AB12:5000.01\n000002,A1,CH001251,DE005600,25CH0000010000014:AB12:1.00\n000003,A1,CH001251,DE005600,25CH0000010000014:AB12:1.00\n",
        "holder,lrn,outcome,mrn\n000001,A1,lrn-used,\n000002,A1,no-guarantee,\n000003,A1,no-holder,\n",
    ),
    (
        b"holder,lrn,departure,destination,lines\n000001,A3,CH001251,DE005600,25CH0000010000014:ZZZZ:1.00\n",
        "holder,lrn,outcome,mrn\n000001,A3,bad-code,\n",
    ),
];

#[test]
fn declarations_are_done_row_by_row(rt: HostRuntime) {
    let mut desk = desk_with_guarantee(&rt);
    for (file, due) in DECLARED {
        assert_declared(&rt, &mut desk, AT, file, due);
    }
    let early = "holder,lrn,outcome,mrn\n000001,A1,clock-range,\n000001,A2,clock-range,\n";
    assert_declared(&rt, &mut desk, -1, TWO, early);
}

/// Acts, likewise.
const ACTED: [(&[u8], &str); 4] = [
    (b"message,mrn,value\n", "message,mrn,outcome\n"),
    (
        b"message,mrn,value\nIE029,25CH000001000001J8,2025-03-08\nIE140,25CH000001000001J8,\n",
        "message,mrn,outcome\nIE029,25CH000001000001J8,released\nIE140,25CH000001000001J8,too-early\n",
    ),
    (
        b"message,mrn,value\nIE029,25CH000001000001J8,2025-03-08\nIE140,25CH000001000001J8,\n",
        "message,mrn,outcome\nIE029,25CH000001000001J8,wrong-state\nIE140,25CH000001000001J8,too-early\n",
    ),
    (
        b"message,mrn,value\nIE007,25CH000001000001J8,DE005600\nIE018,25CH000001000001J8,A1\nIE045,25CH000001000001J8,results\n",
        "message,mrn,outcome\nIE007,25CH000001000001J8,arrived\nIE018,25CH000001000001J8,cleared\nIE045,25CH000001000001J8,written-off\n",
    ),
];

#[test]
fn acts_are_done_row_by_row(rt: HostRuntime) {
    let mut desk = desk_with_guarantee(&rt);
    assert_declared(&rt, &mut desk, AT, TWO, TWO_DONE);
    for (file, due) in ACTED {
        assert_acted(&rt, &mut desk, file, due);
    }
}
