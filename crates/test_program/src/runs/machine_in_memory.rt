//! Runs on a machine in memory, of whose files, clock and connections all is known: what is told to each client, the rows that are
//! done, the moment of each, and the desk's files at their paths.
use crate::helpers::{Done, Due, assert_due, assert_equal, assert_text, words_of};
use sqlite::Files;
use sqlite_disk::{Disk, Memory};
use std::alloc::{AllocError, Global};
use std::collections::VecDeque;
use std::io::{Read, Write};
use std::test::Fail;
use td_base::Counted;
use td_cli::{DeskFile, Drive, Machine, perform_on};
use td_machine::{MemoryDrive, MemoryFile, MemoryIncoming, MemoryMachine};

const REGISTER: &[u8] =
    b"PUT /office/holders/000001 HTTP/1.1\r\nContent-Length: 20\r\n\r\n{\"eori\":\"CH1234567\"}";

const OPEN: &[u8] =
    b"POST /office/holders/000001/guarantees HTTP/1.1\r\nContent-Length: 46\r\n\r\n{\"reference\":1000000,\"cover\":50,\"code\":\"AB12\"}";

const LODGE: &[u8] =
    b"POST /holders/000001/movements HTTP/1.1\r\nContent-Length: 127\r\n\r\n{\"lrn\":\"A1\",\"departure\":\"CH001251\",\"destination\":\"DE005600\",\"lines\":[{\"grn\":\"25CH0000010000014\",\"code\":\"AB12\",\"cents\":500000}]}";

const REGISTERED: &[u8] =
    b"HTTP/1.1 200 OK\r\nContent-Type: application/json\r\nContent-Length: 67\r\n\r\n{\"eori\":\"CH1234567\",\"guarantees\":0,\"holder\":\"000001\",\"movements\":0}";

const OPENED: &[u8] =
    b"HTTP/1.1 200 OK\r\nContent-Type: application/json\r\nContent-Length: 27\r\n\r\n{\"grn\":\"25CH0000010000014\"}";

const LODGED: &[u8] =
    b"HTTP/1.1 200 OK\r\nContent-Type: application/json\r\nContent-Length: 57\r\n\r\n{\"lrn\":\"A1\",\"message\":\"IE028\",\"mrn\":\"25CH000001000001J8\"}";

const CLOCK_BACK: &[u8] =
    b"HTTP/1.1 409 Conflict\r\nContent-Type: application/json\r\nContent-Length: 22\r\n\r\n{\"error\":\"clock-back\"}";

const ROWS: &[u8] =
    b"holder,lrn,departure,destination,lines\n000001,A1,CH001251,DE005600,25CH0000010000014:AB12:5000.00\n";

const ACTS: &[u8] = b"message,mrn,value\nIE029,25CH000001000001J8,2025-03-08\n";

/// What each of the clients sends, one after another.
type Clients<'a> = &'a [&'a [&'a [u8]]];

// What a client sends, as a source gives it.
fn sent(alloc: Global, requests: &[&[u8]]) -> Result<VecDeque<u8>, AllocError> {
    let mut bytes = VecDeque::new(alloc);
    for request in requests {
        bytes.extend(request.iter().copied())?;
    }
    Ok(bytes)
}

// The connections of these clients.
fn incoming(alloc: Global, clients: Clients<'_>) -> Result<MemoryIncoming, AllocError> {
    let mut coming = VecDeque::new(alloc);
    let mut told = Vec::new(alloc);
    for requests in clients {
        coming.push_back(sent(alloc, requests)?)?;
        told.push(Vec::new(alloc))?;
    }
    Ok(MemoryIncoming {
        clients: coming,
        told,
        gone: 0,
        alloc,
    })
}

// A machine with files of rows, whose clock will answer so, and to whose port 8080 these clients come, where the idle limit
// is seven seconds.
fn machine(
    alloc: Global,
    ticks: &[i64],
    clients: Clients<'_>,
) -> Result<MemoryMachine, AllocError> {
    let mut files = Vec::new(alloc);
    let journal = JOURNAL_ROWS.concat(alloc)?;
    for (path, bytes) in [
        ("other.csv", ACTS),
        ("rows.csv", ROWS),
        ("acts.csv", ACTS),
        ("journal.csv", &journal),
        ("part.csv", JOURNAL_ROWS[1]),
    ] {
        files.push(MemoryFile {
            path: String::from_str(alloc, path)?,
            bytes: Vec::from_slice(alloc, bytes)?,
        })?;
    }
    let mut answers = VecDeque::new(alloc);
    answers.extend(ticks.iter().copied())?;
    Ok(MemoryMachine {
        files,
        ticks: answers,
        port: 8080,
        idle: 7,
        incoming: Some(incoming(alloc, clients)?),
    })
}

// What the program leaves on these words on a machine, over these files. (It stands for any machine and any drives: the proof of each
// call over a file is dear.)
fn done_over<M: Machine, V: Drive, O: Drive>(
    alloc: Global,
    machine: &mut M,
    words: &[&str],
    file: &mut DeskFile<V>,
    other: &mut DeskFile<O>,
    input: &[u8],
) -> Result<Done, AllocError> {
    let words = words_of(alloc, words)?;
    let mut input = Counted::new(input);
    let mut out = Counted::new(Vec::new(alloc));
    let mut errors = Counted::new(Vec::new(alloc));
    let status = perform_on(
        alloc,
        machine,
        &words,
        file,
        other,
        &mut input,
        &mut out,
        &mut errors,
    );
    Ok(Done {
        status,
        out: out.into_inner(),
        errors: errors.into_inner(),
    })
}

/// The database files at the two paths of a machine, if they are there.
#[derive(Drop)]
struct DriveFiles {
    first: Option<Files<Memory>>,
    second: Option<Files<Memory>>,
}

const NO_FILES: DriveFiles = DriveFiles {
    first: None,
    second: None,
};

// A file at the path of a drive in memory.
fn file_at(
    alloc: Global,
    path: &str,
    files: Option<Files<Memory>>,
) -> Result<DeskFile<MemoryDrive>, AllocError> {
    Ok(DeskFile::new(MemoryDrive {
        path: String::from_str(alloc, path)?,
        files,
        alloc,
    }))
}

// What is left at the path of a drive: the file that was opened, once it is closed, or the one that wasn't. A journal stands in a file
// without a log.
fn left_of(mut file: DeskFile<MemoryDrive>) -> Option<Files<Memory>> {
    if let Some(db) = file.journal.take() {
        let log = Memory::new(file.drive.alloc);
        return Some(Files { log, db });
    }
    let unopened = file.drive.files.take();
    match file.close() {
        Some(Ok(files)) => Some(files),
        Some(Err(_)) => None,
        None => unopened,
    }
}

// A run on a machine over the files at its two paths, which it leaves changed.
fn done_on<M: Machine>(
    alloc: Global,
    machine: &mut M,
    files: &mut DriveFiles,
    words: &[&str],
    input: &[u8],
) -> Result<Done, AllocError> {
    let mut file = file_at(alloc, PATH, files.first.take())?;
    let mut other = file_at(alloc, OTHER_PATH, files.second.take())?;
    let done = done_over(alloc, machine, words, &mut file, &mut other, input)?;
    files.first = left_of(file);
    files.second = left_of(other);
    Ok(done)
}

// Each client was told this, and nothing else.
fn assert_told(told: &[Vec<u8>], due: &[&[&[u8]]]) -> Result<(), Fail> {
    assert_equal(&told.len(), &due.len())?;
    for (told, due) in told.iter().zip(due) {
        assert_replies(told, due)?;
    }
    Ok(())
}

fn assert_replies(told: &[u8], due: &[&[u8]]) -> Result<(), Fail> {
    let mut left = told;
    for reply in due {
        let (first, rest) = left.split_at(reply.len().min(left.len()));
        assert_text(first, reply)?;
        left = rest;
    }
    assert_text(left, b"")
}

const SERVE: [&str; 10] = [
    "transit-desk",
    "serve",
    "--country",
    "CH",
    "--port",
    "8080",
    "--connections",
    "3",
    "--idle",
    "7",
];

#[test]
fn each_client_is_told_its_own_replies_at_the_moments_of_the_clock(
    rt: HostRuntime,
) -> Result<(), Fail> {
    let ticks = [
        1_740_819_000,
        1_740_819_000,
        1_740_819_600,
        1_740_819_599,
        1_740_819_600,
    ];
    let clients: Clients<'_> = &[&[REGISTER, OPEN, LODGE], &[LODGE], &[LODGE]];
    let mut machine = machine(rt.alloc(), &ticks, clients)?;
    let done = done_on(rt.alloc(), &mut machine, &mut NO_FILES, &SERVE, b"")?;
    let due = Due {
        status: 0,
        out: b"listening 127.0.0.1:8080\nserved 3\n",
        errors: b"",
    };
    assert_due(&done, due)?;
    let incoming = machine.incoming.as_ref().ok_or("the connections")?;
    let due: &[&[&[u8]]] = &[&[REGISTERED, OPENED, LODGED], &[CLOCK_BACK], &[LODGED]];
    assert_told(&incoming.told, due)?;
    assert_equal(&machine.ticks.len(), &0)
}

#[test]
fn with_a_moment_of_the_words_no_clock_is_asked(rt: HostRuntime) -> Result<(), Fail> {
    let words = {
        let mut words = SERVE.to_vec(rt.alloc())?;
        words.extend_from_slice(&["--at", "1740819600"])?;
        words
    };
    let clients: Clients<'_> = &[&[REGISTER], &[OPEN], &[LODGE]];
    let mut machine = machine(rt.alloc(), &[5], clients)?;
    let done = done_on(rt.alloc(), &mut machine, &mut NO_FILES, &words, b"")?;
    assert_equal(&done.status, &0)?;
    let incoming = machine.incoming.as_ref().ok_or("the connections")?;
    assert_told(&incoming.told, &[&[REGISTERED], &[OPENED], &[LODGED]])?;
    assert_equal(&machine.ticks.len(), &1)
}

#[test]
fn a_port_that_cannot_be_listened_on_serves_nobody(rt: HostRuntime) -> Result<(), Fail> {
    let mut machine = machine(rt.alloc(), &[], &[&[REGISTER]])?;
    machine.port = 8081;
    let done = done_on(rt.alloc(), &mut machine, &mut NO_FILES, &SERVE, b"")?;
    let due = Due {
        status: 1,
        out: b"",
        errors: b"transit-desk: socket\n",
    };
    assert_due(&done, due)?;
    let incoming = machine.incoming.as_ref().ok_or("the connections")?;
    assert_told(&incoming.told, &[&[]])
}

const PATH: &str = "desk.db";

const OTHER_PATH: &str = "other.db";

// A run over these files on a machine whose clock answers this alone, or nothing.
fn assert_run(
    alloc: Global,
    files: &mut DriveFiles,
    ticks: &[i64],
    words: &[&str],
    input: &[u8],
    due: Due<'_>,
) -> Result<(), Fail> {
    let mut machine = machine(alloc, ticks, &[])?;
    let done = done_on(alloc, &mut machine, files, words, input)?;
    assert_due(&done, due)?;
    assert_equal(&machine.ticks.len(), &0)
}

// Rows of the machine's file, whose result this is.
fn assert_rows(
    alloc: Global,
    files: &mut DriveFiles,
    tick: i64,
    words: [&str; 2],
    status: u8,
    out: &[u8],
) -> Result<(), Fail> {
    let [kind, csv] = words;
    let words = [
        "transit-desk",
        kind,
        "--file",
        csv,
        "--country",
        "CH",
        "--db",
        PATH,
    ];
    let due = Due {
        status,
        out,
        errors: b"",
    };
    assert_run(alloc, files, &[tick], &words, b"", due)
}

const NEW: [&str; 7] = [
    "transit-desk",
    "pipe",
    "--country",
    "CH",
    "--db",
    PATH,
    "--new",
];

// The file of a desk with one holder and one guarantee.
fn assert_new_desk(alloc: Global, files: &mut DriveFiles) -> Result<(), Fail> {
    let requests = [REGISTER, OPEN].concat(alloc)?;
    let replies = [REGISTERED, OPENED].concat(alloc)?;
    let ticks = [1_740_819_600, 1_740_819_600];
    assert_run(
        alloc,
        files,
        &ticks,
        &NEW,
        &requests,
        Due::replies(&replies),
    )
}

#[test]
fn rows_are_those_of_the_machines_file_at_one_moment_of_its_clock(
    rt: HostRuntime,
) -> Result<(), Fail> {
    let alloc = rt.alloc();
    let files = &mut NO_FILES;
    assert_new_desk(alloc, files)?;
    let rows = b"holder,lrn,outcome,mrn\n000001,A1,IE028,25CH000001000001J8\n";
    assert_rows(alloc, files, 1_740_819_700, ["batch", "rows.csv"], 0, rows)?;
    let acts = b"message,mrn,outcome\nIE029,25CH000001000001J8,released\n";
    assert_rows(alloc, files, 1_740_819_800, ["acts", "acts.csv"], 0, acts)?;
    let late = b"holder,lrn,outcome,mrn\n000001,A1,clock-back,\n";
    assert_rows(alloc, files, 1_740_819_799, ["batch", "rows.csv"], 1, late)
}

#[test]
fn a_file_that_the_machine_does_not_have_is_told(rt: HostRuntime) -> Result<(), Fail> {
    let due = Due {
        status: 1,
        out: b"",
        errors: b"transit-desk: file\n",
    };
    let words = [
        "transit-desk",
        "batch",
        "--file",
        "none.csv",
        "--country",
        "CH",
        "--db",
        PATH,
    ];
    assert_run(rt.alloc(), &mut NO_FILES, &[], &words, b"", due)
}

// A test of the records at a path, and what it tells.
fn assert_check(
    alloc: Global,
    files: &mut DriveFiles,
    path: &str,
    due: Due<'_>,
) -> Result<(), Fail> {
    let words = ["transit-desk", "check", "--country", "CH", "--db", path];
    assert_run(alloc, files, &[], &words, b"", due)
}

#[test]
fn the_file_is_the_one_at_the_path_of_the_words(rt: HostRuntime) -> Result<(), Fail> {
    let alloc = rt.alloc();
    let files = &mut NO_FILES;
    let missing = Due {
        status: 1,
        out: b"",
        errors: b"transit-desk: file\n",
    };
    assert_check(alloc, files, PATH, missing)?;
    assert_new_desk(alloc, files)?;
    assert_check(alloc, files, OTHER_PATH, missing)?;
    assert_check(alloc, files, PATH, Due::replies(b"sound\n"))?;
    let again = Due {
        status: 1,
        out: b"",
        errors: b"transit-desk: store\n",
    };
    assert_run(alloc, files, &[], &NEW, REGISTER, again)
}

#[test]
fn two_files_are_those_at_their_paths(rt: HostRuntime) -> Result<(), Fail> {
    let alloc = rt.alloc();
    let files = &mut NO_FILES;
    assert_new_desk(alloc, files)?;
    let words = [
        "transit-desk",
        "extract",
        "--country",
        "CH",
        "--db",
        PATH,
        "--holders",
        "000001-000001",
        "--into",
        OTHER_PATH,
    ];
    assert_run(alloc, files, &[], &words, b"", Due::replies(b""))?;
    files.first = files.second.take();
    assert_check(alloc, files, PATH, Due::replies(b"sound\n"))?;
    let rows = b"holder,lrn,outcome,mrn\n000001,A1,IE028,25CH000001000001J8\n";
    assert_rows(alloc, files, 1_740_819_700, ["batch", "rows.csv"], 0, rows)
}

/// The rows of the registration, of the guarantee and of the declaration, at one moment.
const JOURNAL_ROWS: [&[u8]; 3] = [
    b"1,1740819600,PUT,/office/holders/000001,\"{\"\"eori\"\":\"\"CH1234567\"\"}\",\"{\"\"eori\"\":\"\"CH1234567\"\",\"\"guarantees\"\":0,\"\"holder\"\":\"\"000001\"\",\"\"movements\"\":0}\"\n",
    b"2,1740819600,POST,/office/holders/000001/guarantees,\"{\"\"reference\"\":1000000,\"\"cover\"\":50,\"\"code\"\":\"\"AB12\"\"}\",\"{\"\"grn\"\":\"\"25CH0000010000014\"\"}\"\n",
    b"3,1740819600,POST,/holders/000001/movements,\"{\"\"lrn\"\":\"\"A1\"\",\"\"departure\"\":\"\"CH001251\"\",\"\"destination\"\":\"\"DE005600\"\",\"\"lines\"\":[{\"\"cents\"\":500000,\"\"code\"\":\"\"AB12\"\",\"\"grn\"\":\"\"25CH0000010000014\"\"}]}\",\"{\"\"lrn\"\":\"\"A1\"\",\"\"message\"\":\"\"IE028\"\",\"\"mrn\"\":\"\"25CH000001000001J8\"\"}\"\n",
];

// Requests to a desk that keeps its journal at the second path, and what they are told.
fn assert_journaled(
    alloc: Global,
    files: &mut DriveFiles,
    records: &[&'static str],
    requests: &[&[u8]],
    due: Due<'_>,
) -> Result<(), Fail> {
    let mut words = ["transit-desk", "pipe", "--country", "CH"].to_vec(alloc)?;
    words.extend_from_slice(&["--at", "1740819600", "--journal", OTHER_PATH])?;
    words.extend_from_slice(records)?;
    assert_run(alloc, files, &[], &words, &requests.concat(alloc)?, due)
}

// The journal is these rows, and nothing else.
fn assert_journal(alloc: Global, files: &DriveFiles, rows: &[&[u8]]) -> Result<(), Fail> {
    let journal = files.second.as_ref().ok_or("the journal")?;
    assert_text(journal.db.bytes(), &rows.concat(alloc)?)
}

const KEPT_RECORDS: [&str; 2] = ["--db", PATH];

const NEW_RECORDS: [&str; 3] = ["--db", PATH, "--new"];

// A new desk of one holder with one guarantee, whose journal has the rows of both.
fn assert_new_journal(alloc: Global, files: &mut DriveFiles) -> Result<(), Fail> {
    let replies = [REGISTERED, OPENED].concat(alloc)?;
    let due = Due::replies(&replies);
    assert_journaled(alloc, files, &NEW_RECORDS, &[REGISTER, OPEN], due)?;
    assert_journal(alloc, files, &JOURNAL_ROWS[..2])
}

#[test]
fn a_journal_has_each_accepted_change_once(rt: HostRuntime) -> Result<(), Fail> {
    let alloc = rt.alloc();
    let files = &mut NO_FILES;
    assert_new_journal(alloc, files)?;
    let replies = [LODGED, LODGED].concat(alloc)?;
    let due = Due::replies(&replies);
    assert_journaled(alloc, files, &KEPT_RECORDS, &[LODGE, LODGE], due)?;
    assert_journal(alloc, files, &JOURNAL_ROWS)?;
    assert_journaled(alloc, files, &KEPT_RECORDS, &[], Due::replies(b""))?;
    assert_journal(alloc, files, &JOURNAL_ROWS)
}

#[test]
fn a_desk_in_memory_keeps_a_journal(rt: HostRuntime) -> Result<(), Fail> {
    let alloc = rt.alloc();
    let files = &mut NO_FILES;
    let replies = [REGISTERED, OPENED, LODGED].concat(alloc)?;
    let due = Due::replies(&replies);
    assert_journaled(alloc, files, &[], &[REGISTER, OPEN, LODGE], due)?;
    assert_journal(alloc, files, &JOURNAL_ROWS)
}

// Puts bytes behind what the journal has.
fn put_behind(files: &mut DriveFiles, bytes: &[u8]) -> Result<(), Fail> {
    let journal = files.second.as_mut().ok_or("the journal")?;
    let end = journal.db.bytes().len();
    if !journal.db.may_be_used() {
        return Err("a sync has failed".into());
    }
    journal.db.write_at(end, bytes)?;
    Ok(journal.db.sync()?)
}

#[test]
fn a_journal_that_is_one_row_ahead_is_done(rt: HostRuntime) -> Result<(), Fail> {
    let alloc = rt.alloc();
    let files = &mut NO_FILES;
    assert_new_journal(alloc, files)?;
    put_behind(files, JOURNAL_ROWS[2])?;
    put_behind(files, b"4,17")?;
    assert_journaled(alloc, files, &KEPT_RECORDS, &[], Due::replies(b""))?;
    assert_journal(alloc, files, &JOURNAL_ROWS)?;
    let rows = b"holder,lrn,outcome,mrn\n000001,A1,IE028,25CH000001000001J8\n";
    assert_rows(alloc, files, 1_740_819_700, ["batch", "rows.csv"], 0, rows)
}

// The desk isn't served beside this journal: that is told so, and the journal is left as it is.
fn assert_refused(alloc: Global, rows: &[&[u8]], errors: &[u8]) -> Result<(), Fail> {
    let files = &mut NO_FILES;
    files.second = Some(Files {
        log: Memory::new(alloc),
        db: Memory::new(alloc),
    });
    put_behind(files, &rows.concat(alloc)?)?;
    let due = Due {
        status: 1,
        out: b"",
        errors,
    };
    assert_journaled(alloc, files, &[], &[REGISTER], due)?;
    assert_journal(alloc, files, rows)
}

#[test]
fn a_journal_that_is_not_the_desks_is_told(rt: HostRuntime) -> Result<(), Fail> {
    let alloc = rt.alloc();
    assert_refused(alloc, &[ROWS], b"transit-desk: journal\n")?;
    assert_refused(alloc, &[JOURNAL_ROWS[0], b"\n"], b"transit-desk: journal\n")?;
    assert_refused(alloc, &JOURNAL_ROWS, b"transit-desk: journal 3\n")
}

/// What is printed of the journal's rows, done again.
const REPLIES: &[u8] =
    b"number,reply\n1,\"{\"\"eori\"\":\"\"CH1234567\"\",\"\"guarantees\"\":0,\"\"holder\"\":\"\"000001\"\",\"\"movements\"\":0}\"\n2,\"{\"\"grn\"\":\"\"25CH0000010000014\"\"}\"\n3,\"{\"\"lrn\"\":\"\"A1\"\",\"\"message\"\":\"\"IE028\"\",\"\"mrn\"\":\"\"25CH000001000001J8\"\"}\"\n";

// A journal that is done again at a desk with these records, and what is told of it.
fn assert_replay(
    alloc: Global,
    files: &mut DriveFiles,
    journal: &'static str,
    more: &[&'static str],
    due: Due<'_>,
) -> Result<(), Fail> {
    let mut words = ["transit-desk", "replay", "--country", "CH"].to_vec(alloc)?;
    words.extend_from_slice(&["--file", journal])?;
    words.extend_from_slice(more)?;
    assert_run(alloc, files, &[], &words, b"", due)
}

#[test]
fn a_journal_is_done_again(rt: HostRuntime) -> Result<(), Fail> {
    let alloc = rt.alloc();
    let files = &mut NO_FILES;
    assert_replay(
        alloc,
        files,
        "journal.csv",
        &NEW_RECORDS,
        Due::replies(REPLIES),
    )?;
    let rows = b"holder,lrn,outcome,mrn\n000001,A1,IE028,25CH000001000001J8\n";
    assert_rows(alloc, files, 1_740_819_700, ["batch", "rows.csv"], 0, rows)?;
    assert_replay(
        alloc,
        files,
        "journal.csv",
        &["--part"],
        Due::replies(REPLIES),
    )
}

#[test]
fn a_row_of_a_journal_that_is_told_something_else_is_told(rt: HostRuntime) -> Result<(), Fail> {
    let differs = Due {
        status: 1,
        out: b"number,reply\n2,\"{\"\"error\"\":\"\"no-holder\"\"}\"\n",
        errors: b"transit-desk: differs 2\n",
    };
    let files = &mut NO_FILES;
    assert_replay(rt.alloc(), files, "part.csv", &["--part"], differs)
}

#[test]
fn what_is_no_journal_is_not_done(rt: HostRuntime) -> Result<(), Fail> {
    let told = [
        ("part.csv", "transit-desk: journal 2\n"),
        ("rows.csv", "transit-desk: bad journal row 1\n"),
        ("none.csv", "transit-desk: file\n"),
    ];
    for (path, errors) in told {
        let due = Due {
            status: 1,
            out: b"",
            errors: errors.as_bytes(),
        };
        assert_replay(rt.alloc(), &mut NO_FILES, path, &NEW_RECORDS, due)?;
    }
    Ok(())
}
