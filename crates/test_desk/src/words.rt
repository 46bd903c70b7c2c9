//! What the words of a desk that serves connections ask for, and a file without a name. (What other words ask for stands
//! in the transcripts, with wrong words, help and the version.)
use crate::examples::country;
use std::process::Abort;
use td_words::{Job, Listening, Office, Records, Task, read_words};

fn owned(rt: &(impl AllocGlobal + Abort), words: &[&str]) -> Vec<String> {
    let mut owned = Vec::new(rt.alloc());
    for word in words {
        let word = word.to_string(rt.alloc()).expect(rt, "memory");
        owned.push(word).expect(rt, "memory");
    }
    owned
}

// Whether the words ask for that job.
fn is_asked(rt: &(impl AllocGlobal + Abort), words: &[&str], wanted: &Job) -> bool {
    match read_words(rt.alloc(), &owned(rt, words)) {
        Ok(job) => job == *wanted,
        Err(_) => false,
    }
}

/// The words ask for this task in Switzerland, at no moment.
fn assert_job(rt: &(impl AllocGlobal + Abort), words: &[&str], task: Task) {
    let country = country(rt);
    let wanted = Job::AtDesk(Office { country, at: None }, task);
    assert!(rt; is_asked(rt, words, &wanted));
}

/// Connections to a desk that keeps no journal.
fn served(listening: Listening, records: Records) -> Task {
    Task::Serve {
        listening,
        records,
        journal: None,
        first: false,
    }
}

/// A file's name as the words have it.
fn path(rt: &(impl AllocGlobal + Abort), name: &str) -> String {
    name.to_string(rt.alloc()).expect(rt, "memory")
}

/// Words that serve connections, and the port, their number and the idle limit.
const LISTENINGS: [(&[&str], u16, u32, u16); 5] = [
    (
        &[
            "transit-desk",
            "serve",
            "--country",
            "CH",
            "--port",
            "1",
            "--connections",
            "1",
        ],
        1,
        1,
        2,
    ),
    (
        &[
            "transit-desk",
            "serve",
            "--country",
            "CH",
            "--port",
            "65535",
            "--connections",
            "1000000",
        ],
        65_535,
        1_000_000,
        2,
    ),
    (
        &[
            "transit-desk",
            "serve",
            "--country",
            "CH",
            "--port",
            "80",
            "--connections",
            "1",
            "--idle",
            "1",
        ],
        80,
        1,
        1,
    ),
    (
        &[
            "transit-desk",
            "serve",
            "--country",
            "CH",
            "--port",
            "80",
            "--connections",
            "1",
            "--idle",
            "0002",
        ],
        80,
        1,
        2,
    ),
    (
        &[
            "transit-desk",
            "serve",
            "--country",
            "CH",
            "--port",
            "80",
            "--connections",
            "1",
            "--idle",
            "3600",
        ],
        80,
        1,
        3600,
    ),
];

#[test]
fn connections_are_asked_for(rt: HostRuntime) {
    for (words, port, connections, idle) in &LISTENINGS {
        let listening = Listening {
            port: *port,
            connections: *connections,
            idle: *idle,
        };
        assert_job(&rt, words, served(listening, Records::Memory));
    }
}

/// Words that serve one connection over a file; without the last one the file is kept.
const SERVED_FILE: [&str; 11] = [
    "transit-desk",
    "serve",
    "--country",
    "CH",
    "--port",
    "80",
    "--connections",
    "1",
    "--db",
    "desk.db",
    "--new",
];

/// Words that serve one connection after the rows of a journal, and keep one.
const STANDBY: [&str; 11] = [
    "transit-desk",
    "serve",
    "--country",
    "CH",
    "--port",
    "80",
    "--connections",
    "1",
    "--first",
    "--journal",
    "books.csv",
];

#[test]
fn files_of_connections_are_asked_for(rt: HostRuntime) {
    let listening = Listening {
        port: 80,
        connections: 1,
        idle: 2,
    };
    let made = served(listening, Records::NewFile(path(&rt, "desk.db")));
    assert_job(&rt, &SERVED_FILE, made);
    let kept = served(listening, Records::File(path(&rt, "desk.db")));
    assert_job(&rt, &SERVED_FILE[..10], kept);
    let standby = Task::Serve {
        listening,
        records: Records::Memory,
        journal: Some(path(&rt, "books.csv")),
        first: true,
    };
    assert_job(&rt, &STANDBY, standby);
    let unnamed = Task::Pipe {
        records: Records::File(path(&rt, "")),
        journal: None,
    };
    let words = ["transit-desk", "pipe", "--country", "CH", "--db", ""];
    assert_job(&rt, &words, unnamed);
}
