//! A desk is closed and opened again, and refused over what is none. (What it is refused for after changes by hand stands in the
//! transcripts.)
use super::rows::tables;
use super::{database, made};
use crate::examples::{country, holder};
use sqlite::{Alter, Connection, MemStore};
use std::process::Abort;
use td_base::HolderNo;
use td_desk::{Command, Stamped, Store, do_one};
use td_store::{OpenFault, Refused, SqlDesk};

/// Adds what the desk answers to a view.
fn push_view<S: Alter>(
    rt: &(impl AllocGlobal + Abort),
    words: &mut String,
    desk: &mut SqlDesk<S>,
    command: Command,
) {
    let stamped = Stamped {
        at: 1_790_000_000,
        command,
    };
    let outcome = do_one(rt.alloc(), desk, &stamped);
    writeln!(words, "{outcome:?}").expect(rt, "memory");
}

fn push_holder<S: Alter>(
    rt: &(impl AllocGlobal + Abort),
    words: &mut String,
    desk: &mut SqlDesk<S>,
    holder: HolderNo,
) {
    push_view(rt, words, desk, Command::SeeHolder { holder });
    push_view(rt, words, desk, Command::SeeGuarantees { holder });
    push_view(rt, words, desk, Command::SeeMovements { holder });
}

/// All that the desk shows of its holders.
pub fn seen<S: Alter>(rt: &(impl AllocGlobal + Abort), desk: &mut SqlDesk<S>) -> String {
    let mut words = String::new(rt.alloc());
    for number in 1..4 {
        push_holder(rt, &mut words, desk, holder(rt, number));
    }
    words
}

/// A desk of a Swiss office over that database.
pub fn opened(rt: &(impl AllocGlobal + Abort), conn: Connection<MemStore>) -> SqlDesk<MemStore> {
    assert!(rt; conn.is_autocommit());
    let opened = SqlDesk::open(rt.alloc(), conn, country(rt));
    opened.ok().expect(rt, "a desk")
}

/// The refusal of one.
pub fn refused(rt: &(impl AllocGlobal + Abort), conn: Connection<MemStore>) -> Refused<MemStore> {
    assert!(rt; conn.is_autocommit());
    let opened = SqlDesk::open(rt.alloc(), conn, country(rt));
    opened.err().expect(rt, "a refusal")
}

#[test]
fn a_desk_is_opened_again(rt: HostRuntime) {
    let mut desk = opened(&rt, tables(&rt));
    let before = seen(&rt, &mut desk);
    assert!(rt; before.as_str() != seen(&rt, &mut made(&rt)).as_str());
    let mut again = opened(&rt, desk.close());
    assert!(rt; again.office() == country(&rt));
    let after = seen(&rt, &mut again);
    assert_eq!(rt; after.as_str(), before.as_str());
}

#[test]
fn no_desk_is_opened_over_no_table(rt: HostRuntime) {
    let refused = refused(&rt, database(&rt));
    assert!(rt; refused.fault == OpenFault::UnknownVersion);
    let conn = refused.connection;
    assert!(rt; conn.is_autocommit());
    let desk = SqlDesk::create(conn, country(&rt))
        .ok()
        .expect(&rt, "a desk");
    assert!(rt; desk.office() == country(&rt));
}
