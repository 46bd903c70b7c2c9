//! Which fault an error of the database is told as.
ghost use Rattle.std.specs.Prelude.{◌≡◌, ◌≢◌, false, Err, IfErr, IfOk, IsErr, IsTrue, Ok};
ghost use Rattle.sqlite.specs.Held.{state};
ghost use Rattle.sqlite.specs.State.{HasCleanDisk};
ghost use Rattle.typed_sql.specs.Outside.{CrashLeavesShown, Looks};

use sqlite::{Connection, Error, ErrorCode};
use sqlite_trees::store::Alter;
use td_desk::Fault;
use typed_sql::{ask, see_settled};

/// The fault that an error of a call of the database is told as: want of memory where the error says so and the connection
/// still answers; else the store's. Nothing is changed, and a crash leaves what it could before.
pub(crate) fn fault_of<S: Alter>(conn: &mut Connection<S>, error: &Error) -> Fault
    requires { conn.old.in_transaction ≡ false }
    ensures ended { conn.new.in_transaction ≡ false }
    ensures looks { Looks false (state S.Store conn.old) (state S.Store conn.new) }
    ensures told { error.now ≢ Error.SqliteFailure ErrorCode.OutOfMemory → result ≡ Fault.Store }
    ensures memory { HasCleanDisk (state S.Store conn.new) → result ≡ Fault.NoMemory → IsTrue (state S.Store conn.new).is_open }
{
    if matches!(error, Error::SqliteFailure(ErrorCode::OutOfMemory)) && ask(conn).is_ok() {
        return Fault::NoMemory;
    }
    Fault::Store
}

/// What a call of the database answered, where an error is told as its fault (`fault_of`). Nothing is changed, and a crash leaves what
/// the connection shows.
pub(crate) fn told<S: Alter, T>(
    conn: &mut Connection<S>,
    answer: Result<T, Error>,
) -> Result<T, Fault>
    requires { conn.old.in_transaction ≡ false }
    ensures ended { conn.new.in_transaction ≡ false }
    ensures ok { IfOk answer (λ x. (result ≡ Ok x) × (conn.new ≡ conn.old)) }
    ensures err { IsErr answer → IsErr result }
    ensures well { IfOk result (λ x. (answer ≡ Ok x) × (conn.new ≡ conn.old)) }
    ensures ill { IfErr result (λ _. IsErr answer) }
    ensures looks { Looks false (state S.Store conn.old) (state S.Store conn.new) }
    ensures memory { HasCleanDisk (state S.Store conn.new) → result ≡ Err Fault.NoMemory → IsTrue (state S.Store conn.new).is_open }
    ensures settled { CrashLeavesShown (state S.Store conn.new) }
{
    let told = match answer {
        Ok(found) => Ok(found),
        Err(error) => Err(fault_of(conn, &error)),
    };
    see_settled(conn);
    told
}
