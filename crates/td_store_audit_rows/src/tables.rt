//! Which tables can be read row by row: whether each row is of its kinds and its fields are in the ranges that they are read in.
ghost use Rattle.std.specs.Prelude.{◌≡◌, false, IfOk, OnOk};
ghost use Rattle.sqlite.specs.Held.{state};
ghost use Rattle.sqlite.specs.State.{HasCleanDisk, IsUnchanged, Survives};
ghost use Rattle.typed_sql.specs.Walked.{IsLeftAlone};
ghost use Rattle.td_store_audit_rows.specs.Ids.{HaveAllIds, HavePartIds};
ghost use Rattle.td_store_audit_rows.specs.Scans.{TellReadable};
ghost use Rattle.td_store_rows.specs.StoreReads.{InVersion};
ghost use Rattle.td_store_audit_rows.specs.Versions.{IsSchemaOf};

use crate::ids::ids_rise;
use crate::scanning::scan;
use crate::texts::{CODES, HOLDER_IDS, META_IDS, MOVEMENTS, guarantees_at, lines_at};
use sqlite::{Connection, Error};
use sqlite_trees::store::Alter;
use td_store_rows::{StoredCode, StoredGuarantee, StoredLine, StoredMovement};

/// Which of the tables that belong to holders can be read: of which each row is of its kinds and in range.
#[derive(Clone, Copy, Debug, PartialEq, Eq)]
pub struct Readable {
    pub guarantees: bool,
    pub codes: bool,
    pub movements: bool,
    pub lines: bool,
}

// The same of a file of that version, where the rowids of each of them are integers, no two the same. `DatabaseCorrupt`:
// they aren't; any other error is the database's own.
fn scan_tables<S: Alter>(conn: &mut Connection<S>, version: u32) -> Result<Readable, Error>
    requires outside { conn.old.in_transaction ≡ false }
    requires tables { HasCleanDisk (state S.Store conn.old) → IsSchemaOf version (state S.Store conn.old).now.schema }
    ensures ended { conn.new.in_transaction ≡ false }
    ensures ids { HasCleanDisk (state S.Store conn.new) → OnOk result (InVersion version HavePartIds (state S.Store conn.old).now) }
    ensures told { HasCleanDisk (state S.Store conn.new)
        → IfOk result (λ readable. InVersion version (λ l. TellReadable l readable) (state S.Store conn.old).now) }
    ensures still { HasCleanDisk (state S.Store conn.new)
        → OnOk result (IsUnchanged (state S.Store conn.old) (state S.Store conn.new)) }
    ensures left { HasCleanDisk (state S.Store conn.new) → IsLeftAlone (state S.Store conn.old) (state S.Store conn.new) }
    ensures survives { Survives (state S.Store conn.old) (state S.Store conn.new) (λ _. ⊥) }
{
    let guarantees = scan::<S, StoredGuarantee>(conn, guarantees_at(version))?;
    let codes = scan::<S, StoredCode>(conn, CODES)?;
    let movements = scan::<S, StoredMovement>(conn, MOVEMENTS)?;
    let lines = scan::<S, StoredLine>(conn, lines_at(version))?;
    Ok(Readable {
        guarantees,
        codes,
        movements,
        lines,
    })
}

/// Which tables of a store's file of that version, 1 to 3, can be read row by row. It walks along all rows outside a
/// transaction, each once, keeps none, and changes nothing. The amounts in use of a file that keeps them aren't looked at:
/// the schema's own rules make each a number up to the reference amount. `DatabaseCorrupt`: the rowids of a table aren't
/// integers, or two are the same; any other error is the database's own, or want of memory.
pub fn readable_tables<S: Alter>(conn: &mut Connection<S>, version: u32) -> Result<Readable, Error>
    requires outside { conn.old.in_transaction ≡ false }
    requires tables { HasCleanDisk (state S.Store conn.old) → IsSchemaOf version (state S.Store conn.old).now.schema }
    ensures ended { conn.new.in_transaction ≡ false }
    ensures ids { HasCleanDisk (state S.Store conn.new) → OnOk result (InVersion version HaveAllIds (state S.Store conn.old).now) }
    ensures told { HasCleanDisk (state S.Store conn.new)
        → IfOk result (λ readable. InVersion version (λ l. TellReadable l readable) (state S.Store conn.old).now) }
    ensures still { HasCleanDisk (state S.Store conn.new)
        → OnOk result (IsUnchanged (state S.Store conn.old) (state S.Store conn.new)) }
    ensures left { HasCleanDisk (state S.Store conn.new) → IsLeftAlone (state S.Store conn.old) (state S.Store conn.new) }
    ensures survives { Survives (state S.Store conn.old) (state S.Store conn.new) (λ _. ⊥) }
{
    ids_rise(conn, META_IDS)?;
    ids_rise(conn, HOLDER_IDS)?;
    scan_tables(conn, version)
}
