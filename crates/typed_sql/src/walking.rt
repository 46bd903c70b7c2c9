//! A walk along the rows that a SELECT shows, outside a transaction. It changes nothing.
ghost use Rattle.std.specs.Prelude.{◌≡◌, false, OnOk};
ghost use Rattle.sqlite.specs.Given.{IsPlain};
ghost use Rattle.sqlite.specs.Held.{state};
ghost use Rattle.sqlite.specs.Listing.{understood};
ghost use Rattle.sqlite.specs.State.{HasCleanDisk, IsUnchanged, Survives};
ghost use Rattle.typed_sql.specs.Walked.{HasWalked, IsLeftAlone};

use sqlite::{Connection, Error, ErrorCode, Row};
use sqlite_trees::store::Alter;

/// Who is shown rows, one after the other.
pub trait Walker {
    ghost use Rattle.std.specs.Prelude.{List, [], ◌∷◌, ◌++◌};
    ghost use Rattle.sqlite_value.specs.Order.{Row};

    /// What it knows of the rows that it was shown.
    ghost Knows: { List Row → Self → Type 0 };

    /// It is shown the next row.
    fn see(&mut self, row: &Row)
        ensures { (rows : List Row) → Knows rows self.old → Knows (rows ++ row.now ∷ []) self.new };
}

/// Shows a walker each row that the text shows, in their order. The text is a SELECT without parameters, which doesn't write.
/// An error is the database's own, or want of memory; `OperationInterrupted`: there are more rows than a number of 64 bits
/// counts.
pub fn walk<S: Alter, W: Walker>(
    conn: &mut Connection<S>,
    text: &str,
    walker: &mut W,
) -> Result<(), Error>
    requires outside { conn.old.in_transaction ≡ false }
    requires plain { HasCleanDisk (state S.Store conn.old) → IsPlain (understood (state S.Store conn.old).now.schema text.now) }
    ensures ended { conn.new.in_transaction ≡ false }
    ensures seen { HasCleanDisk (state S.Store conn.new)
        → OnOk result (HasWalked W.Walker.Knows text.now (state S.Store conn.old) walker.old walker.new) }
    ensures still { HasCleanDisk (state S.Store conn.new)
        → OnOk result (IsUnchanged (state S.Store conn.old) (state S.Store conn.new)) }
    ensures left { HasCleanDisk (state S.Store conn.new) → IsLeftAlone (state S.Store conn.old) (state S.Store conn.new) }
    ensures survives { Survives (state S.Store conn.old) (state S.Store conn.new) (λ _. ⊥) }
{
    let _settled = conn.is_autocommit();
    let mut rows = conn.query(text, &[])?;
    'rows: for _ in 0..u64::MAX {
        let Some(row) = rows.next()? else {
            return Ok(());
        };
        walker.see(row);
    }
    Err(Error::SqliteFailure(ErrorCode::OperationInterrupted))
}
