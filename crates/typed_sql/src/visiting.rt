//! Rows that a SELECT shows, outside a transaction, as what they say, one after another. None is kept, and nothing is changed.
ghost use Rattle.std.specs.Prelude.{◌≡◌, false, Ok, OnOk};
ghost use Rattle.sqlite.specs.Given.{IsPlain};
ghost use Rattle.sqlite.specs.Held.{state};
ghost use Rattle.sqlite.specs.Listing.{understood};
ghost use Rattle.sqlite.specs.State.{HasCleanDisk, IsUnchanged, Survives};
ghost use Rattle.typed_sql.specs.Visited.{HasSeen, HasVisited, is_whole};
ghost use Rattle.typed_sql.specs.Walked.{IsLeftAlone};

use crate::rows::FromRow;
use sqlite::{Connection, Error, ErrorCode};
use sqlite_trees::store::Alter;
use std::alloc::Global;

/// Who is shown rows, one after another, with something beside it that it may change.
pub trait Visitor<T, O> {
    /// What it does with a row: from what it and that beside it were, to what they are then.
    ghost sees: { Self → O → T → Self → O → Type 0 };

    /// What is known of it and that beside it where it wants no more rows: nothing, if an impl doesn't say.
    ghost stops: { Self → O → Type 0 } = { λ _ _. Unit {0} };

    /// It is shown the next row, and answers whether it is to be shown another.
    fn see(&mut self, row: T, beside: &mut O) -> bool
        ensures seen { sees self.old beside.old row self.new beside.new }
        ensures stopped { result ≡ false → stops self.new beside.new };
}

/// Shows a visitor each row that the text shows, in their order, until it wants no more: `true` where all were shown, `false` where
/// it wanted no more. The text is a SELECT without parameters, which doesn't write. `DatabaseCorrupt`: a column can't be that of such a row, which isn't shown;
/// `OperationInterrupted`: there are more rows than a number of 64 bits counts; any other error is the database's own, or want of
/// memory. What was shown before an error comes first among the rows.
pub fn visit<S: Alter, T: FromRow, O, V: Visitor<T, O>>(
    alloc: Global,
    conn: &mut Connection<S>,
    text: &str,
    visitor: &mut V,
    beside: &mut O,
) -> Result<bool, Error>
    requires outside { conn.old.in_transaction ≡ false }
    requires plain { HasCleanDisk (state S.Store conn.old) → IsPlain (understood (state S.Store conn.old).now.schema text.now) }
    ensures ended { conn.new.in_transaction ≡ false }
    // also where the disk returned other than what was written
    ensures seen { HasSeen V.Visitor.sees (visitor.old, beside.old) (visitor.new, beside.new) }
    ensures visited { HasCleanDisk (state S.Store conn.new) → HasVisited V.Visitor.sees T.typed T.from text.now
        (state S.Store conn.old) (is_whole result) (visitor.old, beside.old) (visitor.new, beside.new) }
    ensures stopped { result ≡ Ok false → V.Visitor.stops visitor.new beside.new }
    ensures still { HasCleanDisk (state S.Store conn.new)
        → OnOk result (IsUnchanged (state S.Store conn.old) (state S.Store conn.new)) }
    ensures left { HasCleanDisk (state S.Store conn.new) → IsLeftAlone (state S.Store conn.old) (state S.Store conn.new) }
    ensures survives { Survives (state S.Store conn.old) (state S.Store conn.new) (λ _. ⊥) }
{
    let _settled = conn.is_autocommit();
    let mut rows = conn.query(text, &[])?;
    'rows: for _ in 0..u64::MAX {
        let Some(row) = rows.next()? else {
            return Ok(true);
        };
        let Some(read) = T::from_row(alloc, row) else {
            return Err(Error::SqliteFailure(ErrorCode::DatabaseCorrupt));
        };
        if !visitor.see(read, beside) {
            return Ok(false);
        }
    }
    Err(Error::SqliteFailure(ErrorCode::OperationInterrupted))
}
