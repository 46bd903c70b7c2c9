//! Rows that a statement shows, as typed ones.
ghost use Rattle.std.specs.Prelude.{◌≡◌, ◌<◌, IfOk, IfErr, IfSome, length, map};
ghost use Rattle.std.specs.Option.{option_to_list};
ghost use Rattle.sqlite.specs.declared.error.Error.TheVariants.{SqliteFailure};
ghost use Rattle.sqlite.specs.declared.error.ErrorCode.TheVariants.{DatabaseCorrupt};

use sqlite::{Error, ErrorCode, Row};
use std::alloc::Global;

/// What is read from the columns of a row.
pub trait FromRow: Drop {
    ghost use Rattle.sqlite_value.specs.Order.{Row};

    /// What a row says.
    ghost Typed: { Type 0 };

    /// What this value says.
    ghost typed: { Self → Typed };

    /// What columns say, whatever they are.
    ghost from: { Row → Typed };

    /// What the columns of a row say: `None` where a column can't be that of such a row.
    fn from_row(alloc: Global, row: &Row) -> Option<Self>
        ensures { IfSome result (λ read. typed read ≡ from row.now) };
}

/// What rows say, each in its place. `DatabaseCorrupt`: a column can't be that of such a row. `OutOfMemory`: want of memory.
pub fn read_rows<T: FromRow>(alloc: Global, rows: &[Row]) -> Result<Vec<T>, Error>
    ensures { IfOk result (λ found. map T.typed found.items ≡ map T.from rows.now) }
{
    let mut found = Vec::new(alloc);
    for row in rows {
        let Some(read) = T::from_row(alloc, row) else {
            return Err(Error::SqliteFailure(ErrorCode::DatabaseCorrupt));
        };
        found.push(read)?;
    }
    Ok(found)
}

/// One at most. `DatabaseCorrupt`: there are several.
pub fn only<T: Drop>(mut found: Vec<T>) -> Result<Option<T>, Error>
    ensures one { IfOk result (λ one. option_to_list one ≡ found.items) }
    ensures several { IfErr result (λ e. (e ≡ SqliteFailure DatabaseCorrupt) × (1 < length found.items)) }
{
    if found.len() > 1 {
        return Err(Error::SqliteFailure(ErrorCode::DatabaseCorrupt));
    }
    Ok(found.pop())
}
