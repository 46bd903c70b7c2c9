//! The serial behind those of a holder's rows.
ghost use Rattle.std.specs.Prelude.{◌≡◌, ◌+◌, IfOk, unwrap_or};

use sqlite::{Error, ErrorCode};

/// The serial behind the last of so many. `DatabaseCorrupt`: there is no count, or it is 2^32 - 1, behind which there is no serial.
pub(crate) fn end_of(count: Option<u32>) -> Result<u32, Error>
    ensures { IfOk result (λ end. end ≡ unwrap_or count 0 + 1) }
{
    count
        .and_then(|last| last.checked_add(1))
        .ok_or(Error::SqliteFailure(ErrorCode::DatabaseCorrupt))
}
