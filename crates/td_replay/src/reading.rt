//! A journal's text, read as the rows of changes.
ghost use Rattle.std.specs.Prelude.{IfErr, IfOk, map};
ghost use Rattle.td_journal_lines.specs.Rows.{numbered};
ghost use Rattle.td_replay.specs.Reading.{HasChanges, TellsJournal};

use std::alloc::Global;
use td_journal_lines::{ChangeRow, row_of};
use td_journal_rows::{JournalFault, first_line};

/// What a journal's text has.
#[derive(Debug, Drop)]
pub struct Changes {
    /// The rows of its whole lines, in order.
    pub rows: Vec<ChangeRow>,
    /// How many bytes stand behind them: those of a row that was torn off, or none.
    pub torn: usize,
}

/// The whole lines of a journal's text, each exactly the row of a change, and the bytes of a torn one behind them. Where a line
/// is the row of no change, the first such line is told, and no row is given. `BadRow`: that line; `NoMemory`: want of memory.
pub fn read_changes(alloc: Global, bytes: &[u8]) -> Result<Changes, JournalFault>
    ensures rows { IfOk result (λ read. HasChanges bytes.now (map numbered read.rows.items) read.torn) }
    ensures bad { IfErr result (TellsJournal bytes.now) }
{
    let mut rows = Vec::new(alloc);
    let mut rest = bytes;
    while let Some((line, behind)) = first_line(rest) {
        let Some(row) = row_of(alloc, line)? else {
            return Err(JournalFault::BadRow {
                row: rows.len() as u64 + 1,
            });
        };
        if rows.push(row).is_err() {
            return Err(JournalFault::NoMemory);
        }
        rest = behind;
    }
    Ok(Changes {
        rows,
        torn: rest.len(),
    })
}
