//! The codes of a new guarantee, and the lines of a new movement. An error is the database's own, and commits nothing.
ghost use Rattle.std.specs.Prelude.{◌≡◌, ◌++◌, map, OnOk, is_ok};
ghost use Rattle.sqlite.specs.Held.{state};
ghost use Rattle.sqlite.specs.State.{HasCleanDisk};
ghost use Rattle.td_table_model.specs.Tables.{code_row, line_row, numbered};
ghost use Rattle.typed_sql.specs.Reading.{StaysInside};
ghost use Rattle.td_store_rows.specs.StoreTables.{TurnsTables};

use sqlite::{Error, ErrorCode, Transaction};
use sqlite_trees::store::Alter;
use td_base::{AccessCode, Country, HolderNo};
use td_movement::Line;
use td_store_rows::{StoredCode, StoredLine, insert_code, insert_line};

/// Inserts the rows of the codes of a holder's guarantee with a serial.
pub fn insert_codes<S: Alter>(
    tx: &mut Transaction<'_, S>,
    holder: HolderNo,
    serial: u32,
    codes: &[AccessCode],
) -> Result<(), Error>
    ensures same_reference { tx.new.conn.ghost_name ≡ tx.old.conn.ghost_name }
    ensures inserted { HasCleanDisk (state S.Store tx.new.conn.now) → OnOk result (TurnsTables
        (λ t. record t { codes = map (code_row holder serial) codes.now ++ t.codes })
        (state S.Store tx.old.conn.now) (state S.Store tx.new.conn.now)) }
    ensures within { StaysInside (is_ok result) (state S.Store tx.old.conn.now) (state S.Store tx.new.conn.now) }
{
    'codes: for code in codes {
        let code = *code;
        insert_code(
            tx,
            &StoredCode {
                holder,
                serial,
                code,
            },
        )?;
    }
    Ok(())
}

/// Inserts the rows of the lines of a holder's movement with a serial, numbered from 1, at an office of that country.
/// `TooBig`: there are more than a number of 32 bits counts.
pub fn insert_lines<S: Alter>(
    tx: &mut Transaction<'_, S>,
    country: Country,
    holder: HolderNo,
    serial: u32,
    lines: &[Line],
) -> Result<(), Error>
    ensures same_reference { tx.new.conn.ghost_name ≡ tx.old.conn.ghost_name }
    ensures inserted { HasCleanDisk (state S.Store tx.new.conn.now) → OnOk result (TurnsTables
        (λ t. record t { lines = map (line_row country holder serial) (numbered 0 lines.now) ++ t.lines })
        (state S.Store tx.old.conn.now) (state S.Store tx.new.conn.now)) }
    ensures within { StaysInside (is_ok result) (state S.Store tx.old.conn.now) (state S.Store tx.new.conn.now) }
{
    'lines: for (at, line) in lines.iter().enumerate() {
        let Ok(no) = u32::try_from(at + 1) else {
            return Err(Error::SqliteFailure(ErrorCode::TooBig));
        };
        insert_line(
            tx,
            &StoredLine {
                holder,
                serial,
                no,
                guarantee: line.grn.serial(country).unwrap_or(0),
                cents: line.cents,
            },
        )?;
    }
    Ok(())
}
