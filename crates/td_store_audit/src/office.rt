//! S1: the office's own row is there, and its country is two capital letters.
ghost use Rattle.std.specs.Prelude.{◌≡◌, [], ◌∷◌, IsTrue, IfOk, OnOk, is_ok};
ghost use Rattle.sqlite.specs.Held.{state};
ghost use Rattle.sqlite.specs.State.{HasCleanDisk};
ghost use Rattle.td_store_rows.specs.StoreReads.{ReadsStore};
ghost use Rattle.td_store_audit.specs.Broken.{IsOpenStore, ShowsCountry, TellsCountryIn};

use crate::texts::OFFICE;
use sqlite::{Error, ErrorCode, Row, Transaction};
use sqlite_trees::store::Alter;
use td_base::Country;
use typed_sql::{integer_at, select, text_at};

/// The country of the office as the file has it, or `None` where there is no such row, or its text isn't two capital letters.
/// `DatabaseCorrupt`: there are several rows, or the version is no integer or the country no text; any other error is the
/// database's own. It changes nothing.
pub fn office_country<S: Alter>(tx: &mut Transaction<'_, S>) -> Result<Option<Country>, Error>
    ensures same_reference { tx.new.conn.ghost_name ≡ tx.old.conn.ghost_name }
    ensures told { HasCleanDisk (state S.Store tx.new.conn.now)
        → IfOk result (TellsCountryIn (state S.Store tx.old.conn.now)) }
    ensures reads { ReadsStore (is_ok result) (state S.Store tx.old.conn.now) (state S.Store tx.new.conn.now) }
    ensures was_open { HasCleanDisk (state S.Store tx.new.conn.now)
        → OnOk result (IsOpenStore (state S.Store tx.old.conn.now)) }
{
    let rows = select(tx, OFFICE, &[])?;
    only_country(&rows)
}

// The country that the one row of a version and a country shows, if there is one.
fn only_country(rows: &[Row]) -> Result<Option<Country>, Error>
    ensures { IfOk result (λ country. ShowsCountry rows.now country) }
{
    match rows {
        [] => Ok(None),
        [row] => shown_country(row),
        _ => Err(Error::SqliteFailure(ErrorCode::DatabaseCorrupt)),
    }
}

// The country in a row of a version and a country, `None` where the text isn't two capital letters. `DatabaseCorrupt`: the version
// is no integer, or the country no text.
fn shown_country(row: &Row) -> Result<Option<Country>, Error>
    ensures { IfOk result (λ country. ShowsCountry (row.now ∷ []) country) }
{
    let version = integer_at(row, 0);
    let country = text_at(row, 1);
    match (version, country) {
        (Some(_), Some(text)) => Ok(Country::read(text)),
        _ => Err(Error::SqliteFailure(ErrorCode::DatabaseCorrupt)),
    }
}
