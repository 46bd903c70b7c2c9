//! What a movement's new state does to the amounts in use on the guarantees of its lines. An error is the database's
//! own, and commits nothing.
ghost use Rattle.std.specs.Prelude.{◌≡◌, map, OnOk, is_ok};
ghost use Rattle.sqlite.specs.Held.{state};
ghost use Rattle.sqlite.specs.State.{HasCleanDisk};
ghost use Rattle.typed_sql.specs.Reading.{StaysInside};
ghost use Rattle.td_store_rows.specs.GuaranteeTable.{has_serial};
ghost use Rattle.td_store_rows.specs.KeptTable.{MayChange};
ghost use Rattle.td_store_write.specs.InUse.{FitLines, MayFollow, TurnsFitting, change_at, changes_use, with_lines};

use sqlite::{Error, Transaction};
use sqlite_trees::store::Alter;
use td_base::{Cents, HolderNo};
use td_movement::State;
use td_store_rows::{StoredLine, add_used, take_used};

/// Whether a movement that comes into a state changes the amounts in use: its lines take them up at the release, and
/// give them back at the write-off.
pub fn changes_use(state: State) -> bool
    ensures { result ≡ changes_use state }
{
    matches!(state, State::Released | State::WrittenOff)
}

// Changes the amount in use on the holder's guarantee with a serial by the cents of a line on it, whose movement came
// into a state.
fn change_one<S: Alter>(
    tx: &mut Transaction<'_, S>,
    holder: HolderNo,
    serial: u32,
    status: State,
    cents: Cents,
) -> Result<(), Error>
    ensures same_reference { tx.new.conn.ghost_name ≡ tx.old.conn.ghost_name }
    ensures changed { HasCleanDisk (state S.Store tx.new.conn.now) → OnOk result (TurnsFitting
        (λ t. MayChange (has_serial holder serial) (λ k. MayFollow status cents k.row.used) t.kept)
        (λ t. record t { kept = map (change_at status holder serial cents) t.kept })
        (state S.Store tx.old.conn.now) (state S.Store tx.new.conn.now)) }
    ensures within { StaysInside (is_ok result) (state S.Store tx.old.conn.now) (state S.Store tx.new.conn.now) }
{
    match status {
        State::Released => add_used(tx, holder, serial, cents),
        State::WrittenOff => take_used(tx, holder, serial, cents),
        _ => Ok(()),
    }
}

/// Changes the amounts in use on the holder's guarantees by the lines of a movement of the holder's that came into a
/// state.
pub fn change_by_lines<S: Alter>(
    tx: &mut Transaction<'_, S>,
    holder: HolderNo,
    status: State,
    lines: &[StoredLine],
) -> Result<(), Error>
    ensures same_reference { tx.new.conn.ghost_name ≡ tx.old.conn.ghost_name }
    ensures changed { HasCleanDisk (state S.Store tx.new.conn.now) → OnOk result (TurnsFitting
        (FitLines holder status lines.now) (λ t. record t { kept = map (with_lines holder status lines.now) t.kept })
        (state S.Store tx.old.conn.now) (state S.Store tx.new.conn.now)) }
    ensures within { StaysInside (is_ok result) (state S.Store tx.old.conn.now) (state S.Store tx.new.conn.now) }
{
    'lines: for line in lines {
        let line = *line;
        change_one(tx, holder, line.guarantee, status, line.cents)?;
    }
    Ok(())
}
