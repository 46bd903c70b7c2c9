//! What the rules of movements and of lines hand on of a holder, so that no later rule reads the rows again.
ghost use Rattle.std.specs.Prelude.{◌+◌, ◌-◌, ◌^◌, ◌≤◌, unwrap_or};
ghost use Rattle.std.proofs.Math.Bridge.{le_prop};
ghost use Rattle.keyed_rows.specs.Rows.{Rises, Rises-prop};
ghost use Rattle.td_store_rows.specs.MovementTable.{serial_of_stored};

use crate::totals::Totals;
use td_store_audit_rows::RawHolder;
use td_store_rows::MovementSerial;

/// A holder, and the serials of the holder's movements that count against their guarantees, in ascending order. The holder's count of
/// movements has a number behind it.
#[derive(Drop)]
pub struct CountingSerials {
    /// The holder's row, as it stands.
    pub raw: RawHolder,
    /// The serials, in ascending order.
    pub serials: Vec<MovementSerial>,
    ghost order: { Rises serial_of_stored 0 serials.items } by { Rises-prop serial_of_stored 0 serials.items },
    ghost behind: { unwrap_or raw.mrn_count 0 + 1 ≤ 2 ^ 32 - 1 } by { le_prop },
}

/// That, and what the lines of these movements add up to on each of the holder's guarantees.
#[derive(Drop)]
pub struct HolderTotals {
    /// The holder, and the movements that count.
    pub movements: CountingSerials,
    /// What their lines add up to.
    pub totals: Totals,
}
