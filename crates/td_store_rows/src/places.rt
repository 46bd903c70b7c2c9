//! What the rows of a holder, or behind a place, are asked for by.
ghost use Rattle.std.specs.Prelude.{◌≡◌, [], ◌∷◌};
ghost use Rattle.sqlite.specs.Values.{bound};
ghost use Rattle.typed_sql.specs.Values.{number_value};

use sqlite_value::value::ValueRef;
use td_base::HolderNo;
use td_schema::number_of;

/// A holder's number, whether it is one or not, and a serial.
pub fn place_key(holder: u32, serial: u32) -> [ValueRef<'static>; 2]
    ensures { bound result ≡ number_value holder ∷ number_value serial ∷ [] }
{
    [number_of(holder), number_of(serial)]
}

/// A holder's number alone, whether it is one or not.
pub fn above_key(holder: u32) -> [ValueRef<'static>; 1]
    ensures { bound result ≡ number_value holder ∷ [] }
{
    [number_of(holder)]
}

/// What the rows of a holder with serials from one on and below another are asked for by.
pub fn range_key(holder: HolderNo, first: u32, end: u32) -> [ValueRef<'static>; 3]
    ensures { bound result ≡ number_value holder ∷ number_value first ∷ number_value end ∷ [] }
{
    [number_of(holder.number()), number_of(first), number_of(end)]
}
