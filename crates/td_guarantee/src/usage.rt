//! The amount in use on a guarantee.
ghost use Rattle.std.specs.Prelude.{◌≡◌, ◌+◌, SomeIff};
ghost use Rattle.td_base.specs.Money.{IsCents};
ghost use Rattle.td_guarantee.specs.Usage.{lines_on, used_on};

use td_base::{Cents, Grn};
use td_movement::{Line, Movement, counts};

/// The amount in use on a guarantee: the sum of the amounts of all lines on it of those of these movements
/// that count, from their release to their write-off, added up afresh. `None` above 10^15 cents.
pub fn in_use(movements: &[Movement], grn: &Grn) -> Option<Cents>
    ensures { SomeIff result (IsCents (used_on grn.now movements.now)) (used_on grn.now movements.now) }
{
    let mut used = Cents::new(0)?;
    for movement in movements {
        if counts(movement.state) {
            used = with_lines(used, movement.lines.as_slice(), grn)?;
        }
    }
    Some(used)
}

// An amount and what lines take up on a guarantee. `None` above 10^15 cents.
fn with_lines(used: Cents, lines: &[Line], grn: &Grn) -> Option<Cents>
    ensures { SomeIff result (IsCents (used + lines_on grn.now lines.now)) (used + lines_on grn.now lines.now) }
{
    let mut sum = used;
    for line in lines {
        if line.grn == *grn {
            sum = sum.plus(line.cents)?;
        }
    }
    Some(sum)
}
