//! What lines on guarantees add up to.
ghost use Rattle.std.specs.Prelude.{◌≡◌, ℕ, ◌+◌, IfOk, length, map};
ghost use Rattle.std.specs.List.{AllByRecursion};
ghost use Rattle.keyed_rows.specs.Rows.{Rises};
ghost use Rattle.td_store_rows.specs.LineTable.{line_row_of};
ghost use Rattle.td_store_rows.specs.MovementTable.{serial_of_stored};
ghost use Rattle.td_store_audit.specs.Totals.{AreKeptUpTo, AreTotals, IsAmount, added_to, kept_on, total_on};

use keyed_rows::find_row;
use std::alloc::{AllocError, Global};
use td_base::Cents;
use td_store_rows::{MovementSerial, StoredLine};

/// What lines on a holder's guarantees add up to, guarantee for guarantee.
#[derive(Drop)]
pub struct Totals {
    // By the guarantees' serials, and at 0, which is none's, nothing: none where it is above 10^15 cents.
    each: Vec<Option<Cents>>,
}

impl Totals {
    /// Nothing on any of so many guarantees. `AllocError`: want of memory.
    pub fn new(alloc: Global, guarantees: u32) -> Result<Self, AllocError>
        ensures none { IfOk result (AreTotals (λ n. 0)) }
        ensures all { IfOk result (AreKeptUpTo guarantees) }
    {
        let places = guarantees as usize + 1;
        let each = vec![in alloc; Cents::new(0); places]?;
        Ok(Totals { each })
    }

    // Adds a line, where its movement has one of these serials, to what is on its guarantee. A line on none is left out.
    fn add_line(&mut self, line: &StoredLine, serials: &[MovementSerial])
        requires { Rises serial_of_stored 0 serials.now }
        ensures added { (n sum : ℕ) → AreKeptUpTo line.now.guarantee self.old → IsAmount sum (kept_on n self.old)
            → IsAmount (sum + added_to n serials.now line.now) (kept_on n self.new) }
        ensures all { length self.new.each.items ≡ length self.old.each.items }
    {
        let place = line.guarantee as usize;
        if place < self.each.len() && find_row(serials, line.serial).is_some() {
            self.each[place] = with_more(self.each[place], line.cents);
        }
    }

    /// Adds lines, those alone of the movements with these serials, each to what is on its guarantee. A line on none is left
    /// out.
    pub fn add(&mut self, lines: &[StoredLine], serials: &[MovementSerial])
        requires { Rises serial_of_stored 0 serials.now }
        ensures added { (sums : ℕ → ℕ) → AllByRecursion (λ l. AreKeptUpTo l.guarantee self.old) lines.now → AreTotals sums self.old
            → AreTotals (λ n. sums n + total_on n serials.now lines.now) self.new }
        ensures all { length self.new.each.items ≡ length self.old.each.items }
    {
        for line in lines {
            self.add_line(line, serials);
        }
    }

    /// What is on the guarantee with a serial, and nothing where there is none. `None`: above 10^15 cents.
    pub fn on(&self, serial: u32) -> Option<Cents>
        ensures { result ≡ kept_on serial self.now }
    {
        let place = serial as usize;
        if place < self.each.len() {
            self.each[place]
        } else {
            Cents::new(0)
        }
    }
}

// An amount and cents together.
fn with_more(amount: Option<Cents>, cents: Cents) -> Option<Cents>
    ensures { (sum : ℕ) → IsAmount sum amount → IsAmount (sum + cents) result }
{
    amount?.plus(cents)
}

/// What the lines on a guarantee add up to, of lines on any: those alone of the movements with these serials. `None`: above
/// 10^15 cents.
pub fn total_on(guarantee: u32, lines: &[StoredLine], serials: &[MovementSerial]) -> Option<Cents>
    requires { Rises serial_of_stored 0 serials.now }
    ensures { IsAmount (total_on guarantee serials.now lines.now) result }
{
    let mut sum = Cents::new(0)?;
    for line in lines {
        if line.guarantee == guarantee && find_row(serials, line.serial).is_some() {
            sum = sum.plus(line.cents)?;
        }
    }
    Some(sum)
}
