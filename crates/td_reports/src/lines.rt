//! Lines of reports.
ghost use Rattle.std.specs.Prelude.{◌≡◌, ◌-◌, [], ◌∷◌, ◌++◌, IfOk, IsSome, OnErr, OnOk, option_map, string_bytes};
ghost use Rattle.td_report_pieces.specs.Layout.{report_line};
ghost use Rattle.td_reports.specs.Texts.{amount_text, deadlines_line, end_text, guarantee_line, overdue_fields};

use ascii_text::last_digit;
use std::alloc::{AllocError, Global};
use td_base::{Cents, Day, HolderNo};
use td_guarantee::{Guarantee, guaranteed};
use td_movement::{Overdue, is_overdue};
use td_store_rows::MovementDeadlines;

// The bytes for which memory is taken at once for a line: no line is longer.
const LINE_CAPACITY: usize = 120;

// How many days a day lies behind another one, or 0.
fn days_past(due: Day, day: Day) -> u64
    ensures { result ≡ day - due }
{
    u64::try_from(day.number() - due.number()).unwrap_or(0)
}

// The line of a movement that is overdue for this on the day of the report.
fn line_of_overdue(
    alloc: Global,
    day: Day,
    movement: &MovementDeadlines,
    what: Overdue,
) -> Result<String, AllocError>
    ensures { IfOk result (λ line. string_bytes line
        ≡ report_line (overdue_fields day movement.now.holder movement.now.mrn movement.now.state what)) }
{
    let (kind, due) = match what {
        Overdue::Arrival(due) => ("arrival", due),
        Overdue::Control(due) => ("control", due),
    };
    let mut line = String::with_capacity(alloc, LINE_CAPACITY)?;
    writeln!(
        line,
        "{} {} {kind} {:<8} {due} {:>5}",
        movement.mrn,
        movement.holder,
        movement.state.name(),
        days_past(due, day)
    )?;
    Ok(line)
}

/// The line of a movement with these deadlines in the report of that day, if it is overdue then: only for a line memory is taken.
/// `AllocError`: want of memory.
pub(crate) fn overdue_line(
    alloc: Global,
    day: Day,
    movement: &MovementDeadlines,
) -> Result<Option<String>, AllocError>
    ensures line { IfOk result (λ line. option_map string_bytes line ≡ deadlines_line day movement.now) }
    ensures none { OnErr result (IsSome (deadlines_line day movement.now)) }
{
    match is_overdue(movement.state, movement.limit, movement.arrival, day) {
        Some(what) => Ok(Some(line_of_overdue(alloc, day, movement, what)?)),
        None => Ok(None),
    }
}

// What is left of a reference amount beside what is in use.
fn free(reference: Cents, used: Cents) -> Cents
    ensures { result ≡ reference - used }
{
    Cents::new(reference.get().saturating_sub(used.get())).unwrap()
}

// Puts an amount behind a line, as a field more.
fn add_amount(line: &mut String, amount: Cents) -> Result<(), AllocError>
    ensures { OnOk result (string_bytes line.new ≡ string_bytes line.old ++ 32 ∷ amount_text amount) }
{
    let cents = amount.get();
    let whole = cents / 100;
    let tens = char::from(last_digit(cents / 10));
    let ones = char::from(last_digit(cents));
    write!(line, " {whole:>14}.{tens}{ones}")
}

// Puts the end day of a guarantee behind a line, or that it has none, and ends the line.
fn add_end(line: &mut String, ends: Option<Day>) -> Result<(), AllocError>
    ensures { OnOk result (string_bytes line.new ≡ string_bytes line.old ++ 32 ∷ (end_text ends ++ 10 ∷ [])) }
{
    match ends {
        Some(day) => writeln!(line, " {day}"),
        None => line.push_str(" -\n"),
    }
}

/// The line of a holder's guarantee in the report of guarantees, with the amount in use on it. `AllocError`: want of memory.
pub(crate) fn guarantee_line(
    alloc: Global,
    holder: HolderNo,
    guarantee: &Guarantee,
    used: Cents,
) -> Result<String, AllocError>
    ensures { IfOk result (λ line. string_bytes line ≡ guarantee_line (holder, (guarantee.now, used))) }
{
    let reference = guarantee.reference;
    let mut line = String::with_capacity(alloc, LINE_CAPACITY)?;
    write!(
        line,
        "{} {holder} {:>3}",
        guarantee.grn,
        guarantee.cover.get()
    )?;
    add_amount(&mut line, reference)?;
    add_amount(&mut line, guaranteed(reference, guarantee.cover))?;
    add_amount(&mut line, used)?;
    add_amount(&mut line, free(reference, used))?;
    add_end(&mut line, guarantee.ends)?;
    Ok(line)
}
