//! Lines of declarations.
ghost use Rattle.std.specs.Prelude.{◌≡◌, ◌↔◌, List, IsTrue, IfOk, SomeIff, map};
ghost use Rattle.std.specs.List.{list_any};
ghost use Rattle.std.specs.Str.{bytes_eq};
ghost use Rattle.td_commands.specs.Lines.{IsLines, IsLineAmount, are_lines, is_line_amount, line_of, lines_of};

use std::alloc::{AllocError, Global};
use std::marker::Model;
use td_base::{AccessCode, Cents, Grn};
use td_movement::{Line, MOST_LINE_CENTS, MOST_LINES, MovementLines};

/// The lines of a declaration, each with the access code of its guarantee: 1 to 99 of them, each of 1 to
/// 10^12 cents, and no two on one guarantee.
#[derive(Debug, Drop)]
pub struct Lines {
    items: Vec<(Line, AccessCode)>,
}

impl Model for Lines {
    ghost use Rattle.std.specs.Prelude.{List, ℕ};
    ghost use Rattle.td_movement.specs.declared.line.Line.{Line};
    ghost use Rattle.td_commands.specs.Lines.{IsLines};

    ghost Value = { List (Line × List ℕ) };

    ghost view = { λ l. l.items.items };

    ghost invariant = { λ l. IsLines l.items.items };
}

impl Lines {
    /// These lines, in order. `None` for no line and more than 99, for an amount outside 1 to 10^12 cents,
    /// and where two lines name one guarantee.
    pub fn new(items: Vec<(Line, AccessCode)>) -> Option<Self>
        ensures value { result ≡ lines_of items.items }
        ensures form { SomeIff result (IsLines items.items) items.items }
    {
        if !are_lines(&items) {
            return None;
        }
        Some(Lines { items })
    }

    /// The lines and their codes, in order.
    pub fn as_slice(&self) -> &[(Line, AccessCode)]
        ensures value { result.now ≡ self.now }
        ensures form { IsLines self.now }
    {
        &self.items[..]
    }

    /// The lines without their codes, as a movement keeps them. `AllocError`: want of memory.
    pub fn without_codes(&self, alloc: Global) -> Result<MovementLines, AllocError>
        ensures { IfOk result (λ lines. lines ≡ map line_of self.now) }
    {
        Ok(MovementLines::new(bare_lines(alloc, &self.items)?))
    }
}

// Lines without their codes.
fn bare_lines(alloc: Global, items: &[(Line, AccessCode)]) -> Result<Vec<Line>, AllocError>
    ensures { IfOk result (λ lines. lines.items ≡ map line_of items.now) }
{
    let lines = items.iter().map(|item| item.0).collect(alloc)?;
    Ok(lines)
}

// Whether these are the lines of a declaration.
fn are_lines(items: &[(Line, AccessCode)]) -> bool
    ensures value { result ≡ are_lines items.now }
    ensures form { IsTrue result ↔ IsLines items.now }
{
    if items.is_empty() || items.len() > MOST_LINES {
        return false;
    }
    for i in 0..items.len() {
        let line = items[i].0;
        if !is_line_amount(line.cents) || is_named(&items[..i], &line.grn) {
            return false;
        }
    }
    true
}

// Whether an amount may stand in a line.
fn is_line_amount(cents: Cents) -> bool
    ensures value { result ≡ is_line_amount cents }
    ensures form { IsTrue result ↔ IsLineAmount cents }
{
    let cents = cents.get();
    cents >= 1 && cents <= MOST_LINE_CENTS
}

// Whether one of the lines names the guarantee.
fn is_named(items: &[(Line, AccessCode)], grn: &Grn) -> bool
    ensures { result ≡ list_any (λ l. bytes_eq l.0.grn grn.now) items.now }
{
    items.iter().any(|item| item.0.grn == *grn)
}
