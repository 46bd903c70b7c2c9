//! Lines of movements.
ghost use Rattle.std.specs.Prelude.{◌≡◌, List, IfOk};

use std::alloc::{AllocError, Global};
use std::marker::Model;
use td_base::{Cents, Grn};

/// The most lines of a movement.
pub const MOST_LINES: usize = 99;

/// The greatest amount of a line, in cents.
pub const MOST_LINE_CENTS: u64 = 1_000_000_000_000;

/// A line: a guarantee, and the amount in cents for which it is used.
#[derive(Clone, Copy, Debug, PartialEq, Eq)]
pub struct Line {
    pub grn: Grn,
    pub cents: Cents,
}

/// The lines that a movement was lodged with. Contracts see them as the list of them.
#[derive(Debug, Drop)]
pub struct MovementLines {
    items: Items,
}

// Most movements have one line, which takes no memory of its own.
#[derive(Debug, Drop)]
enum Items {
    One([Line; 1]),
    Many(Vec<Line>),
}

impl Model for MovementLines {
    ghost use Rattle.std.specs.Prelude.{List};
    ghost use Rattle.td_movement.specs.declared.line.Line.{Line};
    ghost use Rattle.td_movement.specs.Lines.{lines_kept};

    ghost Value = { List Line };

    ghost view = { λ l. lines_kept l.items };
}

impl MovementLines {
    /// These lines, in order.
    pub fn new(items: Vec<Line>) -> Self
        ensures { result ≡ items.items }
    {
        let items = match items.as_slice() {
            [line] => Items::One([*line]),
            _ => Items::Many(items),
        };
        MovementLines { items }
    }

    /// The lines, in order.
    pub fn as_slice(&self) -> &[Line]
        ensures { result.now ≡ self.now }
    {
        match &self.items {
            Items::One(line) => line,
            Items::Many(lines) => lines,
        }
    }

    /// The same lines in other memory. `AllocError`: want of memory.
    pub fn copy(&self, alloc: Global) -> Result<Self, AllocError>
        ensures { IfOk result (λ lines. lines ≡ self.now) }
    {
        let items = match &self.items {
            Items::One(line) => Items::One([line[0]]),
            Items::Many(lines) => Items::Many(Vec::from_slice(alloc, lines)?),
        };
        Ok(MovementLines { items })
    }
}
