//! Movements.
ghost use Rattle.std.specs.Prelude.{◌≡◌, IfOk};
ghost use Rattle.td_movement.specs.Movements.{without_lines};

use crate::line::MovementLines;
use crate::state::State;
use std::alloc::{AllocError, Global};
use td_base::{Day, Lrn, Mrn, OfficeNo};

/// A transit movement: as it was declared, and what has come of it since.
#[derive(Debug, Drop)]
pub struct Movement {
    pub mrn: Mrn,
    pub lrn: Lrn,
    /// The office of departure.
    pub departure: OfficeNo,
    /// The office of destination.
    pub destination: OfficeNo,
    /// The day on which the declaration was accepted.
    pub accepted: Day,
    pub state: State,
    /// The day by which it has to arrive, from its release on.
    pub limit: Option<Day>,
    /// The day on which it arrived.
    pub arrival: Option<Day>,
    /// The office at which it arrived.
    pub actual: Option<OfficeNo>,
    pub lines: MovementLines,
}

impl Movement {
    /// The same movement in other memory. `AllocError`: want of memory.
    pub fn copy(&self, alloc: Global) -> Result<Self, AllocError>
        ensures { IfOk result (λ movement. movement ≡ self.now) }
    {
        let mut copy = self.without_lines(alloc);
        copy.lines = self.lines.copy(alloc)?;
        Ok(copy)
    }

    /// The same movement with no lines. It takes no memory.
    pub fn without_lines(&self, alloc: Global) -> Self
        ensures { result ≡ without_lines self.now }
    {
        Movement {
            mrn: self.mrn,
            lrn: self.lrn,
            departure: self.departure,
            destination: self.destination,
            accepted: self.accepted,
            state: self.state,
            limit: self.limit,
            arrival: self.arrival,
            actual: self.actual,
            lines: MovementLines::new(Vec::new(alloc)),
        }
    }
}
