//! What a verdict is given, and what it says and writes.
ghost use Rattle.std.specs.Prelude.{◌≡◌, IfOk};

use std::alloc::{AllocError, Global};
use td_base::{Cents, Country};
use td_commands::{Answer, ListedMovement, Refusal, Said};
use td_guarantee::Guarantee;
use td_model::{Change, HolderRow};
use td_movement::Movement;

/// What the verdict on a command needs of its owner's rows; no row of another holder.
#[derive(Debug, Drop)]
pub struct Loaded {
    pub country: Country,
    pub holder: Option<HolderRow>,
    /// For a declaration the movement with its LRN, for a move and a view the one with its MRN, if there is
    /// one. Moves, but for a release, have it without lines.
    pub movements: Vec<Movement>,
    /// For a view of all movements all of them, as a list shows them.
    pub listed: Vec<ListedMovement>,
    /// Those guarantees that the command or the movement names, or all, and the amounts in use on them, which
    /// a declaration doesn't ask for. A release has them without their codes.
    pub guarantees: Vec<(Guarantee, Cents)>,
}

impl Loaded {
    ghost use Rattle.td_model.specs.Account.{empty_account};
    ghost use Rattle.td_commands.specs.Commands.{Need};
    ghost use Rattle.td_acts.specs.Deciding.{IsLoaded};

    /// What is loaded of a number that isn't registered, and for a command that nobody owns.
    pub fn nothing(alloc: Global, country: Country) -> Self
        ensures { (need : Need) → IsLoaded (empty_account country) need result }
    {
        Loaded {
            country,
            holder: None,
            movements: Vec::new(alloc),
            listed: Vec::new(alloc),
            guarantees: Vec::new(alloc),
        }
    }

    /// The same in other memory. `AllocError`: want of memory.
    pub fn copy(&self, alloc: Global) -> Result<Self, AllocError>
        ensures country { IfOk result (λ copy. copy.country ≡ self.now.country) }
        ensures holder { IfOk result (λ copy. copy.holder ≡ self.now.holder) }
        ensures movements { IfOk result (λ copy. copy.movements.items ≡ self.now.movements.items) }
        ensures listed { IfOk result (λ copy. copy.listed.items ≡ self.now.listed.items) }
        ensures guarantees { IfOk result (λ copy. copy.guarantees.items ≡ self.now.guarantees.items) }
    {
        let movements = copy_movements(alloc, &self.movements)?;
        let listed = self.listed.to_vec(alloc)?;
        let guarantees = copy_entries(alloc, &self.guarantees)?;
        Ok(Loaded {
            country: self.country,
            holder: self.holder,
            movements,
            listed,
            guarantees,
        })
    }
}

// The same movements in other memory.
fn copy_movements(alloc: Global, movements: &[Movement]) -> Result<Vec<Movement>, AllocError>
    ensures { IfOk result (λ items. items.items ≡ movements.now) }
{
    let mut items = Vec::with_capacity(alloc, movements.len())?;
    for movement in movements {
        items.push(movement.copy(alloc)?)?;
    }
    Ok(items)
}

// The same guarantees, and the amounts in use on them, in other memory.
fn copy_entries(
    alloc: Global,
    entries: &[(Guarantee, Cents)],
) -> Result<Vec<(Guarantee, Cents)>, AllocError>
    ensures { IfOk result (λ items. items.items ≡ entries.now) }
{
    let mut items = Vec::with_capacity(alloc, entries.len())?;
    for (guarantee, used) in entries {
        items.push((guarantee.copy(alloc)?, *used))?;
    }
    Ok(items)
}

/// What is said to a command, and the rows to write for it.
#[derive(Debug, Drop)]
pub struct Verdict {
    pub said: Said,
    pub change: Change,
}

impl Verdict {
    /// A refusal, for which nothing is written.
    pub fn refused(why: Refusal) -> Self
        ensures said { result.said ≡ Said.Refused why }
        ensures change { result.change ≡ Change.Nothing }
    {
        Verdict {
            said: Said::Refused(why),
            change: Change::Nothing,
        }
    }
    /// An answer for which nothing is written.
    pub fn shown(answer: Answer) -> Self
        ensures said { result.said ≡ Said.Answered answer }
        ensures change { result.change ≡ Change.Nothing }
    {
        Verdict {
            said: Said::Answered(answer),
            change: Change::Nothing,
        }
    }
}
