//! Rows done at a desk, one after another.
ghost use Rattle.std.specs.Prelude.{◌≡◌, ◌++◌, codes, map, Ok, Err, OnErr, IfOk, string_bytes};
ghost use Rattle.td_desk.specs.declared.fault.Fault.TheVariants as fault;
ghost use Rattle.td_batch.specs.Results.{act_result, acts_header, declaration_result, declarations_header};
ghost use Rattle.td_batch.specs.Runs.{IsDone, IsRunOf, is_refusal, outcome_of};

use crate::results::{act_row, declaration_row};
use std::alloc::{AllocError, Global};
use td_acts::{Command, Said};
use td_batch_rows::{ActRow, DeclarationRow};
use td_desk::{Desk, Fault};

/// What a batch left.
#[derive(Debug, Drop)]
pub struct BatchRun {
    /// The result file: its header and the rows done, or nothing where there was no memory for the header.
    pub text: Vec<u8>,
    /// How many rows were done.
    pub done: usize,
    /// The fault that stopped it, if any.
    pub stopped: Option<Fault>,
    // whether a row that was done was refused
    has_refusal: bool,
}

impl BatchRun {
    ghost use Rattle.std.specs.Prelude.{◌≡◌};
    ghost use Rattle.td_batch.specs.Runs.{has_refusal};

    /// Whether a row that was done was refused.
    pub fn has_refusal(&self) -> bool
        ensures { result ≡ has_refusal self.now }
    {
        self.has_refusal
    }
}

/// A row of a batch.
trait BatchRow {
    ghost use Rattle.std.specs.Prelude.{◌≡◌, ℕ, IfOk, List, string_bytes};
    ghost use Rattle.td_commands.specs.declared.command.Command.{Command};
    ghost use Rattle.td_commands.specs.declared.said.Said.{Said};

    // the command that it is
    ghost command: { Self → Command };

    // the result row of a command, to which this was said
    ghost line: { Command → Said → List ℕ };

    /// The command.
    fn command(&self) -> &Command
        ensures { result.now ≡ command self.now };

    /// Its result row, where this was said to its command.
    fn result_row(&self, alloc: Global, said: &Said) -> Result<String, AllocError>
        ensures { IfOk result (λ row. string_bytes row ≡ line (command self.now) said.now) };
}

impl BatchRow for ActRow {
    ghost command = { λ row. row };

    ghost line = { act_result };

    fn command(&self) -> &Command {
        ActRow::command(self)
    }

    fn result_row(&self, alloc: Global, said: &Said) -> Result<String, AllocError> {
        act_row(alloc, ActRow::command(self), said)
    }
}

impl BatchRow for DeclarationRow {
    ghost command = { λ row. row };

    ghost line = { declaration_result };

    fn command(&self) -> &Command {
        DeclarationRow::command(self)
    }

    fn result_row(&self, alloc: Global, said: &Said) -> Result<String, AllocError> {
        declaration_row(alloc, DeclarationRow::command(self), said)
    }
}

// Weighs a row, puts its result row behind the text, and carries the decision: what can't be told isn't done, and the
// text has the row only where it was carried.
fn do_row<D: Desk, R: BatchRow>(
    alloc: Global,
    desk: &mut D,
    at: i64,
    row: &R,
    text: &mut Vec<u8>,
) -> Result<Said, Fault>
    ensures done { IsDone D.seen at (R.command row.now) (outcome_of result) desk.old desk.new }
    ensures text { IfOk result (λ said. text.new.items ≡ text.old.items ++ R.line (R.command row.now) said) }
    ensures none { OnErr result (text.new.items ≡ text.old.items) }
{
    let decision = match desk.weigh(alloc, at, row.command()) {
        Ok(decision) => decision,
        Err(fault) => return Err(fault),
    };
    let before = text.len();
    let Ok(line) = row.result_row(alloc, decision.said()) else {
        decision.waive();
        return Err(Fault::NoMemory);
    };
    if text.extend_from_slice(line.as_bytes()).is_err() {
        decision.waive();
        return Err(Fault::NoMemory);
    }
    match desk.carry(alloc, decision) {
        Ok(said) => Ok(said),
        Err(fault) => {
            text.truncate(before);
            Err(fault)
        }
    }
}

fn is_refusal(said: &Said) -> bool
    ensures { result ≡ is_refusal said.now }
{
    matches!(said, Said::Refused(_))
}

// Does the rows in order, up to the first fault.
fn run_rows<D: Desk, R: BatchRow>(
    alloc: Global,
    desk: &mut D,
    at: i64,
    header: &str,
    rows: &[R],
) -> BatchRun
    ensures { IsRunOf D.seen R.line header.now at (map R.command rows.now) result desk.old desk.new }
{
    let mut text = Vec::new(alloc);
    if text.extend_from_slice(header.as_bytes()).is_err() {
        return BatchRun {
            text: Vec::new(alloc),
            done: 0,
            stopped: Some(Fault::NoMemory),
            has_refusal: false,
        };
    }
    let mut done = 0;
    let mut has_refusal = false;
    for row in rows {
        match do_row(alloc, desk, at, row, &mut text) {
            Ok(said) => {
                done += 1;
                has_refusal |= is_refusal(&said);
            }
            Err(fault) => {
                return BatchRun {
                    text,
                    done,
                    stopped: Some(fault),
                    has_refusal,
                };
            }
        }
    }
    BatchRun {
        text,
        done,
        stopped: None,
        has_refusal,
    }
}

/// Does the declarations of a batch in order, all at that number of seconds since 1970, up to the first fault. The text
/// is the result file: its header, `holder,lrn,outcome,mrn`, and a row for each that was done.
pub fn run_declarations<D: Desk>(
    alloc: Global,
    desk: &mut D,
    at: i64,
    rows: &[DeclarationRow],
) -> BatchRun
    ensures { IsRunOf D.seen declaration_result declarations_header at rows.now result desk.old desk.new }
{
    run_rows(alloc, desk, at, "holder,lrn,outcome,mrn\n", rows)
}

/// Does the acts of a batch in order, all at that number of seconds since 1970, up to the first fault. The text is the
/// result file: its header, `message,mrn,outcome`, and a row for each that was done.
pub fn run_acts<D: Desk>(alloc: Global, desk: &mut D, at: i64, rows: &[ActRow]) -> BatchRun
    ensures { IsRunOf D.seen act_result acts_header at rows.now result desk.old desk.new }
{
    run_rows(alloc, desk, at, "message,mrn,outcome\n", rows)
}
