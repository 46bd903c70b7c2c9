//! Rows done again at a desk, one after another.
ghost use Rattle.std.specs.Prelude.{◌≡◌, ◌↔◌, ◌++◌, IfErr, IfOk, IsTrue, OnErr, OnOk, map};
ghost use Rattle.td_answers.specs.Answers.{said_body};
ghost use Rattle.td_journal_lines.specs.Rows.{numbered};
ghost use Rattle.td_redo.specs.Replies.{body_text};
ghost use Rattle.td_replay.specs.Replays.{IsReplayOf, IsStopped, IsTold, difference_with, reply_line};

use std::alloc::{AllocError, Global};
use td_answers::said_body;
use td_desk::{Desk, Fault, Outcome, Said, do_one};
use td_journal_lines::ChangeRow;
use td_journal_rows::csv_line;
use td_redo::said_is_told_in;

/// What a replay left.
#[derive(Debug, Drop)]
pub struct ReplayRun {
    /// The result file: its header and a line for each row that was told, or nothing where there was no memory for the header.
    pub text: Vec<u8>,
    /// How many rows were told.
    pub done: usize,
    /// The number of the first of them whose reply isn't what is said now.
    pub differs: Option<u64>,
    /// The fault that stopped it, if any.
    pub stopped: Option<Fault>,
}

// Writes the line of a row, to which that is said now, behind the text, and answers whether the row has this reply.
fn tell(alloc: Global, row: &ChangeRow, said: &Said, text: &mut Vec<u8>) -> Result<bool, AllocError>
    ensures text { OnOk result (text.new.items ≡ text.old.items ++ reply_line row.now.number said.now) }
    ensures none { OnErr result (text.new.items ≡ text.old.items) }
    ensures same { IfOk result (λ same. IsTrue same ↔ said_body said.now ≡ row.now.reply.items) }
    ensures plain { said_body said.now ≡ body_text said.now }
{
    said_is_told_in(said);
    let body = said_body(alloc, said)?;
    let number = format!(in alloc; "{}", row.number)?;
    let line = csv_line(alloc, &[number.as_bytes(), body.as_bytes()])?;
    text.extend_from_slice(&line)?;
    Ok(body.as_bytes() == row.reply.as_slice())
}

// Does a row's command at its moment, and tells what is said to it; answers whether the row has this reply.
fn do_row<D: Desk>(
    alloc: Global,
    desk: &mut D,
    row: &ChangeRow,
    text: &mut Vec<u8>,
) -> Result<bool, Fault>
    ensures told { IfOk result (IsTold D.seen (numbered row.now) desk.old desk.new text.old.items text.new.items) }
    ensures stopped { IfErr result (λ why. IsStopped D.seen (numbered row.now) why desk.old desk.new) }
    ensures none { OnErr result (text.new.items ≡ text.old.items) }
{
    match do_one(alloc, desk, &row.stamped) {
        Outcome::Said(said) => Ok(tell(alloc, row, &said, text)?),
        Outcome::Failed(fault) => Err(fault),
    }
}

// The first difference among rows, where one more stands behind them.
fn difference_with(differs: Option<u64>, is_same: bool, number: u64) -> Option<u64>
    ensures { result ≡ difference_with differs is_same number }
{
    match differs {
        None if !is_same => Some(number),
        _ => differs,
    }
}

/// Does the rows in order, each at its own moment, up to the first fault. The text is the result file: its header,
/// `number,reply`, and a line for each row that was told, with the body of the reply that is given now. Where memory is missing for
/// a line, its row was done, and isn't told.
pub fn replay<D: Desk>(alloc: Global, desk: &mut D, rows: &[ChangeRow]) -> ReplayRun
    ensures { IsReplayOf D.seen (map numbered rows.now) result desk.old desk.new }
{
    let mut text = Vec::new(alloc);
    if text.extend_from_slice(b"number,reply\n").is_err() {
        return ReplayRun {
            text: Vec::new(alloc),
            done: 0,
            differs: None,
            stopped: Some(Fault::NoMemory),
        };
    }
    let mut done = 0;
    let mut differs = None;
    for row in rows {
        match do_row(alloc, desk, row, &mut text) {
            Ok(is_same) => {
                done += 1;
                differs = difference_with(differs, is_same, row.number);
            }
            Err(fault) => {
                return ReplayRun {
                    text,
                    done,
                    differs,
                    stopped: Some(fault),
                };
            }
        }
    }
    ReplayRun {
        text,
        done,
        differs,
        stopped: None,
    }
}
