//! A journal's rows that come by an input, done at a desk as they come: what a standby desk does until it takes over.
ghost use Rattle.std.specs.Prelude.{◌≡◌, ◌+◌, ◌<◌, ◌^◌, ◌++◌, ◌↔◌, [], IfErr, IfOk, IfSome, IsTrue, None, OnErr, OnOk, option_map};
ghost use Rattle.td_answers.specs.Answers.{said_body};
ghost use Rattle.td_desk.specs.declared.fault.Fault.TheVariants.{NoMemory};
ghost use Rattle.td_journal_lines.specs.Rows.{numbered};
ghost use Rattle.td_journal_rows.specs.Rows.{HasNoLineFeed, IsOneLine};
ghost use Rattle.td_replay.specs.Following.{Follows, IsFilled, IsNextRow, IsNoNextRow, IsToldAgain, IsUnfilled, NextLine, NoNextLine, RowFails};
ghost use Rattle.td_replay.specs.declared.following.FollowFault.TheVariants.{Failed};

use counted_io::Counted;
use std::alloc::{AllocError, Global};
use std::io::Read;
use td_answers::said_body;
use td_desk::{Desk, Fault, Outcome, Said, do_one};
use td_journal_lines::{ChangeRow, row_of};
use td_journal_rows::first_line;

/// The most bytes of a read.
const PIECE: usize = 4096;

/// Why rows weren't followed to the input's end.
#[derive(Clone, Copy, Debug, PartialEq, Eq)]
pub enum FollowFault {
    /// The line with this number, counted from 1, is no row of a change.
    BadRow(u64),
    /// The row with this number isn't the one behind the row before it.
    Misplaced(u64),
    /// What is said to the row with this number isn't what it has. The row was done.
    Differs(u64),
    /// The input couldn't be read.
    Unread,
    /// The row behind the last one that was done failed, or memory was missing for it.
    Failed(Fault),
}

impl From<AllocError> for FollowFault {
    ghost from_gives = { λ _ e. e ≡ Failed NoMemory };

    fn from(_error: AllocError) -> FollowFault {
        FollowFault::Failed(Fault::NoMemory)
    }
}

// Takes the first whole line of the bytes, if there is one.
fn take_line(alloc: Global, bytes: &mut Vec<u8>) -> Result<Option<Vec<u8>>, AllocError>
    ensures line { IfOk result (λ taken. IfSome taken (λ line. IsOneLine line.items)) }
    ensures taken { IfOk result (λ taken. IfSome taken (λ line. bytes.old.items ≡ line.items ++ bytes.new.items)) }
    ensures none { IfOk result (λ taken. taken ≡ None → HasNoLineFeed bytes.new.items × (bytes.new.items ≡ bytes.old.items)) }
    ensures kept { OnErr result (bytes.new.items ≡ bytes.old.items) }
{
    let Some((line, behind)) = first_line(bytes) else {
        return Ok(None);
    };
    let (size, left) = (line.len(), behind.len());
    let line = Vec::from_slice(alloc, line)?;
    bytes.copy_within(size.., 0);
    bytes.truncate(left);
    Ok(Some(line))
}

// Reads one piece behind the bytes, and answers whether there was one.
fn fill<R: Read>(input: &mut Counted<R>, bytes: &mut Vec<u8>) -> Result<bool, FollowFault>
    ensures more { IfOk result (IsFilled R.remaining input.old input.new bytes.old.items bytes.new.items) }
    ensures failed { IfErr result (IsUnfilled R.remaining input.old input.new) }
{
    let mut piece = [0; PIECE];
    match input.read(&mut piece) {
        Err(_) => Err(FollowFault::Unread),
        Ok(0) => Ok(false),
        Ok(n) => {
            bytes.extend_from_slice(&piece[..n])?;
            Ok(true)
        }
    }
}

// The first whole line of the bytes and of what is read behind them; `None`: the input has ended.
fn next_line<R: Read>(
    alloc: Global,
    input: &mut Counted<R>,
    bytes: &mut Vec<u8>,
) -> Result<Option<Vec<u8>>, FollowFault>
    ensures line { IfOk result (λ found. NextLine R.remaining input.old input.new bytes.old.items bytes.new.items (option_map (λ line. line.items) found)) }
    ensures failed { IfErr result (NoNextLine R.remaining input.old input.new) }
{
    for _ in 0..u64::MAX {
        if let Some(line) = take_line(alloc, bytes)? {
            return Ok(Some(line));
        }
        if !fill(input, bytes)? {
            return Ok(None);
        }
    }
    unreachable!()
}

// Whether that is what the row says was said.
fn has_reply(alloc: Global, row: &ChangeRow, said: &Said) -> Result<bool, AllocError>
    ensures { IfOk result (λ same. IsTrue same ↔ said_body said.now ≡ row.now.reply.items) }
{
    let body = said_body(alloc, said)?;
    Ok(body.as_bytes() == row.reply.as_slice())
}

// The row that a line is, behind so many others.
fn next_row(alloc: Global, line: &[u8], before: u64) -> Result<ChangeRow, FollowFault>
    requires line { IsOneLine line.now }
    requires bound { before < 10 ^ 18 }
    ensures row { IfOk result (λ row. IsNextRow line.now before (numbered row)) }
    ensures none { IfErr result (IsNoNextRow line.now before) }
{
    let Some(row) = row_of(alloc, line)? else {
        return Err(FollowFault::BadRow(before + 1));
    };
    if row.number == before + 1 {
        Ok(row)
    } else {
        Err(FollowFault::Misplaced(row.number))
    }
}

// Does the row, and answers its number.
fn do_next<D: Desk>(alloc: Global, desk: &mut D, row: &ChangeRow) -> Result<u64, FollowFault>
    ensures number { IfOk result (λ n. n ≡ row.now.number) }
    ensures done { OnOk result (IsToldAgain D.seen (numbered row.now) desk.old desk.new) }
    ensures failed { IfErr result (RowFails D.seen (numbered row.now) desk.old desk.new) }
{
    let said = match do_one(alloc, desk, &row.stamped) {
        Outcome::Said(said) => said,
        Outcome::Failed(fault) => return Err(FollowFault::Failed(fault)),
    };
    if has_reply(alloc, row, &said)? {
        Ok(row.number)
    } else {
        Err(FollowFault::Differs(row.number))
    }
}

/// Does the rows of a journal that come by the input, numbered from 1 on, as they come: each at its own moment, and each is to be
/// told what it has. It ends well where the input ends, and answers how many rows were done; the bytes of a row that was torn off
/// are left out. `BadRow`: a line is the row of no change; `Misplaced`: a row's number isn't the next one; `Differs`: a row that was
/// done was told something else; `Unread`: the input failed; `Failed`: the desk failed at a row, or memory was missing. The rows
/// before it stand.
pub fn follow<D: Desk, R: Read>(
    alloc: Global,
    desk: &mut D,
    input: &mut Counted<R>,
) -> Result<u64, FollowFault>
    ensures { Follows D.seen R.remaining desk.old input.old desk.new input.new result }
{
    let mut bytes = Vec::new(alloc);
    let mut done = 0;
    for _ in 0..u64::MAX {
        let Some(line) = next_line(alloc, input, &mut bytes)? else {
            return Ok(done);
        };
        let row = next_row(alloc, &line, done)?;
        done = do_next(alloc, desk, &row)?;
    }
    unreachable!()
}
