//! Declarations of holders, by the columns of a row.
ghost use Rattle.std.specs.Prelude.{◌≡◌, IfOk, option_map};
ghost use Rattle.csv.specs.Records.{fields_of};
ghost use Rattle.td_batch_rows.specs.Declarations.{declaration_row, each_line, line_read, lines_read, parts_at, three_of};

use crate::rows::{FileRow, field};
use csv::ByteRecord;
use std::alloc::{AllocError, Global};
use std::marker::Model;
use td_base::{AccessCode, Cents, Grn, HolderNo, Lrn, OfficeNo};
use td_commands::{Command, Lines};
use td_movement::Line;

/// A row of a file of declarations: the command that it is.
#[derive(Debug, Drop)]
pub struct DeclarationRow {
    command: Command,
}

impl Model for DeclarationRow {
    ghost use Rattle.td_commands.specs.declared.command.Command.{Command};

    ghost Value = { Command };

    ghost view = { λ r. r.command };
}

impl DeclarationRow {
    /// The command.
    pub fn command(&self) -> &Command
        ensures { result.now ≡ self.now }
    {
        &self.command
    }
}

impl FileRow for DeclarationRow {
    ghost use Rattle.std.specs.Prelude.{◌≡◌};
    ghost use Rattle.td_batch_rows.specs.Declarations.{declaration_row, is_declarations_header};

    ghost is_header = { is_declarations_header };

    ghost row_of = { declaration_row };

    fn is_header(row: &ByteRecord) -> bool {
        row.len() == 5
            && field(row, 0) == b"holder".as_slice()
            && field(row, 1) == b"lrn".as_slice()
            && field(row, 2) == b"departure".as_slice()
            && field(row, 3) == b"destination".as_slice()
            && field(row, 4) == b"lines".as_slice()
    }

    fn read(alloc: Global, row: &ByteRecord) -> Result<Result<Self, u32>, AllocError> {
        let read = declaration_in(alloc, row)?;
        Ok(read.map(|command| DeclarationRow { command }))
    }
}

// The declaration that a row is, or the first bad column.
fn declaration_in(alloc: Global, row: &ByteRecord) -> Result<Result<Command, u32>, AllocError>
    ensures { IfOk result (λ read. read ≡ declaration_row (fields_of row.now)) }
{
    if row.len() != 5 {
        return Ok(Err(0));
    }
    let Some(holder) = HolderNo::read(field(row, 0)) else {
        return Ok(Err(1));
    };
    let Some(lrn) = Lrn::read(field(row, 1)) else {
        return Ok(Err(2));
    };
    let Some(departure) = OfficeNo::read(field(row, 2)) else {
        return Ok(Err(3));
    };
    let Some(destination) = OfficeNo::read(field(row, 3)) else {
        return Ok(Err(4));
    };
    let Some(lines) = lines_in(alloc, field(row, 4))? else {
        return Ok(Err(5));
    };
    Ok(Ok(Command::Ie015 {
        holder,
        lrn,
        departure,
        destination,
        lines,
    }))
}

// The lines that a text says, if it says those of a declaration.
fn lines_in(alloc: Global, text: &[u8]) -> Result<Option<Lines>, AllocError>
    ensures { IfOk result (λ lines. lines ≡ lines_read text.now) }
{
    match read_lines(alloc, text)? {
        Some(lines) => Ok(Lines::new(lines)),
        None => Ok(None),
    }
}

// The lines between the `;` of a text, in order, or `None` where one of them is none.
fn read_lines(alloc: Global, text: &[u8]) -> Result<Option<Vec<(Line, AccessCode)>>, AllocError>
    ensures { IfOk result (λ lines. option_map (λ v. v.items) lines ≡ each_line (parts_at 59 text.now)) }
{
    let mut lines = Vec::new(alloc);
    for part in text.split(|b| *b == b';') {
        let Some(line) = line_in(part) else {
            return Ok(None);
        };
        lines.push(line)?;
    }
    Ok(Some(lines))
}

// The line that a text says, and the access code beside it.
fn line_in(text: &[u8]) -> Option<(Line, AccessCode)>
    ensures { result ≡ line_read text.now }
{
    let (grn, code, amount) = three_parts(text)?;
    let grn = Grn::read(grn).ok()?;
    let code = AccessCode::read(code)?;
    let cents = Cents::read(amount)?;
    Some((Line { grn, cents }, code))
}

// The parts between the `:` of a text, if there are three.
fn three_parts(text: &[u8]) -> Option<(&[u8], &[u8], &[u8])>
    ensures { option_map (λ p. (p.0.now, p.1.now, p.2.now)) result ≡ three_of (parts_at 58 text.now) }
{
    let mut parts = text.split(|b| *b == b':');
    let first = parts.next()?;
    let second = parts.next()?;
    let third = parts.next()?;
    match parts.next() {
        Some(_) => None,
        None => Some((first, second, third)),
    }
}
