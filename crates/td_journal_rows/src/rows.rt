//! Rows of a journal: lines of CSV in a text that only grows.
ghost use Rattle.std.specs.List.{position};
ghost use Rattle.std.specs.Prelude.{◌≡◌, ◌==◌, ◌∷◌, ◌++◌, [], ◌<◌, IfErr, IfOk, IfSome, List, None, Ok, ℕ, length, map, option_map};
ghost use Rattle.csv.specs.Records.{fields_of};
ghost use Rattle.csv.specs.Writing.{default_writer, row_text as csv_text};
ghost use Rattle.td_journal_rows.specs.Rows.{HasNoLineFeed, IsOneLine, Tells, change_row, number_read, parts_of, row_line, row_of_line, row_read, row_shown, rows_in, text_at, torn_in};
ghost use Rattle.td_journal_rows.specs.declared.rows.JournalFault.TheVariants.{NoMemory};

use crate::requests::request_of;
use ascii_text::read_digits;
use csv::{ByteRecord, ReaderBuilder, WriterBuilder};
use std::alloc::{AllocError, Global};
use td_commands::Command;
use thiserror::Error;

/// A row of a journal: an accepted change as its request, and what was said to it.
#[derive(Debug, Drop)]
pub struct JournalRow {
    /// 1 for the first row, and one more for each.
    pub number: u64,
    /// The moment of the change, in seconds since 1970-01-01T00:00:00Z.
    pub at: u64,
    pub method: Vec<u8>,
    pub path: Vec<u8>,
    pub body: Vec<u8>,
    /// The body of the reply.
    pub reply: Vec<u8>,
}

/// Why a journal isn't read.
#[derive(Clone, Copy, Debug, PartialEq, Eq, Error)]
pub enum JournalFault {
    /// The first whole line that is no row, counted from 1.
    #[error("bad journal row {row}")]
    BadRow { row: u64 },
    /// Want of memory.
    #[error("no-memory")]
    NoMemory,
}

impl From<AllocError> for JournalFault {
    ghost from_gives = { λ _ e. e ≡ NoMemory };

    fn from(_error: AllocError) -> JournalFault {
        JournalFault::NoMemory
    }
}

/// What a journal's text has.
#[derive(Debug, Drop)]
pub struct JournalRows {
    /// The whole rows, in order.
    pub rows: Vec<JournalRow>,
    /// How many bytes stand behind them: those of a row that was torn off, or none.
    pub torn: usize,
}

/// The row of an accepted change: its number, its moment, its command as a request in the one form, and the body of the
/// reply. `AllocError`: want of memory.
pub fn row_of_change(
    alloc: Global,
    number: u64,
    at: u64,
    command: &Command,
    reply: &[u8],
) -> Result<JournalRow, AllocError>
    ensures { IfOk result (λ row. row_shown row ≡ change_row number at command.now reply.now) }
{
    let request = request_of(alloc, command)?;
    Ok(JournalRow {
        number,
        at,
        method: Vec::from_slice(alloc, request.method.as_bytes())?,
        path: request.path.into_bytes(),
        body: request.body.into_bytes(),
        reply: Vec::from_slice(alloc, reply)?,
    })
}

/// The line of a row. `AllocError`: want of memory.
pub fn write_row(alloc: Global, row: &JournalRow) -> Result<Vec<u8>, AllocError>
    ensures { IfOk result (λ line. line.items ≡ row_line (row_shown row.now)) }
{
    let number = format!(in alloc; "{}", row.number)?;
    let at = format!(in alloc; "{}", row.at)?;
    let fields: [&[u8]; 6] = [
        number.as_bytes(),
        at.as_bytes(),
        &row.method,
        &row.path,
        &row.body,
        &row.reply,
    ];
    csv_line(alloc, &fields)
}

/// The line of these fields: one with a comma, a quote or the end of a line in it stands in quotes. `AllocError`: want of memory.
pub fn csv_line(alloc: Global, fields: &[&[u8]]) -> Result<Vec<u8>, AllocError>
    ensures { IfOk result (λ line. line.items ≡ csv_text default_writer (map (λ f. f.now) fields.now)) }
{
    let mut writer = WriterBuilder::new().from_writer(Vec::new(alloc));
    if writer.write_fields(fields).is_err() {
        return Err(AllocError);
    }
    match writer.into_inner() {
        Ok(line) => Ok(line),
        Err(_) => Err(AllocError),
    }
}

/// The whole rows of a journal's text, and the bytes of a torn one behind them. Where a whole line is no row, the first such
/// line is told, and no row is given.
pub fn read_rows(alloc: Global, bytes: &[u8]) -> Result<JournalRows, JournalFault>
    ensures rows { IfOk result (λ read. rows_in bytes.now ≡ Ok (map row_shown read.rows.items)) }
    ensures torn { IfOk result (λ read. read.torn ≡ length (torn_in bytes.now)) }
    ensures bad { IfErr result (Tells (rows_in bytes.now)) }
{
    let mut rows = Vec::new(alloc);
    let mut rest = bytes;
    while let Some((line, behind)) = first_line(rest) {
        let Some(row) = read_row(alloc, line)? else {
            return Err(JournalFault::BadRow {
                row: rows.len() as u64 + 1,
            });
        };
        if rows.push(row).is_err() {
            return Err(JournalFault::NoMemory);
        }
        rest = behind;
    }
    Ok(JournalRows {
        rows,
        torn: rest.len(),
    })
}

/// The first line of a text with its line feed, and what stands behind it; `None`: no line ends in it.
pub fn first_line(text: &[u8]) -> Option<(&[u8], &[u8])>
    ensures text { IfSome result (λ cut. text.now ≡ cut.0.now ++ cut.1.now) }
    ensures one { IfSome result (λ cut. IsOneLine cut.0.now) }
    ensures torn { result ≡ None → HasNoLineFeed text.now }
    ensures line { IfSome result (λ cut. (line : List ℕ) × (cut.0.now ≡ line ++ 10 ∷ []) × (parts_of text.now ≡ line ∷ parts_of cut.1.now)) }
    ensures shorter { IfSome result (λ cut. length cut.1.now < length text.now) }
    ensures none { result ≡ None → parts_of text.now ≡ text.now ∷ [] }
{
    let end = line_end(text)?;
    Some(text.split_at(end + 1))
}

// The place of the first line feed.
fn line_end(text: &[u8]) -> Option<usize>
    ensures { result ≡ position (λ c. c == 10) text.now }
{
    text.iter().position(|c| *c == b'\n')
}

/// The row of a line with its line feed, if it is one. `AllocError`: want of memory.
pub fn read_row(alloc: Global, line: &[u8]) -> Result<Option<JournalRow>, AllocError>
    ensures { IfOk result (λ row. option_map row_shown row ≡ row_of_line line.now) }
{
    let mut reader = ReaderBuilder::new()
        .has_headers(false)
        .from_reader(alloc, line);
    let mut record = ByteRecord::new(alloc);
    match reader.read_byte_record(&mut record) {
        Ok(true) => row_of_record(alloc, &record),
        Ok(false) => Ok(None),
        Err(_) => Err(AllocError),
    }
}

// The row of a record, if it is one.
fn row_of_record(alloc: Global, columns: &ByteRecord) -> Result<Option<JournalRow>, AllocError>
    ensures { IfOk result (λ row. option_map row_shown row ≡ row_read (fields_of columns.now)) }
{
    if columns.len() != 6 {
        return Ok(None);
    }
    let Some(number) = read_number(field(columns, 0)) else {
        return Ok(None);
    };
    let Some(at) = read_number(field(columns, 1)) else {
        return Ok(None);
    };
    Ok(Some(JournalRow {
        number,
        at,
        method: Vec::from_slice(alloc, field(columns, 2))?,
        path: Vec::from_slice(alloc, field(columns, 3))?,
        body: Vec::from_slice(alloc, field(columns, 4))?,
        reply: Vec::from_slice(alloc, field(columns, 5))?,
    }))
}

// The text of a field, counted from 0; of one that isn't there, no bytes.
fn field(columns: &ByteRecord, place: usize) -> &[u8]
    ensures { result.now ≡ text_at (fields_of columns.now) place }
{
    match columns.get(place) {
        Some(text) => text,
        None => &[],
    }
}

// A number of 1 to 18 digits.
fn read_number(text: &[u8]) -> Option<u64>
    ensures { result ≡ number_read text.now }
{
    if text.is_empty() || text.len() > 18 {
        return None;
    }
    read_digits(text)
}
