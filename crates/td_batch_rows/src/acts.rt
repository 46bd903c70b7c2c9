//! Acts of offices, by the columns of a row.
ghost use Rattle.std.specs.Prelude.{◌≡◌};
ghost use Rattle.csv.specs.Records.{fields_of};
ghost use Rattle.td_fields.specs.BodyFields.{control_read, ground_read};
ghost use Rattle.td_batch_rows.specs.Acts.{message_read, command_read, act_read, act_row};

use crate::rows::{FileRow, field};
use csv::ByteRecord;
use std::alloc::{AllocError, Global};
use std::marker::Model;
use td_base::{Day, Mrn, OfficeNo};
use td_commands::Command;
use td_movement::{Control, Ground};

/// A row of a file of acts: the command that it is.
#[derive(Debug, Drop)]
pub struct ActRow {
    command: Command,
}

impl Model for ActRow {
    ghost use Rattle.td_commands.specs.declared.command.Command.{Command};

    ghost Value = { Command };

    ghost view = { λ r. r.command };
}

impl ActRow {
    /// The command.
    pub fn command(&self) -> &Command
        ensures { result.now ≡ self.now }
    {
        &self.command
    }
}

impl FileRow for ActRow {
    ghost use Rattle.std.specs.Prelude.{◌≡◌};
    ghost use Rattle.td_batch_rows.specs.Acts.{act_row, is_acts_header};

    ghost is_header = { is_acts_header };

    ghost row_of = { act_row };

    fn is_header(row: &ByteRecord) -> bool {
        row.len() == 3
            && field(row, 0) == b"message".as_slice()
            && field(row, 1) == b"mrn".as_slice()
            && field(row, 2) == b"value".as_slice()
    }

    fn read(_alloc: Global, row: &ByteRecord) -> Result<Result<Self, u32>, AllocError> {
        Ok(act_in(row).map(|command| ActRow { command }))
    }
}

// The messages that an office may send in a file.
#[derive(Clone, Copy)]
enum Message {
    Ie029,
    Ie007,
    Ie018,
    Ie045,
    Ie140,
}

// The act that a row is, or the first bad column.
fn act_in(row: &ByteRecord) -> Result<Command, u32>
    ensures { result ≡ act_row (fields_of row.now) }
{
    if row.len() != 3 {
        return Err(0);
    }
    act_of(field(row, 0), field(row, 1), field(row, 2))
}

// The act that the texts of the columns say, or the first bad column.
fn act_of(message: &[u8], mrn: &[u8], value: &[u8]) -> Result<Command, u32>
    ensures { result ≡ act_read message.now mrn.now value.now }
{
    let Some(message) = message_in(message) else {
        return Err(1);
    };
    let Ok(mrn) = Mrn::read(mrn) else {
        return Err(2);
    };
    match command_in(message, mrn, value) {
        Some(command) => Ok(command),
        None => Err(3),
    }
}

// The message that a text names.
fn message_in(text: &[u8]) -> Option<Message>
    ensures { result ≡ message_read text.now }
{
    match text {
        b"IE029" => Some(Message::Ie029),
        b"IE007" => Some(Message::Ie007),
        b"IE018" => Some(Message::Ie018),
        b"IE045" => Some(Message::Ie045),
        b"IE140" => Some(Message::Ie140),
        _ => None,
    }
}

// The act of a message, by its value.
fn command_in(message: Message, mrn: Mrn, value: &[u8]) -> Option<Command>
    ensures { result ≡ command_read message mrn value.now }
{
    match message {
        Message::Ie029 => Day::read(value).map(|limit| Command::Ie029 { mrn, limit }),
        Message::Ie007 => OfficeNo::read(value).map(|office| Command::Ie007 { mrn, office }),
        Message::Ie018 => control_in(value).map(|control| Command::Ie018 {
            mrn,
            result: control,
        }),
        Message::Ie045 => ground_in(value).map(|ground| Command::Ie045 { mrn, ground }),
        Message::Ie140 => value.is_empty().then_some(Command::Ie140 { mrn }),
    }
}

// The result of a control, by its code.
fn control_in(text: &[u8]) -> Option<Control>
    ensures { result ≡ control_read text.now }
{
    Control::read(text)
}

// The ground of a write-off, by the word for it.
fn ground_in(text: &[u8]) -> Option<Ground>
    ensures { result ≡ ground_read text.now }
{
    Ground::read(text)
}
