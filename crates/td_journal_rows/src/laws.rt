//! What holds of the requests that ask for commands: the contracts are laws, and the calls do nothing.
ghost use Rattle.std.specs.List.{AllByRecursion};
ghost use Rattle.std.specs.Prelude.{◌≡◌, ◌^◌, ◌<◌, ◌++◌, ℕ, All, List, Some, length, take};
ghost use Rattle.td_base.specs.Days.{IsDay, day_read, day_text};
ghost use Rattle.td_commands.specs.declared.command.Command.{Command};
ghost use Rattle.td_journal_rows.specs.Rows.{HasNoLineFeed, HasRows, IsRow, RowText, change_row, ended_lines, lines_in, row_line, rows_text, torn_in};
ghost use Rattle.td_journal_rows.specs.Requests.{HasFormedLines, IsFormedLine, IsLimitRead, IsTyped, ReadsBack, request_body, request_method, request_path};

use td_base::{AccessCode, Day, day_reads_back};
use td_commands::{Command, known};
use td_movement::Line;

/// The number of 2000-01-01 from 1970-01-01.
const FIRST_DAY: u32 = 10_957;

/// The number of 2101-01-01, after which no day comes.
const AFTER_LAST_DAY: u32 = 47_847;

/// The request of a command is read as just that command, whichever command it is. So two commands with one request are
/// one command.
pub fn requests_read_back()
    ensures back { (command : Command) → IsTyped command → ReadsBack command }
    ensures apart { (a b : Command) → IsTyped a → IsTyped b → request_method a ≡ request_method b
        → request_path a ≡ request_path b → request_body a ≡ request_body b → a ≡ b }
{
    days_read_back();
}

/// The text of each day is read as that day. The body goes through the days, since what is known of a day is known of one
/// that is there.
pub fn days_read_back()
    ensures { (number : ℕ) → IsDay number → day_read (day_text number) ≡ Some number }
{
    for number in FIRST_DAY..AFTER_LAST_DAY {
        number_is_read(number);
    }
}

// The day of a number is read of its text.
fn number_is_read(number: u32)
    requires { IsDay number }
    ensures { day_read (day_text number) ≡ Some number }
{
    if let Some(day) = Day::new(i64::from(number)) {
        day_is_read(day);
    }
}

// The text of a day is read as that day.
fn day_is_read(day: Day)
    ensures { day_read (day_text day) ≡ Some day }
{
    day_reads_back(day);
}

/// Rows whose lines stand one behind the other are the rows that are read, also where the text ends within a further row,
/// wherever that is cut: then what there is of it is told as torn. Of no text is anything left out: it is its whole lines
/// and what stands behind them.
pub fn rows_read_back()
    ensures back { (rows : List RowText) (row : RowText) (n : ℕ) → AllByRecursion IsRow rows → IsRow row
        → n < length (row_line row) → HasRows (rows_text rows ++ take n (row_line row)) rows (take n (row_line row)) }
    ensures whole { (text : List ℕ) → ended_lines (lines_in text) ++ torn_in text ≡ text }
{}

/// The row of an accepted change is such a row, where no line ends within the reply's body.
pub fn changes_are_rows()
    ensures { (number at : ℕ) (command : Command) (reply : List ℕ) → number < 10 ^ 18 → at < 10 ^ 18 → IsTyped command
        → HasNoLineFeed reply → IsRow (change_row number at command reply) }
{}

/// The parts of a command are in the ranges of their types: a clause over every command ranges over values that no type has,
/// and this tells that a command isn't one of them.
pub fn command_is_typed(command: &Command)
    ensures { IsTyped command.now }
{
    let _proper = known(command);
    lines_are_formed(command);
}

// So are those of its lines.
fn lines_are_formed(command: &Command)
    ensures { HasFormedLines command.now }
{
    if let Command::Ie015 { lines, .. } = command {
        each_is_formed(lines.as_slice());
    }
}

fn each_is_formed(lines: &[(Line, AccessCode)])
    ensures { All IsFormedLine lines.now }
{
    for line in lines {
        is_formed(line);
    }
}

fn is_formed(line: &(Line, AccessCode))
    ensures { IsFormedLine line.now }
{
    let _grn = line.0.grn.as_bytes();
    let _code = line.1.as_bytes();
}

/// The request of a command is read as just that command.
pub fn request_reads_back(command: &Command)
    ensures { ReadsBack command.now }
{
    command_is_typed(command);
    limit_is_read(command);
}

// The day of a release is read of its text.
fn limit_is_read(command: &Command)
    ensures { IsLimitRead command.now }
{
    if let Command::Ie029 { limit, .. } = command {
        day_is_read(*limit);
    }
}
