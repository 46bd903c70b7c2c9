//! The commands and their options, made of the table, and what help tells of them.
ghost use Rattle.std.specs.Prelude.{◌≡◌, false, fold, IfOk, map};
ghost use Rattle.clap.specs.Words.{app_of, rule_of, with_subcommand};
ghost use Rattle.td_words.specs.Commands.{IsCommand, option_rule, row_shape};
ghost use Rattle.td_words.specs.Words.{bare_app, program_app};

use crate::table::{CommandRow, Form, OptionRow, all_commands};
use clap::{Arg, ArgAction, Command};
use std::alloc::{AllocError, Global};

/// What `--version` tells.
const VERSION: &str = "0.1";

/// What help says behind the options.
const NOTES: &str =
    "Without --db the desk starts empty, and it is gone when the program ends. With --db its
records stand in that file, an SQLite database; --new makes the desk's tables in it first.
With --journal a row of each accepted change is written to that file, and is on the disk
before the change is done; a file that isn't there is made.
With --first the rows of a journal that come by standard input are done as they come, and
the port is opened where the input ends: a standby desk, which so takes over.
Moments are from 2000 to 2099: a request at any other is told clock-range.

Examples:
  transit-desk pipe --country CH --at 1740819600 < examples/first.http
  transit-desk serve --country CH --port 8080 --connections 1000
  transit-desk serve --country CH --port 8080 --connections 1000 --db desk.db --new
  transit-desk serve --country CH --port 8081 --connections 1000 --first < journal.csv
  transit-desk batch --country CH --db desk.db --file declarations.csv > result.csv
  transit-desk acts --country CH --db desk.db --file acts.csv > result.csv
  transit-desk replay --country CH --file journal.csv --db again.db --new > replies.csv
  transit-desk report overdue --country CH --db desk.db --day 2025-03-20
  transit-desk report guarantees --country CH --db desk.db
  transit-desk check --country CH --db desk.db
  transit-desk migrate --db desk.db
  transit-desk extract --country CH --db desk.db --holders 000001-000400 --into part.db
  transit-desk join --country CH --db desk.db --with part.db

Status:
  0  Done: the stream ended well, all connections were served, all rows were answered,
     the report was written, the file is a desk's, or its tables are of the newest version,
     or the rows were copied
  1  A fault, which one line on standard error tells, as: transit-desk: stream cut;
     or a row was refused
  2  Wrong words: one line on standard error tells what was wrong";

/// The most columns that a line of a usage has.
const WIDEST: usize = 90;

/// The columns that help puts before each usage in the list of all commands.
const INDENT: &str = "       ";

/// What begins a further line of a usage: a blank more comes with what is put there.
const FURTHER: &str = "\n        ";

/// The usages that help shows.
#[derive(Drop)]
pub(crate) struct Usages {
    /// Of the program: those of all commands.
    program: String,
    /// Of each command, in the table's order.
    commands: Vec<String>,
}

impl Usages {
    /// The usages of the table's commands.
    pub(crate) fn new(alloc: Global) -> Result<Usages, AllocError> {
        let mut program = String::new(alloc);
        let mut commands = Vec::new(alloc);
        for row in all_commands() {
            if !program.is_empty() {
                program.push_str("\n")?;
                program.push_str(INDENT)?;
            }
            push_usage(alloc, &mut program, row, INDENT.len())?;
            let mut usage = String::new(alloc);
            push_usage(alloc, &mut usage, row, 0)?;
            commands.push(usage)?;
        }
        Ok(Usages { program, commands })
    }

    // That of the command at this place of the table.
    fn at(&self, place: usize) -> &str {
        match self.commands.get(place) {
            Some(usage) => usage.as_str(),
            None => "",
        }
    }
}

// Puts the usage of a command behind the text, in a line of which so many columns are taken, and in further ones where that
// is full.
fn push_usage(
    alloc: Global,
    text: &mut String,
    row: &CommandRow,
    taken: usize,
) -> Result<(), AllocError> {
    let start = format!(in alloc; "transit-desk {}", row.name)?;
    text.push_str(&start)?;
    let mut width = start.len().saturating_add(taken);
    for part in row.usage {
        let shown = format!(in alloc; " {part}")?;
        width = width.saturating_add(shown.len());
        if width > WIDEST {
            text.push_str(FURTHER)?;
            width = shown.len().saturating_add(FURTHER.len() - 1);
        }
        text.push_str(&shown)?;
    }
    Ok(())
}

// An option as `clap` takes it.
fn argument<'a>(alloc: Global, option: &OptionRow) -> Arg<'a>
    ensures rule { rule_of result ≡ option_rule option.now }
    ensures local { result.global ≡ false }
{
    let arg = Arg::new(alloc, option.name)
        .help(option.help)
        .required(option.needed);
    match option.form {
        Form::Flag => arg.long(option.name).action(ArgAction::SetTrue),
        Form::Named(value, _) => arg
            .long(option.name)
            .value_name(value)
            .action(ArgAction::Set),
        Form::Word(value, _) => arg.value_name(value).action(ArgAction::Set),
    }
}

// A command with its options.
fn command<'a>(alloc: Global, row: &CommandRow, usage: &'a str) -> Result<Command<'a>, AllocError>
    ensures { IfOk result (IsCommand (row_shape row.now)) }
{
    let mut command = Command::new(alloc, row.name)
        .about(row.about)
        .override_usage(usage)
        .after_help(NOTES);
    for option in row.options {
        command = command.arg(argument(alloc, option))?;
    }
    Ok(command)
}

// The program before its commands are added.
fn bare_program<'a>(alloc: Global, usage: &'a str) -> Result<Command<'a>, AllocError>
    ensures { IfOk result (λ c. app_of c ≡ bare_app) }
{
    Ok(
        Command::new(alloc, "transit-desk")
            .bin_name("transit-desk")?
            .about("The desk of a national transit office under the Common Transit Convention")
            .override_usage(usage)
            .after_help(NOTES)
            .version(VERSION)
            .subcommand_required(true),
    )
}

/// The program with its commands, as `clap` reads the words.
pub(crate) fn program<'a>(alloc: Global, usages: &'a Usages) -> Result<Command<'a>, AllocError>
    ensures { IfOk result (λ c. app_of c ≡ program_app) }
{
    with_commands(
        alloc,
        bare_program(alloc, &usages.program)?,
        all_commands(),
        usages,
    )
}

// The program with a command for each of these rows.
fn with_commands<'a>(
    alloc: Global,
    bare: Command<'a>,
    rows: &[CommandRow],
    usages: &'a Usages,
) -> Result<Command<'a>, AllocError>
    ensures { IfOk result (λ c. app_of c ≡ fold with_subcommand (app_of bare.entry) (map row_shape rows.now)) }
{
    let mut program = bare;
    for (place, row) in rows.iter().enumerate() {
        program = program.subcommand(command(alloc, row, usages.at(place))?)?;
    }
    Ok(program)
}
