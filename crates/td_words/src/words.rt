//! The command line: which job its words ask for, and what is told where they ask for none.
ghost use Rattle.std.specs.Prelude.{◌≡◌, ◌↔◌, codes, map, option_map, pos, slice_get, string_bytes, IfErr, IfOk, IfSome, IsTrue, None, Some, SomeIff};
ghost use Rattle.ascii_text.specs.Digits.{digits_value};
ghost use Rattle.clap.specs.Values.{kind_of};
ghost use Rattle.clap.specs.Words.{first_of, found_of, rows_of};
ghost use Rattle.td_words.specs.declared.words.HolderRange.{HolderRange};
ghost use Rattle.td_words.specs.declared.words.NoJob.TheVariants.{NoMemory};
ghost use Rattle.td_words.specs.Commands.{IsWithin, bounds_of};
ghost use Rattle.td_words.specs.Words.{AreRecords, AskForHelpOfHelp, AsksFor, IsCountryIn, ShowsDay, IsDecimal, IsFlag, IsJob, IsJournalPath, IsListening, ShowsMoment, IsNoJob, IsNoneSuch, IsOffice, IsPath, IsRange, IsReport, IsTask, IsTold, IsTransfer, MayMean, Means, MeansOr, batch_name};

use crate::options::{Usages, program};
use crate::table::{
    AT, CONNECTIONS, COUNTRY, DAY, DB, FILE, FIRST, HOLDERS, IDLE, INTO, JOURNAL, KIND, NEW,
    OptionRow, PART, PORT, WITH, Wanted, all_commands,
};
use ascii_text::is_digits;
use clap::ArgMatches;
use clap::error::ErrorKind;
use std::alloc::{AllocError, Global};
use td_base::{Country, Day, HolderNo};

/// Where a desk is served: at a port of this machine, for so many connections, one after another.
#[derive(Clone, Copy, Debug, PartialEq, Eq)]
pub struct Listening {
    /// From 1 on.
    pub port: u16,
    /// From 1 to 1,000,000.
    pub connections: u32,
    /// The most seconds that a read of a connection waits, from 1 to 3,600.
    pub idle: u16,
}

/// Where the records of a desk stand.
#[derive(Debug, PartialEq, Eq, Drop)]
pub enum Records {
    /// In memory: the desk starts empty, and is gone when the job ends.
    Memory,
    /// In the file at this path, which has a desk's tables.
    File(String),
    /// In the file at this path, in which the tables are made first.
    NewFile(String),
}

/// What the rows of a batch are.
#[derive(Clone, Copy, Debug, PartialEq, Eq)]
pub enum BatchKind {
    /// Declarations of holders.
    Declarations,
    /// Acts of offices.
    Acts,
}

/// Which report is printed.
#[derive(Clone, Copy, Debug, PartialEq, Eq)]
pub enum ReportKind {
    /// Of the movements that are overdue on this day.
    Overdue(Day),
    /// Of all guarantees.
    Guarantees,
}

/// What is done with a desk. The journal of one that makes changes is the file at this path; with none, it keeps none.
#[derive(Debug, PartialEq, Eq, Drop)]
pub enum Task {
    /// Connections are served.
    Serve {
        listening: Listening,
        records: Records,
        journal: Option<String>,
        /// The rows of a journal that come by standard input are done first, as they come; the port is opened where it ends.
        first: bool,
    },
    /// One stream of requests is served, from standard input to standard output.
    Pipe {
        records: Records,
        journal: Option<String>,
    },
    /// The rows of a file are done, one after another.
    Batch {
        kind: BatchKind,
        /// The file with the rows (CSV).
        rows: String,
        /// The file with the records.
        records: String,
        journal: Option<String>,
    },
    /// The rows of a journal are done again, each at its own moment.
    Replay {
        /// The file with the rows (CSV).
        rows: String,
        /// They are a part of a journal: numbers may be left out.
        part: bool,
        records: Records,
    },
    /// A report on the records in the file at this path is printed.
    Report(ReportKind, String),
    /// The file at this path is tested: whether a desk of the country can be opened over it.
    Check(String),
}

/// The holders with numbers from the first to the last.
#[derive(Clone, Copy, Debug, PartialEq, Eq)]
pub struct HolderRange {
    pub first: HolderNo,
    /// Not below the first.
    pub last: HolderNo,
}

/// What is done between two files with records.
#[derive(Debug, PartialEq, Eq, Drop)]
pub enum Transfer {
    /// The rows of these holders are copied out of the file at the first path into a new one at the second.
    Extract(HolderRange, String, String),
    /// All rows of the file at the second path are put into the one at the first.
    Join(String, String),
}

/// The office that a desk is of, and its clock.
#[derive(Clone, Copy, Debug, PartialEq, Eq)]
pub struct Office {
    /// The country of the office.
    pub country: Country,
    /// The moment of all requests, in seconds since 1970; with none, the machine's clock is asked for each.
    /// A report, a test of a file and a replay have none.
    pub at: Option<i64>,
}

/// What the words ask for.
#[derive(Debug, PartialEq, Eq, Drop)]
pub enum Job {
    /// This is done with a desk of this office.
    AtDesk(Office, Task),
    /// The tables of the file at this path are brought to the newest version.
    Migrate(String),
    /// This is done between two files of offices of this country.
    Transfer(Country, Transfer),
}

/// Why the words ask for no job.
#[derive(Debug, Drop)]
pub enum NoJob {
    /// They ask for help or for the version, which is this text.
    Help(String),
    /// They are wrong words: this line says what was wrong.
    Wrong(String),
    /// There was no memory to read them, or for what is told of them.
    NoMemory,
}

impl From<AllocError> for NoJob {
    ghost from_gives = { λ _ e. e ≡ NoMemory };

    fn from(_error: AllocError) -> NoJob {
        NoJob::NoMemory
    }
}

/// How long a range of holders is, and where the sign between the two numbers stands.
const RANGE_SIZE: usize = 13;

const HYPHEN: usize = 6;

/// The most seconds that a read of a connection waits where the words don't say.
const USUAL_IDLE: u64 = 2;

/// The job that the words ask for; the first of them is the program's name. An error is what is told instead:
/// the text that they ask for by `--help` or `--version`, or one line on wrong words; or there was no memory.
/// Words that ask for a job are given that job, or want of memory.
pub fn read_words(alloc: Global, words: &[String]) -> Result<Job, NoJob>
    ensures job { IfOk result (AsksFor (map string_bytes words.now)) }
    ensures no_job { IfErr result (IsNoJob (map string_bytes words.now)) }
{
    let usages = Usages::new(alloc)?;
    match program(alloc, &usages)?.try_get_matches_from(words) {
        Ok(matches) => match matches.subcommand() {
            Some((name, matches)) => job_of(alloc, name, matches),
            None => Err(NoJob::NoMemory),
        },
        Err(error) => Err(no_job(alloc, &usages, &error, words)?),
    }
}

// Why `clap` found no job in the words.
fn no_job(
    alloc: Global,
    usages: &Usages,
    error: &clap::Error,
    words: &[String],
) -> Result<NoJob, AllocError>
    ensures { IfOk result (IsTold (kind_of error.now) (map string_bytes words.now)) }
{
    match error.kind() {
        ErrorKind::OutOfMemory => Err(AllocError),
        ErrorKind::InvalidSubcommand if asks_for_help_of_help(words) => Ok(NoJob::Help(program(
            alloc, usages,
        )?.render_help()?)),
        ErrorKind::DisplayHelp | ErrorKind::DisplayVersion => Ok(NoJob::Help(error.to_string(
            alloc,
        )?)),
        _ => Ok(NoJob::Wrong(what_was_wrong(alloc, error, words)?)),
    }
}

// `help --help`, whose `--help` is a command to `clap` that isn't there.
fn asks_for_help_of_help(words: &[String]) -> bool
    ensures { IsTrue result ↔ AskForHelpOfHelp (map string_bytes words.now) }
{
    has_at(words, 1, "help") && (has_at(words, 2, "--help") || has_at(words, 2, "-h"))
}

// Whether this word stands at that place.
fn has_at(words: &[String], place: usize, word: &str) -> bool
    ensures { IsTrue result ↔ (slice_get (map string_bytes words.now) place ≡ Some word.now) }
{
    match words.get(place) {
        Some(there) => there.as_str() == word,
        None => false,
    }
}

// In one line. A negative number behind an option is a wrong value, which `clap` takes for an option of its own. Where
// something is missing, a wrong value that stands beside it is told first.
fn what_was_wrong(
    alloc: Global,
    error: &clap::Error,
    words: &[String],
) -> Result<String, AllocError> {
    if let Some((option, value)) = negative_number(words) {
        return wrong_value(alloc, value, option);
    }
    if let (ErrorKind::MissingRequiredArgument, Some((option, value))) = (
        error.kind(),
        value_refused(words),
    ) {
        return wrong_value(alloc, value, option);
    }
    first_paragraph(alloc, &error.to_string(alloc)?)
}

// The first option that has a negative number behind it, and that number.
fn negative_number(words: &[String]) -> Option<(OptionRow, &str)> {
    for pair in words.windows(2) {
        let value = pair[1].as_str();
        if let Some(option) = option_named(&pair[0])
            && option.bounds().is_some()
            && is_negative(value)
        {
            return Some((option, value));
        }
    }
    None
}

// The first option that has a value behind it which it doesn't take, and that value.
fn value_refused(words: &[String]) -> Option<(OptionRow, &str)> {
    for pair in words.windows(2) {
        let value = pair[1].as_str();
        if let Some(option) = option_named(&pair[0])
            && !takes(option, value)
        {
            return Some((option, value));
        }
    }
    None
}

// The option that a word names, of whichever command.
fn option_named(word: &str) -> Option<OptionRow> {
    let name = word.strip_prefix("--")?;
    for command in all_commands() {
        for option in command.options {
            if option.name == name {
                return Some(*option);
            }
        }
    }
    None
}

// Whether the option takes this value. What a day and a report are is seen where they are read.
fn takes(option: OptionRow, value: &str) -> bool {
    match option.wanted() {
        Wanted::Country => Country::read(value.as_bytes()).is_some(),
        Wanted::Number(bounds) | Wanted::Seconds(bounds) => decimal(
            value,
            bounds.least,
            bounds.greatest,
        ).is_some(),
        Wanted::Holders => range(value).is_some(),
        Wanted::Text | Wanted::Day | Wanted::Report => true,
    }
}

// A minus sign and digits.
fn is_negative(value: &str) -> bool {
    match value.strip_prefix('-') {
        Some(digits) => !digits.is_empty() && is_digits(digits.as_bytes()),
        None => false,
    }
}

// A text up to its first empty line, as one line.
fn first_paragraph(alloc: Global, text: &str) -> Result<String, AllocError> {
    let mut line = String::new(alloc);
    for part in text.lines() {
        let part = part.trim();
        if part.is_empty() {
            break;
        }
        if !line.is_empty() {
            line.push_str(" ")?;
        }
        push_printable(&mut line, part)?;
    }
    line.push_str("\n")?;
    Ok(line)
}

// Puts a text behind the line, with a question mark for each control character, which a terminal might obey.
fn push_printable(line: &mut String, text: &str) -> Result<(), AllocError> {
    for character in text.chars() {
        line.push(if character.is_control() {
            '?'
        } else {
            character
        })?;
    }
    Ok(())
}

// The job that a command of this name is, with these options. What `clap` lets nobody ask for, as another name or no value of
// a required option, is told as want of memory here and below.
fn job_of(alloc: Global, name: &str, matches: &ArgMatches<'_>) -> Result<Job, NoJob>
    ensures job { IfOk result (IsJob name.now (rows_of (found_of matches.now))) }
    ensures none { IfErr result (IsNoneSuch (IsJob name.now (rows_of (found_of matches.now)))) }
{
    match name {
        "migrate" => Ok(Job::Migrate(file_in(alloc, matches, DB)?)),
        "extract" | "join" => {
            let transfer = transfer_in(alloc, name, matches)?;
            Ok(Job::Transfer(country_in(alloc, matches)?, transfer))
        }
        _ => {
            let task = task_in(alloc, name, matches)?;
            Ok(Job::AtDesk(office_in(alloc, matches)?, task))
        }
    }
}

// The office of a desk.
fn office_in(alloc: Global, matches: &ArgMatches<'_>) -> Result<Office, NoJob>
    ensures office { IfOk result (IsOffice (rows_of (found_of matches.now))) }
    ensures none { IfErr result (IsNoneSuch (IsOffice (rows_of (found_of matches.now)))) }
{
    Ok(Office {
        country: country_in(alloc, matches)?,
        at: moment_in(alloc, matches)?,
    })
}

// The task of that name.
fn task_in(alloc: Global, name: &str, matches: &ArgMatches<'_>) -> Result<Task, NoJob>
    ensures task { IfOk result (IsTask name.now (rows_of (found_of matches.now))) }
    ensures none { IfErr result (IsNoneSuch (IsTask name.now (rows_of (found_of matches.now)))) }
{
    match name {
        "serve" => {
            let records = records_in(alloc, matches)?;
            let listening = listening_in(alloc, matches)?;
            let journal = journal_in(alloc, matches)?;
            Ok(Task::Serve {
                listening,
                records,
                journal,
                first: has_flag(matches, FIRST),
            })
        }
        "pipe" => {
            let records = records_in(alloc, matches)?;
            let journal = journal_in(alloc, matches)?;
            Ok(Task::Pipe { records, journal })
        }
        "batch" => batch_in(alloc, matches, BatchKind::Declarations),
        "acts" => batch_in(alloc, matches, BatchKind::Acts),
        "replay" => Ok(Task::Replay {
            rows: file_in(alloc, matches, FILE)?,
            part: has_flag(matches, PART),
            records: records_in(alloc, matches)?,
        }),
        "report" => {
            let report = report_in(alloc, matches)?;
            Ok(Task::Report(report, file_in(alloc, matches, DB)?))
        }
        "check" => Ok(Task::Check(file_in(alloc, matches, DB)?)),
        _ => Err(NoJob::NoMemory),
    }
}

// What is done between two files, by that name.
fn transfer_in(alloc: Global, name: &str, matches: &ArgMatches<'_>) -> Result<Transfer, NoJob>
    ensures transfer { IfOk result (IsTransfer name.now (rows_of (found_of matches.now))) }
    ensures none { IfErr result (IsNoneSuch (IsTransfer name.now (rows_of (found_of matches.now)))) }
{
    match name {
        "extract" => {
            let holders = range_in(alloc, matches)?;
            let from = file_in(alloc, matches, DB)?;
            Ok(Transfer::Extract(holders, from, file_in(alloc, matches, INTO)?))
        }
        "join" => {
            let into = file_in(alloc, matches, DB)?;
            Ok(Transfer::Join(into, file_in(alloc, matches, WITH)?))
        }
        _ => Err(NoJob::NoMemory),
    }
}

// The batch of that kind.
fn batch_in(alloc: Global, matches: &ArgMatches<'_>, kind: BatchKind) -> Result<Task, NoJob>
    ensures task { IfOk result (IsTask (batch_name kind) (rows_of (found_of matches.now))) }
    ensures memory { IfErr result (λ e. e ≡ NoMemory) }
{
    Ok(Task::Batch {
        kind,
        rows: file_in(alloc, matches, FILE)?,
        records: file_in(alloc, matches, DB)?,
        journal: journal_in(alloc, matches)?,
    })
}

// The report that is asked for.
fn report_in(alloc: Global, matches: &ArgMatches<'_>) -> Result<ReportKind, NoJob>
    ensures report { IfOk result (IsReport (rows_of (found_of matches.now))) }
    ensures none { IfErr result (IsNoneSuch (IsReport (rows_of (found_of matches.now)))) }
{
    match value_of(matches, KIND) {
        Some("overdue") => match day_in(alloc, matches)? {
            Some(day) => Ok(ReportKind::Overdue(day)),
            None => Err(NoJob::Wrong(missing(alloc, DAY)?)),
        },
        Some("guarantees") => {
            day_in(alloc, matches)?;
            Ok(ReportKind::Guarantees)
        }
        Some(kind) => Err(NoJob::Wrong(wrong_value(alloc, kind, KIND)?)),
        None => Err(NoJob::NoMemory),
    }
}

// The day that is given, if one is.
fn day_in(alloc: Global, matches: &ArgMatches<'_>) -> Result<Option<Day>, NoJob>
    ensures day { IfOk result (MayMean ShowsDay (first_of (codes "day") (rows_of (found_of matches.now)))) }
    ensures none { IfErr result (IsNoneSuch (MayMean ShowsDay (first_of (codes "day") (rows_of (found_of matches.now))))) }
{
    let Some(text) = value_of(matches, DAY) else {
        return Ok(None);
    };
    match Day::read(text.as_bytes()) {
        Some(day) => Ok(Some(day)),
        None => Err(NoJob::Wrong(wrong_value(alloc, text, DAY)?)),
    }
}

// The holders whose rows are wanted.
fn range_in(alloc: Global, matches: &ArgMatches<'_>) -> Result<HolderRange, NoJob>
    ensures range { IfOk result (Means IsRange (first_of (codes "holders") (rows_of (found_of matches.now)))) }
    ensures none { IfErr result (IsNoneSuch (Means IsRange (first_of (codes "holders") (rows_of (found_of matches.now))))) }
{
    let text = value_of(matches, HOLDERS).unwrap_or("");
    match range(text) {
        Some(range) => Ok(range),
        None => Err(NoJob::Wrong(wrong_value(alloc, text, HOLDERS)?)),
    }
}

// The range that a text is: two numbers of holders with a hyphen between them, of which the second isn't below the first.
fn range(text: &str) -> Option<HolderRange>
    ensures is { IfSome result (IsRange text.now) }
    ensures none { result ≡ None → (range : HolderRange) → IsRange text.now range → ⊥ }
{
    let text = text.as_bytes();
    if text.len() != RANGE_SIZE || text[HYPHEN] != b'-' {
        return None;
    }
    let first = HolderNo::read(&text[..HYPHEN])?;
    let last = HolderNo::read(&text[HYPHEN + 1..])?;
    if first.number() > last.number() {
        return None;
    }
    Some(HolderRange { first, last })
}

// Where the records stand. `clap` has "false" for a `--new` that isn't there.
fn records_in(alloc: Global, matches: &ArgMatches<'_>) -> Result<Records, NoJob>
    ensures records { IfOk result (AreRecords (rows_of (found_of matches.now))) }
    ensures none { IfErr result (IsNoneSuch (AreRecords (rows_of (found_of matches.now)))) }
{
    match (value_of(matches, DB), value_of(matches, NEW)) {
        (None, Some("false")) => Ok(Records::Memory),
        (Some(path), Some("false")) => Ok(Records::File(String::from_str(alloc, path)?)),
        (Some(path), Some("true")) => Ok(Records::NewFile(String::from_str(alloc, path)?)),
        (None, Some("true")) => Err(NoJob::Wrong(missing(alloc, DB)?)),
        _ => Err(NoJob::NoMemory),
    }
}

// The path that the option has for its value.
fn file_in(alloc: Global, matches: &ArgMatches<'_>, option: OptionRow) -> Result<String, NoJob>
    ensures file { IfOk result (IsPath option.name.now (rows_of (found_of matches.now))) }
    ensures memory { IfErr result (λ e. e ≡ NoMemory) }
{
    match value_of(matches, option) {
        Some(path) => Ok(String::from_str(alloc, path)?),
        None => Err(NoJob::NoMemory),
    }
}

// Whether the flag is there. `clap` has "false" for one that isn't.
fn has_flag(matches: &ArgMatches<'_>, flag: OptionRow) -> bool
    ensures { IsFlag flag.name.now (rows_of (found_of matches.now)) result }
{
    value_of(matches, flag) == Some("true")
}

// The path of the journal, if one is kept.
fn journal_in(alloc: Global, matches: &ArgMatches<'_>) -> Result<Option<String>, NoJob>
    ensures journal { IfOk result (IsJournalPath (rows_of (found_of matches.now))) }
    ensures memory { IfErr result (λ e. e ≡ NoMemory) }
{
    match value_of(matches, JOURNAL) {
        Some(path) => Ok(Some(String::from_str(alloc, path)?)),
        None => Ok(None),
    }
}

// Where the desk is to be served.
fn listening_in(alloc: Global, matches: &ArgMatches<'_>) -> Result<Listening, NoJob>
    ensures listening { IfOk result (IsListening (rows_of (found_of matches.now))) }
    ensures none { IfErr result (IsNoneSuch (IsListening (rows_of (found_of matches.now)))) }
{
    let port = number_in(alloc, matches, PORT)?;
    let connections = number_in(alloc, matches, CONNECTIONS)?;
    let idle = idle_in(alloc, matches)?;
    Ok(Listening {
        port: port as u16,
        connections: connections as u32,
        idle: idle as u16,
    })
}

// The most seconds that a read of a connection waits.
fn idle_in(alloc: Global, matches: &ArgMatches<'_>) -> Result<u64, NoJob>
    ensures idle { IfOk result (MeansOr 2 (IsDecimal 1 3600) (first_of (codes "idle") (rows_of (found_of matches.now)))) }
    ensures none { IfErr result (IsNoneSuch (MeansOr 2 (IsDecimal 1 3600) (first_of (codes "idle") (rows_of (found_of matches.now))))) }
{
    match value_of(matches, IDLE) {
        Some(text) => number(alloc, text, IDLE),
        None => Ok(USUAL_IDLE),
    }
}

// The number that the option has for its value.
fn number_in(alloc: Global, matches: &ArgMatches<'_>, option: OptionRow) -> Result<u64, NoJob>
    ensures number { IfOk result (Means (IsWithin (bounds_of option)) (first_of option.name.now (rows_of (found_of matches.now)))) }
    ensures none { IfErr result
        (IsNoneSuch (Means (IsWithin (bounds_of option)) (first_of option.name.now (rows_of (found_of matches.now))))) }
{
    match value_of(matches, option) {
        Some(text) => number(alloc, text, option),
        None => Err(NoJob::NoMemory),
    }
}

// The number that a text is as the option takes it.
fn number(alloc: Global, text: &str, option: OptionRow) -> Result<u64, NoJob>
    ensures number { IfOk result (IsWithin (bounds_of option) text.now) }
    ensures none { IfErr result (IsNoneSuch (IsWithin (bounds_of option) text.now)) }
{
    let number = match option.bounds() {
        Some(bounds) => decimal(text, bounds.least, bounds.greatest),
        None => None,
    };
    match number {
        Some(n) => Ok(n),
        None => Err(NoJob::Wrong(wrong_value(alloc, text, option)?)),
    }
}

fn country_in(alloc: Global, matches: &ArgMatches<'_>) -> Result<Country, NoJob>
    ensures country { IfOk result (λ country. IsCountryIn (rows_of (found_of matches.now)) country) }
    ensures none { IfErr result (IsNoneSuch (IsCountryIn (rows_of (found_of matches.now)))) }
{
    let text = value_of(matches, COUNTRY).unwrap_or("");
    match Country::read(text.as_bytes()) {
        Some(country) => Ok(country),
        None => Err(NoJob::Wrong(wrong_value(alloc, text, COUNTRY)?)),
    }
}

fn moment_in(alloc: Global, matches: &ArgMatches<'_>) -> Result<Option<i64>, NoJob>
    ensures moment { IfOk result (MayMean ShowsMoment (first_of (codes "at") (rows_of (found_of matches.now)))) }
    ensures none { IfErr result (IsNoneSuch (MayMean ShowsMoment (first_of (codes "at") (rows_of (found_of matches.now))))) }
{
    match value_of(matches, AT) {
        Some(text) => Ok(Some(number(alloc, text, AT)? as i64)),
        None => Ok(None),
    }
}

// The first value of the option.
fn value_of<'a>(matches: &ArgMatches<'a>, option: OptionRow) -> Option<&'a str>
    ensures { option_map (λ s. s.now) result ≡ first_of option.name.now (rows_of (found_of matches.now)) }
{
    matches.get_str(option.name)
}

// The number that the digits write, from the least to the greatest: none for a text that has anything but digits.
fn decimal(text: &str, least: u64, greatest: u64) -> Option<u64>
    ensures { SomeIff result (IsDecimal least greatest text.now (digits_value text.now)) (digits_value text.now) }
{
    if !is_digits(text.as_bytes()) {
        return None;
    }
    match text.parse::<u64>() {
        Ok(n) if n >= least && n <= greatest => Some(n),
        _ => None,
    }
}

// What is told of a value that the option doesn't take, in one line.
fn wrong_value(alloc: Global, value: &str, option: OptionRow) -> Result<String, AllocError> {
    let wanted = option.wanted();
    let told = format!(in alloc;
        "error: invalid value '{value}' for '{option}': it must be {wanted}"
    )?;
    first_paragraph(alloc, &told)
}

// What is told of an option that has to stand beside others and doesn't, as `clap` tells of one that isn't there.
fn missing(alloc: Global, option: OptionRow) -> Result<String, AllocError> {
    format!(in alloc; "error: the following required arguments were not provided: {option}\n")
}
