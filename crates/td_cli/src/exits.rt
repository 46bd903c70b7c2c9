//! How a job ends: well, with status 0 and no word, or by a cause, with status 1 and one line on standard error. Each cause is a row.
ghost use Rattle.std.specs.Prelude.{◌≡◌, Some, IfOk, MatchResult, string_bytes};
ghost use Rattle.td_cli.specs.Exits.{IsEnded, IsWrittenOut, cause_line, of_file, of_follow, of_join, of_journal, of_report, of_rows, of_serving, of_standby, of_start, of_stop, of_stream, of_read_error, word_line};
ghost use Rattle.td_cli.specs.declared.exits.Cause.TheVariants.{BadCsv, BadRow, Differs, ForeignRow, HolderExists, NeedsMigration};
ghost use Rattle.td_cli.specs.declared.exits.Word.TheVariants.{Damaged, NoMemory};

use std::alloc::{AllocError, Global};
use std::io::Write;
use td_base::{Counted, HolderNo, write_whole};
use td_batch::BatchFault;
use td_desk::Fault;
use td_files::{DeskFault, JoinRefusal, OpenFault};
use td_http::StreamEnd;
use td_jobs::{RowsFault, ServingEnd};
use td_journal_jobs::{FollowFault, StartFault};
use td_journal_rows::JournalFault;
use td_machine::ReadError;
use td_reports::ReportFault;
use td_table_model::Rule;

/// The status of a job that is done.
const DONE: u8 = 0;
/// The status of a job that a fault ended, or in which a row was refused.
const FAULT: u8 = 1;
/// The status of wrong words.
pub(crate) const WRONG_WORDS: u8 = 2;

/// Why a job ended by a fault.
#[derive(Clone, Copy, Debug, PartialEq, Eq)]
pub enum Cause {
    /// A file of rows: its first bad row, and in it the first bad column.
    BadCsv { row: u64, column: u32 },
    /// A file has a desk's tables of this earlier version.
    NeedsMigration(u32),
    /// A file that rows are put into has this holder already.
    HolderExists(HolderNo),
    /// The row of a journal with this number isn't of the desk, or isn't the one behind the row before it.
    ForeignRow(u64),
    /// The line of a journal with this number, counted from 1, is no row of a change.
    BadRow(u64),
    /// What is said to the row of a journal with this number isn't what it has.
    Differs(u64),
    /// A row of a batch was refused: the result file tells of it, and nothing else is told.
    RowsRefused,
    /// A cause whose line is fixed.
    Of(Word),
}

/// A cause whose line is fixed.
#[derive(Clone, Copy, Debug, PartialEq, Eq)]
pub enum Word {
    /// A file isn't there, can't be opened or read, or is no database.
    File,
    /// A file has no desk's tables of a version that is known.
    UnknownVersion,
    /// A file has a desk of another country.
    OtherCountry,
    /// The rows of a file break this rule first.
    Damaged(Rule),
    /// The last line of a journal is no row of a change.
    Journal,
    /// The database answered an error, or has other tables than a desk's; another program has the file open; or a journal's file failed.
    Store,
    /// Want of memory.
    NoMemory,
    /// The output couldn't be written.
    Write,
    /// The port couldn't be listened on, or no further connection came.
    Socket,
    /// What came is no whole request.
    StreamRefused,
    /// The input ended within a request.
    StreamCut,
    /// A stream had as many reads as it may have.
    ReadsSpent,
    /// The input couldn't be read.
    ReadFault,
    /// A reply couldn't be written.
    WriteFault,
    /// A request failed, which ended the stream.
    StreamFailed,
}

/// Why there is no desk over a file.
pub(crate) fn of_file(why: DeskFault) -> Cause
    ensures { result ≡ of_file why }
{
    match why {
        DeskFault::File => Cause::Of(Word::File),
        DeskFault::Refused(OpenFault::UnknownVersion) => Cause::Of(Word::UnknownVersion),
        DeskFault::Refused(OpenFault::NeedsMigration(version)) => Cause::NeedsMigration(version),
        DeskFault::Refused(OpenFault::OtherCountry) => Cause::Of(Word::OtherCountry),
        DeskFault::Refused(OpenFault::Damaged(rule)) => Cause::Of(Word::Damaged(rule)),
        DeskFault::Refused(OpenFault::Store) => Cause::Of(Word::Store),
        DeskFault::Refused(OpenFault::NoMemory) => Cause::Of(Word::NoMemory),
        DeskFault::BadJournal => Cause::Of(Word::Journal),
        DeskFault::ForeignRow(row) => Cause::ForeignRow(row),
    }
}

/// Why a journal wasn't begun.
pub(crate) fn of_start(why: StartFault) -> DeskFault
    ensures { result ≡ of_start why }
{
    match why {
        StartFault::BadJournal => DeskFault::BadJournal,
        StartFault::ForeignRow { row } => DeskFault::ForeignRow(row),
        StartFault::NoMemory => DeskFault::Refused(OpenFault::NoMemory),
        StartFault::Store => DeskFault::Refused(OpenFault::Store),
    }
}

/// Why the lines of a journal weren't read as rows.
pub(crate) fn of_journal(why: JournalFault) -> Cause
    ensures { result ≡ of_journal why }
{
    match why {
        JournalFault::BadRow { row } => Cause::BadRow(row),
        JournalFault::NoMemory => Cause::Of(Word::NoMemory),
    }
}

/// Why a stream ended otherwise than well.
pub(crate) fn of_stream(end: StreamEnd) -> Option<Cause>
    ensures { result ≡ of_stream end }
{
    match end {
        StreamEnd::Closed | StreamEnd::Asked | StreamEnd::Served => None,
        StreamEnd::Refused => Some(Cause::Of(Word::StreamRefused)),
        StreamEnd::Cut => Some(Cause::Of(Word::StreamCut)),
        StreamEnd::ReadsSpent => Some(Cause::Of(Word::ReadsSpent)),
        StreamEnd::ReadFault => Some(Cause::Of(Word::ReadFault)),
        StreamEnd::WriteFault => Some(Cause::Of(Word::WriteFault)),
        StreamEnd::Failed => Some(Cause::Of(Word::StreamFailed)),
    }
}

/// Why a serving ended otherwise than well.
pub(crate) fn of_serving(end: ServingEnd) -> Option<Cause>
    ensures { result ≡ of_serving end }
{
    match end {
        ServingEnd::Done => None,
        ServingEnd::NoMemory => Some(Cause::Of(Word::NoMemory)),
        ServingEnd::Socket => Some(Cause::Of(Word::Socket)),
        ServingEnd::Write => Some(Cause::Of(Word::Write)),
    }
}

/// Why a journal that came by the input wasn't followed to its end.
fn of_follow(why: FollowFault) -> Cause
    ensures { result ≡ of_follow why }
{
    match why {
        FollowFault::BadRow(row) => Cause::BadRow(row),
        FollowFault::Misplaced(row) => Cause::ForeignRow(row),
        FollowFault::Differs(row) => Cause::Differs(row),
        FollowFault::Unread => Cause::Of(Word::ReadFault),
        FollowFault::Failed(Fault::NoMemory) => Cause::Of(Word::NoMemory),
        FollowFault::Failed(Fault::Store) => Cause::Of(Word::Store),
    }
}

/// Why a standby desk ended otherwise than well.
pub(crate) fn of_standby(end: Result<ServingEnd, FollowFault>) -> Option<Cause>
    ensures { result ≡ of_standby end }
{
    match end {
        Ok(end) => of_serving(end),
        Err(why) => Some(of_follow(why)),
    }
}

/// Why a file of the machine wasn't read.
pub(crate) fn of_read_error(why: ReadError) -> Cause
    ensures { result ≡ of_read_error why }
{
    match why {
        ReadError::File => Cause::Of(Word::File),
        ReadError::NoMemory => Cause::Of(Word::NoMemory),
    }
}

/// Why there are no rows of a file.
pub(crate) fn of_rows(why: RowsFault) -> Cause
    ensures { result ≡ of_rows why }
{
    match why {
        RowsFault::File(why) => of_read_error(why),
        RowsFault::Bytes(BatchFault::BadCsv { row, column }) => Cause::BadCsv { row, column },
        RowsFault::Bytes(BatchFault::NoMemory) => Cause::Of(Word::NoMemory),
    }
}

/// Why a batch stopped at a row.
pub(crate) fn of_stop(why: Fault) -> Cause
    ensures { result ≡ of_stop why }
{
    match why {
        Fault::NoMemory => Cause::Of(Word::NoMemory),
        Fault::Store => Cause::Of(Word::Store),
    }
}

/// Why no rows were put into a file.
pub(crate) fn of_join(why: JoinRefusal) -> Cause
    ensures { result ≡ of_join why }
{
    match why {
        JoinRefusal::File(why) => of_file(why),
        JoinRefusal::HolderExists(holder) => Cause::HolderExists(holder),
    }
}

/// Why a report isn't whole.
pub(crate) fn of_report(why: ReportFault) -> Cause
    ensures { result ≡ of_report why }
{
    match why {
        ReportFault::Write => Cause::Of(Word::Write),
        ReportFault::Store => Cause::Of(Word::Store),
        ReportFault::NoMemory => Cause::Of(Word::NoMemory),
    }
}

// The line of a broken rule.
fn rule_line(rule: Rule) -> &'static str
    ensures { result.now ≡ word_line (Damaged rule) }
{
    match rule {
        Rule::S1 => "transit-desk: damaged S1\n",
        Rule::S2 => "transit-desk: damaged S2\n",
        Rule::S3 => "transit-desk: damaged S3\n",
        Rule::S4 => "transit-desk: damaged S4\n",
        Rule::S5 => "transit-desk: damaged S5\n",
        Rule::S6 => "transit-desk: damaged S6\n",
        Rule::S7 => "transit-desk: damaged S7\n",
        Rule::S8 => "transit-desk: damaged S8\n",
    }
}

impl Word {
    // Its line.
    fn line(self) -> &'static str
        ensures { result.now ≡ word_line self }
    {
        match self {
            Word::File => "transit-desk: file\n",
            Word::UnknownVersion => "transit-desk: unknown-version\n",
            Word::OtherCountry => "transit-desk: other-country\n",
            Word::Damaged(rule) => rule_line(rule),
            Word::Journal => "transit-desk: journal\n",
            Word::Store => "transit-desk: store\n",
            Word::NoMemory => "transit-desk: no-memory\n",
            Word::Write => "transit-desk: write\n",
            Word::Socket => "transit-desk: socket\n",
            Word::StreamRefused => "transit-desk: stream refused\n",
            Word::StreamCut => "transit-desk: stream cut\n",
            Word::ReadsSpent => "transit-desk: stream reads-spent\n",
            Word::ReadFault => "transit-desk: stream read-fault\n",
            Word::WriteFault => "transit-desk: stream write-fault\n",
            Word::StreamFailed => "transit-desk: stream failed\n",
        }
    }
}

// Tells a line, as much of it as is taken.
fn tell<E: Write>(line: &str, errors: &mut Counted<E>)
    ensures { IsWrittenOut E.contents errors.old errors.new line.now }
{
    let _told = write_whole(errors, line.as_bytes());
}

// Tells a line that was made, or that there was no memory for it.
fn tell_made<E: Write>(line: Result<String, AllocError>, errors: &mut Counted<E>)
    ensures { MatchResult line (λ line. IsWrittenOut E.contents errors.old errors.new (string_bytes line))
        (λ why. IsWrittenOut E.contents errors.old errors.new (word_line NoMemory)) }
{
    match line {
        Ok(line) => tell(&line, errors),
        Err(_) => tell(Word::NoMemory.line(), errors),
    }
}

fn bad_csv_line(alloc: Global, row: u64, column: u32) -> Result<String, AllocError>
    ensures { IfOk result (λ line. string_bytes line ≡ cause_line (BadCsv row column)) }
{
    format!(in alloc; "transit-desk: bad csv row {row} column {column}\n")
}

fn needs_migration_line(alloc: Global, version: u32) -> Result<String, AllocError>
    ensures { IfOk result (λ line. string_bytes line ≡ cause_line (NeedsMigration version)) }
{
    format!(in alloc; "transit-desk: needs-migration {version}\n")
}

fn holder_exists_line(alloc: Global, holder: HolderNo) -> Result<String, AllocError>
    ensures { IfOk result (λ line. string_bytes line ≡ cause_line (HolderExists holder)) }
{
    format!(in alloc; "transit-desk: holder-exists {holder}\n")
}

fn foreign_row_line(alloc: Global, row: u64) -> Result<String, AllocError>
    ensures { IfOk result (λ line. string_bytes line ≡ cause_line (ForeignRow row)) }
{
    format!(in alloc; "transit-desk: journal {row}\n")
}

fn bad_row_line(alloc: Global, row: u64) -> Result<String, AllocError>
    ensures { IfOk result (λ line. string_bytes line ≡ cause_line (BadRow row)) }
{
    format!(in alloc; "transit-desk: bad journal row {row}\n")
}

fn differs_line(alloc: Global, row: u64) -> Result<String, AllocError>
    ensures { IfOk result (λ line. string_bytes line ≡ cause_line (Differs row)) }
{
    format!(in alloc; "transit-desk: differs {row}\n")
}

/// Tells the cause, and gives its status.
pub(crate) fn fault<E: Write>(alloc: Global, cause: Cause, errors: &mut Counted<E>) -> u8
    ensures { IsEnded E.contents (Some cause) errors.old errors.new result }
{
    match cause {
        Cause::BadCsv { row, column } => tell_made(bad_csv_line(alloc, row, column), errors),
        Cause::NeedsMigration(version) => tell_made(needs_migration_line(alloc, version), errors),
        Cause::HolderExists(holder) => tell_made(holder_exists_line(alloc, holder), errors),
        Cause::ForeignRow(row) => tell_made(foreign_row_line(alloc, row), errors),
        Cause::BadRow(row) => tell_made(bad_row_line(alloc, row), errors),
        Cause::Differs(row) => tell_made(differs_line(alloc, row), errors),
        Cause::RowsRefused => {}
        Cause::Of(word) => tell(word.line(), errors),
    }
    FAULT
}

/// Tells the cause that ended a job, if any, and gives its status.
pub(crate) fn exit<E: Write>(alloc: Global, cause: Option<Cause>, errors: &mut Counted<E>) -> u8
    ensures { IsEnded E.contents cause errors.old errors.new result }
{
    match cause {
        None => DONE,
        Some(cause) => fault(alloc, cause, errors),
    }
}
