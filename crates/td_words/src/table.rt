//! The table of the command line: each command with its options and its usage, and what help says of them.
ghost use Rattle.std.specs.Prelude.{◌≡◌, map};
ghost use Rattle.td_words.specs.Commands.{bounds_of, row_shape, wanted_of};
ghost use Rattle.td_words.specs.Words.{commands};

use std::fmt;

/// The least number that a value may be, and the greatest.
#[derive(Clone, Copy, Debug)]
pub(crate) struct Bounds {
    pub least: u64,
    pub greatest: u64,
}

/// What the value of an option must be.
#[derive(Clone, Copy, Debug)]
pub(crate) enum Wanted {
    /// Any text, as a path.
    Text,
    Country,
    Number(Bounds),
    Seconds(Bounds),
    Day,
    Holders,
    Report,
}

/// How an option stands among the words. A value has a name, by which it is shown.
#[derive(Clone, Copy, Debug)]
pub(crate) enum Form {
    /// Its name alone, as `--new`.
    Flag,
    /// Its name and a value behind it, as `--port <N>`.
    Named(&'static str, Wanted),
    /// A value alone, as `<KIND>`.
    Word(&'static str, Wanted),
}

/// A row of an option.
#[derive(Clone, Copy, Debug)]
pub(crate) struct OptionRow {
    pub name: &'static str,
    pub form: Form,
    /// Without it the words are wrong.
    pub needed: bool,
    /// What help says of it.
    pub help: &'static str,
}

/// A part of a usage.
#[derive(Clone, Copy, Debug)]
pub(crate) enum Part {
    /// An option.
    One(OptionRow),
    /// An option that may be left out, and a flag that may stand beside it alone.
    Nested(OptionRow, OptionRow),
}

/// A row of a command.
#[derive(Clone, Copy, Debug)]
pub(crate) struct CommandRow {
    pub name: &'static str,
    /// What help says of it.
    pub about: &'static str,
    /// Its options, in the order in which help lists them.
    pub options: &'static [OptionRow],
    /// The same options, in the order of its usage.
    pub usage: &'static [Part],
}

pub(crate) const COUNTRY: OptionRow = OptionRow {
    name: "country",
    form: Form::Named("CC", Wanted::Country),
    needed: true,
    help: "The country of the office, two capital letters",
};

/// The file with the records, of a job that has to have one.
pub(crate) const DB: OptionRow = OptionRow {
    name: "db",
    form: Form::Named("FILE", Wanted::Text),
    needed: true,
    help: "The file with the records, an SQLite database",
};

/// The same, of a job that has its records in memory where it is left out.
const DB_OR_MEMORY: OptionRow = OptionRow {
    needed: false,
    help: "The file with the records, an SQLite database; else they are in memory",
    ..DB
};

const TESTED_DB: OptionRow = OptionRow {
    help: "The file that is tested",
    ..DB
};

const MIGRATED_DB: OptionRow = OptionRow {
    help: "The file whose tables are brought to it",
    ..DB
};

const JOINED_DB: OptionRow = OptionRow {
    help: "The file that the rows are put into",
    ..DB
};

/// The flag that has the tables made first. That it needs a file is seen where its value is read.
pub(crate) const NEW: OptionRow = OptionRow {
    name: "new",
    form: Form::Flag,
    needed: false,
    help: "Makes the desk's tables in the file first",
};

pub(crate) const AT: OptionRow = OptionRow {
    name: "at",
    form: Form::Named(
        "SECONDS",
        Wanted::Seconds(Bounds {
            least: 0,
            greatest: 9_223_372_036_854_775_807,
        }),
    ),
    needed: false,
    help: "The moment of all requests, in seconds since 1970; else the clock is asked",
};

pub(crate) const JOURNAL: OptionRow = OptionRow {
    name: "journal",
    form: Form::Named("CSV", Wanted::Text),
    needed: false,
    help: "The file of the journal of accepted changes; else none is kept",
};

pub(crate) const PORT: OptionRow = OptionRow {
    name: "port",
    form: Form::Named(
        "N",
        Wanted::Number(Bounds {
            least: 1,
            greatest: 65_535,
        }),
    ),
    needed: true,
    help: "The port of 127.0.0.1 that is listened on, from 1 to 65535",
};

pub(crate) const CONNECTIONS: OptionRow = OptionRow {
    name: "connections",
    form: Form::Named(
        "K",
        Wanted::Number(Bounds {
            least: 1,
            greatest: 1_000_000,
        }),
    ),
    needed: true,
    help: "How many connections are served, from 1 to 1000000",
};

pub(crate) const IDLE: OptionRow = OptionRow {
    name: "idle",
    form: Form::Named(
        "SECONDS",
        Wanted::Seconds(Bounds {
            least: 1,
            greatest: 3600,
        }),
    ),
    needed: false,
    help: "The most seconds that a connection is waited for, from 1 to 3600; else 2",
};

/// The flag by which the rows of a journal are done before the port is opened.
pub(crate) const FIRST: OptionRow = OptionRow {
    name: "first",
    form: Form::Flag,
    needed: false,
    help: "Does the rows of a journal from standard input before the port is opened",
};

/// The file with the rows of a batch.
pub(crate) const FILE: OptionRow = OptionRow {
    name: "file",
    form: Form::Named("CSV", Wanted::Text),
    needed: true,
    help: "The file with the rows, as CSV",
};

const REPLAYED_FILE: OptionRow = OptionRow {
    help: "The journal",
    ..FILE
};

/// The flag by which numbers may be left out.
pub(crate) const PART: OptionRow = OptionRow {
    name: "part",
    form: Form::Flag,
    needed: false,
    help: "The rows are a part of a journal, as one holder's: numbers may be left out",
};

/// Which report is asked for.
pub(crate) const KIND: OptionRow = OptionRow {
    name: "kind",
    form: Form::Word("KIND", Wanted::Report),
    needed: true,
    help: "The report: overdue or guarantees",
};

pub(crate) const DAY: OptionRow = OptionRow {
    name: "day",
    form: Form::Named("D", Wanted::Day),
    needed: false,
    help: "The day of the report, as 2025-03-01; overdue has to have it",
};

pub(crate) const HOLDERS: OptionRow = OptionRow {
    name: "holders",
    form: Form::Named("FIRST-LAST", Wanted::Holders),
    needed: true,
    help: "The numbers of the first holder and the last, as 000001-000400",
};

pub(crate) const INTO: OptionRow = OptionRow {
    name: "into",
    form: Form::Named("NEW", Wanted::Text),
    needed: true,
    help: "The file that is made, which may be there if it has no tables",
};

pub(crate) const WITH: OptionRow = OptionRow {
    name: "with",
    form: Form::Named("FILE", Wanted::Text),
    needed: true,
    help: "The file with the rows, which keeps them",
};

/// The options of the two jobs that do the rows of a file, and their usage.
const BATCH_OPTIONS: &[OptionRow] = &[COUNTRY, DB, FILE, AT, JOURNAL];

const BATCH_USAGE: &[Part] = &[
    Part::One(COUNTRY),
    Part::One(DB),
    Part::One(FILE),
    Part::One(JOURNAL),
    Part::One(AT),
];

// The rows of the commands.
const COMMANDS: &[CommandRow] = &[
    CommandRow {
        name: "serve",
        about: "Serves connections to a port of this machine, one after another",
        options: &[
            COUNTRY,
            DB_OR_MEMORY,
            NEW,
            AT,
            JOURNAL,
            PORT,
            CONNECTIONS,
            IDLE,
            FIRST,
        ],
        usage: &[
            Part::One(COUNTRY),
            Part::One(PORT),
            Part::One(CONNECTIONS),
            Part::One(IDLE),
            Part::One(FIRST),
            Part::Nested(DB_OR_MEMORY, NEW),
            Part::One(JOURNAL),
            Part::One(AT),
        ],
    },
    CommandRow {
        name: "pipe",
        about: "Serves one stream of HTTP requests, from standard input to standard output",
        options: &[COUNTRY, DB_OR_MEMORY, NEW, AT, JOURNAL],
        usage: &[
            Part::One(COUNTRY),
            Part::Nested(DB_OR_MEMORY, NEW),
            Part::One(JOURNAL),
            Part::One(AT),
        ],
    },
    CommandRow {
        name: "batch",
        about: "Does the declarations of a file, and prints what became of each",
        options: BATCH_OPTIONS,
        usage: BATCH_USAGE,
    },
    CommandRow {
        name: "acts",
        about: "Does the acts of an office in a file, and prints what became of each",
        options: BATCH_OPTIONS,
        usage: BATCH_USAGE,
    },
    CommandRow {
        name: "replay",
        about: "Does the rows of a journal again, each at its moment, and prints the replies",
        options: &[COUNTRY, DB_OR_MEMORY, NEW, REPLAYED_FILE, PART],
        usage: &[
            Part::One(COUNTRY),
            Part::One(REPLAYED_FILE),
            Part::One(PART),
            Part::Nested(DB_OR_MEMORY, NEW),
        ],
    },
    CommandRow {
        name: "report",
        about: "Prints what is overdue on a day, or all guarantees",
        options: &[COUNTRY, KIND, DB, DAY],
        usage: &[
            Part::One(KIND),
            Part::One(COUNTRY),
            Part::One(DB),
            Part::One(DAY),
        ],
    },
    CommandRow {
        name: "check",
        about: "Tests whether a desk of the country can be opened over a file",
        options: &[COUNTRY, TESTED_DB],
        usage: &[Part::One(COUNTRY), Part::One(TESTED_DB)],
    },
    CommandRow {
        name: "migrate",
        about: "Brings the tables of a file to the newest version",
        options: &[MIGRATED_DB],
        usage: &[Part::One(MIGRATED_DB)],
    },
    CommandRow {
        name: "extract",
        about: "Copies the rows of a range of holders out of a file into a new one",
        options: &[COUNTRY, DB, HOLDERS, INTO],
        usage: &[
            Part::One(COUNTRY),
            Part::One(DB),
            Part::One(HOLDERS),
            Part::One(INTO),
        ],
    },
    CommandRow {
        name: "join",
        about: "Puts all rows of a file into another that has none of its holders",
        options: &[COUNTRY, JOINED_DB, WITH],
        usage: &[Part::One(COUNTRY), Part::One(JOINED_DB), Part::One(WITH)],
    },
];

/// The commands, in the order in which help lists them.
pub(crate) fn all_commands() -> &'static [CommandRow]
    ensures { map row_shape result.now ≡ commands }
{
    COMMANDS
}

impl OptionRow {
    /// What its value must be. A flag has its value from `clap`.
    pub(crate) fn wanted(self) -> Wanted
        ensures { result ≡ wanted_of self }
    {
        match self.form {
            Form::Flag => Wanted::Text,
            Form::Named(_, wanted) | Form::Word(_, wanted) => wanted,
        }
    }

    /// The bounds of its value, where that is a number.
    pub(crate) fn bounds(self) -> Option<Bounds>
        ensures { result ≡ bounds_of self }
    {
        match self.wanted() {
            Wanted::Number(bounds) | Wanted::Seconds(bounds) => Some(bounds),
            Wanted::Text | Wanted::Country | Wanted::Day | Wanted::Holders | Wanted::Report => None,
        }
    }
}

impl fmt::Display for Wanted {
    fn fmt<W: fmt::Write>(&self, f: &mut fmt::Formatter<W>) -> fmt::Result {
        match self {
            Wanted::Text => f.write_str("a text"),
            Wanted::Country => f.write_str("two capital letters"),
            Wanted::Number(bounds) => write!(f, "a whole number {bounds}"),
            Wanted::Seconds(bounds) => write!(f, "a whole number of seconds {bounds}"),
            Wanted::Day => f.write_str("a day from 2000-01-01 to 2100-12-31, written so"),
            Wanted::Holders => f.write_str("two numbers of holders, as 000001-000400"),
            Wanted::Report => f.write_str("overdue or guarantees"),
        }
    }
}

impl fmt::Display for Bounds {
    fn fmt<W: fmt::Write>(&self, f: &mut fmt::Formatter<W>) -> fmt::Result {
        write!(f, "from {} to {}", self.least, self.greatest)
    }
}

/// An option as usage and errors show it.
impl fmt::Display for OptionRow {
    fn fmt<W: fmt::Write>(&self, f: &mut fmt::Formatter<W>) -> fmt::Result {
        match self.form {
            Form::Flag => write!(f, "--{}", self.name),
            Form::Named(value, _) => write!(f, "--{} <{value}>", self.name),
            Form::Word(value, _) => write!(f, "<{value}>"),
        }
    }
}

/// A part of a usage, with brackets round what may be left out.
impl fmt::Display for Part {
    fn fmt<W: fmt::Write>(&self, f: &mut fmt::Formatter<W>) -> fmt::Result {
        match self {
            Part::One(option) if option.needed => write!(f, "{option}"),
            Part::One(option) => write!(f, "[{option}]"),
            Part::Nested(option, flag) => write!(f, "[{option} [{flag}]]"),
        }
    }
}
