//! The words of the command line: what they ask for, help, and one clear line for wrong ones.
#![tactic(auto)]

mod laws;
mod options;
mod table;
mod words;

pub use laws::words_ask_for_one_job;
pub use words::{
    BatchKind, HolderRange, Job, Listening, NoJob, Office, Records, ReportKind, Task, Transfer,
    read_words,
};
