//! The desk's program: `td_cli` on the machine's own input and outputs.
#![tactic(auto)]

use sqlite::Unknown;
use std::process::ExitCode;
use td_base::Counted;
use td_cli::{DeskFile, HostDrive, run_program, words_of};

fn main(rt: HostRuntime) -> ExitCode {
    let mut input = Counted::new(rt.stdin());
    let mut out = Counted::new(rt.stdout());
    let mut errors = Counted::new(rt.stderr());
    let mut file = DeskFile::new(HostDrive::new(&rt, Unknown));
    let mut other = DeskFile::new(HostDrive::new(&rt, Unknown));
    let words = words_of(&rt);
    let status = run_program(
        &rt,
        words,
        &mut file,
        &mut other,
        &mut input,
        &mut out,
        &mut errors,
    );
    file.close();
    other.close();
    ExitCode::from(status)
}
