//! Runs of the program that the built one can't show: on a machine in memory, of which all is known, and beside want of memory. The
//! worked rows of the requirements are transcripts, which `tests/transcripts` runs on the program that was built. The crate has tests
//! alone: for its tests a crate is proved again, whole, and these need none of the program's private names.
#![tactic(auto)]

#[cfg(test)]
mod helpers;
#[cfg(test)]
mod runs;
