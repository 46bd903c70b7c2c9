//! Examples of the calls below the desk, of the desk, of requests, answers, streams and connections, and of the words,
//! each worked by hand, where no transcript can show them. What a run of the program shows stands in the transcripts
//! (tests/transcripts.d), which are data: each test and each helper here is proved. The crate has tests alone: for its
//! tests a crate is proved again, whole, and these need none of their crates' private names.
#![tactic(auto)]

#[cfg(test)]
mod answers;
#[cfg(test)]
mod connections;
#[cfg(test)]
mod counted_calls;
#[cfg(test)]
mod desks;
#[cfg(test)]
mod examples;
#[cfg(test)]
mod guarantees;
#[cfg(test)]
mod holder_files;
#[cfg(test)]
mod journal;
#[cfg(test)]
mod money;
#[cfg(test)]
mod movements;
#[cfg(test)]
mod path_rows;
#[cfg(test)]
mod requests;
#[cfg(test)]
mod rows_by_key;
#[cfg(test)]
mod streams;
#[cfg(test)]
mod time;
#[cfg(test)]
mod verdicts;
#[cfg(test)]
mod vocabulary;
#[cfg(test)]
mod words;
