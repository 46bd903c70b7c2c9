//! The laws at the types of the program and of the tests: there is nothing to run.
use crate::helpers::devices::Drip;
use sqlite::{FileFrom, Unknown};
use td_cli::{
    FixedClock, a_batch_cut_short_is_sent_again, acknowledged_connections_are_kept_in_the_file,
    acknowledged_replies_are_kept_in_the_file, acknowledged_rows_are_kept_in_the_file,
    agreeing_batches_over_files_tell_the_same, agreeing_jobs_over_files_tell_the_same,
    agreeing_jobs_tell_the_same, agreeing_servings_over_files_tell_the_same,
    agreeing_servings_tell_the_same, agreeing_work_tells_the_same,
    an_upgraded_file_goes_on_with_its_content, holders_go_on_where_their_rows_go,
    runs_over_one_file_are_one_run, runs_over_one_file_lead_on, work_over_one_file_is_one_machines,
};
use td_desk::PlainDesk;
use td_http::{
    acknowledged_replies_are_kept, agreeing_streams_tell_the_same, equal_requests_are_told_the_same,
};
use td_machine::MemoryMachine;

#[test]
fn laws_hold_at_concrete_types() {
    agreeing_streams_tell_the_same::<
        &[u8],
        Vec<u8>,
        FixedClock,
        PlainDesk,
        Drip<'_>,
        Vec<u8>,
        FixedClock,
        PlainDesk,
    >();
    equal_requests_are_told_the_same::<PlainDesk, PlainDesk>();
    agreeing_jobs_tell_the_same::<&[u8], Vec<u8>, FixedClock, Drip<'_>, Vec<u8>, FixedClock>();
    agreeing_servings_tell_the_same::<MemoryMachine, FixedClock, MemoryMachine, MemoryMachine>();
    agreeing_jobs_over_files_tell_the_same::<
        &[u8],
        Vec<u8>,
        FixedClock,
        FileFrom<Unknown>,
        Drip<'_>,
        Vec<u8>,
        FixedClock,
        FileFrom<Unknown>,
    >();
    agreeing_servings_over_files_tell_the_same::<
        MemoryMachine,
        FixedClock,
        FileFrom<Unknown>,
        MemoryMachine,
        MemoryMachine,
        FileFrom<Unknown>,
    >();
    runs_over_one_file_are_one_run::<
        &[u8],
        Vec<u8>,
        MemoryMachine,
        FixedClock,
        FileFrom<Unknown>,
        FileFrom<Unknown>,
    >();
    acknowledged_replies_are_kept::<&[u8], Vec<u8>, FixedClock, PlainDesk>();
    acknowledged_replies_are_kept_in_the_file::<&[u8], Vec<u8>, FixedClock, FileFrom<Unknown>>();
    acknowledged_connections_are_kept_in_the_file::<
        MemoryMachine,
        MemoryMachine,
        FileFrom<Unknown>,
    >();
}

#[test]
fn laws_of_batches_hold_at_concrete_types() {
    agreeing_batches_over_files_tell_the_same::<
        MemoryMachine,
        FileFrom<Unknown>,
        FixedClock,
        FileFrom<Unknown>,
    >();
    acknowledged_rows_are_kept_in_the_file::<FileFrom<Unknown>>();
    a_batch_cut_short_is_sent_again::<FileFrom<Unknown>, FileFrom<Unknown>>();
    runs_over_one_file_lead_on::<FileFrom<Unknown>>();
    work_over_one_file_is_one_machines::<FileFrom<Unknown>, FileFrom<Unknown>>();
    agreeing_work_tells_the_same();
    holders_go_on_where_their_rows_go::<FileFrom<Unknown>>();
    an_upgraded_file_goes_on_with_its_content::<FileFrom<Unknown>>();
}
