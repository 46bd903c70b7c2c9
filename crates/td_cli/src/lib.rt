//! The desk's program over any reader and writers: the jobs that the words of the command line ask for. The
//! program itself only hands the machine's own in.
#![tactic(auto)]

mod at_desk;
mod batch_laws;
mod batching;
mod checking;
mod context;
mod exits;
mod jobs;
mod journaling;
mod laws;
mod migrating;
mod part_laws;
mod program;
mod replaying;
mod reporting;
mod run_laws;
mod serving;
mod telling;
mod transferring;
mod upgrade_laws;
mod work_laws;

pub use batch_laws::{
    a_batch_cut_short_is_sent_again, acknowledged_rows_are_kept_in_the_file,
    agreeing_batches_over_files_tell_the_same, runs_over_one_file_lead_on,
};
pub use jobs::{perform, perform_on};
pub use laws::{
    agreeing_jobs_over_files_tell_the_same, agreeing_jobs_tell_the_same,
    agreeing_servings_over_files_tell_the_same, agreeing_servings_tell_the_same,
    agreeing_work_tells_the_same,
};
pub use part_laws::holders_go_on_where_their_rows_go;
pub use program::{run_program, words_of};
pub use run_laws::{
    acknowledged_connections_are_kept_in_the_file, acknowledged_replies_are_kept_in_the_file,
    runs_over_one_file_are_one_run,
};
pub use td_files::DeskFile;
pub use td_machine::{Drive, FixedClock, HostDrive, HostMachine, Machine, MachineClock};
pub use upgrade_laws::an_upgraded_file_goes_on_with_its_content;
pub use work_laws::work_over_one_file_is_one_machines;
