//! What a job of the program is lent.
use sqlite_disk::Disk;
use td_base::Counted;
use td_files::OneFile;
use td_machine::Drive;

/// What a job is lent: the machine, the files that the words name, the input and both outputs. Each is lent for as long as it is,
/// which is why it has so many lifetimes.
#[derive(Drop)]
pub(crate) struct Context<'m, 'f, 'g, 'i, 'o, 'e, M, V, S: Disk, O, T: Disk, R, W, E> {
    /// Its clock is asked, its files of rows are read, and its ports are listened on.
    pub machine: &'m mut M,
    /// The desk's file: the one that the words name first. A job opens it at its path, and hands back a connection to it.
    pub file: &'f mut OneFile<V, S>,
    /// The other file: that of `--into`, of `--with` or of `--journal`.
    pub other: &'g mut OneFile<O, T>,
    /// Read by a stream, and by a standby desk.
    pub input: &'i mut Counted<R>,
    /// Replies, result files, reports, and texts that were asked for.
    pub out: &'o mut Counted<W>,
    /// What is wrong with the words, or one line for a fault. A text that can't be written there is dropped.
    pub errors: &'e mut Counted<E>,
}

/// What a job is lent whose files stand on drives.
pub(crate) type JobContext<'m, 'f, 'g, 'i, 'o, 'e, M, V, O, R, W, E> = Context<
    'm,
    'f,
    'g,
    'i,
    'o,
    'e,
    M,
    V,
    <V as Drive>::Disk,
    O,
    <O as Drive>::Disk,
    R,
    W,
    E,
>;
