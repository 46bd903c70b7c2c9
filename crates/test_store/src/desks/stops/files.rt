//! Two files in memory, of which one stops at some call, as where the power fails, and what that may leave of them.
use sqlite::{Connection, FileStore, Files, Options};
use sqlite_disk::{Crash, Disk, Fuse, Memory};
use std::process::Abort;

/// A file that takes so many calls, and fails at each one after.
pub type Fused = Fuse<Memory>;

pub type FusedFiles = Files<Fused>;

pub type FileConnection = Connection<FileStore<Fused>>;

/// How many calls each of the two files takes.
#[derive(Clone, Copy)]
pub struct Calls {
    log: u64,
    db: u64,
}

impl Calls {
    /// More than are made here.
    pub const ALL: Calls = Calls {
        log: u64::MAX,
        db: u64::MAX,
    };
}

/// The file that stops.
#[derive(Clone, Copy, Debug)]
pub enum File {
    Log,
    Database,
}

impl File {
    /// It takes so many calls, and the other one all.
    pub fn takes(self, calls: u64) -> Calls {
        match self {
            File::Log => Calls {
                log: calls,
                ..Calls::ALL
            },
            File::Database => Calls {
                db: calls,
                ..Calls::ALL
            },
        }
    }
}

/// What the two files hold.
#[derive(Drop)]
pub struct Contents {
    pub log: Vec<u8>,
    pub db: Vec<u8>,
}

/// What a crash leaves of what was written and not synced.
#[derive(Clone, Copy, Debug)]
pub enum Left {
    /// None of it.
    Nothing,
    /// All of it, as where the program alone ends.
    All,
    /// What lies before the middle of what differs.
    Front,
    /// What lies behind it.
    Back,
    /// Other bytes in the place of each that differs.
    Junk,
}

/// What a file held as it was synced last, and what it holds.
#[derive(Drop)]
struct Image {
    synced: Vec<u8>,
    written: Vec<u8>,
}

fn copy_of(rt: &(impl AllocGlobal + Abort), bytes: &[u8]) -> Vec<u8> {
    let mut copy = Vec::new(rt.alloc());
    copy.extend_from_slice(bytes).expect(rt, "memory");
    copy
}

/// Two files that were never written.
pub fn blank(rt: &impl AllocGlobal) -> Contents {
    Contents {
        log: Vec::new(rt.alloc()),
        db: Vec::new(rt.alloc()),
    }
}

fn disk_of(rt: &(impl AllocGlobal + Abort), bytes: &[u8], calls: u64) -> Fused {
    let mut disk = Memory::new(rt.alloc());
    disk.write_at(0, bytes).expect(rt, "memory");
    assert!(rt; disk.may_be_used());
    disk.sync().expect(rt, "memory");
    Fuse::new(disk, calls)
}

/// Opens the database in two files that hold this. An error has what is left of them.
pub fn opened(
    rt: &(impl AllocGlobal + Abort),
    contents: &Contents,
    calls: Calls,
) -> Result<FileConnection, FusedFiles> {
    let log = disk_of(rt, &contents.log, calls.log);
    let db = disk_of(rt, &contents.db, calls.db);
    assert!(rt; log.may_be_used() && db.may_be_used());
    match Connection::open_files(rt.alloc(), Files { log, db }, Options::new(7)) {
        Ok(conn) => Ok(conn),
        Err((_, left)) => Err(left.into_files()),
    }
}

/// The two files of a connection that is closed, and whether that was done to its end.
pub fn closed(conn: FileConnection) -> (FusedFiles, bool) {
    match conn.close_files() {
        Ok(files) => (files, true),
        Err((_, store)) => (store.close(), false),
    }
}

fn image_of(rt: &(impl AllocGlobal + Abort), disk: &mut Fused) -> Image {
    let written = copy_of(rt, disk.inner().bytes());
    disk.crash();
    Image {
        synced: copy_of(rt, disk.inner().bytes()),
        written,
    }
}

fn differs(image: &Image, at: usize) -> bool {
    image.synced.get(at) != image.written.get(at)
}

fn first_difference(image: &Image) -> usize {
    let length = image.written.len();
    for at in 0..length {
        if differs(image, at) {
            return at;
        }
    }
    length
}

fn last_difference(image: &Image) -> usize {
    let mut last = 0;
    for at in 0..image.written.len() {
        if differs(image, at) {
            last = at;
        }
    }
    last
}

// The middle of what differs.
fn middle(image: &Image) -> usize {
    let (first, last) = (first_difference(image), last_difference(image));
    (first / 2).saturating_add(last / 2)
}

// Past the end of what was synced a byte that wasn't written is nought.
fn byte_left(image: &Image, at: usize, middle: usize, left: Left) -> u8 {
    let old = image.synced.get(at).copied().unwrap_or(0);
    let new = image.written.get(at).copied().unwrap_or(0);
    match left {
        Left::Nothing => old,
        Left::All => new,
        Left::Front if at < middle => new,
        Left::Back if at >= middle => new,
        Left::Front | Left::Back => old,
        Left::Junk if differs(image, at) => !new,
        Left::Junk => new,
    }
}

fn bytes_left(rt: &(impl AllocGlobal + Abort), image: &Image, left: Left) -> Vec<u8> {
    let length = match left {
        Left::Nothing => image.synced.len(),
        _ => image.written.len(),
    };
    let middle = middle(image);
    let mut bytes = Vec::new(rt.alloc());
    for at in 0..length {
        bytes
            .push(byte_left(image, at, middle, left))
            .expect(rt, "memory");
    }
    bytes
}

/// What the crash of two files leaves of them, in each way in which it may.
#[derive(Drop)]
pub struct Crashed {
    log: Image,
    db: Image,
}

impl Crashed {
    /// The files have stopped, or the program has ended.
    pub fn new(rt: &(impl AllocGlobal + Abort), mut files: FusedFiles) -> Self {
        Crashed {
            log: image_of(rt, &mut files.log),
            db: image_of(rt, &mut files.db),
        }
    }

    /// Whether all that was written was synced, so that one way is as the others.
    pub fn is_synced(&self) -> bool {
        self.log.synced.as_slice() == self.log.written.as_slice()
            && self.db.synced.as_slice() == self.db.written.as_slice()
    }

    /// What the two files hold where this is left of each.
    pub fn contents(&self, rt: &(impl AllocGlobal + Abort), log: Left, db: Left) -> Contents {
        Contents {
            log: bytes_left(rt, &self.log, log),
            db: bytes_left(rt, &self.db, db),
        }
    }
}
