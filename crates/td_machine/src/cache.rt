//! How many pages of a file the database keeps in memory as it read them.
ghost use Rattle.std.specs.Prelude.{◌≡◌, ◌≤◌, ◌/◌, max, min, IfOk};

use std::fs::{self, File};
use std::io::{self, Read};

// So many bytes of pages are kept at most, and at least so many: what the database keeps by itself of the pages of 4,096 bytes that
// a desk's file has.
const MOST_BYTES: u64 = 33_554_432;

const FEWEST_BYTES: u64 = 8_192_000;

// The bytes of a page, in SQLite's file format: no fewer, no more, and of a desk's file.
const SMALLEST_PAGE: u16 = 512;

const LARGEST_PAGE: u32 = 65_536;

const USUAL_PAGE: u32 = 4096;

// The first bytes of a database: the last two say how many bytes a page has, the higher one first, and 1 for the largest.
const HEADER_BYTES: usize = 18;

// The bytes of a page of the database in a file, as its header says.
fn page_bytes(rt: &HostRuntime, path: &str) -> io::Result<u32>
    ensures smallest { IfOk result (λ page. 512 ≤ page) }
    ensures largest { IfOk result (λ page. page ≤ 65536) }
{
    let mut header = [0; HEADER_BYTES];
    File::open(rt, path)?.read_exact(&mut header)?;
    match u16::from_be_bytes([header[16], header[17]]) {
        1 => Ok(LARGEST_PAGE),
        bytes => Ok(u32::from(bytes.max(SMALLEST_PAGE))),
    }
}

// How many pages are kept of a file of so many bytes, with pages of so many bytes.
fn pages_of(bytes: u64, page: u32) -> usize
    requires { 1 ≤ page }
    ensures value { result ≡ min 33554432 (max 8192000 bytes) / page }
    ensures fewest { page ≤ 65536 → 125 ≤ result }
    ensures most { 512 ≤ page → result ≤ 65536 }
{
    (bytes.max(FEWEST_BYTES).min(MOST_BYTES) / u64::from(page)) as usize
}

/// How many pages of the database in the file at the path are kept in memory: all that it has, but no more than 32 MiB of them and
/// no fewer than 8,192,000 bytes. What isn't there, or is no file, or none whose header can be read, gets the fewest of the usual
/// pages. The file is opened and closed here, so this is asked before the database locks it: a program's locks on a file end where
/// it closes the file once.
pub(crate) fn cached_pages(rt: &HostRuntime, path: &str) -> usize
    ensures fewest { 125 ≤ result }
    ensures most { result ≤ 65536 }
{
    match fs::metadata(rt, path) {
        Ok(file) if file.is_file() => {
            pages_of(file.len(), page_bytes(rt, path).unwrap_or(USUAL_PAGE))
        }
        _ => pages_of(0, USUAL_PAGE),
    }
}
