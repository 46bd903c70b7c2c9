//! Streams that come byte by byte and end at the very last of the 100,000 reads.
use super::ends::{OK, Same, Still};
use counted_io::Counted;
use http_wire::{StreamEnd, serve_requests};
use std::alloc::Global;
use std::io;
use std::io::{ErrorKind, Read};

/// What a reader does at its last call.
#[derive(Clone, Copy, PartialEq, Eq)]
enum Last {
    /// It gives one byte more, and so at each call after it.
    Gives,
    /// It has come to its end.
    Ends,
    Fails,
}

/// Gives the bytes of a request over and over, one a read, until its 100,000th call.
#[derive(Drop)]
struct Repeats<'a> {
    request: &'a [u8],
    left: &'a [u8],
    calls: u32,
    last: Last,
}

impl Repeats<'_> {
    fn next(&mut self) -> Option<u8> {
        let (first, rest) = self.left.split_first().or(self.request.split_first())?;
        self.left = rest;
        Some(*first)
    }
}

impl Read for Repeats<'_> {
    fn read(&mut self, buf: &mut [u8]) -> io::Result<usize> {
        self.calls = self.calls.saturating_add(1);
        if self.calls >= 100_000 && self.last == Last::Ends {
            return Ok(0);
        }
        if self.calls >= 100_000 && self.last == Last::Fails {
            return Err(ErrorKind::Other.into());
        }
        let ([place, ..], Some(byte)) = (buf, self.next()) else {
            return Ok(0);
        };
        *place = byte;
        Ok(1)
    }
}

/// 123 bytes: 813 of them are 99,999 bytes.
const WHOLE_AT_THE_END: &[u8] =
    b"GET / HTTP/1.1\r\nX: aaaaaaaaaaaaaaaaaaaaaaaaaaaaaaaaaaaaaaaaaaaaaaaaaaaaaaaaaaaaaaaaaaaaaaaaaaaaaaaaaaaaaaaaaaaaaaaaaaaa\r\n\r\n";

/// 125 bytes: the 100,000th read brings the last byte of the 800th.
const WHOLE_AT_THE_LAST: &[u8] =
    b"GET / HTTP/1.1\r\nX: aaaaaaaaaaaaaaaaaaaaaaaaaaaaaaaaaaaaaaaaaaaaaaaaaaaaaaaaaaaaaaaaaaaaaaaaaaaaaaaaaaaaaaaaaaaaaaaaaaaaaa\r\n\r\n";

/// Requests, what the last read does, how the stream ends, and how many requests are answered.
const ROWS: [(&[u8], Last, StreamEnd, usize); 6] = [
    (WHOLE_AT_THE_END, Last::Ends, StreamEnd::Closed, 813),
    (WHOLE_AT_THE_END, Last::Fails, StreamEnd::ReadFault, 813),
    (WHOLE_AT_THE_END, Last::Gives, StreamEnd::ReadsSpent, 813),
    (WHOLE_AT_THE_LAST, Last::Ends, StreamEnd::Cut, 799),
    (WHOLE_AT_THE_LAST, Last::Fails, StreamEnd::ReadFault, 799),
    (WHOLE_AT_THE_LAST, Last::Gives, StreamEnd::ReadsSpent, 800),
];

/// How a stream ends, how many bytes are written, and how many reads are made.
fn serve(alloc: Global, request: &[u8], last: Last) -> (StreamEnd, usize, u64) {
    let mut reader = Counted::new(Repeats {
        request,
        left: &[],
        calls: 0,
        last,
    });
    let mut writer = Counted::new(Vec::new(alloc));
    let end = serve_requests(alloc, &mut reader, &mut writer, &mut Still(0), &mut Same);
    (end, writer.into_inner().len(), reader.calls())
}

/// Whether a row is as it says.
fn is_so(alloc: Global, row: &(&[u8], Last, StreamEnd, usize)) -> bool {
    let (request, last, end, answered) = row;
    let (how, written, reads) = serve(alloc, request, *last);
    how == *end && written == OK.len().saturating_mul(*answered) && reads == 100_000
}

#[test]
fn the_last_read_is_told(rt: HostRuntime) {
    for row in &ROWS {
        assert!(rt; is_so(rt.alloc(), row));
    }
}
