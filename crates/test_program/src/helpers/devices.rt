//! A reader for the tests.
use std::io;
use std::io::Read;

/// Gives the bytes one a read, and then the end.
#[derive(Drop)]
pub struct Drip<'a> {
    pub left: &'a [u8],
}

impl Read for Drip<'_> {
    fn read(&mut self, buf: &mut [u8]) -> io::Result<usize> {
        match self.left {
            [first, rest @ ..] if !buf.is_empty() => {
                buf[0] = *first;
                self.left = rest;
                Ok(1)
            }
            _ => Ok(0),
        }
    }
}
