//! What a job leaves, and what it has to leave.
use super::comparing::{assert_equal, assert_text};
use std::alloc::{AllocError, Global};
use std::test::Fail;

/// What a job left: its status, and what it wrote.
#[derive(Drop)]
pub struct Done {
    pub status: u8,
    pub out: Vec<u8>,
    pub errors: Vec<u8>,
}

/// What a job has to leave.
#[derive(Clone, Copy)]
pub struct Due<'a> {
    pub status: u8,
    pub out: &'a [u8],
    pub errors: &'a [u8],
}

impl<'a> Due<'a> {
    /// Of a job that is done: these replies, and no message.
    pub fn replies(out: &'a [u8]) -> Due<'a> {
        Due {
            status: 0,
            out,
            errors: b"",
        }
    }
}

/// These words, as a program has them.
pub fn words_of(alloc: Global, words: &[&str]) -> Result<Vec<String>, AllocError> {
    let mut owned = Vec::new(alloc);
    for word in words {
        owned.push(String::from_str(alloc, word)?)?;
    }
    Ok(owned)
}

/// The job left what is due.
pub fn assert_due(done: &Done, due: Due<'_>) -> Result<(), Fail> {
    assert_text(&done.out, due.out)?;
    assert_equal(&done.status, &due.status)?;
    assert_text(&done.errors, due.errors)
}
