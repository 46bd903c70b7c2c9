//! Texts of ASCII characters: the classes of their characters, and numbers in digits.
#![tactic(auto)]

mod digits;
mod text;

pub use digits::{last_digit, read_digits, write_digits};
pub use text::{is_capitals, is_digits, is_marks, write_ascii};
