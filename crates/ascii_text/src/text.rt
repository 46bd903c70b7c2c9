//! Texts kept as ASCII bytes.
ghost use Rattle.std.specs.Prelude.{◌≡◌, ◌↔◌, IsTrue, All};
ghost use Rattle.std.specs.Char.{IsAsciiDigit, IsAsciiUppercase, is_ascii_digit, is_ascii_uppercase};
ghost use Rattle.std.specs.List.{list_all};
ghost use Rattle.std.specs.Str.{IsAscii};
ghost use Rattle.std.specs.Fmt.{WritesOnOk};
ghost use Rattle.ascii_text.specs.Digits.{IsMark, is_mark};

use std::fmt;

/// Writes ASCII bytes as text. The error is that of the formatter.
pub fn write_ascii<W: fmt::Write>(f: &mut fmt::Formatter<W>, bytes: &[u8]) -> fmt::Result
    requires { IsAscii bytes.now }
    ensures { WritesOnOk W.write_str_gives f.old result bytes.now f.new }
{
    // each reply prints many such texts, and that they are UTF-8 is proved: no test is needed
    let text = unsafe { std::str::from_utf8_unchecked(bytes) };
    f.write_str(text)
}

/// Whether all of it is digits.
pub fn is_digits(text: &[u8]) -> bool
    ensures value { result ≡ list_all is_ascii_digit text.now }
    ensures digits { IsTrue result ↔ All IsAsciiDigit text.now }
{
    text.iter().all(|c| c.is_ascii_digit())
}

/// Whether all of it is capital letters.
pub fn is_capitals(text: &[u8]) -> bool
    ensures value { result ≡ list_all is_ascii_uppercase text.now }
    ensures capitals { IsTrue result ↔ All IsAsciiUppercase text.now }
{
    text.iter().all(|c| c.is_ascii_uppercase())
}

/// Whether all of it is digits or capital letters.
pub fn is_marks(text: &[u8]) -> bool
    ensures value { result ≡ list_all is_mark text.now }
    ensures marks { IsTrue result ↔ All IsMark text.now }
{
    text.iter()
        .all(|c| c.is_ascii_digit() || c.is_ascii_uppercase())
}
