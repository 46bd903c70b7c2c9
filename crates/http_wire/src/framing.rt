//! Where a request's body ends, and whether the stream goes on after it (HTTP/1.1: RFC 9112, sections 6 and 9).
ghost use Rattle.std.specs.Prelude.{◌≡◌, ◌<◌, ◌≤◌, IsTrue, length, map, reverse, All};
ghost use Rattle.std.specs.List.{list_all};
ghost use Rattle.std.specs.Str.Parse.{digits_value};
ghost use Rattle.std.specs.Char.{to_ascii_lowercase, is_ascii_digit};
ghost use Rattle.httparse.specs.Grammar.{skip_ows, trim_ows};
ghost use Rattle.httparse.specs.Spans.{IsHeaderWithin, header_bytes};
ghost use Rattle.http_wire.specs.Framing.{values_of, AreValues, body_length, length_in, is_named, is_close, lists_close, closes};

use httparse::is_space_or_tab;
use httparse::spans::HeaderSpan;

/// The most bytes of a body.
pub const MAX_BODY: usize = 65_536;

/// Why the framing of a request is refused.
#[derive(Clone, Copy, Debug, PartialEq, Eq)]
pub enum FramingError {
    /// The head isn't one of HTTP/1.x, or has more than 64 fields.
    BadHead,
    /// The head has more than 8,192 bytes.
    HeadTooLarge,
    /// The body is sent in a coding.
    TransferEncoding,
    /// More than one `Content-Length`, or one that isn't a number.
    BadLength,
    /// The body has more than 65,536 bytes.
    BodyTooLarge,
}

/// The values of the fields of one name: none, the one, or more.
#[derive(Clone, Copy, Debug)]
pub enum Values<'b> {
    Missing,
    One(&'b [u8]),
    Many,
}

/// Whether a field has that name, in letters of either case.
fn is_field(buf: &[u8], header: &HeaderSpan, name: &[u8]) -> bool
    requires within { IsHeaderWithin (length buf.now) header.now }
    ensures { result ≡ is_named (map to_ascii_lowercase name.now) (header_bytes buf.now header.now) }
{
    header.name.of(buf).eq_ignore_ascii_case(name)
}

/// The values of the fields of that name, which is in small letters.
fn find_values<'b>(buf: &'b [u8], headers: &[HeaderSpan], name: &[u8]) -> Values<'b>
    requires within { All (IsHeaderWithin (length buf.now)) headers.now }
    ensures { AreValues result (values_of (map to_ascii_lowercase name.now) (map (header_bytes buf.now) headers.now)) }
{
    let mut found: Option<&[u8]> = None;
    for header in headers {
        if is_field(buf, header, name) {
            if found.is_some() {
                return Values::Many;
            }
            found = Some(header.value.of(buf));
        }
    }
    match found {
        None => Values::Missing,
        Some(value) => Values::One(value),
    }
}

/// The number that the digits write, or one above the most bytes of a body where theirs is.
fn capped_value(text: &[u8]) -> usize
    requires { IsTrue (list_all is_ascii_digit text.now) }
    ensures exact { result ≤ 65536 → result ≡ digits_value 10 text.now }
    ensures above { 65536 < result → 65536 < digits_value 10 text.now }
{
    let mut sum: usize = 0;
    for digit in text {
        if sum <= MAX_BODY {
            sum = sum * 10 + usize::from(*digit - b'0');
        }
    }
    sum
}

fn has_only_digits(text: &[u8]) -> bool
    ensures { result ≡ list_all is_ascii_digit text.now }
{
    text.iter().all(|digit| digit.is_ascii_digit())
}

/// The length that a lone value says.
#[tactic(auto, unfolding(crate::specs::Framing::length_in))]
fn read_length(text: &[u8]) -> Result<usize, FramingError>
    ensures { result ≡ length_in text.now }
{
    if text.is_empty() || !has_only_digits(text) {
        return Err(FramingError::BadLength);
    }
    let value = capped_value(text);
    if value <= MAX_BODY {
        Ok(value)
    } else {
        Err(FramingError::BodyTooLarge)
    }
}

/// The length of the body that the fields of a head say.
pub fn read_body_length(buf: &[u8], headers: &[HeaderSpan]) -> Result<usize, FramingError>
    requires within { All (IsHeaderWithin (length buf.now)) headers.now }
    ensures { result ≡ body_length (map (header_bytes buf.now) headers.now) }
{
    if !matches!(
        find_values(buf, headers, b"transfer-encoding"),
        Values::Missing
    ) {
        return Err(FramingError::TransferEncoding);
    }
    match find_values(buf, headers, b"content-length") {
        Values::Missing => Ok(0),
        Values::One(text) => read_length(text),
        Values::Many => Err(FramingError::BadLength),
    }
}

fn trim_start(mut text: &[u8]) -> &[u8]
    ensures { result.now ≡ skip_ows text.now }
{
    while let [first, rest @ ..] = text
        && is_space_or_tab(*first)
    {
        text = rest;
    }
    text
}

fn trim_end(mut text: &[u8]) -> &[u8]
    ensures { result.now ≡ reverse (skip_ows (reverse text.now)) }
{
    while let [rest @ .., last] = text
        && is_space_or_tab(*last)
    {
        text = rest;
    }
    text
}

/// Whether a member of a `Connection` field, which may have spaces and tabs around it, is `close`.
fn is_close(member: &[u8]) -> bool
    ensures { result ≡ is_close member.now }
{
    trim_end(trim_start(member)).eq_ignore_ascii_case(b"close")
}

/// Whether the value of a `Connection` field has the member `close`.
fn has_close(value: &[u8]) -> bool
    ensures { result ≡ lists_close value.now }
{
    value.split(|byte| *byte == b',').any(is_close)
}

/// Whether a head asks that the stream stop after the reply: it is of HTTP/1.0, or a `Connection` field says
/// `close`.
pub fn asks_close(buf: &[u8], headers: &[HeaderSpan], minor: u8) -> bool
    requires within { All (IsHeaderWithin (length buf.now)) headers.now }
    ensures { result ≡ closes minor (map (header_bytes buf.now) headers.now) }
{
    if minor == 0 {
        return true;
    }
    for header in headers {
        if is_field(buf, header, b"connection") && has_close(header.value.of(buf)) {
            return true;
        }
    }
    false
}
