//! The ranges of serials in which a holder's rows are read, so that no list of rows grows with what a holder has.
ghost use Rattle.std.specs.Prelude.{◌≡◌, ◌+◌, ◌<◌, min};

// So many serials are in a range: as many movements or guarantees are held at once, and at most 99 times as many lines, and 20
// times as many codes.
const AT_ONCE: u32 = 50;

/// The serial behind the range that begins at `first`, of ranges up to below `end`: a range has at most 50 serials.
pub fn range_end(first: u32, end: u32) -> u32
    ensures { first < end → result ≡ min (first + AT_ONCE) end }
{
    first.saturating_add(AT_ONCE).min(end)
}
