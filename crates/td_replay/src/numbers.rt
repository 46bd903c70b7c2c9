//! The numbers of rows.
ghost use Rattle.std.specs.Prelude.{◌≡◌, ◌↔◌, IfSome, None, map};
ghost use Rattle.td_journal_lines.specs.Rows.{numbered};
ghost use Rattle.td_replay.specs.Numbers.{AreCounted, AreRising, IsFirstNot};

use td_journal_lines::ChangeRow;

/// The number of the first row that isn't one above the row before it, as the first row's is above 0: a whole journal has none
/// such.
pub fn first_gap(rows: &[ChangeRow]) -> Option<u64>
    ensures none { result ≡ None ↔ AreCounted 1 (map numbered rows.now) }
    ensures gap { IfSome result (IsFirstNot (AreCounted 1) (map numbered rows.now)) }
{
    let mut before = 0;
    for row in rows {
        if row.number.checked_sub(1) != Some(before) {
            return Some(row.number);
        }
        before = row.number;
    }
    None
}

/// The number of the first row that isn't above the row before it: a holder's part of a journal has none such.
pub fn first_fall(rows: &[ChangeRow]) -> Option<u64>
    ensures none { result ≡ None ↔ AreRising (map numbered rows.now) }
    ensures fall { IfSome result (IsFirstNot AreRising (map numbered rows.now)) }
{
    let (first, others) = rows.split_first()?;
    let mut before = first.number;
    for row in others {
        if row.number <= before {
            return Some(row.number);
        }
        before = row.number;
    }
    None
}
