//! The last day, and laws. (Days that are read and printed, those of moments, and later ones stand in the transcripts.)
use std::process::Abort;
use td_time::*;

/// The last day, so many days more, and their sum.
const SUMS: [(i64, u32, Option<i64>); 2] = [(47_846, 0, Some(47_846)), (47_846, 1, None)];

// None where the first number is no day's.
fn sum(number: i64, days: u32) -> Option<Option<i64>> {
    let later = Day::new(number)?.plus_days(days);
    Some(later.map(|day| day.number()))
}

#[test]
fn days_later(rt: HostRuntime) {
    for (number, days, wanted) in &SUMS {
        assert!(rt; sum(*number, *days) == Some(*wanted), "{number} {days}");
    }
    day_reads_back(Day::new(47_846).expect(&rt, "a day"));
    days_begin_and_end();
}
