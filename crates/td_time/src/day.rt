//! Days.
ghost use Rattle.std.specs.Prelude.{◌≡◌, ℕ, ◌+◌, ◌%◌, ◌≤◌, ◌∷◌, ◌++◌, pos, Some, SomeIff, IfSome};
ghost use Rattle.jiff.specs.Words.{epoch_day};
ghost use Rattle.ascii_text.specs.Digits.{fixed_decimal};
ghost use Rattle.td_time.specs.Days.{IsDay, IsDayText, IsDateOfDesk, day_number, day_at, day_of_moment, day_read, day_text, number_in, year_of, month_of, day_of};

use crate::moment::Moment;
use ascii_text::{last_digit, read_digits, write_ascii};
use jiff::ToSpan;
use jiff::civil::{Date, date};
use std::fmt;
use std::marker::Model;

/// A day from 2000-01-01 to 2100-12-31. Contracts see it as its number from 1970-01-01. It is printed as
/// `2025-03-01`.
#[derive(Clone, Copy, Debug, PartialEq, Eq, PartialOrd, Ord)]
pub struct Day {
    number: u32,
}

impl Model for Day {
    ghost use Rattle.std.specs.Prelude.{ℕ};
    ghost use Rattle.td_time.specs.Days.{IsDay};

    ghost Value = { ℕ };

    ghost view = { λ d. d.number };

    ghost invariant = { λ d. IsDay d.number };

    ghost inverse = { λ n. record { number = n } };
}

impl Day {
    /// The day of that number from 1970-01-01: `None` outside 10957 (2000-01-01) to 47846 (2100-12-31).
    pub fn new(number: i64) -> Option<Self>
        ensures { result ≡ day_at number }
    {
        if number < 10_957 || number > 47_846 {
            return None;
        }
        Some(Day {
            number: number as u32,
        })
    }

    /// Reads exactly four digits, `-`, two digits, `-` and two digits that name a day of these years.
    pub fn read(text: &[u8]) -> Option<Self>
        ensures value { result ≡ day_read text.now }
        ensures form { SomeIff result (IsDayText text.now) (number_in text.now) }
    {
        if text.len() != 10 || text[4] != b'-' || text[7] != b'-' {
            return None;
        }
        let year = read_digits(&text[..4])?;
        let month = read_digits(&text[5..7])?;
        let day = read_digits(&text[8..])?;
        Some(Day {
            number: number_of(year, month, day)?,
        })
    }

    /// The number of the day from 1970-01-01.
    pub fn number(self) -> i64
        ensures value { result ≡ pos self }
        ensures range { IsDay self }
    {
        i64::from(self.number)
    }

    /// The UTC day of a moment.
    pub fn of_moment(moment: Moment) -> Self
        ensures { result ≡ day_of_moment moment }
    {
        Day {
            number: (moment.get() / 86_400) as u32,
        }
    }

    /// The day so many days later: `None` after 2100-12-31.
    pub fn plus_days(self, days: u32) -> Option<Self>
        ensures { SomeIff result (IsDay (self + days)) (self + days) }
    {
        Day::new(i64::from(self.number) + i64::from(days))
    }

    /// The last two digits of the year.
    pub fn year2(self) -> u8
        ensures { result ≡ year_of self % 100 }
    {
        let civil = civil_of(self.number);
        (civil.year % 100) as u8
    }
}

impl fmt::Display for Day {
    ghost output = { λ d. Some (day_text d) };

    fn fmt<W: fmt::Write>(&self, f: &mut fmt::Formatter<W>) -> fmt::Result {
        let civil = civil_of(self.number);
        let text = text_of(&civil);
        write_ascii(f, &text)
    }
}

/// The text that is printed for a day is read back as that day.
pub fn day_reads_back(day: Day)
    ensures form { IsDayText (day_text day) }
    ensures value { number_in (day_text day) ≡ day }
{
    let _civil = civil_of(day.number);
}

/// The numbers of days are those from 2000-01-01 to 2100-12-31.
pub fn days_begin_and_end()
    ensures first { day_number 2000 1 1 ≡ 10957 }
    ensures last { day_number 2100 12 31 ≡ 47846 }
{}

// The number of a date in the years of the desk.
fn number_of(year: u64, month: u64, day: u64) -> Option<u32>
    requires { (year ≤ 9999) × (month ≤ 99) × (day ≤ 99) }
    ensures value { SomeIff result (IsDateOfDesk year month day) (day_number year month day) }
    ensures range { IfSome result IsDay }
{
    if year < 2000 || year > 2100 {
        return None;
    }
    match Date::new(year as i16, month as i8, day as i8) {
        Ok(date) => Some(date.to_plain().to_unix_epoch_day().unsigned_abs()),
        Err(_) => None,
    }
}

// A date of the calendar.
#[derive(Drop)]
struct Civil {
    year: u64,
    month: u64,
    day: u64,
}

// The date of a day's number.
fn civil_of(number: u32) -> Civil
    requires { IsDay number }
    ensures year { result.year ≡ year_of number }
    ensures month { result.month ≡ month_of number }
    ensures day { result.day ≡ day_of number }
    ensures date { IsDateOfDesk result.year result.month result.day }
    ensures number { day_number result.year result.month result.day ≡ number }
{
    let date = date_of(number);
    Civil {
        year: u64::from(date.year().unsigned_abs()),
        month: u64::from(date.month().unsigned_abs()),
        day: u64::from(date.day().unsigned_abs()),
    }
}

// Ten characters, as `2025-03-01`.
fn text_of(civil: &Civil) -> [u8; 10]
    ensures { result
        ≡ fixed_decimal 4 civil.now.year
        ++ 45 ∷ fixed_decimal 2 civil.now.month
        ++ 45 ∷ fixed_decimal 2 civil.now.day }
{
    [
        last_digit(civil.year / 1000),
        last_digit(civil.year / 100),
        last_digit(civil.year / 10),
        last_digit(civil.year),
        b'-',
        last_digit(civil.month / 10),
        last_digit(civil.month),
        b'-',
        last_digit(civil.day / 10),
        last_digit(civil.day),
    ]
}

// The same as jiff has it.
fn date_of(number: u32) -> Date
    requires { number ≤ 47846 }
    ensures { epoch_day result ≡ pos number }
{
    date(1970, 1, 1)
        .checked_add(i64::from(number).days())
        .unwrap()
}
