//! Check digits.
ghost use Rattle.std.specs.Prelude.{◌≡◌, ◌≤◌, ◌%◌, ◌==◌, not, filter, SomeIff, IfSome};
ghost use Rattle.std.specs.List.{range_with_len};
ghost use Rattle.ascii_text.specs.Digits.{IsMark};
ghost use Rattle.td_base.specs.References.{letter_values, value_of, check_of, IsCheckable};

/// The check digit of a text by ISO 6346: the sum of each character's value times 2 to its place from the left,
/// modulo 11, with 10 written 0. `None` for another character than a digit or a capital letter, and for more
/// than 40 of them.
pub fn check_digit(text: &[u8]) -> Option<u8>
    ensures { SomeIff result (IsCheckable text.now) (check_of text.now) }
{
    if text.len() > 40 {
        return None;
    }
    let mut sum: u64 = 0;
    let mut weight: u64 = 1;
    for c in text {
        sum += u64::from(value(*c)?) * weight;
        weight *= 2;
    }
    let rest = (sum % 11) as u8;
    Some(if rest == 10 { 0 } else { rest })
}

/// The letters have the numbers from 10 to 38 in order, but for the multiples of 11.
pub fn letter_values_skip_elevens()
    ensures { letter_values ≡ filter (λ n. not (n % 11 == 0)) (range_with_len 10 29) }
{}

// The value of a character in the sum.
fn value(c: u8) -> Option<u8>
    ensures value { SomeIff result (IsMark c) (value_of c) }
    ensures small { IfSome result (λ v. v ≤ 38) }
{
    match c {
        b'0'..=b'9' => Some(c - b'0'),
        b'A'..=b'Z' => {
            // one is left out behind A, behind K and behind U
            let letter = c - b'A';
            Some(10 + letter + (letter + 9) / 10)
        }
        _ => None,
    }
}
