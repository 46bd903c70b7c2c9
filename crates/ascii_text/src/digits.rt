//! Numbers in digits.
ghost use Rattle.std.specs.Prelude.{◌≡◌, ◌+◌, ◌%◌, ◌^◌, ◌<◌, ◌≤◌, length, All, SomeIff, IfSome};
ghost use Rattle.std.specs.Char.{IsAsciiDigit};
ghost use Rattle.ascii_text.specs.Digits.{digits_value, fixed_decimal};

/// The number that a text of at most 18 digits shows, 0 for no digit: `None` for another character.
pub fn read_digits(text: &[u8]) -> Option<u64>
    requires { length text.now ≤ 18 }
    ensures value { SomeIff result (All IsAsciiDigit text.now) (digits_value text.now) }
    ensures small { IfSome result (λ n. n < 10 ^ length text.now) }
{
    let mut number: u64 = 0;
    for c in text {
        if !c.is_ascii_digit() {
            return None;
        }
        number = 10 * number + u64::from(*c - b'0');
    }
    Some(number)
}

/// The last digit of a number, as its ASCII character.
pub fn last_digit(number: u64) -> u8
    ensures { result ≡ 48 + number % 10 }
{
    b'0' + (number % 10) as u8
}

/// Fills the bytes with the last digits of a number in ASCII, zeros in front of a short one.
pub fn write_digits(bytes: &mut [u8], number: u64)
    ensures { bytes.new ≡ fixed_decimal (length bytes.old) number }
{
    let mut rest = number;
    let mut place = bytes.len();
    while place > 0 {
        place -= 1;
        bytes[place] = b'0' + (rest % 10) as u8;
        rest /= 10;
    }
}
