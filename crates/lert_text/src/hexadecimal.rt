//! A number in hexadecimal digits.

ghost use Rattle.std.specs.Prelude.{◌≡◌, ◌+◌, ◌<◌, ◌≤◌, ◌++◌, length, take};
ghost use Rattle.lert_text.specs.Drill.{hex_digit, hexadecimal};

use crate::pieces::push_text;

/// Puts a number as 16 hexadecimal digits, in lower case, at a place of the buffer, and answers the place behind them.
pub fn push_hexadecimal(into: &mut [u8], at: usize, number: u64) -> usize
    requires { at + 16 ≤ length into.old }
    ensures place { result ≡ at + 16 }
    ensures text { take result into.new ≡ take at into.old ++ hexadecimal 16 number }
{
    let mut digits = [0; 16];
    let mut rest = number;
    for place in (0..16).rev() {
        digits[place] = digit((rest % 16) as u8);
        rest /= 16;
    }
    push_text(into, at, &digits)
}

// The digit of a number below 16.
fn digit(number: u8) -> u8
    requires { number < 16 }
    ensures { result ≡ hex_digit number }
{
    if number < 10 {
        b'0' + number
    } else {
        b'a' - 10 + number
    }
}
