//! The pieces of a line: a text and a number, each put behind what the buffer holds.

ghost use Rattle.std.specs.Prelude.{◌≡◌, ◌+◌, ◌≤◌, ◌++◌, length, take, decimal};

use itoa::Buffer;

/// Puts `text` at a place of the buffer, and answers the place behind it.
pub fn push_text(into: &mut [u8], at: usize, text: &[u8]) -> usize
    requires { at + length text.now ≤ length into.old }
    ensures place { result ≡ at + length text.now }
    ensures text { take result into.new ≡ take at into.old ++ text.now }
{
    let end = at + text.len();
    into[at..end].copy_from_slice(text);
    end
}

/// Puts the decimal digits of `number` at a place of the buffer, and answers the place behind them.
pub fn push_number(into: &mut [u8], at: usize, number: u64) -> usize
    requires { at + 20 ≤ length into.old }
    ensures within { result ≤ at + 20 }
    ensures text { take result into.new ≡ take at into.old ++ decimal number }
{
    let mut digits = Buffer::new();
    push_text(into, at, digits.format(number).as_bytes())
}
