ghost use Rattle.std.specs.Prelude.{◌≡◌, ℕ, ◌+◌, ◌-◌, ◌*◌, ◌/◌, ◌%◌, ◌^◌, ◌<◌, ◌≤◌, ◌++◌, List, map, take, drop, length, slice_index};
ghost use Rattle.lert_counter.specs.Group.{digits, written, digit_base};

/// The number of values that a digit beside `x` can have.
pub fn base_beside(width: u32, x: u64) -> u64
    requires narrow { 8 ≤ width }
    requires wide { width ≤ 62 }
    ensures value { result ≡ digit_base width x }
    ensures least { 254 ≤ result }
{
    let values = 1u64 << width;
    if x == 0 { values - 1 } else { values - 2 }
}

/// How `digit` is written beside `x`.
pub fn slot_of(x: u64, digit: u64) -> u64
    requires { digit + 2 < 2 ^ 64 }
    ensures { result ≡ written x digit }
{
    if x == 0 || digit + 1 < x {
        digit + 1
    } else {
        digit + 2
    }
}

/// The first of the digits of `number`, at most `room + 1` of them.
pub fn leading_digit(base: u64, number: u64, room: u32) -> u64
    requires { 0 < base }
    ensures value { result ≡ slice_index (digits room base number) 0 }
    ensures least { result ≤ number }
{
    if room == 0 || number < base {
        number
    } else {
        leading_digit(base, number / base, room - 1)
    }
}

/// Writes the digits of `number`, at most `room + 1` of them, from `at` on, and answers where they end.
pub fn put_digits(x: u64, base: u64, number: u64, room: u32, into: &mut [u64], at: usize) -> usize
    requires base { 0 < base }
    requires number { number + 2 < 2 ^ 64 }
    requires room { at + room < length into.old }
    ensures end { result ≡ at + length (digits room base number) }
    ensures front { take result into.new ≡ take at into.old ++ map (written x) (digits room base number) }
    ensures rest { drop result into.new ≡ drop result into.old }
    ensures within { result ≤ at + room + 1 }
{
    if room == 0 || number < base {
        into[at] = slot_of(x, number);
        at + 1
    } else {
        let end = put_digits(x, base, number / base, room - 1, into, at);
        into[end] = slot_of(x, number % base);
        end + 1
    }
}
