//! Lays the fields of a header or of a record's body into a buffer, one behind the other.
//!
//! A text grows from the front: each call lays a field behind those that stand, so one clause is on all bytes up to its end, and
//! the other on those behind it. Numbers stand with their lowest byte first. No call fails or takes memory; each costs the
//! bytes that it lays.

ghost use Rattle.std.specs.Prelude.{◌≡◌, ◌+◌, ◌≤◌, ◌++◌, length, take, drop};
ghost use Rattle.byteorder.specs.Endian.{little_bytes};

use byteorder::{ByteOrder, LittleEndian};

/// Lays bytes over those from a place on; those before and behind them stay.
pub fn put(into: &mut [u8], place: usize, bytes: &[u8])
    requires { place + length bytes.now ≤ length into.old }
    ensures text { take (place + length bytes.now) into.new ≡ take place into.old ++ bytes.now }
    ensures behind { drop (place + length bytes.now) into.new ≡ drop (place + length bytes.now) into.old }
{
    into[place..place + bytes.len()].copy_from_slice(bytes);
}

/// Lays a number's four bytes over those from a place on; those before and behind them stay.
pub fn put_u32(into: &mut [u8], place: usize, number: u32)
    requires { place + 4 ≤ length into.old }
    ensures text { take (place + 4) into.new ≡ take place into.old ++ little_bytes 4 number }
    ensures behind { drop (place + 4) into.new ≡ drop (place + 4) into.old }
{
    let mut bytes = [0; 4];
    LittleEndian::write_u32(&mut bytes, number);
    put(into, place, &bytes);
}

/// Lays a number's eight bytes over those from a place on; those before and behind them stay.
pub fn put_u64(into: &mut [u8], place: usize, number: u64)
    requires { place + 8 ≤ length into.old }
    ensures text { take (place + 8) into.new ≡ take place into.old ++ little_bytes 8 number }
    ensures behind { drop (place + 8) into.new ≡ drop (place + 8) into.old }
{
    let mut bytes = [0; 8];
    LittleEndian::write_u64(&mut bytes, number);
    put(into, place, &bytes);
}
