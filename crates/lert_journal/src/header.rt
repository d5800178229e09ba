//! The header of a journal.

ghost use Rattle.std.specs.Prelude.{◌≡◌, ◌≢◌, ℕ, ◌+◌, ◌≤◌, List, length, take, MatchOption, IfNone};
ghost use Rattle.lert_spec.specs.Items.{IsVersion};
ghost use Rattle.lert_journal.specs.Header.{begun, magic, header, header_left, number_at, kept_in, version_in};

use byteorder::{ByteOrder, LittleEndian};
use lert_base::{Kept, Numbers, Settings};
use lert_bay::fields::{put, put_u32};
use lert_spec::agreed;

/// How many bytes a header has. The first gate stands behind them.
pub const HEADER_LEN: usize = 32;

// How many of them begin a journal: the letters LERTJ, its version, and two bytes of 0.
const MAGIC_LEN: usize = 8;

// The version of the journals that are written.
const WRITTEN: u8 = 2;

// Those of a version.
fn magic_of(version: u8) -> [u8; 8]
    ensures { result ≡ magic version }
{
    [0x4c, 0x45, 0x52, 0x54, 0x4a, version, 0x00, 0x00]
}

/// Writes the header of a cone's journal, of the second version.
pub fn write_header(settings: &Settings, cone: u32, into: &mut [u8; HEADER_LEN])
    ensures text { into.new ≡ header (magic 2) settings.now cone }
    ensures reads_back { kept_in into.new ≡ record { cone = cone; version = 2; numbers = settings.now } }
{
    let numbers = settings.numbers();
    put(into, 0, &magic_of(WRITTEN));
    put_u32(into, 8, numbers.threshold as u32);
    put_u32(into, 12, numbers.room as u32);
    put_u32(into, 16, numbers.base as u32);
    put_u32(into, 20, numbers.packet as u32);
    let small = [
        numbers.bins as u8,
        numbers.ratio as u8,
        numbers.levels as u8,
        numbers.cone_bits as u8,
    ];
    put(into, 24, &small);
    put_u32(into, 28, cone);
}

/// The cone, the version and the numbers in a header as they stand there, the numbers valid or not. None comes exactly
/// where the bytes don't begin as a journal of version 1 or 2.
pub fn read_header(bytes: &[u8; HEADER_LEN]) -> Option<Kept>
    ensures { MatchOption result ((version : ℕ) → IsVersion version → take 8 bytes.now ≢ magic version)
        (λ kept. IsVersion kept.version × (take 8 bytes.now ≡ magic kept.version) × (kept ≡ kept_in bytes.now)) }
{
    let version = bytes[5];
    let is_known = version == 1 || version == 2;
    if !is_known || bytes[..8] != magic_of(version)[..] {
        return None;
    }
    Some(Kept {
        version,
        cone: number_at(bytes, 28),
        numbers: Numbers {
            threshold: u64::from(number_at(bytes, 8)),
            bins: u64::from(bytes[24]),
            ratio: u64::from(bytes[25]),
            base: u64::from(number_at(bytes, 16)),
            levels: u64::from(bytes[26]),
            cone_bits: u64::from(bytes[27]),
            room: u64::from(number_at(bytes, 12)),
            packet: u64::from(number_at(bytes, 20)),
        },
    })
}

/// The place at which a file leaves the header of a journal, of version 1 or 2, from its first 32 bytes or more, or all
/// where it has fewer. It is that of the first of eight bytes that begins no journal, else the file's length, where it
/// ends inside the header. None where a header stands there, of whatever numbers.
pub fn header_left(bytes: &[u8]) -> Option<u64>
    ensures place { (file : List ℕ) → take 32 bytes.now ≡ take 32 file → result ≡ header_left file }
    ensures whole { IfNone result ((32 ≤ length bytes.now) × IsVersion (version_in bytes.now)
        × (take 8 bytes.now ≡ magic (version_in bytes.now))) }
{
    let same = begun(bytes);
    if same < MAGIC_LEN {
        return Some(same as u64);
    }
    if bytes.len() < HEADER_LEN {
        return Some(bytes.len() as u64);
    }
    None
}

// How many of the first bytes begin a journal of one version or the other.
fn begun(bytes: &[u8]) -> usize
    ensures { result ≡ begun bytes.now }
{
    agreed(&magic_of(1), bytes).max(agreed(&magic_of(2), bytes))
}

// The number in the four bytes from a place on.
fn number_at(bytes: &[u8; HEADER_LEN], place: usize) -> u32
    requires { place + 4 ≤ 32 }
    ensures { result ≡ number_at bytes.now place }
{
    LittleEndian::read_u32(&bytes[place..])
}
