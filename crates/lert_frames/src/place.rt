//! Where frames stand in the file of frames, and what the counts in one cost.

ghost use Rattle.std.specs.Prelude.{◌≡◌, ◌≢◌, ℕ, ◌+◌, ◌<◌, ◌≤◌, ◌⊎◌, ◌^◌};
ghost use Rattle.lert_frames.specs.Place.{block_count, frame_len, frame_place, most_slots, slots_each};
ghost use Rattle.lert_spec.specs.Items.{IsVersion};
ghost use Rattle.lert_spec.specs.Table.{cost};

use lert_base::Settings;

/// The version of the frame at which a reader and a writer stand when they are made.
pub const FIRST: u8 = 1;

/// The first byte of a frame in the file of frames of this version, 1 or 2. Level j has one place more than bins, each
/// with room for all blocks of a frame and, with version 1, two slots for each item of a bin, with version 2 four, behind
/// those of the younger levels. No two places overlap.
pub fn frame_place(settings: &Settings, version: u8, level: u32, frame: u32) -> u64
    requires version { IsVersion version }
    requires first { 1 ≤ level }
    requires last { level ≤ settings.now.levels }
    requires frame { frame ≤ settings.now.bins }
    ensures value { result ≡ frame_place settings.now version level frame }
    ensures end { result + frame_len settings.now version level < 2 ^ 42 }

    // The place of another frame stands before it or behind it.
    ensures apart { (other_level other : ℕ) → 1 ≤ other_level → other ≤ settings.now.bins →
        (other_level ≢ level) ⊎ (other ≢ frame) →
        (frame_place settings.now version other_level other + frame_len settings.now version other_level ≤ result)
        ⊎ (result + frame_len settings.now version level ≤ frame_place settings.now version other_level other) }
{
    let places = settings.numbers().bins + 1;
    let mut before = 0;
    for lower in 1..level {
        before += frame_len(settings, version, lower);
    }
    places * before + u64::from(frame) * frame_len(settings, version, level)
}

// The bytes of a place of a level.
fn frame_len(settings: &Settings, version: u8, level: u32) -> u64
    requires { level ≤ settings.now.levels }
    ensures { result ≡ frame_len settings.now version level }
{
    let most = most_slots(settings, version, level);
    20 * block_count(settings, level) + 8 * most + 8 * (most / 64)
}

/// The most slots that a frame of a level has.
pub fn most_slots(settings: &Settings, version: u8, level: u32) -> u64
    requires { level ≤ settings.now.levels }
    ensures value { result ≡ most_slots settings.now version level }
    ensures few { result < 2 ^ 32 }
{
    let _valid = settings.numbers();
    slots_each(version) * settings.span(level)
}

/// The most slots that it has for each item of a bin.
pub fn slots_each(version: u8) -> u64
    ensures value { result ≡ slots_each version }
    ensures few { result ≤ 4 }
{
    if version == 1 { 2 } else { 4 }
}

/// What a count costs of the items of a bin: with version 1 each weighs 1, and with version 2 at most 255.
#[inline]
pub fn cost(version: u8, count: u64) -> u64
    requires { count ≤ 2 ^ 47 }
    ensures { result ≡ cost version count }
{
    if version == 1 {
        count
    } else {
        (count + 254) / 255
    }
}

/// The blocks of a frame of a level: each has 64 of the level's quotients.
pub fn block_count(settings: &Settings, level: u32) -> u64
    requires { level ≤ settings.now.levels }
    ensures value { result ≡ block_count settings.now level }
    ensures some { 1 ≤ result }
    ensures few { result ≤ 2 ^ 26 }
{
    (1u64 << settings.quotient_bits(level)) / 64
}
