//! The key of an event.

ghost use Rattle.std.specs.Prelude.{◌≡◌, ◌≤◌};
ghost use Rattle.lert_gen.specs.Generated.{key_at};

use lert_mixer::mix;

/// The key of an event of a seed; events count from 1.
#[tactic(auto, unfolding(crate::specs::Generated::key_at))]
pub fn key_at(seed: u64, event: u64) -> u64
    requires { 1 ≤ event }
    ensures { result ≡ key_at seed event }
{
    let mixed = mix(seed.wrapping_add(event));
    if mixed % 2 == 0 {
        (mixed >> 32) % 1000
    } else {
        mixed
    }
}
