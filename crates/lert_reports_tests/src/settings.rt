//! Settings for tests.

ghost use Rattle.std.specs.Prelude.{◌≡◌};

use lert_base::{Numbers, Settings};
use std::process::Abort;

/// The settings of these numbers, which have to be valid.
pub fn settings_of(rt: &impl Abort, numbers: Numbers) -> Settings
    ensures { result ≡ numbers }
{
    Settings::new(numbers).expect(rt, "settings")
}
