//! How many bins a level has.

ghost use Rattle.std.specs.Prelude.{◌≡◌, ◌<◌, ◌≤◌, ◌^◌};
ghost use Rattle.lert_reports.specs.LogText.{bin_count};
ghost use Rattle.lert_spec.specs.Edges.{capacity};

use lert_base::Settings;

/// How many bins a level from 1 on has after `n` events, which is how many frames a record of the log names for it. It
/// makes four divisions.
pub fn bins(settings: &Settings, level: u32, n: u64) -> u64
    requires first { 1 ≤ level }
    requires last { level ≤ settings.now.levels }
    requires events { n ≤ capacity settings.now }
    ensures { result ≡ bin_count settings.now level n }
{
    // Its clause says that the numbers are valid.
    let _ = settings.numbers();
    let span = settings.span(level);
    let low = settings.edge(level, n);
    let high = settings.edge(level - 1, n);
    (high + span - 1) / span - low / span
}
