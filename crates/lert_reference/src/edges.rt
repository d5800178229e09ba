//! Edges, depth and lookback as their definitions say them, computed anew at each call.

ghost use Rattle.std.specs.Prelude.{◌≡◌, ℕ, ◌-◌, ◌<◌, ◌≤◌};
ghost use Rattle.lert_spec.specs.Edges.{span, offset, edge, depth, lookback, capacity};
ghost use Rattle.lert_spec.specs.Limits.{IsValid};

use lert_spec::Numbers;

/// The width of a level's bins.
pub fn span(s: &Numbers, level: u64) -> u64
    requires valid { IsValid s.now }
    requires level { level ≤ s.now.levels }
    ensures { result ≡ span s.now level }
{
    let mut span = s.base;
    for _younger in 0..level {
        span *= s.ratio;
    }
    span
}

/// How many events a level's edge stays behind at least.
pub fn offset(s: &Numbers, level: u64) -> u64
    requires valid { IsValid s.now }
    requires level { level ≤ s.now.levels }
    ensures { result ≡ offset s.now level }
{
    let mut spans = 0;
    for younger in 0..level + 1 {
        spans += span(s, younger);
    }
    (s.bins - 1) * spans
}

/// The edge of a level after `n` events.
pub fn edge(s: &Numbers, level: u64, n: u64) -> u64
    requires valid { IsValid s.now }
    requires level { level ≤ s.now.levels }
    ensures { result ≡ edge s.now level n }
{
    let span = span(s, level);
    span * (n.saturating_sub(offset(s, level)) / span)
}

/// How deep the flush at position `m` goes.
pub fn depth(s: &Numbers, m: u64) -> u64
    requires valid { IsValid s.now }
    requires first { 1 ≤ m }
    ensures value { result ≡ depth s.now m }
    ensures within { result ≤ s.now.levels }
{
    let mut level = s.levels;
    while level > 0 {
        if edge(s, level - 1, m) != edge(s, level - 1, m - 1) {
            return level;
        }
        level -= 1;
    }
    0
}

/// Up to which position the flush at position `m` looks back.
pub fn lookback(s: &Numbers, m: u64) -> u64
    requires valid { IsValid s.now }
    requires first { 1 ≤ m }
    ensures value { result ≡ lookback s.now m }
    ensures before { result < m }
{
    edge(s, depth(s, m), m - 1)
}
