//! The matches of a tree: how they are played at first, and how again above one leaf.

ghost use Rattle.std.specs.Prelude.{◌≡◌, ℕ, ◌+◌, ◌*◌, ◌<◌, ◌≤◌, ◌⊎◌, length, slice_set};
ghost use Rattle.lert_merge.specs.tree.Race.{number_at, greatest};
ghost use Rattle.lert_merge.specs.tree.Matches.{winner_of, AreBelow, ArePair, AreWon, AreAbsent, IsWon, IsPlayed};

use crate::tree::mask::{key_of, stream_of};

// The winner at a place: the stream of a leaf, or the one that stands at a node.
fn winner_at(nodes: &[u32], place: usize) -> u32
    requires few { length nodes.now ≤ 131072 }
    requires within { place < length nodes.now + length nodes.now }
    ensures { result ≡ winner_of nodes.now place }
{
    if place < nodes.len() {
        return nodes[place];
    }
    (place - nodes.len()) as u32
}

// The one of two with the lesser key; of two equal ones not the one that has no stream.
fn better(keys: &[u64], streams: usize, one: u32, other: u32) -> u32
    requires one { one < length keys.now }
    requires other { other < length keys.now }
    requires absent { AreAbsent keys.now streams }
    ensures { IsWon keys.now streams one other result }
{
    if one as usize >= streams || keys[other as usize] < keys[one as usize] {
        return other;
    }
    one
}

// Plays each match, the last one first: at each node its winner.
fn find_winners(keys: &[u64], nodes: &mut [u32], streams: usize)
    requires few { length keys.now ≤ 131072 }
    requires nodes { length nodes.old ≡ length keys.now }
    requires below { AreBelow nodes.old (length keys.now) }
    requires absent { AreAbsent keys.now streams }
    ensures nodes { length nodes.new ≡ length keys.now }
    ensures below { AreBelow nodes.new (length keys.now) }
    ensures won { AreWon keys.now streams nodes.new 0 }
{
    let mut node = nodes.len();
    while node > 1 {
        node -= 1;
        let one = winner_at(nodes, 2 * node);
        let other = winner_at(nodes, 2 * node + 1);
        nodes[node] = better(keys, streams, one, other);
    }
}

// The one of two that has not won.
fn loser_of(one: u32, other: u32, winner: u32) -> u32
    requires { (winner ≡ one) ⊎ (winner ≡ other) }
    ensures { ArePair one other winner result }
{
    if winner == one {
        return other;
    }
    one
}

// At each node its loser, where its winner stood.
fn keep_losers(nodes: &mut [u32])
    requires few { length nodes.old ≤ 131072 }
    requires below { AreBelow nodes.old (length nodes.old) }
    requires won { (j : ℕ) → 1 ≤ j → j < length nodes.old →
        (winner_of nodes.old j ≡ winner_of nodes.old (2 * j)) ⊎ (winner_of nodes.old j ≡ winner_of nodes.old (2 * j + 1)) }
    ensures nodes { length nodes.new ≡ length nodes.old }
    ensures below { AreBelow nodes.new (length nodes.old) }
    ensures lost { (j : ℕ) → 1 ≤ j → j < length nodes.old →
        ArePair (winner_of nodes.old (2 * j)) (winner_of nodes.old (2 * j + 1)) (winner_of nodes.old j) (number_at nodes.new j) }
{
    for node in 1..nodes.len() {
        let one = winner_at(nodes, 2 * node);
        let other = winner_at(nodes, 2 * node + 1);
        nodes[node] = loser_of(one, other, nodes[node]);
    }
}

// Plays all matches, and says which stream is first.
pub(crate) fn play(keys: &[u64], nodes: &mut [u32], streams: usize) -> u32
    requires few { length keys.now ≤ 131072 }
    requires nodes { length nodes.old ≡ length keys.now }
    requires below { AreBelow nodes.old (length keys.now) }
    requires some { (1 ≤ streams) × (streams ≤ length keys.now) }
    requires absent { AreAbsent keys.now streams }
    ensures nodes { length nodes.new ≡ length keys.now }
    ensures below { AreBelow nodes.new (length keys.now) }
    ensures played { IsPlayed keys.now nodes.new (length keys.now) result }
    ensures present { result < streams }
{
    find_winners(keys, nodes, streams);
    let first = winner_at(nodes, 1);
    keep_losers(nodes);
    first
}

// Gives the first stream another key, plays the matches above its leaf again, and says which stream is first now.
#[inline]
pub(crate) fn replay(keys: &mut [u64], nodes: &mut [u32], first: u32, key: u64) -> u32
    requires few { length keys.old ≤ 131072 }
    requires nodes { length nodes.old ≡ length keys.old }
    requires below { AreBelow nodes.old (length keys.old) }
    requires within { first < length keys.old }
    requires played { IsPlayed keys.old nodes.old (length keys.old) first }
    ensures keys { keys.new ≡ slice_set keys.old first key }
    ensures nodes { length nodes.new ≡ length keys.old }
    ensures below { AreBelow nodes.new (length keys.old) }
    ensures played { IsPlayed keys.new nodes.new (length keys.old) result }
    ensures within { result < length keys.old }
    ensures changed { (result ≡ first) ⊎ (number_at keys.new result < greatest) }
{
    let mut place = keys.len() + first as usize;
    let mut winner = first;
    let mut winner_key = key;
    keys[first as usize] = key;
    while place > 1 {
        place /= 2;
        let rival = nodes[place];
        let rival_key = keys[rival as usize];
        let is_less = rival_key < winner_key;
        nodes[place] = stream_of(is_less, rival, winner);
        winner = stream_of(is_less, winner, rival);
        winner_key = key_of(is_less, winner_key, rival_key);
    }
    winner
}
