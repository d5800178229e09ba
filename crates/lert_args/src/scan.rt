//! The places of the names in a command's words.

ghost use Rattle.std.specs.Prelude.{◌≡◌, ℕ, map, Some, None, IfOk, IfErr};
ghost use Rattle.lert_args.specs.Scan.{places_from, turn_of as word_turn};
ghost use Rattle.lert_args.specs.Word.{is_hyphened as hyphened};

use crate::commands::NO_LINE;
use crate::line::LineFault;
use crate::word::is_late_name;
use std::alloc::Global;

/// Where a reading stands: options and names may come, the value of an option comes, or, behind `--`, names alone.
#[derive(Clone, Copy)]
pub enum Stand {
    Between,
    Value,
    Behind,
}

/// What a word is, with where the reading stands behind it.
#[derive(Clone, Copy)]
pub enum Turn {
    Name(Stand),
    Other(Stand),
}

/// The places of the names, where the first word stands at place 1 and each may stand where it does by its hyphens.
pub fn places_of_names(alloc: Global, words: &[&str]) -> Result<Vec<usize>, LineFault>
    ensures places { IfOk result (λ places. places_from 1 (map (λ word. word.now) words.now) Stand.Between ≡ Some places.items) }
    ensures refused { IfErr result (λ fault. (rule : ℕ) → fault ≡ LineFault.Usage rule →
        (rule ≡ 0) × (places_from 1 (map (λ word. word.now) words.now) Stand.Between ≡ None)) }
{
    let mut places = Vec::with_capacity(alloc, words.len())?;
    let mut stand = Stand::Between;
    for (index, word) in words.iter().enumerate() {
        match turn_of(stand, word) {
            None => return Err(NO_LINE),
            Some(Turn::Other(next)) => stand = next,
            Some(Turn::Name(next)) => {
                stand = next;
                places.push_reserved(index + 1);
            }
        }
    }
    Ok(places)
}

// What a word is, or none where no line has it there.
fn turn_of(stand: Stand, word: &str) -> Option<Turn>
    ensures { result ≡ word_turn stand word.now }
{
    match stand {
        Stand::Between => turn_between(word),
        Stand::Value => {
            if is_hyphened(word) {
                None
            } else {
                Some(Turn::Other(Stand::Between))
            }
        }
        Stand::Behind => {
            if is_late_name(word) {
                Some(Turn::Name(Stand::Behind))
            } else {
                None
            }
        }
    }
}

fn turn_between(word: &str) -> Option<Turn>
    ensures { result ≡ word_turn Stand.Between word.now }
{
    match word.as_bytes() {
        [] | [b'-'] => None,
        [b'-', b'-'] => Some(Turn::Other(Stand::Behind)),
        [b'-', b'-', option @ ..] => {
            if option.contains(&b'=') {
                Some(Turn::Other(Stand::Between))
            } else {
                Some(Turn::Other(Stand::Value))
            }
        }
        [b'-', ..] => None,
        _ => Some(Turn::Name(Stand::Between)),
    }
}

// Whether a word begins with a hyphen.
fn is_hyphened(word: &str) -> bool
    ensures { result ≡ hyphened word.now }
{
    match word.as_bytes() {
        [] => false,
        [first, ..] => *first == b'-',
    }
}
