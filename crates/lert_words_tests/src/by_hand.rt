//! The words behind a command, read from left to right in one pass.

ghost use Rattle.std.specs.Prelude.{◌≡◌, ℕ, ◌<◌, ◌≤◌, ◌++◌, List, [], ◌∷◌, drop, length, map, true, false, Some, None, IfOk, IfErr, MatchOption, slice_index_or, vec_len, if◌then◌else◌};
ghost use Rattle.lert_args.specs.Said.{Given as OneGiven, Said, between, behind, is_among, kind_of, option_kind, spelt, value_given};
ghost use Rattle.lert_words_tests.specs.Steps.{IsStage, Shows, State, Steps, after_kind, after_word, giving, naming, names_of_given, value_among};
ghost use Rattle.lert_args.specs.Lookups.{texts};
ghost use Rattle.lert_args.specs.Word.{is_late_name as late_name_test, is_name as name_test, number_of};

use crate::word::{behind_hyphens, is_late_name, is_name, number, split_value};
use lert_base::Words;
use std::alloc::{AllocError, AllocFailed, Global};

/// What words say of a command's options and names.
#[derive(Drop)]
pub struct Given {
    /// The value of each option of the command, in their order, where it is given.
    pub values: Vec<Option<u64>>,
    /// The places of the names in the words, in their order.
    pub names: Vec<usize>,
}

/// Why words say nothing.
#[derive(Clone, Copy, Debug, PartialEq, Eq)]
pub enum HandFault {
    /// They are none that may stand behind a command with these options.
    Faulty,
    /// There is no memory to read them.
    OutOfMemory,
}

impl From<AllocError> for HandFault {
    ghost use Rattle.lert_words_tests.specs.declared.by_hand.HandFault.TheVariants.{OutOfMemory};

    ghost from_gives = { λ _ fault. fault ≡ OutOfMemory };

    fn from(_error: AllocError) -> HandFault {
        HandFault::OutOfMemory
    }
}

impl<T: Drop> From<AllocFailed<T>> for HandFault {
    ghost use Rattle.lert_words_tests.specs.declared.by_hand.HandFault.TheVariants.{OutOfMemory};

    ghost from_gives = { λ _ fault. fault ≡ OutOfMemory };

    fn from(_error: AllocFailed<T>) -> HandFault {
        HandFault::OutOfMemory
    }
}

// Where a reading stands: options and names may come, the value of the option at this place of the options comes, or, behind
// `--`, names alone.
#[derive(Clone, Copy)]
enum Stage {
    Between,
    ValueOf(usize),
    Behind,
}

/// Reads what the words behind the first one say, which is a command that has these options, given by their names without the
/// hyphens. `HandFault::Faulty` comes only where the words say nothing.
pub fn read_given(alloc: Global, options: &[&str], words: &Words) -> Result<Given, HandFault>
    requires some { 1 ≤ length words.now }
    ensures said { IfOk result (λ given. (s : Said) × (spelt (map (λ option. option.now) options.now) (drop 1 words.now) ≡ Some s)
        × (given.names.items ≡ s.names) × (given.values.items ≡ map (λ option. value_given s option.now) options.now)) }
    ensures refused { IfErr result (λ fault. fault ≡ HandFault.Faulty → spelt (map (λ option. option.now) options.now) (drop 1 words.now) ≡ None) }
{
    let mut given = Given {
        values: vec![in alloc; None; options.len()]?,
        names: Vec::with_capacity(alloc, words.len())?,
    };
    let mut stage = Stage::Between;
    for place in 1..words.len() {
        stage = read_word(&mut given, options, stage, place, words.word(place))?;
    }
    match stage {
        Stage::ValueOf(_) => Err(HandFault::Faulty),
        _ => Ok(given),
    }
}

// Reads a word at its place in the line, and answers where the reading stands behind it.
fn read_word(
    given: &mut Given,
    options: &[&str],
    stage: Stage,
    place: usize,
    word: &str,
) -> Result<Stage, HandFault>
    requires stage { IsStage (length options.now) stage }
    requires sized { vec_len given.old.values ≡ length options.now }
    ensures sized { vec_len given.new.values ≡ length options.now }
    ensures stage { IfOk result (λ next. IsStage (length options.now) next) }
    ensures steps { (s : State) → Shows options.now given.old stage s → Steps options.now given.new result (after_word (texts options.now) s place word.now) }
{
    match stage {
        Stage::Between => read_between(given, options, place, word),
        Stage::ValueOf(option) => give(given, options, option, word),
        Stage::Behind => read_behind(given, options, place, word),
    }
}

// Reads a word where options may stand.
fn read_between(
    given: &mut Given,
    options: &[&str],
    place: usize,
    word: &str,
) -> Result<Stage, HandFault>
    requires sized { vec_len given.old.values ≡ length options.now }
    ensures sized { vec_len given.new.values ≡ length options.now }
    ensures stage { IfOk result (λ next. IsStage (length options.now) next) }
    ensures steps { (s : State) → Shows options.now given.old Stage.Between s →
        Steps options.now given.new result (after_kind s place (kind_of (texts options.now) word.now)) }
{
    if word == "--" {
        return Ok(Stage::Behind);
    }
    match behind_hyphens(word) {
        Some(text) => read_option(given, options, place, text),
        None => read_name(given, options, place, word),
    }
}

// Reads an option by what stands behind its two hyphens.
fn read_option(
    given: &mut Given,
    options: &[&str],
    place: usize,
    text: &str,
) -> Result<Stage, HandFault>
    requires sized { vec_len given.old.values ≡ length options.now }
    ensures sized { vec_len given.new.values ≡ length options.now }
    ensures stage { IfOk result (λ next. IsStage (length options.now) next) }
    ensures steps { (s : State) → Shows options.now given.old Stage.Between s →
        Steps options.now given.new result (after_kind s place (option_kind (texts options.now) text.now)) }
{
    match split_value(text) {
        Some((name, value)) => match find_option(options, name) {
            Some(option) => give(given, options, option, value),
            None => Err(HandFault::Faulty),
        },
        None => match find_option(options, text) {
            Some(option) => Ok(Stage::ValueOf(option)),
            None => Err(HandFault::Faulty),
        },
    }
}

// Reads a name where options may stand.
fn read_name(
    given: &mut Given,
    options: &[&str],
    place: usize,
    word: &str,
) -> Result<Stage, HandFault>
    ensures sized { vec_len given.new.values ≡ vec_len given.old.values }
    ensures stage { IfOk result (λ next. next ≡ Stage.Between) }
    ensures steps { (s : State) → Shows options.now given.old Stage.Between s →
        Steps options.now given.new result (if name_test word.now then naming s place between else None) }
{
    if !is_name(word) {
        return Err(HandFault::Faulty);
    }
    given.names.push(place)?;
    Ok(Stage::Between)
}

// Reads a word behind the end of the options.
fn read_behind(
    given: &mut Given,
    options: &[&str],
    place: usize,
    word: &str,
) -> Result<Stage, HandFault>
    ensures sized { vec_len given.new.values ≡ vec_len given.old.values }
    ensures stage { IfOk result (λ next. next ≡ Stage.Behind) }
    ensures steps { (s : State) → Shows options.now given.old Stage.Behind s →
        Steps options.now given.new result (if late_name_test word.now then naming s place behind else None) }
{
    if !is_late_name(word) {
        return Err(HandFault::Faulty);
    }
    given.names.push(place)?;
    Ok(Stage::Behind)
}

// Gives the option at a place of the options the value that a word spells, where it has none yet.
fn give(given: &mut Given, options: &[&str], option: usize, word: &str) -> Result<Stage, HandFault>
    requires within { option < length options.now }
    requires sized { vec_len given.old.values ≡ length options.now }
    ensures sized { vec_len given.new.values ≡ length options.now }
    ensures stage { IfOk result (λ next. IsStage (length options.now) next) }
    ensures steps { (s : State) (stage : Stage) → Shows options.now given.old stage s →
        Steps options.now given.new result (giving s (slice_index_or (texts options.now) option []) (number_of word.now)) }
{
    let Some(value) = number(word) else {
        return Err(HandFault::Faulty);
    };
    if given.values[option].is_some() {
        return Err(HandFault::Faulty);
    }
    put_value(&mut given.values, options, options[option], value);
    Ok(Stage::Between)
}

// Puts a value at each place at which the options have this name.
fn put_value(values: &mut [Option<u64>], options: &[&str], name: &str, value: u64)
    requires { length values.old ≡ length options.now }
    ensures len { length values.new ≡ length values.old }
    ensures put { (given : List OneGiven) → values.old ≡ map (λ option. value_among given option.now) options.now → is_among (names_of_given given) name.now ≡ false →
        values.new ≡ map (λ option. value_among (given ++ record { name = name.now; value = value } ∷ []) option.now) options.now }
{
    for place in 0..options.len() {
        if options[place] == name {
            values[place] = Some(value);
        }
    }
}

// The place of an option by its name.
fn find_option(options: &[&str], name: &str) -> Option<usize>
    ensures { MatchOption result (is_among (texts options.now) name.now ≡ false)
        (λ place. (place < length options.now) × (is_among (texts options.now) name.now ≡ true) × (slice_index_or (texts options.now) place [] ≡ name.now)) }
{
    options.iter().position(|option| *option == name)
}
