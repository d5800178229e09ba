//! The words behind a command, read by a simple command of `clap`.
//!
//! Its help and version flags are off, each option takes one value as a text, and names are taken in any number. What clap
//! takes and a line doesn't have, as an empty name or a second `--`, the scan refuses before.

ghost use Rattle.std.specs.Prelude.{◌≡◌, ◌≢◌, ℕ, ◌≤◌, [], codes, drop, is_some, length, map, true, false, Some, None, IfOk, IfErr, option_and_then};
ghost use Rattle.std.specs.List.{list_all};
ghost use Rattle.lert_args.specs.App.{app_with, is_read, option_rule};
ghost use Rattle.lert_args.specs.Said.{Said, is_among, spelt, value_given};
ghost use Rattle.lert_args.specs.Scan.{places_from};
ghost use Rattle.lert_args.specs.Word.{number_of};
ghost use Rattle.clap.specs.Words.{app_of, first_value, found_of, rule_of};

use crate::commands::NO_LINE;
use crate::given::Given;
use crate::line::LineFault;
use crate::scan::{Stand, places_of_names};
use crate::word::number;
use clap::error::ErrorKind;
use clap::{Arg, ArgAction, ArgMatches, Command};
use lert_base::Words;
use std::alloc::{AllocError, Global};

/// Reads what the words behind a command say that has these options, given by their names without the hyphens. None of these
/// may be `NAMES`, the id of the names. Words that say nothing break rule 0.
pub fn read_given(alloc: Global, options: &[&str], words: &Words) -> Result<Given, LineFault>
    requires some { 1 ≤ length words.now }
    requires apart { is_among (map (λ option. option.now) options.now) (codes "NAMES") ≡ false }
    ensures said { IfOk result (λ given. (s : Said) × (spelt (map (λ option. option.now) options.now) (drop 1 words.now) ≡ Some s)
        × (given.names.items ≡ s.names) × (given.values.items ≡ map (λ option. value_given s option.now) options.now)) }
    ensures refused { IfErr result (λ fault. (rule : ℕ) → fault ≡ LineFault.Usage rule →
        (rule ≡ 0) × (spelt (map (λ option. option.now) options.now) (drop 1 words.now) ≡ None)) }
{
    let texts = texts_behind(alloc, words)?;
    let names = places_of_names(alloc, texts.as_slice())?;
    let values = values_given(alloc, options, texts.as_slice())?;
    Ok(Given { values, names })
}

// The words behind the command.
fn texts_behind<'a>(alloc: Global, words: &'a Words) -> Result<Vec<&'a str>, AllocError>
    ensures { IfOk result (λ texts. map (λ text. text.now) texts.items ≡ drop 1 words.now) }
{
    let mut texts = Vec::new(alloc);
    for number in 1..words.len() {
        texts.push(words.word(number))?;
    }
    Ok(texts)
}

// The value of each option, as `clap` reads the words.
fn values_given<'a>(
    alloc: Global,
    options: &'a [&'a str],
    texts: &'a [&'a str],
) -> Result<Vec<Option<u64>>, LineFault>
    requires apart { is_among (map (λ option. option.now) options.now) (codes "NAMES") ≡ false }
    requires taken { is_some (places_from 1 (map (λ text. text.now) texts.now) Stand.Between) ≡ true }
    ensures said { IfOk result (λ values. (s : Said) × (spelt (map (λ option. option.now) options.now) (map (λ text. text.now) texts.now) ≡ Some s)
        × (places_from 1 (map (λ text. text.now) texts.now) Stand.Between ≡ Some s.names) × (values.items ≡ map (λ option. value_given s option.now) options.now)) }
    ensures refused { IfErr result (λ fault. (rule : ℕ) → fault ≡ LineFault.Usage rule →
        (rule ≡ 0) × (spelt (map (λ option. option.now) options.now) (map (λ text. text.now) texts.now) ≡ None)) }
{
    let command = command_of(alloc, options)?;
    match command.try_get_matches_from(texts) {
        Ok(matches) => values_of(alloc, options, &matches),
        Err(error) => Err(fault_of(error.kind())),
    }
}

// The fault of the words, by what kind of error clap has.
fn fault_of(kind: ErrorKind) -> LineFault
    ensures { (rule : ℕ) → result ≡ LineFault.Usage rule → (rule ≡ 0) × (kind ≢ ErrorKind.OutOfMemory) }
{
    match kind {
        ErrorKind::OutOfMemory => LineFault::OutOfMemory,
        _ => NO_LINE,
    }
}

// The command whose options take one value each, and which takes any number of names.
fn command_of<'a>(alloc: Global, options: &[&'a str]) -> Result<Command<'a>, AllocError>
    ensures { IfOk result (λ command. app_of command ≡ app_with (map (λ option. option.now) options.now)) }
{
    let mut command = command_of_names(alloc)?;
    for option in options {
        command = command.arg(option_arg(alloc, option))?;
    }
    Ok(command)
}

// The command that takes any number of names, and nothing else.
fn command_of_names<'a>(alloc: Global) -> Result<Command<'a>, AllocError>
    ensures { IfOk result (λ command. app_of command ≡ app_with []) }
{
    let names = Arg::new(alloc, "NAMES").action(ArgAction::Append);
    Command::new(alloc, "lert")
        .no_binary_name(true)
        .disable_help_flag(true)
        .disable_version_flag(true)
        .arg(names)
}

// An option that takes one value.
fn option_arg<'a>(alloc: Global, option: &'a str) -> Arg<'a>
    ensures rule { rule_of result ≡ option_rule option.entry.now }
    ensures local { result.global ≡ false }
{
    Arg::new(alloc, option).long(option).action(ArgAction::Set)
}

// The value of each option in what `clap` found.
fn values_of(
    alloc: Global,
    options: &[&str],
    matches: &ArgMatches,
) -> Result<Vec<Option<u64>>, LineFault>
    ensures values { IfOk result (λ values.
        values.items ≡ map (λ option. option_and_then number_of (first_value (found_of matches.now) option.now)) options.now) }
    ensures read { IfOk result (λ _. list_all (λ option. is_read (first_value (found_of matches.now) option.now)) options.now ≡ true) }
    ensures refused { IfErr result (λ fault. (rule : ℕ) → fault ≡ LineFault.Usage rule →
        (rule ≡ 0) × (list_all (λ option. is_read (first_value (found_of matches.now) option.now)) options.now ≡ false)) }
{
    let mut values = Vec::with_capacity(alloc, options.len())?;
    for option in options {
        values.push_reserved(value_of(matches, option)?);
    }
    Ok(values)
}

// The number that an option is given.
fn value_of(matches: &ArgMatches, option: &str) -> Result<Option<u64>, LineFault>
    ensures value { IfOk result (λ value. value ≡ option_and_then number_of (first_value (found_of matches.now) option.now)) }
    ensures read { IfOk result (λ _. is_read (first_value (found_of matches.now) option.now) ≡ true) }
    ensures refused { IfErr result (λ fault. (fault ≡ LineFault.Usage 0) × (is_read (first_value (found_of matches.now) option.now) ≡ false)) }
{
    match matches.get_str(option) {
        None => Ok(None),
        Some(text) => match number(text) {
            None => Err(NO_LINE),
            Some(value) => Ok(Some(value)),
        },
    }
}
