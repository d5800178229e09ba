//! What the words behind a command say, by its options.

ghost use Rattle.std.specs.Prelude.{◌≡◌, ◌<◌, [], length, map, true, false, MatchOption, slice_index_or};
ghost use Rattle.lert_args.specs.Said.{Said, is_among, value_given};
ghost use Rattle.lert_args.specs.Command.{setting_options, settings_said, value_or};
ghost use Rattle.lert_args.specs.Lookups.{has_options, texts};

use lert_base::Numbers;

/// The values of a command's options, and the places of the names.
#[derive(Drop)]
pub struct Given {
    /// The value of each option of the command, in their order, where it is given.
    pub values: Vec<Option<u64>>,
    /// The places of the names in the words, in their order.
    pub names: Vec<usize>,
}

impl Given {
    /// The value of an option by its name, or the usual one where it isn't given. `options` are the command's.
    pub fn value_or(&self, options: &[&str], option: &str, usual: u64) -> u64
        ensures { (s : Said) → self.now.values.items ≡ map (λ o. value_given s o.now) options.now →
            is_among (texts options.now) option.now ≡ true → result ≡ value_or s option.now usual }
    {
        let Some(place) = find_option(options, option) else {
            return usual;
        };
        match self.values.get(place) {
            Some(value) => value.unwrap_or(usual),
            None => usual,
        }
    }

    /// The eight numbers of the settings, each with its default. `options` are the command's.
    pub fn numbers(&self, options: &[&str]) -> Numbers
        ensures { (s : Said) → self.now.values.items ≡ map (λ o. value_given s o.now) options.now →
            has_options (texts options.now) setting_options ≡ true → result ≡ settings_said s }
    {
        Numbers {
            threshold: self.value_or(options, "threshold", 24),
            bins: self.value_or(options, "bins", 4),
            ratio: self.value_or(options, "ratio", 4),
            base: self.value_or(options, "base", 4_096),
            levels: self.value_or(options, "levels", 5),
            cone_bits: self.value_or(options, "cone-bits", 4),
            room: self.value_or(options, "room", 262_144),
            packet: self.value_or(options, "packet", 1_024),
        }
    }
}

/// The place of an option by its name.
pub fn find_option(options: &[&str], name: &str) -> Option<usize>
    ensures { MatchOption result (is_among (texts options.now) name.now ≡ false)
        (λ place. (place < length options.now) × (is_among (texts options.now) name.now ≡ true) × (slice_index_or (texts options.now) place [] ≡ name.now)) }
{
    options.iter().position(|option| *option == name)
}
