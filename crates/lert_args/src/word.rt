//! The words of a command line: numbers and names.

ghost use Rattle.std.specs.Prelude.{◌≡◌};
ghost use Rattle.std.specs.Char.{is_ascii_digit};
ghost use Rattle.std.specs.List.{list_all};
ghost use Rattle.lert_args.specs.Word.{is_late_name as late_name_test, number_of};

/// The number that a word spells: one to twenty decimal digits of a number of at most 2^64-1.
pub fn number(word: &str) -> Option<u64>
    ensures { result ≡ number_of word.now }
{
    if word.is_empty() {
        return None;
    }
    if word.len() > 20 {
        return None;
    }
    if !is_digits(word) {
        return None;
    }
    word.parse::<u64>().ok()
}

// Whether a word has decimal digits alone.
fn is_digits(word: &str) -> bool
    ensures { result ≡ list_all is_ascii_digit word.now }
{
    word.bytes().all(|byte| byte.is_ascii_digit())
}

/// Whether a word is a name behind the end of the options.
pub fn is_late_name(word: &str) -> bool
    ensures { result ≡ late_name_test word.now }
{
    !word.is_empty() && word != "-" && word != "--"
}
