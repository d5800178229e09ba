//! The words of a command line: numbers and names.

ghost use Rattle.std.specs.Prelude.{◌≡◌, ℕ, length, take, drop, codes, true, false, MatchOption};
ghost use Rattle.std.specs.Char.{is_ascii_digit};
ghost use Rattle.std.specs.List.{after_first, before_first, list_all, list_any};
ghost use Rattle.std.specs.Str.{bytes_eq};
ghost use Rattle.lert_args.specs.Said.{is_equals_sign};
ghost use Rattle.lert_args.specs.Word.{is_late_name as late_name_test, is_name as name_test, number_of};

/// The number that a word spells: one to twenty decimal digits of a number of at most 2^64-1.
pub fn number(word: &str) -> Option<u64>
    ensures { result ≡ number_of word.now }
{
    if word.is_empty() {
        return None;
    }
    if word.len() > 20 {
        return None;
    }
    if !is_digits(word) {
        return None;
    }
    word.parse::<u64>().ok()
}

// Whether a word has decimal digits alone.
fn is_digits(word: &str) -> bool
    ensures { result ≡ list_all is_ascii_digit word.now }
{
    word.bytes().all(|byte| byte.is_ascii_digit())
}

/// Whether a word is a name where options may stand.
pub fn is_name(word: &str) -> bool
    ensures { result ≡ name_test word.now }
{
    match word.as_bytes() {
        [] => false,
        [first, ..] => *first != b'-',
    }
}

/// Whether a word is a name behind the end of the options.
pub fn is_late_name(word: &str) -> bool
    ensures { result ≡ late_name_test word.now }
{
    !word.is_empty() && word != "-" && word != "--"
}

/// What stands behind the two hyphens of a word that begins with them.
pub fn behind_hyphens(word: &str) -> Option<&str>
    ensures { MatchOption result (bytes_eq (take 2 word.now) (codes "--") ≡ false)
        (λ text. (bytes_eq (take 2 word.now) (codes "--") ≡ true) × (text.now ≡ drop 2 word.now)) }
{
    word.strip_prefix("--")
}

/// The two parts of a text around its first equals sign, where it has one.
pub fn split_value(text: &str) -> Option<(&str, &str)>
    ensures { MatchOption result
        ((list_any is_equals_sign text.now ≡ false) × (before_first is_equals_sign text.now ≡ text.now))
        (λ parts. (list_any is_equals_sign text.now ≡ true) × (parts.0.now ≡ before_first is_equals_sign text.now) × (parts.1.now ≡ after_first is_equals_sign text.now)) }
{
    text.split_once('=')
}
