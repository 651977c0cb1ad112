//! How words are spelled.

ghost use Rattle.std.specs.Prelude.{◌≡◌, option_map};
ghost use Rattle.aft_words.specs.Parts.{is_hyphened, is_option, takes_next};
ghost use Rattle.aft_words.specs.Reading.{name_of, number_of};
ghost use Rattle.aft_words.specs.Views.{text_of};

/// A name isn't empty.
pub(crate) fn name_of(word: &str) -> Option<&str>
    ensures { text_of result ≡ name_of word.now }
{
    if word.is_empty() { None } else { Some(word) }
}

/// The number that decimal digits write, up to 2^64 - 1. Zeros may stand in front.
pub(crate) fn number_of(word: &str) -> Option<u64>
    ensures { result ≡ number_of word.now }
{
    if word.is_empty() || word.as_bytes()[0] == b'+' {
        return None;
    }
    word.parse::<u64>().ok()
}

/// Whether a word begins with a hyphen.
pub(crate) fn is_hyphened(word: &str) -> bool
    ensures { result ≡ is_hyphened word.now }
{
    !word.is_empty() && word.as_bytes()[0] == b'-'
}

/// Whether a word is an option: a hyphen and something behind it.
pub(crate) fn is_option(word: &str) -> bool
    ensures { result ≡ is_option word.now }
{
    is_hyphened(word) && word.len() > 1
}

/// Whether a word is an option that takes the next word.
pub(crate) fn takes_next(word: &str) -> bool
    ensures { result ≡ takes_next word.now }
{
    word == "--conf" || word == "--store" || word == "--clock"
}
