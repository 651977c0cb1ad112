//! The words of the command line.

ghost use Rattle.std.specs.Prelude.{◌≡◌, ◌↔◌, IsTrue, IsSome, map};
ghost use Rattle.std.specs.String.{string_bytes};
ghost use Rattle.aft_run.specs.Words.{are_words, is_name, is_time};

/// What the words ask for: a script and an order by name, and maybe the time of every reading of the clock.
#[derive(Clone, Copy, Debug)]
pub struct Words<'a> {
    pub script: &'a str,
    pub order: &'a str,
    /// Milliseconds since 1970.
    pub time: Option<u64>,
}

/// Reads `step FILE ORDER`, with `--clock TIME` behind it or without. No other words have a reading.
pub fn read_words(words: &[String]) -> Option<Words<'_>>
    ensures { IsSome result ↔ IsTrue (are_words (map string_bytes words.now)) }
{
    match words {
        [command, script, order] => {
            if command.as_str() != "step" {
                return None;
            }
            Some(Words {
                script: name_of(script.as_str())?,
                order: name_of(order.as_str())?,
                time: None,
            })
        }
        [command, script, order, option, time] => {
            if command.as_str() != "step" || option.as_str() != "--clock" {
                return None;
            }
            Some(Words {
                script: name_of(script.as_str())?,
                order: name_of(order.as_str())?,
                time: Some(time_of(time.as_str())?),
            })
        }
        _ => None,
    }
}

/// A name of a file isn't empty, and doesn't look like an option. `-` alone is a name.
fn name_of(word: &str) -> Option<&str>
    ensures { IsSome result ↔ IsTrue (is_name word.now) }
{
    if word.is_empty() || (word.len() >= 2 && word.as_bytes()[0] == b'-') {
        return None;
    }
    Some(word)
}

/// A time is decimal digits, up to 2^64 - 1. Zeros may stand in front.
fn time_of(word: &str) -> Option<u64>
    ensures { IsSome result ↔ IsTrue (is_time word.now) }
{
    if word.is_empty() || word.as_bytes()[0] == b'+' {
        return None;
    }
    word.parse::<u64>().ok()
}
