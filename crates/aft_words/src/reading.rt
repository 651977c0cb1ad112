//! Reading the words of a command line.

ghost use Rattle.std.specs.Prelude.{◌≡◌, ◌≤◌, ◌∷◌, IfSome, drop, length, map, option_and_then, option_map};
ghost use Rattle.std.specs.String.{string_bytes};
ghost use Rattle.aft_words.specs.Parts.{name, parts_of, value_behind};
ghost use Rattle.aft_words.specs.Reading.{asked_of, backup_of, check_of, gathered, make_of, reading, restore_of, run_of, session_of, setup_of, step_of, upgrade_of, with_parts};
ghost use Rattle.aft_words.specs.Views.{given_said, said, setup_said};

use crate::given::{Given, Names};
use crate::invocation::{Invocation, Setup};
use crate::spelling::{is_hyphened, number_of, takes_next};

/// The most transactions of `make`.
const MAX_TRANSACTIONS: u64 = 5000;

/// Reads the words of a command line, without the program's name: the command, and behind it names, numbers and
/// options.
///
/// `None` comes exactly where the words have no reading. It takes no memory: the names are those of the words.
pub fn read_words(words: &[String]) -> Option<Invocation<'_>>
    ensures { option_map said result ≡ reading (map string_bytes words.now) }
{
    let (command, behind) = words.split_first()?;
    let given = gather(behind)?;
    asked(command.as_str(), given)
}

/// The names and the options that words give.
fn gather(words: &[String]) -> Option<Given<'_>>
    ensures { option_map given_said result ≡ gathered (map string_bytes words.now) }
{
    with_words(Given::nothing(), words)
}

/// What is given with words: names, options and their values.
fn with_words<'a>(given: Given<'a>, words: &'a [String]) -> Option<Given<'a>>
    ensures { option_map given_said result ≡ with_parts (parts_of (map string_bytes words.now)) (given_said given.entry) }
{
    let mut given = given;
    let mut rest = words;
    'words: while let Some((word, behind)) = rest.split_first() {
        let (next, others) = with_first(given, word.as_str(), behind)?;
        given = next;
        rest = others;
    }
    Some(given)
}

/// What is given with the part that a word begins, and the words behind that part.
fn with_first<'a>(
    given: Given<'a>,
    word: &'a str,
    behind: &'a [String],
) -> Option<(Given<'a>, &'a [String])>
    ensures value { option_and_then (λ p. with_parts (parts_of (map string_bytes p.1.now)) (given_said p.0)) result ≡ with_parts (parts_of (word.now ∷ map string_bytes behind.now)) (given_said given.entry) }
    ensures fewer { IfSome result (λ p. length p.1.now ≤ length behind.now) }
{
    if word == "--" {
        return Some((with_names(given, behind)?, &behind[behind.len()..]));
    }
    match value_behind(word, behind) {
        Some((value, others)) => Some((given.with_option(word, value)?, others)),
        None => Some((given.with_word(word)?, behind)),
    }
}

/// The word behind an option that takes it, one that isn't hyphened, and the words behind that word.
fn value_behind<'a>(word: &str, behind: &'a [String]) -> Option<(&'a str, &'a [String])>
    ensures value { option_map (λ p. p.0.now) result ≡ value_behind word.now (map string_bytes behind.now) }
    ensures others { IfSome result (λ p. p.1.now ≡ drop 1 behind.now) }
{
    let (next, others) = behind.split_first()?;
    if takes_next(word) && !is_hyphened(next.as_str()) {
        Some((next.as_str(), others))
    } else {
        None
    }
}

/// What is given with words that are all names.
fn with_names<'a>(given: Given<'a>, words: &'a [String]) -> Option<Given<'a>>
    ensures { option_map given_said result ≡ with_parts (map name (map string_bytes words.now)) (given_said given.entry) }
{
    let mut given = given;
    let mut rest = words;
    'words: while let Some((word, behind)) = rest.split_first() {
        given = given.with_name(word.as_str())?;
        rest = behind;
    }
    Some(given)
}

/// What a command asks for with its names and options.
fn asked<'a>(command: &str, given: Given<'a>) -> Option<Invocation<'a>>
    ensures { option_map said result ≡ asked_of command.now (given_said given.entry) }
{
    match command {
        "run" => run(given),
        "step" => step(given),
        "make" => make(given),
        "upgrade" => upgrade(given),
        "session" => session(given),
        "backup" => backup(given),
        "restore" => restore(given),
        "check" => check(given),
        _ => None,
    }
}

/// What a run stands on.
fn setup<'a>(given: Given<'a>) -> Setup<'a>
    ensures { setup_said result ≡ setup_of (given_said given.entry) }
{
    Setup {
        conf: given.conf,
        store: given.store,
        time: given.time,
    }
}

/// `run FILE`, with all options.
fn run<'a>(given: Given<'a>) -> Option<Invocation<'a>>
    ensures { option_map said result ≡ run_of (given_said given.entry).names (given_said given.entry) }
{
    let Names::One(script) = given.names else {
        return None;
    };
    Some(Invocation::Run {
        script,
        setup: setup(given),
        trace: given.trace,
    })
}

/// `step FILE ORDER`, with all options.
fn step<'a>(given: Given<'a>) -> Option<Invocation<'a>>
    ensures { option_map said result ≡ step_of (given_said given.entry).names (given_said given.entry) }
{
    let Names::Two(script, order) = given.names else {
        return None;
    };
    Some(Invocation::Step {
        script,
        order,
        setup: setup(given),
        trace: given.trace,
    })
}

/// `make N FIRST`, without options: N is 1 to 5,000.
fn make<'a>(given: Given<'a>) -> Option<Invocation<'a>>
    ensures { option_map said result ≡ make_of (given_said given.entry).names (given_said given.entry) }
{
    let Names::Two(count, first) = given.names else {
        return None;
    };
    if !given.is_plain() {
        return None;
    }
    let count = number_of(count)?;
    let first = number_of(first)?;
    if count < 1 || count > MAX_TRANSACTIONS {
        return None;
    }
    Some(Invocation::Make {
        transactions: count as u32,
        first,
    })
}

/// `upgrade`, with `--store` and `--clock`.
fn upgrade<'a>(given: Given<'a>) -> Option<Invocation<'a>>
    ensures { option_map said result ≡ upgrade_of (given_said given.entry).names (given_said given.entry) }
{
    let Names::Empty = given.names else {
        return None;
    };
    if !given.of_store() {
        return None;
    }
    Some(Invocation::Upgrade {
        store: given.store,
        time: given.time,
    })
}

/// `session FILE ORDER ASK`, with all options but `--trace`.
fn session<'a>(given: Given<'a>) -> Option<Invocation<'a>>
    ensures { option_map said result ≡ session_of (given_said given.entry).names (given_said given.entry) }
{
    let Names::Three(script, order, ask) = given.names else {
        return None;
    };
    if given.trace {
        return None;
    }
    Some(Invocation::Session {
        script,
        order,
        ask,
        setup: setup(given),
    })
}

/// `backup FILE ORDER`, with all options but `--trace`.
fn backup<'a>(given: Given<'a>) -> Option<Invocation<'a>>
    ensures { option_map said result ≡ backup_of (given_said given.entry).names (given_said given.entry) }
{
    let Names::Two(script, order) = given.names else {
        return None;
    };
    if given.trace {
        return None;
    }
    Some(Invocation::Backup {
        script,
        order,
        setup: setup(given),
    })
}

/// `restore COPY`, with `--store`.
fn restore<'a>(given: Given<'a>) -> Option<Invocation<'a>>
    ensures { option_map said result ≡ restore_of (given_said given.entry).names (given_said given.entry) }
{
    let Names::One(copy) = given.names else {
        return None;
    };
    if !given.of_store() || given.time.is_some() {
        return None;
    }
    Some(Invocation::Restore {
        copy,
        store: given.store,
    })
}

/// `check FILE`, without options.
fn check<'a>(given: Given<'a>) -> Option<Invocation<'a>>
    ensures { option_map said result ≡ check_of (given_said given.entry).names (given_said given.entry) }
{
    let Names::One(trace) = given.names else {
        return None;
    };
    if !given.is_plain() {
        return None;
    }
    Some(Invocation::Check { trace })
}
