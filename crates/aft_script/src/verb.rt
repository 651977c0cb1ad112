//! The verbs of a script.

ghost use Rattle.std.specs.Prelude.{◌≡◌};
ghost use Rattle.aft_script.specs.Forms.{verb_of};

/// What a line asks for, but for the words that go with it.
#[derive(Clone, Copy, Debug, PartialEq, Eq)]
pub(crate) enum Verb {
    Begin,
    Put,
    Get,
    Commit,
    Abort,
    Crash,
    Start,
    Announce,
    Deliver,
    Local,
    Manager,
    Collect,
    Forget,
    Orphans,
    Backup,
}

/// The verb that a word is.
pub(crate) fn verb_of(word: &str) -> Option<Verb>
    ensures { result ≡ verb_of word.now }
{
    match word {
        "begin" => Some(Verb::Begin),
        "put" => Some(Verb::Put),
        "get" => Some(Verb::Get),
        "commit" => Some(Verb::Commit),
        "abort" => Some(Verb::Abort),
        "crash" => Some(Verb::Crash),
        "start" => Some(Verb::Start),
        "announce" => Some(Verb::Announce),
        "deliver" => Some(Verb::Deliver),
        "local" => Some(Verb::Local),
        "manager" => Some(Verb::Manager),
        "collect" => Some(Verb::Collect),
        "forget" => Some(Verb::Forget),
        "orphans" => Some(Verb::Orphans),
        "backup" => Some(Verb::Backup),
        _ => None,
    }
}
