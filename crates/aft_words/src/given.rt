//! The names and the options of a command, as they are gathered word by word.

ghost use Rattle.std.specs.Prelude.{◌≡◌, option_map};
ghost use Rattle.aft_words.specs.Parts.{alone};
ghost use Rattle.aft_words.specs.Reading.{is_plain, nothing, of_store, with_flag, with_name, with_option, with_part};

use crate::spelling::{is_option, name_of, number_of};

/// The names, in order: no command takes more than three.
#[derive(Clone, Copy)]
pub(crate) enum Names<'a> {
    Empty,
    One(&'a str),
    Two(&'a str, &'a str),
    Three(&'a str, &'a str, &'a str),
}

/// The names and the options that were given so far.
#[derive(Clone, Copy)]
pub(crate) struct Given<'a> {
    pub(crate) names: Names<'a>,
    pub(crate) conf: Option<&'a str>,
    pub(crate) store: Option<&'a str>,
    pub(crate) time: Option<u64>,
    pub(crate) trace: bool,
}

impl<'a> Given<'a> {
    ghost use Rattle.aft_words.specs.Views.{given_said};

    /// Nothing was given yet.
    pub(crate) fn nothing() -> Given<'a>
        ensures { given_said result ≡ nothing }
    {
        Given {
            names: Names::Empty,
            conf: None,
            store: None,
            time: None,
            trace: false,
        }
    }

    /// One name more.
    pub(crate) fn with_name(self, word: &'a str) -> Option<Given<'a>>
        ensures { option_map given_said result ≡ with_name word.now (given_said self.entry) }
    {
        let name = name_of(word)?;
        let names = match self.names {
            Names::Empty => Names::One(name),
            Names::One(first) => Names::Two(first, name),
            Names::Two(first, second) => Names::Three(first, second, name),
            Names::Three(..) => return None,
        };
        Some(Given { names, ..self })
    }

    /// One option more, with its value. An option may be given once.
    pub(crate) fn with_option(self, option: &str, value: &'a str) -> Option<Given<'a>>
        ensures { option_map given_said result ≡ with_option option.now value.now (given_said self.entry) }
    {
        match option {
            "--conf" if self.conf.is_none() => Some(Given {
                conf: Some(name_of(value)?),
                ..self
            }),
            "--store" if self.store.is_none() => Some(Given {
                store: Some(name_of(value)?),
                ..self
            }),
            "--clock" if self.time.is_none() => Some(Given {
                time: Some(number_of(value)?),
                ..self
            }),
            _ => None,
        }
    }

    /// One option more, without a value.
    fn with_flag(self, option: &str) -> Option<Given<'a>>
        ensures { option_map given_said result ≡ with_flag option.now (given_said self.entry) }
    {
        if option == "--trace" && !self.trace {
            Some(Given {
                trace: true,
                ..self
            })
        } else {
            None
        }
    }

    /// One word more, which takes no other.
    pub(crate) fn with_word(self, word: &'a str) -> Option<Given<'a>>
        ensures { option_map given_said result ≡ with_part (alone word.now) (given_said self.entry) }
    {
        if !is_option(word) {
            return self.with_name(word);
        }
        match word.split_once('=') {
            Some((option, value)) => self.with_option(option, value),
            None => self.with_flag(word),
        }
    }

    /// Whether neither settings nor a trace were asked for.
    pub(crate) fn of_store(&self) -> bool
        ensures { result ≡ of_store (given_said self.now) }
    {
        self.conf.is_none() && !self.trace
    }

    /// Whether no option was given.
    pub(crate) fn is_plain(&self) -> bool
        ensures { result ≡ is_plain (given_said self.now) }
    {
        self.of_store() && self.store.is_none() && self.time.is_none()
    }
}
