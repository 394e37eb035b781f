//! What words have said so far.

ghost use Rattle.std.specs.Prelude.{◌≡◌};
ghost use Rattle.std.specs.Option.{option_map};
ghost use Rattle.ug_commands.specs.Words.{is_option, with_positional, with_check_option, with_run_option, with_option, with_value, with_word, session_said};
ghost use Rattle.ug_commands.specs.Views.{so_far_seen};

use crate::verb::Verb;
use ug_types::{Capabilities, Family};

/// What the words behind the name of a command have said so far: whether options may still come, and whether the value of
/// `--workers` has to; the options, and the positional words.
#[derive(Clone, Copy)]
pub(crate) struct WordsSoFar<'a> {
    pub(crate) may_be_option: bool,
    pub(crate) wants_value: bool,
    pub(crate) add_path: bool,
    pub(crate) extended: bool,
    pub(crate) ipv6: bool,
    pub(crate) workers: Option<bool>,
    pub(crate) first: Option<&'a str>,
    pub(crate) second: Option<&'a str>,
    pub(crate) third: Option<&'a str>,
    pub(crate) fourth: Option<&'a str>,
}

impl<'a> WordsSoFar<'a> {
    /// The session that the options speak of.
    pub(crate) fn session(self) -> Capabilities
        ensures { result ≡ session_said (so_far_seen self.entry) }
    {
        Capabilities {
            family: if self.ipv6 { Family::V6 } else { Family::V4 },
            add_path: self.add_path,
            extended: self.extended,
        }
    }

    /// With one word more.
    pub(crate) fn with_word(self, verb: Verb, word: &'a str) -> Option<WordsSoFar<'a>>
        ensures { option_map so_far_seen result ≡ with_word verb word.now (so_far_seen self.entry) }
    {
        if self.wants_value {
            return self.with_value(word);
        }
        if !self.may_be_option {
            return self.with_positional(word);
        }
        if word == "--" {
            return Some(WordsSoFar {
                may_be_option: false,
                ..self
            });
        }
        if is_option(word) {
            return self.with_option(verb, word);
        }
        self.with_positional(word)
    }

    fn with_positional(self, word: &'a str) -> Option<WordsSoFar<'a>>
        ensures { option_map so_far_seen result ≡ with_positional word.now (so_far_seen self.entry) }
    {
        if self.first.is_none() {
            return Some(WordsSoFar {
                first: Some(word),
                ..self
            });
        }
        if self.second.is_none() {
            return Some(WordsSoFar {
                second: Some(word),
                ..self
            });
        }
        if self.third.is_none() {
            return Some(WordsSoFar {
                third: Some(word),
                ..self
            });
        }
        if self.fourth.is_none() {
            return Some(WordsSoFar {
                fourth: Some(word),
                ..self
            });
        }
        None
    }

    fn with_option(self, verb: Verb, word: &'a str) -> Option<WordsSoFar<'a>>
        ensures { option_map so_far_seen result ≡ with_option verb word.now (so_far_seen self.entry) }
    {
        match verb {
            Verb::One | Verb::Groups | Verb::SelfRun | Verb::Audit => None,
            Verb::Run => self.with_run_option(word),
            Verb::Check => self.with_check_option(word),
        }
    }

    fn with_check_option(self, word: &'a str) -> Option<WordsSoFar<'a>>
        ensures { option_map so_far_seen result ≡ with_check_option word.now (so_far_seen self.entry) }
    {
        if word == "--add-path" && !self.add_path {
            return Some(WordsSoFar {
                add_path: true,
                ..self
            });
        }
        if word == "--extended" && !self.extended {
            return Some(WordsSoFar {
                extended: true,
                ..self
            });
        }
        if word == "--ipv6" && !self.ipv6 {
            return Some(WordsSoFar { ipv6: true, ..self });
        }
        None
    }

    fn with_run_option(self, word: &'a str) -> Option<WordsSoFar<'a>>
        ensures { option_map so_far_seen result ≡ with_run_option word.now (so_far_seen self.entry) }
    {
        if self.workers.is_some() {
            return None;
        }
        if word == "--workers" {
            return Some(WordsSoFar {
                wants_value: true,
                ..self
            });
        }
        if word == "--workers=0" {
            return Some(WordsSoFar {
                workers: Some(false),
                ..self
            });
        }
        if word == "--workers=1" {
            return Some(WordsSoFar {
                workers: Some(true),
                ..self
            });
        }
        None
    }

    fn with_value(self, word: &'a str) -> Option<WordsSoFar<'a>>
        ensures { option_map so_far_seen result ≡ with_value word.now (so_far_seen self.entry) }
    {
        if word == "0" {
            return Some(WordsSoFar {
                wants_value: false,
                workers: Some(false),
                ..self
            });
        }
        if word == "1" {
            return Some(WordsSoFar {
                wants_value: false,
                workers: Some(true),
                ..self
            });
        }
        None
    }
}

/// Whether a word is of two bytes or more and begins with `-`.
fn is_option(word: &str) -> bool
    ensures { result ≡ is_option word.now }
{
    let bytes = word.as_bytes();
    bytes.len() > 1 && bytes[0] == b'-'
}
