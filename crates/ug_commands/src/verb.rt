//! The names of the commands.

ghost use Rattle.std.specs.Prelude.{◌≡◌};
ghost use Rattle.ug_commands.specs.Words.{verb_of};

/// Which command.
#[derive(Clone, Copy, PartialEq, Eq)]
pub(crate) enum Verb {
    One,
    Run,
    Check,
    Groups,
    SelfRun,
    Audit,
}

/// The command of that name.
pub(crate) fn verb_of(word: &str) -> Option<Verb>
    ensures { result ≡ verb_of word.now }
{
    if word == "one" {
        return Some(Verb::One);
    }
    if word == "run" {
        return Some(Verb::Run);
    }
    if word == "check" {
        return Some(Verb::Check);
    }
    if word == "groups" {
        return Some(Verb::Groups);
    }
    if word == "selfrun" {
        return Some(Verb::SelfRun);
    }
    if word == "audit" {
        return Some(Verb::Audit);
    }
    None
}
