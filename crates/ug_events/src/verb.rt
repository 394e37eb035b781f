//! What a line begins with.

ghost use Rattle.std.specs.Prelude.{◌≡◌};
ghost use Rattle.ug_events.specs.Grammar.{verb_of, routes_verb_of};

/// A verb.
#[derive(Clone, Copy, PartialEq, Eq)]
pub enum Verb {
    Up,
    Down,
    Paths,
    Withdraw,
    Policy,
    List,
    Refresh,
    Receive,
    Orf,
    Sync,
}

/// The verb that a word is.
pub fn verb_of(word: &[u8]) -> Option<Verb>
    ensures { result ≡ verb_of word.now }
{
    let verb = if word == b"paths".as_slice() {
        Verb::Paths
    } else if word == b"withdraw".as_slice() {
        Verb::Withdraw
    } else if word == b"up".as_slice() {
        Verb::Up
    } else if word == b"down".as_slice() {
        Verb::Down
    } else if word == b"policy".as_slice() {
        Verb::Policy
    } else if word == b"list".as_slice() {
        Verb::List
    } else if word == b"refresh".as_slice() {
        Verb::Refresh
    } else if word == b"receive".as_slice() {
        Verb::Receive
    } else if word == b"orf".as_slice() {
        Verb::Orf
    } else if word == b"sync".as_slice() {
        Verb::Sync
    } else {
        return None;
    };
    Some(verb)
}

/// The same where only the verbs of routes are known: `paths` and `withdraw`.
pub fn routes_verb_of(word: &[u8]) -> Option<Verb>
    ensures { result ≡ routes_verb_of word.now }
{
    let verb = verb_of(word)?;
    match verb {
        Verb::Paths | Verb::Withdraw => Some(verb),
        _ => None,
    }
}
