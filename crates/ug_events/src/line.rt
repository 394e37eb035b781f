//! What a line of events says.

ghost use Rattle.std.specs.Prelude.{◌≡◌, ℕ, ◌∷◌, List, Option, Ok, true, false, length, nat_lt, MatchOption, IfNone, IfSome, IfOk, IfErr};
ghost use Rattle.ug_events.specs.declared.verb.Verb.{Verb};
ghost use Rattle.ug_events.specs.declared.verb.Verb.TheVariants as verbs;
ghost use Rattle.ug_events.specs.Events.{KeepsItsRules, SaysNothing};
ghost use Rattle.ug_events.specs.Words.{words, begins_with, without_return};
ghost use Rattle.ug_events.specs.Fields.{name_of};
ghost use Rattle.ug_events.specs.Grammar.{said, word_of, one_word, prefix_word, line_of_words, most_line, line_of, routes_line_of};
ghost use Rattle.ug_events.specs.Views.{Gives, IsRefusedBy, saying_of};

use crate::entries::read_entries;
use crate::event::{Event, Line};
use crate::hexadecimal::{list_of, request_of};
use crate::names::{name_of, policy_of};
use crate::recent::Recent;
use crate::refusal::LineRefusal;
use crate::verb::{Verb, routes_verb_of, verb_of};
use crate::words::{next_word, without_return};
use std::alloc::Global;
use ug_text::read_prefix;
use ug_types::{Name, Prefix};

/// A reader of the lines of a file, one by one. It remembers the paths that it read lately: lines that give equal paths
/// share them.
#[derive(Drop)]
pub struct LineReader {
    alloc: Global,
    recent: Recent,
}

impl LineReader {
    /// A reader that has read nothing. It takes no memory.
    pub fn new(alloc: Global) -> LineReader {
        LineReader {
            alloc,
            recent: Recent::new(alloc),
        }
    }

    /// What a line says, as `read_line` tells.
    pub fn read(&mut self, bytes: &[u8]) -> Result<Line, LineRefusal>
        ensures read { IfOk result (λ line. line_of bytes.now ≡ Ok (saying_of line)) }
        ensures refused { IfErr result (λ e. IsRefusedBy e (line_of bytes.now)) }
        ensures keeps { IfOk result (λ line. KeepsItsRules (saying_of line)) }
    {
        let Some(line) = short_line(bytes) else {
            return Err(LineRefusal::of(20));
        };
        let Some((word, rest)) = first_word(line) else {
            return Ok(Line::Blank);
        };
        match verb_of(word) {
            Some(verb) => said(self.alloc, &mut self.recent, verb, rest),
            None => Err(LineRefusal::of(21)),
        }
    }

    /// What a line says where the verbs of routes alone are known, as `read_routes_line` tells.
    pub fn read_routes(&mut self, bytes: &[u8]) -> Result<Line, LineRefusal>
        ensures read { IfOk result (λ line. routes_line_of bytes.now ≡ Ok (saying_of line)) }
        ensures refused { IfErr result (λ e. IsRefusedBy e (routes_line_of bytes.now)) }
        ensures keeps { IfOk result (λ line. KeepsItsRules (saying_of line)) }
    {
        let Some(line) = short_line(bytes) else {
            return Err(LineRefusal::of(20));
        };
        let Some((word, rest)) = first_word(line) else {
            return Ok(Line::Blank);
        };
        match routes_verb_of(word) {
            Some(verb) => said(self.alloc, &mut self.recent, verb, rest),
            None => Err(LineRefusal::of(21)),
        }
    }
}

/// What a line says, without its newline. A line of over 4,096 bytes is refused as 20. A line without words, or whose
/// first word begins with `#`, says nothing; a first word that is no verb is 21. Then the words are read from left to
/// right, and the first that can't be read decides: 22 to 26, as `LineRefusal` tells.
pub fn read_line(alloc: Global, bytes: &[u8]) -> Result<Line, LineRefusal>
    ensures read { IfOk result (λ line. line_of bytes.now ≡ Ok (saying_of line)) }
    ensures refused { IfErr result (λ e. IsRefusedBy e (line_of bytes.now)) }
    ensures keeps { IfOk result (λ line. KeepsItsRules (saying_of line)) }
{
    LineReader::new(alloc).read(bytes)
}

/// The same where the verbs of routes alone are known, `paths` and `withdraw`: any other is refused as 21.
pub fn read_routes_line(alloc: Global, bytes: &[u8]) -> Result<Line, LineRefusal>
    ensures read { IfOk result (λ line. routes_line_of bytes.now ≡ Ok (saying_of line)) }
    ensures refused { IfErr result (λ e. IsRefusedBy e (routes_line_of bytes.now)) }
    ensures keeps { IfOk result (λ line. KeepsItsRules (saying_of line)) }
{
    LineReader::new(alloc).read_routes(bytes)
}

/// A line that isn't too long, without its final carriage return.
fn short_line(bytes: &[u8]) -> Option<&[u8]>
    ensures { MatchOption result (nat_lt most_line (length bytes.now) ≡ true)
        (λ line. (nat_lt most_line (length bytes.now) ≡ false) × (line.now ≡ without_return bytes.now)) }
{
    if bytes.len() > 4096 {
        return None;
    }
    Some(without_return(bytes))
}

/// The first word, which begins no comment, and what stands behind it.
fn first_word(line: &[u8]) -> Option<(&[u8], &[u8])>
    ensures none { IfNone result ((known : List ℕ → Option Verb) → line_of_words known (words line.now) ≡ Ok SaysNothing) }
    ensures some { IfSome result (λ r. (words line.now ≡ r.0.now ∷ words r.1.now) × (begins_with 35 r.0.now ≡ false)) }
{
    let (word, rest) = next_word(line)?;
    if word[0] == b'#' {
        return None;
    }
    Some((word, rest))
}

/// What the words behind a verb say.
#[tactic(auto, unfolding(crate::specs::Grammar::said))]
fn said(alloc: Global, recent: &mut Recent, verb: Verb, rest: &[u8]) -> Result<Line, LineRefusal>
    ensures read { Gives saying_of result (said verb (words rest.now)) }
    ensures keeps { IfOk result (λ line. KeepsItsRules (saying_of line)) }
{
    let event = match verb {
        Verb::Up => Event::Up {
            peer: one_name(alloc, rest)?,
        },
        Verb::Down => Event::Down {
            peer: one_name(alloc, rest)?,
        },
        Verb::Paths => return paths_line(alloc, recent, rest),
        Verb::Withdraw => Event::Withdraw {
            prefix: one_prefix(rest)?,
        },
        Verb::Policy => return policy_line(alloc, rest),
        Verb::List => return list_line(alloc, rest),
        Verb::Refresh => Event::Refresh {
            peer: one_name(alloc, rest)?,
        },
        Verb::Receive => return receive_line(alloc, rest),
        Verb::Orf => return orf_line(alloc, rest),
        Verb::Sync => return sync_line(rest),
    };
    Ok(Line::Happened(event))
}

/// A name, and no word more.
fn one_name(alloc: Global, rest: &[u8]) -> Result<Name, LineRefusal>
    ensures { Gives (λ name. name) result (one_word name_of (words rest.now)) }
{
    let Some((word, rest)) = next_word(rest) else {
        return Err(LineRefusal::of(22));
    };
    let name = name_of(alloc, word)?;
    match next_word(rest) {
        None => Ok(name),
        Some(_) => Err(LineRefusal::of(22)),
    }
}

/// A prefix, and no word more.
fn one_prefix(rest: &[u8]) -> Result<Prefix, LineRefusal>
    ensures { Gives (λ p. p) result (one_word prefix_word (words rest.now)) }
{
    let Some((word, rest)) = next_word(rest) else {
        return Err(LineRefusal::of(22));
    };
    let Some(prefix) = read_prefix(word) else {
        return Err(LineRefusal::of(23));
    };
    match next_word(rest) {
        None => Ok(prefix),
        Some(_) => Err(LineRefusal::of(22)),
    }
}

/// A prefix and its paths.
#[tactic(auto, unfolding(crate::specs::Grammar::said), using(crate::proofs::InRange::event_in_range))]
fn paths_line(alloc: Global, recent: &mut Recent, rest: &[u8]) -> Result<Line, LineRefusal>
    ensures read { Gives saying_of result (said verbs.Paths (words rest.now)) }
    ensures keeps { IfOk result (λ line. KeepsItsRules (saying_of line)) }
{
    let Some((word, rest)) = next_word(rest) else {
        return Err(LineRefusal::of(22));
    };
    let Some(prefix) = read_prefix(word) else {
        return Err(LineRefusal::of(23));
    };
    let paths = recent.read(alloc, prefix.family, rest)?;
    Ok(Line::Happened(Event::Paths { prefix, paths }))
}

/// A peer, and the name of its policy.
#[tactic(auto, unfolding(crate::specs::Grammar::said))]
fn policy_line(alloc: Global, rest: &[u8]) -> Result<Line, LineRefusal>
    ensures read { Gives saying_of result (said verbs.Policy (words rest.now)) }
    ensures keeps { IfOk result (λ line. KeepsItsRules (saying_of line)) }
{
    let (peer, rest) = name_and_rest(alloc, rest)?;
    let Some((word, rest)) = next_word(rest) else {
        return Err(LineRefusal::of(22));
    };
    let policy = policy_of(alloc, word)?;
    match next_word(rest) {
        None => Ok(Line::Happened(Event::Policy { peer, policy })),
        Some(_) => Err(LineRefusal::of(22)),
    }
}

/// The name of a list, and its entries.
#[tactic(auto, unfolding(crate::specs::Grammar::said))]
fn list_line(alloc: Global, rest: &[u8]) -> Result<Line, LineRefusal>
    ensures read { Gives saying_of result (said verbs.List (words rest.now)) }
    ensures keeps { IfOk result (λ line. KeepsItsRules (saying_of line)) }
{
    let (name, rest) = name_and_rest(alloc, rest)?;
    let entries = read_entries(alloc, rest)?;
    Ok(Line::Happened(Event::List { name, entries }))
}

/// A peer, and its request in hexadecimal.
#[tactic(auto, unfolding(crate::specs::Grammar::said))]
fn receive_line(alloc: Global, rest: &[u8]) -> Result<Line, LineRefusal>
    ensures read { Gives saying_of result (said verbs.Receive (words rest.now)) }
    ensures keeps { IfOk result (λ line. KeepsItsRules (saying_of line)) }
{
    let (peer, rest) = name_and_rest(alloc, rest)?;
    let Some((word, rest)) = next_word(rest) else {
        return Err(LineRefusal::of(22));
    };
    request_of(alloc, word)?;
    match next_word(rest) {
        None => Ok(Line::Happened(Event::Receive { peer })),
        Some(_) => Err(LineRefusal::of(22)),
    }
}

/// A peer, and the changes of its own list in hexadecimal.
#[tactic(auto, unfolding(crate::specs::Grammar::said))]
fn orf_line(alloc: Global, rest: &[u8]) -> Result<Line, LineRefusal>
    ensures read { Gives saying_of result (said verbs.Orf (words rest.now)) }
    ensures keeps { IfOk result (λ line. KeepsItsRules (saying_of line)) }
{
    let (peer, rest) = name_and_rest(alloc, rest)?;
    let Some((word, rest)) = next_word(rest) else {
        return Err(LineRefusal::of(22));
    };
    let message = list_of(alloc, word)?;
    match next_word(rest) {
        None => Ok(Line::Happened(Event::Orf { peer, message })),
        Some(_) => Err(LineRefusal::of(22)),
    }
}

/// No word more.
#[tactic(auto, unfolding(crate::specs::Grammar::said))]
fn sync_line(rest: &[u8]) -> Result<Line, LineRefusal>
    ensures read { Gives saying_of result (said verbs.Sync (words rest.now)) }
    ensures keeps { IfOk result (λ line. KeepsItsRules (saying_of line)) }
{
    match next_word(rest) {
        None => Ok(Line::Sync),
        Some(_) => Err(LineRefusal::of(22)),
    }
}

/// A name, and what stands behind it.
fn name_and_rest(alloc: Global, rest: &[u8]) -> Result<(Name, &[u8]), LineRefusal>
    ensures { Gives (λ x. (x.0, words x.1.now)) result (word_of name_of (words rest.now)) }
{
    let Some((word, rest)) = next_word(rest) else {
        return Err(LineRefusal::of(22));
    };
    let name = name_of(alloc, word)?;
    Ok((name, rest))
}
