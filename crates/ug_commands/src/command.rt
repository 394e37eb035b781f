//! The command that words are.

ghost use Rattle.std.specs.Prelude.{◌≡◌, IfOk, None, Ok, false, map};
ghost use Rattle.std.specs.String.{string_bytes};
ghost use Rattle.std.specs.Option.{option_map};
ghost use Rattle.ug_commands.specs.Words.{command_of, is_command, said_by, one_by, run_by, check_by, groups_by, selfrun_by, audit_by, is_apart, with_words, nothing_said};
ghost use Rattle.ug_commands.specs.Views.{command_seen, so_far_seen, word_seen};

use crate::matches::matched_words;
use crate::number::number_of;
use crate::so_far::WordsSoFar;
use crate::verb::{Verb, verb_of};
use std::alloc::Global;
use ug_types::{Capabilities, NoMemory};

/// `one EVENTS DIR`: the name of the events' file, and that of the folder for the wires.
#[derive(Drop)]
pub struct OneWords<'a> {
    pub events: &'a str,
    pub dir: &'a str,
}

/// `run CONFIG EVENTS DIR [--workers 0 or 1]`: the names of the configuration's and the events' file, that of the folder
/// for the wires, and whether each lane works in a thread of its own.
#[derive(Drop)]
pub struct RunWords<'a> {
    pub config: &'a str,
    pub events: &'a str,
    pub dir: &'a str,
    pub apart: bool,
}

/// `check [--add-path] [--extended] [--ipv6] STREAM`: what the session was opened with, and the name of its file.
#[derive(Drop)]
pub struct CheckWords<'a> {
    pub session: Capabilities,
    pub stream: &'a str,
}

/// `groups CONFIG`: the name of the configuration's file.
#[derive(Drop)]
pub struct GroupsWords<'a> {
    pub config: &'a str,
}

/// `selfrun NUMBER`: the number of the workload.
#[derive(Drop)]
pub struct SelfRunWords {
    pub number: u64,
}

/// `audit CONFIG EVENTS REPORT DIR`: the names of the files of a run, and of the folder of its sessions.
#[derive(Drop)]
pub struct AuditWords<'a> {
    pub config: &'a str,
    pub events: &'a str,
    pub report: &'a str,
    pub dir: &'a str,
}

/// A command.
#[derive(Drop)]
pub enum Command<'a> {
    One(OneWords<'a>),
    Run(RunWords<'a>),
    Check(CheckWords<'a>),
    Groups(GroupsWords<'a>),
    SelfRun(SelfRunWords),
    Audit(AuditWords<'a>),
}

/// The command that the words are, the first of them its name; none where they are no command. Our own check refuses those,
/// before memory is asked for, and `clap` reads the others.
pub fn read_command(alloc: Global, words: &[String]) -> Result<Option<Command<'_>>, NoMemory>
    ensures read { IfOk result (λ command. command_seen command ≡ command_of (map string_bytes words.now)) }
    ensures refused { is_command (map string_bytes words.now) ≡ false → result ≡ Ok None }
{
    let [name, ..] = words else {
        return Ok(None);
    };
    let Some(verb) = verb_of(name.as_str()) else {
        return Ok(None);
    };
    if command_in(words).is_none() {
        return Ok(None);
    }
    let Some(said) = matched_words(alloc, words)? else {
        unreachable!()
    };
    Ok(command_said(verb, said))
}

/// The same by our own check alone, which takes no memory.
pub fn command_in(words: &[String]) -> Option<Command<'_>>
    ensures { command_seen result ≡ command_of (map string_bytes words.now) }
{
    let [name, rest @ ..] = words else {
        return None;
    };
    let verb = verb_of(name.as_str())?;
    let said = read_words(verb, rest)?;
    command_said(verb, said)
}

/// What the words behind the name say.
#[tactic(auto, unfolding(crate::specs::Words::with_words))]
fn read_words(verb: Verb, words: &[String]) -> Option<WordsSoFar<'_>>
    ensures { option_map so_far_seen result ≡ with_words verb (map string_bytes words.now) nothing_said }
{
    let mut so_far = WordsSoFar {
        may_be_option: true,
        wants_value: false,
        add_path: false,
        extended: false,
        ipv6: false,
        workers: None,
        first: None,
        second: None,
        third: None,
        fourth: None,
    };
    for word in words {
        so_far = so_far.with_word(verb, word.as_str())?;
    }
    Some(so_far)
}

/// The command that all words say.
fn command_said(verb: Verb, said: WordsSoFar<'_>) -> Option<Command<'_>>
    ensures { command_seen result ≡ said_by verb (so_far_seen said.entry) }
{
    match verb {
        Verb::One => one(said.first, said.second, said.third, said.fourth),
        Verb::Run => {
            if said.wants_value {
                return None;
            }
            run(
                is_apart(said.workers),
                said.first,
                said.second,
                said.third,
                said.fourth,
            )
        }
        Verb::Check => check(
            said.session(),
            said.first,
            said.second,
            said.third,
            said.fourth,
        ),
        Verb::Groups => groups(said.first, said.second, said.third, said.fourth),
        Verb::SelfRun => selfrun(said.first, said.second, said.third, said.fourth),
        Verb::Audit => audit(said.first, said.second, said.third, said.fourth),
    }
}

/// Whether each lane works in a thread of its own, which it does unless the words say otherwise.
fn is_apart(workers: Option<bool>) -> bool
    ensures { result ≡ is_apart workers }
{
    match workers {
        None => true,
        Some(apart) => apart,
    }
}

fn one<'a>(
    first: Option<&'a str>,
    second: Option<&'a str>,
    third: Option<&'a str>,
    fourth: Option<&'a str>,
) -> Option<Command<'a>>
    ensures { command_seen result ≡ one_by (word_seen first.entry) (word_seen second.entry) (word_seen third.entry) (word_seen fourth.entry) }
{
    match (first, second, third, fourth) {
        (Some(events), Some(dir), None, None) => Some(Command::One(OneWords { events, dir })),
        _ => None,
    }
}

fn run<'a>(
    apart: bool,
    first: Option<&'a str>,
    second: Option<&'a str>,
    third: Option<&'a str>,
    fourth: Option<&'a str>,
) -> Option<Command<'a>>
    ensures { command_seen result ≡ run_by apart (word_seen first.entry) (word_seen second.entry) (word_seen third.entry) (word_seen fourth.entry) }
{
    match (first, second, third, fourth) {
        (Some(config), Some(events), Some(dir), None) => Some(Command::Run(RunWords {
            config,
            events,
            dir,
            apart,
        })),
        _ => None,
    }
}

fn check<'a>(
    session: Capabilities,
    first: Option<&'a str>,
    second: Option<&'a str>,
    third: Option<&'a str>,
    fourth: Option<&'a str>,
) -> Option<Command<'a>>
    ensures { command_seen result ≡ check_by session (word_seen first.entry) (word_seen second.entry) (word_seen third.entry) (word_seen fourth.entry) }
{
    match (first, second, third, fourth) {
        (Some(stream), None, None, None) => Some(Command::Check(CheckWords { session, stream })),
        _ => None,
    }
}

fn groups<'a>(
    first: Option<&'a str>,
    second: Option<&'a str>,
    third: Option<&'a str>,
    fourth: Option<&'a str>,
) -> Option<Command<'a>>
    ensures { command_seen result ≡ groups_by (word_seen first.entry) (word_seen second.entry) (word_seen third.entry) (word_seen fourth.entry) }
{
    match (first, second, third, fourth) {
        (Some(config), None, None, None) => Some(Command::Groups(GroupsWords { config })),
        _ => None,
    }
}

fn selfrun<'a>(
    first: Option<&'a str>,
    second: Option<&'a str>,
    third: Option<&'a str>,
    fourth: Option<&'a str>,
) -> Option<Command<'a>>
    ensures { command_seen result ≡ selfrun_by (word_seen first.entry) (word_seen second.entry) (word_seen third.entry) (word_seen fourth.entry) }
{
    match (first, second, third, fourth) {
        (Some(word), None, None, None) => {
            let number = number_of(word)?;
            Some(Command::SelfRun(SelfRunWords { number }))
        }
        _ => None,
    }
}

fn audit<'a>(
    first: Option<&'a str>,
    second: Option<&'a str>,
    third: Option<&'a str>,
    fourth: Option<&'a str>,
) -> Option<Command<'a>>
    ensures { command_seen result ≡ audit_by (word_seen first.entry) (word_seen second.entry) (word_seen third.entry) (word_seen fourth.entry) }
{
    match (first, second, third, fourth) {
        (Some(config), Some(events), Some(report), Some(dir)) => {
            Some(Command::Audit(AuditWords {
                config,
                events,
                report,
                dir,
            }))
        }
        _ => None,
    }
}
