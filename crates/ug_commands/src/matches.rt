//! What `clap` reads of the words.

ghost use Rattle.std.specs.Prelude.{◌≡◌, Bool, IfOk, Some, map, drop, false, true, codes, is_some, option_and_then};
ghost use Rattle.std.specs.String.{string_bytes};
ghost use Rattle.std.specs.Option.{option_map};
ghost use Rattle.clap.specs.Values.{bool_text};
ghost use Rattle.clap.specs.Words.{app_of, found_of, first_value, one_text, rule_of};
ghost use Rattle.ug_commands.specs.Words.{command_by, said_by};
ghost use Rattle.ug_commands.specs.Views.{so_far_seen, word_seen};
ghost use Rattle.ug_commands.specs.Grammar.{bare, flag_rule, grammar, is_one, with_options, with_positionals, workers_rule};
ghost use Rattle.ug_commands.specs.declared.verb.Verb.{Verb};

use crate::so_far::WordsSoFar;
use clap::error::ErrorKind;
use clap::{Arg, ArgAction, ArgMatches, Command};
use std::alloc::{AllocError, Global};
use ug_types::NoMemory;

/// What `clap` reads of the words behind the first, which is the name of the command; `None` where it refuses them. Of words
/// that are a command by our own check it refuses none, and what it reads of them is that command.
pub(crate) fn matched_words<'a>(
    alloc: Global,
    words: &'a [String],
) -> Result<Option<WordsSoFar<'a>>, NoMemory>
    ensures { (verb : Verb) → is_some (command_by (drop 1 (map string_bytes words.now)) verb) ≡ true →
        IfOk result (λ read. option_and_then (said_by verb) (option_map so_far_seen read) ≡ command_by (drop 1 (map string_bytes words.now)) verb) }
{
    let grammar = grammar(alloc)?;
    match grammar.try_get_matches_from(words) {
        Ok(matches) => Ok(Some(words_of(&matches))),
        Err(error) => match error.kind() {
            ErrorKind::OutOfMemory => Err(NoMemory),
            _ => Ok(None),
        },
    }
}

/// What `clap` is told: the positional words and the options of all commands, and no request for help. Which of them a command
/// has was settled before.
fn grammar<'a>(alloc: Global) -> Result<Command<'a>, AllocError>
    ensures { IfOk result (λ command. app_of command ≡ grammar) }
{
    let bare = Command::new(alloc, "woodballash").disable_help_flag(true);
    with_options(alloc, with_positionals(alloc, bare)?)
}

fn with_positionals<'a>(alloc: Global, command: Command<'a>) -> Result<Command<'a>, AllocError>
    ensures { IfOk result (λ more. app_of more ≡ with_positionals (app_of command.entry)) }
{
    command
        .arg(Arg::new(alloc, "first"))?
        .arg(Arg::new(alloc, "second"))?
        .arg(Arg::new(alloc, "third"))?
        .arg(Arg::new(alloc, "fourth"))
}

fn with_options<'a>(alloc: Global, command: Command<'a>) -> Result<Command<'a>, AllocError>
    ensures { IfOk result (λ more. app_of more ≡ with_options (app_of command.entry)) }
{
    let workers = Arg::new(alloc, "workers").long("workers");
    command
        .arg(workers)?
        .arg(flag(alloc, "add-path"))?
        .arg(flag(alloc, "extended"))?
        .arg(flag(alloc, "ipv6"))
}

/// An option without a value.
fn flag<'a>(alloc: Global, name: &'a str) -> Arg<'a>
    ensures rule { rule_of result ≡ flag_rule name.entry.now }
    ensures local { result.global ≡ false }
{
    Arg::new(alloc, name).long(name).action(ArgAction::SetTrue)
}

/// What the matches say of each argument.
fn words_of<'a>(matches: &ArgMatches<'a>) -> WordsSoFar<'a>
    ensures add_path { (b : Bool) → one_text (found_of matches.now) (codes "add-path") ≡ Some (bool_text b) → result.add_path ≡ b }
    ensures extended { (b : Bool) → one_text (found_of matches.now) (codes "extended") ≡ Some (bool_text b) → result.extended ≡ b }
    ensures ipv6 { (b : Bool) → one_text (found_of matches.now) (codes "ipv6") ≡ Some (bool_text b) → result.ipv6 ≡ b }
    ensures workers { result.workers ≡ option_map is_one (first_value (found_of matches.now) (codes "workers")) }
    ensures first { word_seen result.first ≡ first_value (found_of matches.now) (codes "first") }
    ensures second { word_seen result.second ≡ first_value (found_of matches.now) (codes "second") }
    ensures third { word_seen result.third ≡ first_value (found_of matches.now) (codes "third") }
    ensures fourth { word_seen result.fourth ≡ first_value (found_of matches.now) (codes "fourth") }
    ensures open { result.may_be_option ≡ true }
    ensures whole { result.wants_value ≡ false }
{
    WordsSoFar {
        may_be_option: true,
        wants_value: false,
        add_path: matches.get_flag("add-path"),
        extended: matches.get_flag("extended"),
        ipv6: matches.get_flag("ipv6"),
        workers: workers(matches),
        first: matches.get_str("first"),
        second: matches.get_str("second"),
        third: matches.get_str("third"),
        fourth: matches.get_str("fourth"),
    }
}

/// Whether each lane works in a thread of its own, where the words say so.
fn workers(matches: &ArgMatches<'_>) -> Option<bool>
    ensures { result ≡ option_map is_one (first_value (found_of matches.now) (codes "workers")) }
{
    let word = matches.get_str("workers")?;
    Some(word == "1")
}
