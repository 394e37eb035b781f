//! Classes of keys: subgroups of equal keys are of one class.

ghost use Rattle.std.specs.Prelude.{◌≡◌, ◌==◌, ◌<◌, ◌≤◌, [], ◌∷◌, ◌++◌, length, position, IsSome, IfSome, IfNone, IfOk, OnOk};
ghost use Rattle.ug_group_rules.specs.Packets.{same_group};
ghost use Rattle.ug_queue.specs.Spread.{value_of};
ghost use Rattle.ug_groups.specs.Entries.{key_of, AreClassed, IsClass};
ghost use Rattle.ug_groups.specs.Scans.{has_class, firsts};
ghost use Rattle.ug_groups.specs.Sweeps.{AreOthers};

use crate::entry::Entry;
use crate::scans::number_of;
use std::alloc::Global;
use ug_outbound::GroupKey;
use ug_queue::Live;
use ug_types::{NoMemory, NumberList};

/// The place of the first that has this key.
pub fn place_of_key(entries: &[(u32, Entry)], key: &GroupKey) -> Option<usize>
    ensures { result ≡ position (λ r. same_group (key_of r.1) key.now) entries.now }
{
    entries.iter().position(|e| e.1.subgroup.has_key(key))
}

/// The class of a key: that of the subgroups that have it, or the next one.
pub fn class_of(live: &Live<Entry>, key: &GroupKey, next: u64) -> u64
    requires { AreClassed next live.now }
    ensures { IsClass next live.now key.now result }
{
    let entries = live.entries();
    match place_of_key(entries, key) {
        Some(i) => entries[i].1.class,
        None => next,
    }
}

/// The place of the first that is of the class.
fn place_of_class(entries: &[(u32, Entry)], class: u64) -> Option<usize>
    ensures { result ≡ position (λ r. r.1.class == class) entries.now }
{
    entries.iter().position(|e| e.1.class == class)
}

/// The number of the first that is of the class, from this number on.
pub fn first_of_class(live: &Live<Entry>, class: u64, from: u32) -> Option<u32>
    ensures there { IfSome result (λ g. (from ≤ g) × IsSome (value_of g live.now)) }
    ensures below { IfSome result (λ g. g < u32.MAX) }
    ensures skipped { IfSome result (λ g. AreOthers from g class live.now) }
    ensures none { IfNone result (AreOthers from (length live.now) class live.now) }
{
    let _next = live.next();
    let entries = live.entries_from(from);
    number_of(entries, place_of_class(entries, class))
}

/// Whether one of them is of the class.
fn has_class(entries: &[(u32, Entry)], class: u64) -> bool
    ensures { result ≡ has_class entries.now class }
{
    entries.iter().any(|e| e.1.class == class)
}

/// The numbers of the first of each class, in order.
pub fn first_of_each(entries: &[(u32, Entry)], alloc: Global) -> Result<NumberList, NoMemory>
    ensures { IfOk result (λ numbers. numbers.items ≡ firsts [] entries.now) }
{
    let mut numbers = NumberList::new(alloc);
    for i in 0..entries.len() {
        if !has_class(&entries[..i], entries[i].1.class) {
            add(&mut numbers, entries[i].0)?;
        }
    }
    Ok(numbers)
}

/// Adds a number at the end.
fn add(numbers: &mut NumberList, number: u32) -> Result<(), NoMemory>
    ensures { OnOk result (numbers.new.items ≡ numbers.old.items ++ number ∷ []) }
{
    let Ok(()) = numbers.push(number) else {
        return Err(NoMemory);
    };
    Ok(())
}
