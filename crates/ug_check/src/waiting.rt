//! Announcements that wait to be taken in by a table, many at a time: in the order of their keys a table finds their
//! places faster than in any other.

ghost use Rattle.std.specs.Prelude.{◌≡◌, ℕ, [], Some, false, OnOk, IfOk, IfSome, IsTrue, if◌then◌else◌};
ghost use Rattle.ug_types.specs.declared.family.Family.TheVariants.{V4};
ghost use Rattle.ug_types.specs.declared.key.Key as route_keys;
ghost use Rattle.ug_types.specs.Keys.{same_key};
ghost use Rattle.ug_types.specs.Messages.{message_of, Updates};
ghost use Rattle.ug_message.specs.Tables.{among};
ghost use Rattle.ug_check.specs.Rows.{Rows, row_at};
ghost use Rattle.ug_check.specs.Waiting.{with_waiting, of_key, AreV4, AreWaiting};

use crate::row::{Announced, Row};
use std::rc::Rc;
use ug_short_key::V4Key;
use ug_types::{Attrs, Family, Item, Key, NoMemory};

/// An announcement of an IPv4 route.
#[derive(Drop)]
pub struct Change {
    pub key: V4Key,
    pub row: Row,
}

/// The keys and the attributes of a message that only announces routes, the first of them of IPv4.
pub fn announcement(item: &Item) -> Option<(&[Key], &Attrs)>
    ensures says { IfSome result (λ it. message_of item.now ≡ Updates (record { withdrawn = []; attrs = Some it.1.now; announced = it.0.now })) }
{
    let Item::Update(update) = item else {
        return None;
    };
    let keys = update.announced.as_slice();
    if update.withdrawn.len() != 0 || !begins_v4(keys) {
        return None;
    }
    match &update.attrs {
        Some(attrs) => Some((keys, attrs)),
        None => None,
    }
}

/// Whether the first of these keys is of IPv4.
fn begins_v4(keys: &[Key]) -> bool {
    match keys.first() {
        Some(key) => key.prefix.family == Family::V4,
        None => false,
    }
}

/// Whether all of these keys are of IPv4. It looks at each.
pub fn are_v4(keys: &[Key]) -> bool
    ensures { IsTrue result → AreV4 keys.now }
{
    for key in keys {
        match key.prefix.family {
            Family::V4 => {}
            Family::V6 => return false,
        }
    }
    true
}

/// Adds an announcement of each of these keys. After running out of memory some are there.
pub fn add_each(
    waiting: &mut Vec<Change>,
    keys: &[Key],
    shared: &Rc<Announced>,
) -> Result<(), NoMemory>
    requires { AreV4 keys.now }
    ensures row { OnOk result ((t : Rows) (q : route_keys.Key) → row_at (with_waiting t waiting.new.items).rows q ≡ (if among keys.now q then Some shared.now.value.attrs else row_at (with_waiting t waiting.old.items).rows q)) }
    ensures stale { OnOk result ((t : Rows) (q : route_keys.Key) → among (with_waiting t waiting.new.items).stale q ≡ (if among keys.now q then false else among (with_waiting t waiting.old.items).stale q)) }
    ensures waiting { (n : ℕ) → shared.now.value.seen ≡ n → AreWaiting n waiting.old.items → AreWaiting n waiting.new.items }
{
    for key in keys {
        add(waiting, key, shared)?;
    }
    Ok(())
}

fn add(waiting: &mut Vec<Change>, key: &Key, shared: &Rc<Announced>) -> Result<(), NoMemory>
    requires { key.now.prefix.family ≡ V4 }
    ensures row { OnOk result ((t : Rows) (q : route_keys.Key) → row_at (with_waiting t waiting.new.items).rows q ≡ (if same_key q key.now then Some shared.now.value.attrs else row_at (with_waiting t waiting.old.items).rows q)) }
    ensures stale { OnOk result ((t : Rows) (q : route_keys.Key) → among (with_waiting t waiting.new.items).stale q ≡ (if same_key q key.now then false else among (with_waiting t waiting.old.items).stale q)) }
    ensures waiting { (n : ℕ) → shared.now.value.seen ≡ n → AreWaiting n waiting.old.items → AreWaiting n waiting.new.items }
{
    let row = Row {
        shared: shared.clone()?,
    };
    let key = V4Key::narrow(key);
    waiting.push(Change { key, row })?;
    Ok(())
}

/// The announcements in the order of their keys, and those of one key in the order in which they came.
pub fn in_key_order(changes: Vec<Change>) -> Result<Vec<Change>, NoMemory>
    ensures same { IfOk result (λ sorted. (q : route_keys.Key) → of_key q sorted.items ≡ of_key q changes.items) }
    ensures waiting { IfOk result (λ sorted. (n : ℕ) → AreWaiting n changes.items → AreWaiting n sorted.items) }
{
    let mut sorted = changes;
    sorted.sort_by_key(|change| change.key)?;
    Ok(sorted)
}
