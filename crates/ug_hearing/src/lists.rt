//! Lists, one behind the other.

ghost use Rattle.std.specs.Prelude.{◌≡◌, ◌<◌, ◌≤◌, ◌∷◌, ◌++◌, [], length, slice_get, sum_by, Some, IfOk, OnOk, OnErr};
ghost use Rattle.ug_hearing.specs.Lists.{start_at, AreEnds};

use std::alloc::Global;
use std::marker::Model;
use ug_types::NoMemory;

/// Lists, whose items lie one behind the other in memory that is taken for all of them. Contracts see the lists.
#[derive(Drop)]
pub struct Lists<T> {
    ends: Vec<usize>,
    items: Vec<T>,
}

impl<T> Model for Lists<T> {
    ghost use Rattle.std.specs.Prelude.{List, length};
    ghost use Rattle.ug_hearing.specs.Lists.{lists_to, AreEnds};

    ghost Value = { List (List T) };

    ghost view = { λ l. lists_to 0 l.ends.items l.items.items };

    ghost invariant = { λ l. AreEnds 0 l.ends.items (length l.items.items) };
}

impl<T: Drop> Lists<T> {
    /// No lists, and memory for so many of them, and for so many items.
    pub fn new(alloc: Global, lists: usize, items: usize) -> Result<Lists<T>, NoMemory>
        ensures { IfOk result (λ made. made ≡ []) }
    {
        Ok(Lists {
            ends: Vec::with_capacity(alloc, lists)?,
            items: Vec::with_capacity(alloc, items)?,
        })
    }

    /// How many lists there are.
    pub fn len(&self) -> usize
        ensures { result ≡ length self.now }
    {
        self.ends.len()
    }

    /// How many items all lists have together.
    pub fn item_count(&self) -> usize
        ensures { result ≡ sum_by (λ list. length list) self.now }
    {
        self.items.len()
    }

    /// The list at a place.
    pub fn at(&self, place: usize) -> &[T]
        requires { place < length self.now }
        ensures { slice_get self.now place ≡ Some result.now }
    {
        let items = self.items.as_slice();
        let (from, to) = bounds(&self.ends, items.len(), place);
        &items[from..to]
    }

    /// Adds a list, whose items are moved there. After running out of memory the lists are as before.
    pub fn add(&mut self, list: &mut Vec<T>) -> Result<(), NoMemory>
        ensures added { OnOk result (self.new ≡ self.old ++ list.old.items ∷ []) }
        ensures emptied { OnOk result (list.new.items ≡ []) }
        ensures err { OnErr result (self.new ≡ self.old) }
    {
        let before = self.items.len();
        self.items.append(list)?;
        match self.ends.push(self.items.len()) {
            Ok(()) => Ok(()),
            Err(_) => {
                self.items.truncate(before);
                Err(NoMemory)
            }
        }
    }
}

/// Where the list at a place begins, and where it ends, of so many items in all.
fn bounds(ends: &[usize], all: usize, place: usize) -> (usize, usize)
    requires laid { AreEnds 0 ends.now all }
    requires inside { place < length ends.now }
    ensures ordered { result.0 ≤ result.1 }
    ensures within { result.1 ≤ all }
    ensures start { result.0 ≡ start_at 0 ends.now place }
    ensures end { slice_get ends.now place ≡ Some result.1 }
{
    (start(ends, place), ends[place])
}

/// Where the list at a place begins.
fn start(ends: &[usize], place: usize) -> usize
    requires { place < length ends.now }
    ensures { result ≡ start_at 0 ends.now place }
{
    if place == 0 {
        return 0;
    }
    ends[place - 1]
}
