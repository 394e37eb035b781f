//! A prefix list in place of another of its name.

ghost use Rattle.std.specs.Prelude.{◌≡◌, true, false, map, MatchOption};
ghost use Rattle.ug_world.specs.Names.{is_name_among, are_distinct, where_named};
ghost use Rattle.ug_world.specs.Kept.{IsListAt, name_of, with_value};

use ug_outbound::Policies;
use ug_policy::{ListTable, NamedList, PrefixList};
use ug_types::Name;

/// The list of that name is this one.
pub fn relist(policies: &mut Policies, name: &Name, list: PrefixList)
    requires { are_distinct (map name_of policies.old.lists) ≡ true }
    ensures { policies.new ≡ record policies.old { lists = map (where_named name_of name.now (with_value list)) policies.old.lists } }
{
    put(&mut policies.lists, name, list);
}

fn put(lists: &mut ListTable, name: &Name, list: PrefixList)
    requires { are_distinct (map name_of lists.old.items) ≡ true }
    ensures { lists.new.items ≡ map (where_named name_of name.now (with_value list)) lists.old.items }
{
    if let Some(place) = place_of(lists.as_slice(), name) {
        lists.at_mut(place).value = list;
    }
}

/// The place of the list of that name.
fn place_of(lists: &[NamedList], name: &Name) -> Option<usize>
    ensures { MatchOption result (is_name_among (map name_of lists.now) name.now ≡ false) (IsListAt lists.now name.now) }
{
    for place in 0..lists.len() {
        if lists[place].name == *name {
            return Some(place);
        }
    }
    None
}
