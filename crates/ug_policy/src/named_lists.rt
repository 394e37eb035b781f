//! Prefix lists, and other values, by name.

ghost use Rattle.std.specs.Prelude.{◌≡◌};
ghost use Rattle.std.specs.Option.{option_map};
ghost use Rattle.ug_policy.specs.Named.{value_named, is_permitted};

use crate::list::PrefixList;
use ug_types::{Name, Named, Prefix, Sequence};

/// A prefix list and its name.
pub type NamedList = Named<PrefixList>;

pub type ListTable = Sequence<NamedList>;

/// The value of that name, the first where there are several; None exactly where there is none.
pub fn find_named<'a, T>(items: &'a [Named<T>], name: &Name) -> Option<&'a T>
    ensures { option_map (λ value. value.now) result ≡ value_named items.now name.now }
{
    for named in items {
        if named.name == *name {
            return Some(&named.value);
        }
    }
    None
}

/// Whether the list of that name permits a prefix, or no list is named. A list that isn't there permits nothing.
pub fn is_permitted(lists: &ListTable, prefix: &Prefix, name: &Option<Name>) -> bool
    ensures { result ≡ is_permitted lists.now.items prefix.now name.now }
{
    let Some(name) = name else {
        return true;
    };
    match find_named(lists.as_slice(), name) {
        Some(list) => list.permits(prefix),
        None => false,
    }
}
