//! Attributes that paths near each other share.

ghost use Rattle.std.specs.Prelude.{◌≡◌, ◌<◌, true, None, IsTrue, IfOk};
ghost use Rattle.ug_types.specs.Attributes.{refusal_of};
ghost use Rattle.ug_message.specs.Spellable.{has_ipv4_addresses};
ghost use Rattle.ug_events.specs.Events.{IsGiven};

use crate::event::Given;
use std::alloc::Global;
use ug_types::{Attrs, Name, NoMemory, Shared, value_laws};

/// These attributes in the memory of a path that has equal ones, or in memory of their own.
fn share(alloc: Global, near: &[Given], attrs: Attrs) -> Result<Shared<Attrs>, NoMemory>
    ensures { IfOk result (λ shared. shared ≡ attrs) }
{
    for path in near {
        if are_same(path.attrs.get(), &attrs) {
            return path.attrs.share();
        }
    }
    Shared::new(alloc, attrs)
}

fn are_same(one: &Attrs, other: &Attrs) -> bool
    ensures { IsTrue result → one.now ≡ other.now }
{
    value_laws();
    *one == *other
}

/// A path with these attributes, in the memory of a path near it that has equal ones, or in memory of their own.
pub fn share_path(
    alloc: Global,
    near: &[Given],
    id: u32,
    from: Option<Name>,
    attrs: Attrs,
) -> Result<Given, NoMemory>
    requires id { 0 < id }
    requires attrs { refusal_of attrs ≡ None }
    requires ipv4 { has_ipv4_addresses attrs ≡ true }
    ensures path { IfOk result (λ path. path ≡ record { id = id; from = from; attrs = attrs }) }
    ensures given { IfOk result IsGiven }
{
    let attrs = share(alloc, near, attrs)?;
    Ok(Given { id, from, attrs })
}
