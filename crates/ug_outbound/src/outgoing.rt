//! The outbound rules in their order.

ghost use Rattle.std.specs.Prelude.{◌≡◌, ◌+◌, ◌≤◌, None, length, IfOk, IfSome};
ghost use Rattle.ug_types.specs.Attributes.{attributes_of, refusal_of};
ghost use Rattle.ug_message.specs.Spelling.{attributes, attributes_but_next_hop};
ghost use Rattle.ug_outbound.specs.Outbound.{is_let_out, mapped, heeded, reflected, attributes_out, finished, out};
ghost use Rattle.ug_outbound.specs.Bounds.{SetsFew};

use crate::as_path::path_out;
use crate::key::GroupKey;
use crate::policy::Policies;
use crate::reflection::{reflected, reflection_allows};
use crate::rules::{
    communities_allow, communities_out, is_local, local_pref_out, med_out, next_hop_kind,
};
use crate::settings::Local;
use std::alloc::Global;
use std::sync::ledger::Ledger;
use ug_policy::{Mapped, find_named, is_permitted};
use ug_types::{
    Addr, AttrParts, Attrs, Family, Learned, Name, NoMemory, OutAttrs, Path, Prefix, Shared, Steps,
};

/// What goes out of a path to the peers of a key; None exactly where nothing does. A prefix list that isn't there
/// permits nothing, and a route map that isn't there gives none. One step is counted, also where memory runs out.
pub fn outbound<L: Ledger>(
    alloc: Global,
    key: &GroupKey,
    policies: &Policies,
    local: &Local,
    prefix: &Prefix,
    path: &Path,
    steps: &mut Steps<L>,
) -> Result<Option<OutAttrs>, NoMemory>
    ensures exact { IfOk result (λ o. o ≡ out key.now policies.now local.now prefix.now path.now) }
    // attributes that nothing refuses from within still fit a message with one route; towards an IPv6 peer NEXT_HOP is
    // not among them
    ensures short { refusal_of path.now.attrs ≡ None → IfOk result (λ o. IfSome o (λ o. length (attributes o.attrs) ≤ 2067)) }
    ensures short_but_next_hop { refusal_of path.now.attrs ≡ None → IfOk result (λ o. IfSome o (λ o. length (attributes_but_next_hop o.attrs) ≤ 2060)) }
    ensures step { steps.new ≡ steps.old + 1 }
{
    steps.tick();
    if !is_let_out(key, policies, prefix, path) {
        return Ok(None);
    }
    let Some(mapped) = mapped(alloc, policies, &key.map, &path.attrs, prefix)? else {
        return Ok(None);
    };
    let mapped = heeded(key.family, path.attrs.get().parts().next_hop, mapped);
    Ok(Some(finished(alloc, key, local, &path.learned, mapped)?))
}

/// Whether the prefix is of the key's family, and the communities, the rules of reflection, the prefix list and the
/// peer's own filter let a path go.
fn is_let_out(key: &GroupKey, policies: &Policies, prefix: &Prefix, path: &Path) -> bool
    ensures { result ≡ is_let_out key.now policies.now prefix.now path.now }
{
    let communities = path.attrs.get().parts().communities.as_slice();
    key.family == prefix.family
        && communities_allow(key.kind, communities)
        && reflection_allows(key.kind, &path.learned)
        && is_permitted(&policies.lists, prefix, &key.list)
        && key.filter.permits(prefix)
}

/// What the route map of that name makes of attributes, or their copy where no map is named.
fn mapped(
    alloc: Global,
    policies: &Policies,
    name: &Option<Name>,
    attrs: &Shared<Attrs>,
    prefix: &Prefix,
) -> Result<Option<Mapped>, NoMemory>
    ensures exact { IfOk result (λ m. m ≡ mapped policies.now name.now attrs.now prefix.now) }
    ensures few { SetsFew policies.now.maps name.now }
{
    let Some(name) = name else {
        return Ok(Some(Mapped {
            attrs: attrs.get().copy(alloc)?,
            set_next_hop: false,
            set_med: false,
        }));
    };
    match find_named(policies.maps.as_slice(), name) {
        Some(map) => map.apply(alloc, &policies.lists, attrs.get(), prefix),
        None => Ok(None),
    }
}

/// What was mapped; towards an IPv6 peer a next hop that the map set, which is IPv4, is as if it were not set.
fn heeded(family: Family, raw: Addr, mapped: Mapped) -> Mapped
    ensures { result ≡ heeded family raw mapped }
{
    if family == Family::V4 {
        return mapped;
    }
    let parts = AttrParts {
        next_hop: raw,
        ..mapped.attrs.into_parts()
    };
    let Ok(attrs) = Attrs::received(parts) else {
        unreachable!()
    };
    Mapped {
        attrs,
        set_next_hop: false,
        set_med: mapped.set_med,
    }
}

/// What was mapped, after the rules of reflection and on single attributes.
fn finished(
    alloc: Global,
    key: &GroupKey,
    local: &Local,
    from: &Learned,
    mapped: Mapped,
) -> Result<OutAttrs, NoMemory>
    ensures { IfOk result (λ o. o ≡ finished key.now local.now from.now (record mapped { attrs = reflected local.now key.now.kind from.now mapped.attrs })) }
{
    let nh_kind = next_hop_kind(key, from, mapped.set_next_hop);
    let set_med = mapped.set_med;
    let parts = reflected(alloc, local, key.kind, from, mapped.attrs.into_parts())?;
    let parts = attributes_out(alloc, key, local, from, set_med, parts)?;
    let Ok(attrs) = Attrs::received(parts) else {
        unreachable!()
    };
    Ok(OutAttrs { attrs, nh_kind })
}

/// The attributes after the rules on single attributes.
fn attributes_out(
    alloc: Global,
    key: &GroupKey,
    local: &Local,
    from: &Learned,
    set_med: bool,
    parts: AttrParts,
) -> Result<AttrParts, NoMemory>
    ensures { IfOk result (λ out. attributes_of out ≡ attributes_out key.now local.now from.now set_med (attributes_of parts)) }
{
    let path = path_out(alloc, key, local, parts.path)?;
    let communities = communities_out(alloc, key.send_community, parts.communities);
    let ours = is_local(from) || set_med;
    Ok(AttrParts {
        origin: parts.origin,
        path,
        next_hop: parts.next_hop,
        med: med_out(key.kind, ours, parts.med),
        local_pref: local_pref_out(key.kind, parts.local_pref),
        atomic: parts.atomic,
        aggregator: parts.aggregator,
        communities,
        originator: parts.originator,
        clusters: parts.clusters,
    })
}
