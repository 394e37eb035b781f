//! Laws over the definitions, on a function that does nothing.

ghost use Rattle.std.specs.Prelude.{◌≡◌, ◌≤◌, true, false, [], length, Some, None};
ghost use Rattle.ug_types.specs.Ip.{IpPrefix, IpAddress};
ghost use Rattle.ug_types.specs.Attributes.{refusal_of};
ghost use Rattle.ug_message.specs.Spelling.{attributes, attributes_but_next_hop};
ghost use Rattle.ug_types.specs.declared.route.Learned.TheVariants as learned;
ghost use Rattle.ug_types.specs.declared.route.Path.{Path};
ghost use Rattle.ug_types.specs.declared.route.OutAttrs.{OutAttrs};
ghost use Rattle.ug_policy.specs.Maps.{holds};
ghost use Rattle.ug_outbound.specs.declared.settings.Local.{Local};
ghost use Rattle.ug_outbound.specs.declared.kind.Kind.TheVariants as kinds;
ghost use Rattle.ug_outbound.specs.declared.key.GroupKey.{GroupKey};
ghost use Rattle.ug_outbound.specs.Tables.{Tables};
ghost use Rattle.ug_outbound.specs.Outbound.{out};
ghost use Rattle.ug_outbound.specs.Bounds.{SetsFew, first_number};

/// What holds of all that goes out, whatever the policy: `short` bounds the bytes of its attributes, and
/// `short_but_next_hop` those of an IPv6 route, whose next hop stands with the routes; `no_advertise`,
/// `no_export` and `no_export_subconfed` say what the well-known communities keep back; `external` says what no
/// external peer is told, and `first` that the local AS stands first in what one is told; `reflection` keeps routes
/// of internal peers that are no clients from one another.
pub fn outbound_laws()
    ensures short { (key : GroupKey) (tables : Tables) (local : Local) (p : IpPrefix) (path : Path) (o : OutAttrs) →
        out key tables local p path ≡ Some o → refusal_of path.attrs ≡ None → SetsFew tables.maps key.map → length (attributes o.attrs) ≤ 2067 }
    ensures short_but_next_hop { (key : GroupKey) (tables : Tables) (local : Local) (p : IpPrefix) (path : Path) (o : OutAttrs) →
        out key tables local p path ≡ Some o → refusal_of path.attrs ≡ None → SetsFew tables.maps key.map → length (attributes_but_next_hop o.attrs) ≤ 2060 }
    ensures no_advertise { (key : GroupKey) (tables : Tables) (local : Local) (p : IpPrefix) (path : Path) →
        holds 4294967042 path.attrs.communities ≡ true → out key tables local p path ≡ None }
    ensures no_export { (key : GroupKey) (tables : Tables) (local : Local) (p : IpPrefix) (path : Path) →
        key.kind ≡ kinds.External → holds 4294967041 path.attrs.communities ≡ true → out key tables local p path ≡ None }
    ensures no_export_subconfed { (key : GroupKey) (tables : Tables) (local : Local) (p : IpPrefix) (path : Path) →
        key.kind ≡ kinds.External → holds 4294967043 path.attrs.communities ≡ true → out key tables local p path ≡ None }
    ensures external { (key : GroupKey) (tables : Tables) (local : Local) (p : IpPrefix) (path : Path) (o : OutAttrs) →
        out key tables local p path ≡ Some o → key.kind ≡ kinds.External → (o.attrs.local_pref ≡ None) × (o.attrs.originator ≡ None) × (o.attrs.clusters ≡ []) }
    ensures first { (key : GroupKey) (tables : Tables) (local : Local) (p : IpPrefix) (path : Path) (o : OutAttrs) →
        out key tables local p path ≡ Some o → key.kind ≡ kinds.External → first_number o.attrs.path ≡ Some local.asn }
    ensures reflection { (key : GroupKey) (tables : Tables) (local : Local) (p : IpPrefix) (path : Path) (router : IpAddress) →
        key.kind ≡ kinds.Internal → path.learned ≡ learned.Internal false router → out key tables local p path ≡ None }
{}
