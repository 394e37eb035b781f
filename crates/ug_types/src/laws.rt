//! Laws over the definitions, each on a function that does nothing.

ghost use Rattle.std.specs.Prelude.{◌≡◌, ◌↔◌, List, ℕ, IsTrue};
ghost use Rattle.ug_types.specs.Ip.{IpPrefix};
ghost use Rattle.ug_types.specs.Keys.{prefix_cmp, same_prefix, same_key};
ghost use Rattle.ug_types.specs.Attributes.{Attributes};
ghost use Rattle.ug_types.specs.Orders.{key_cmp, name_cmp};
ghost use Rattle.ug_types.specs.declared.key.Key.{Key};
ghost use Rattle.ug_types.specs.declared.route.OutAttrs.{OutAttrs};

use crate::attrs::Attrs;
use crate::key::Key as RouteKey;
use crate::name::Name;
use crate::prefix::Prefix;
use crate::route::OutAttrs as RouteAttrs;

/// What the comparisons of prefixes and keys are: prefixes order by family, bits, length (`order`), keys by prefix and
/// then identifier (`key_order`), and prefixes and keys are equal exactly where all their parts are (`prefixes`,
/// `keys`, `same_keys`).
pub fn comparison_laws()
    ensures order { (a b : IpPrefix) → ⟦<Prefix as Ord>⟧.cmp a b ≡ prefix_cmp a b }
    ensures prefixes { (a b : IpPrefix) → ⟦<Prefix as PartialEq>⟧.eq a b ≡ same_prefix a b }
    ensures key_order { (a b : Key) → ⟦<RouteKey as Ord>⟧.cmp a b ≡ key_cmp a b }
    ensures keys { (a b : Key) → ⟦<RouteKey as PartialEq>⟧.eq a b ≡ same_key a b }
    ensures same_keys { (a b : Key) → IsTrue (same_key a b) ↔ (a ≡ b) }
{}

/// Names, attributes and what goes out are equal exactly where their values are, and names order as the lists of
/// their bytes.
pub fn value_laws()
    ensures names { (a b : List ℕ) → IsTrue (⟦<Name as PartialEq>⟧.eq a b) ↔ (a ≡ b) }
    ensures name_order { (a b : List ℕ) → ⟦<Name as Ord>⟧.cmp a b ≡ name_cmp a b }
    ensures attributes { (a b : Attributes) → IsTrue (⟦<Attrs as PartialEq>⟧.eq a b) ↔ (a ≡ b) }
    ensures outs { (a b : OutAttrs) → IsTrue (⟦<RouteAttrs as PartialEq>⟧.eq a b) ↔ (a ≡ b) }
{}
