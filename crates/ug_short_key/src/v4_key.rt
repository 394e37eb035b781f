//! The key of an IPv4 route in few bytes.

ghost use Rattle.std.specs.Prelude.{◌≡◌, ◌/◌, ◌*◌, ◌^◌, Some, refl};
ghost use Rattle.std.specs.Ordering.{eq_by_cmp};
ghost use Rattle.std.specs.Cmp as laws;
ghost use Rattle.ug_types.specs.Keys.{weight_of};
ghost use Rattle.ug_types.specs.declared.family.Family.TheVariants.{V4};
ghost use Rattle.ug_short_key.specs.Keys.{key_order, keys_total};

use std::cmp::Ordering;
use std::marker::Model;
use ug_types::{Family, Key, Prefix, Weighed};

/// The key of an IPv4 route: 12 bytes, where a key of either family has 64. Contracts see the key that it stands for.
#[derive(Clone, Copy, Drop)]
pub struct V4Key {
    bits: u32,
    len: u8,
    id: u32,
}

impl Model for V4Key {
    ghost use Rattle.ug_types.specs.declared.key.Key.{Key as Route};
    ghost use Rattle.std.specs.Prelude.{◌*◌, ◌/◌, ◌^◌};
    ghost use Rattle.ug_types.specs.Ip.{IsPrefix};
    ghost use Rattle.ug_types.specs.declared.family.Family.TheVariants.{V4};
    ghost use Rattle.ug_short_key.specs.Narrow.{leading_bits};

    ghost Value = { Route };

    ghost view = { λ k. record { prefix = record { family = V4; bits = k.bits * 2 ^ 96; len = k.len }; id = k.id } };

    ghost invariant = { λ k. IsPrefix V4 (k.bits * 2 ^ 96) k.len };

    ghost inverse = { λ k. record { bits = k.prefix.bits / 2 ^ 96; len = k.prefix.len; id = k.id } };

    ghost inverse_ok = { λ k h i. record { bits = leading_bits k.bits i; len = k.len; id = k.id } };
}

impl V4Key {
    /// The same key, of an IPv4 route.
    pub fn narrow(key: &Key) -> V4Key
        requires { key.now.prefix.family ≡ V4 }
        ensures { result ≡ key.now }
    {
        V4Key::new(key.prefix, key.id)
    }

    fn new(prefix: Prefix, id: u32) -> V4Key
        requires { prefix.family ≡ V4 }
        ensures { result ≡ record { prefix = prefix; id = id } }
    {
        V4Key {
            bits: (prefix.bits >> 96) as u32,
            len: prefix.len,
            id,
        }
    }

    /// The key as all see it.
    pub fn widen(&self) -> Key
        ensures { result ≡ self.now }
    {
        let prefix = Prefix {
            family: Family::V4,
            bits: (self.bits as u128) << 96,
            len: self.len,
        };
        Key {
            prefix,
            id: self.id,
        }
    }
}

impl Weighed for V4Key {
    ghost bytes = { weight_of };

    fn weight(&self) -> usize {
        self.widen().weight()
    }
}

impl PartialEq for V4Key {
    ghost eq = { eq_by_cmp key_order };

    ghost laws = { laws.partial_equiv_from_equiv (laws.eq_by_cmp_equiv keys_total) };

    fn eq(&self, other: &Self) -> bool {
        self.cmp(other).is_eq()
    }
}

impl Eq for V4Key {
    ghost laws = { laws.eq_by_cmp_equiv keys_total };
}

impl PartialOrd for V4Key {
    ghost partial_cmp = { λ a b. Some (key_order a b) };

    ghost laws = { laws.po keys_total (λ a b. refl) };

    fn partial_cmp(&self, other: &Self) -> Option<Ordering> {
        Some(self.cmp(other))
    }
}

impl Ord for V4Key {
    ghost cmp = { key_order };

    ghost total = { keys_total };

    ghost matches_partial_cmp = { λ a b. refl };

    ghost matches_eq = { λ a b. refl };

    fn cmp(&self, other: &Self) -> Ordering {
        match self.bits.cmp(&other.bits) {
            Ordering::Equal => self.len.cmp(&other.len).then(self.id.cmp(&other.id)),
            order => order,
        }
    }
}
