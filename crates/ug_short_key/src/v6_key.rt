//! The key of an IPv6 route in few bytes.

ghost use Rattle.std.specs.Prelude.{◌≡◌, ◌+◌, ◌/◌, ◌%◌, ◌*◌, ◌^◌, Some, refl};
ghost use Rattle.std.specs.Ordering.{eq_by_cmp, nat_cmp};
ghost use Rattle.std.specs.Cmp as laws;
ghost use Rattle.ug_short_key.specs.Keys.{key_order, keys_total};
ghost use Rattle.ug_types.specs.declared.family.Family.TheVariants.{V6};

use std::cmp::Ordering;
use std::marker::Model;
use ug_types::{Family, Key, Prefix};

/// The key of an IPv6 route: 24 bytes, where a key of either family has 64.
#[derive(Drop)]
pub struct V6Key {
    high: u64,
    low: u64,
    id: u32,
    len: u8,
}

impl Model for V6Key {
    ghost use Rattle.ug_types.specs.declared.key.Key.{Key as Route};
    ghost use Rattle.std.specs.Prelude.{◌+◌, ◌*◌, ◌<◌, ◌^◌};
    ghost use Rattle.ug_types.specs.Ip.{IsPrefix};
    ghost use Rattle.ug_types.specs.declared.family.Family.TheVariants.{V6};

    ghost Value = { Route };

    ghost view = { λ k. record { prefix = record { family = V6; bits = k.high * 2 ^ 64 + k.low; len = k.len }; id = k.id } };

    ghost invariant = { λ k. IsPrefix V6 (k.high * 2 ^ 64 + k.low) k.len × (k.low < 2 ^ 64) };
}

impl V6Key {
    /// The same key, of an IPv6 route.
    pub fn narrow(key: &Key) -> V6Key
        requires { key.now.prefix.family ≡ V6 }
        ensures { result ≡ key.now }
    {
        V6Key::new(key.prefix, key.id)
    }

    fn new(prefix: Prefix, id: u32) -> V6Key
        requires { prefix.family ≡ V6 }
        ensures { result ≡ record { prefix = prefix; id = id } }
    {
        V6Key {
            high: (prefix.bits >> 64) as u64,
            low: (prefix.bits % (1 << 64)) as u64,
            id,
            len: prefix.len,
        }
    }

    /// The order of the bits, which the upper half decides mostly.
    fn cmp_bits(&self, other: &V6Key) -> Ordering
        ensures { result ≡ nat_cmp self.now.prefix.bits other.now.prefix.bits }
    {
        match self.high.cmp(&other.high) {
            Ordering::Equal => self.low.cmp(&other.low),
            order => order,
        }
    }

    /// The key as all see it.
    pub fn widen(&self) -> Key
        ensures { result ≡ self.now }
    {
        let prefix = Prefix {
            family: Family::V6,
            bits: ((self.high as u128) << 64) + self.low as u128,
            len: self.len,
        };
        Key {
            prefix,
            id: self.id,
        }
    }
}

impl PartialEq for V6Key {
    ghost eq = { eq_by_cmp key_order };

    ghost laws = { laws.partial_equiv_from_equiv (laws.eq_by_cmp_equiv keys_total) };

    fn eq(&self, other: &Self) -> bool {
        self.cmp(other).is_eq()
    }
}

impl Eq for V6Key {
    ghost laws = { laws.eq_by_cmp_equiv keys_total };
}

impl PartialOrd for V6Key {
    ghost partial_cmp = { λ a b. Some (key_order a b) };

    ghost laws = { laws.po keys_total (λ a b. refl) };

    fn partial_cmp(&self, other: &Self) -> Option<Ordering> {
        Some(self.cmp(other))
    }
}

impl Ord for V6Key {
    ghost cmp = { key_order };

    ghost total = { keys_total };

    ghost matches_partial_cmp = { λ a b. refl };

    ghost matches_eq = { λ a b. refl };

    fn cmp(&self, other: &Self) -> Ordering {
        match self.cmp_bits(other) {
            Ordering::Equal => self.len.cmp(&other.len).then(self.id.cmp(&other.id)),
            order => order,
        }
    }
}
