//! An IPv4 prefix in few bytes.

ghost use Rattle.std.specs.Prelude.{◌≡◌, ◌*◌, ◌^◌, Some, refl};
ghost use Rattle.std.specs.Ordering.{eq_by_cmp};
ghost use Rattle.std.specs.Cmp as laws;
ghost use Rattle.ug_types.specs.Keys.{prefix_cmp, prefix_cmp_total};
ghost use Rattle.ug_types.specs.declared.family.Family.TheVariants.{V4};

use std::alloc::AllocError;
use std::cmp::Ordering;
use std::marker::Model;
use ug_types::{Family, Prefix};

/// An IPv4 prefix as it is stored: 8 bytes, where one to reckon with has 48. Contracts see the prefix that it stands
/// for.
#[derive(Drop)]
pub struct V4Prefix {
    bits: u32,
    len: u8,
}

const _: () = prove!(size_of::<V4Prefix>() == 8);

impl Model for V4Prefix {
    ghost use Rattle.std.specs.Prelude.{◌*◌, ◌^◌};
    ghost use Rattle.ug_types.specs.Ip.{IpPrefix, IsPrefix};
    ghost use Rattle.ug_types.specs.declared.family.Family.TheVariants.{V4};

    ghost Value = { IpPrefix };

    ghost view = { λ p. record { family = V4; bits = p.bits * 2 ^ 96; len = p.len } };

    ghost invariant = { λ p. IsPrefix V4 (p.bits * 2 ^ 96) p.len };
}

impl V4Prefix {
    /// The same prefix in few bytes.
    pub fn narrow(prefix: &Prefix) -> V4Prefix
        requires { prefix.now.family ≡ V4 }
        ensures { result ≡ prefix.now }
    {
        V4Prefix {
            bits: (prefix.bits >> 96) as u32,
            len: prefix.len,
        }
    }

    /// The prefix as all see it.
    pub fn widen(&self) -> Prefix
        ensures { result ≡ self.now }
    {
        Prefix {
            family: Family::V4,
            bits: (self.bits as u128) << 96,
            len: self.len,
        }
    }
}

impl Clone for V4Prefix {
    ghost is_clone = { λ prefix copy. copy ≡ prefix };

    fn clone(&self) -> Result<V4Prefix, AllocError> {
        Ok(V4Prefix {
            bits: self.bits,
            len: self.len,
        })
    }
}

impl PartialEq for V4Prefix {
    ghost eq = { eq_by_cmp prefix_cmp };

    ghost laws = { laws.partial_equiv_from_equiv (laws.eq_by_cmp_equiv prefix_cmp_total) };

    fn eq(&self, other: &Self) -> bool {
        self.cmp(other).is_eq()
    }
}

impl Eq for V4Prefix {
    ghost laws = { laws.eq_by_cmp_equiv prefix_cmp_total };
}

impl PartialOrd for V4Prefix {
    ghost partial_cmp = { λ a b. Some (prefix_cmp a b) };

    ghost laws = { laws.po prefix_cmp_total (λ a b. refl) };

    fn partial_cmp(&self, other: &Self) -> Option<Ordering> {
        Some(self.cmp(other))
    }
}

impl Ord for V4Prefix {
    ghost cmp = { prefix_cmp };

    ghost total = { prefix_cmp_total };

    ghost matches_partial_cmp = { λ a b. refl };

    ghost matches_eq = { λ a b. refl };

    fn cmp(&self, other: &Self) -> Ordering {
        match self.bits.cmp(&other.bits) {
            Ordering::Equal => self.len.cmp(&other.len),
            order => order,
        }
    }
}
