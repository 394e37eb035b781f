//! An IPv6 prefix in few bytes.

ghost use Rattle.std.specs.Prelude.{◌≡◌, ◌+◌, ◌*◌, ◌^◌, Some, refl};
ghost use Rattle.std.specs.Ordering.{eq_by_cmp};
ghost use Rattle.std.specs.Cmp as laws;
ghost use Rattle.ug_types.specs.Keys.{prefix_cmp, prefix_cmp_total};
ghost use Rattle.ug_types.specs.declared.family.Family.TheVariants.{V6};

use std::alloc::AllocError;
use std::cmp::Ordering;
use std::marker::Model;
use ug_types::{Family, Prefix};

/// An IPv6 prefix as it is stored: 24 bytes, where one to reckon with has 48. Contracts see the prefix that it stands for.
#[derive(Drop)]
pub struct V6Prefix {
    /// The bits, 64 by 64, the leading ones first.
    upper: u64,
    lower: u64,
    len: u8,
}

const _: () = prove!(size_of::<V6Prefix>() == 24);

impl Model for V6Prefix {
    ghost use Rattle.std.specs.Prelude.{◌+◌, ◌*◌, ◌^◌, ◌<◌};
    ghost use Rattle.ug_types.specs.Ip.{IpPrefix, IsPrefix};
    ghost use Rattle.ug_types.specs.declared.family.Family.TheVariants.{V6};

    ghost Value = { IpPrefix };

    ghost view = { λ p. record { family = V6; bits = p.upper * 2 ^ 64 + p.lower; len = p.len } };

    ghost invariant = { λ p. IsPrefix V6 (p.upper * 2 ^ 64 + p.lower) p.len × (p.lower < 2 ^ 64) };
}

impl V6Prefix {
    /// The same prefix in few bytes.
    pub fn narrow(prefix: &Prefix) -> V6Prefix
        requires { prefix.now.family ≡ V6 }
        ensures { result ≡ prefix.now }
    {
        V6Prefix {
            upper: (prefix.bits >> 64) as u64,
            lower: (prefix.bits % (1 << 64)) as u64,
            len: prefix.len,
        }
    }

    /// The prefix as all see it.
    pub fn widen(&self) -> Prefix
        ensures { result ≡ self.now }
    {
        Prefix {
            family: Family::V6,
            bits: ((self.upper as u128) << 64) + self.lower as u128,
            len: self.len,
        }
    }
}

impl Clone for V6Prefix {
    ghost is_clone = { λ prefix copy. copy ≡ prefix };

    fn clone(&self) -> Result<V6Prefix, AllocError> {
        Ok(V6Prefix {
            upper: self.upper,
            lower: self.lower,
            len: self.len,
        })
    }
}

impl PartialEq for V6Prefix {
    ghost eq = { eq_by_cmp prefix_cmp };

    ghost laws = { laws.partial_equiv_from_equiv (laws.eq_by_cmp_equiv prefix_cmp_total) };

    fn eq(&self, other: &Self) -> bool {
        self.cmp(other).is_eq()
    }
}

impl Eq for V6Prefix {
    ghost laws = { laws.eq_by_cmp_equiv prefix_cmp_total };
}

impl PartialOrd for V6Prefix {
    ghost partial_cmp = { λ a b. Some (prefix_cmp a b) };

    ghost laws = { laws.po prefix_cmp_total (λ a b. refl) };

    fn partial_cmp(&self, other: &Self) -> Option<Ordering> {
        Some(self.cmp(other))
    }
}

impl Ord for V6Prefix {
    ghost cmp = { prefix_cmp };

    ghost total = { prefix_cmp_total };

    ghost matches_partial_cmp = { λ a b. refl };

    ghost matches_eq = { λ a b. refl };

    fn cmp(&self, other: &Self) -> Ordering {
        match self.upper.cmp(&other.upper) {
            Ordering::Equal => match self.lower.cmp(&other.lower) {
                Ordering::Equal => self.len.cmp(&other.len),
                order => order,
            },
            order => order,
        }
    }
}
