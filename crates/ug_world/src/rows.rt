//! The rows of the Loc-RIB one after another.

ghost use Rattle.std.specs.Prelude.{length};
ghost use Rattle.std.specs.Iterator.{at_most};
ghost use Rattle.std.specs.Map.Iter.{TakesFirst};
ghost use Rattle.ug_world.specs.Rows.{row_lent};

use crate::best::Best;
use crate::v4_prefix::V4Prefix;
use crate::v6_prefix::V6Prefix;
use std::collections::btree_map::Range;
use std::marker::Model;
use ug_types::{Path, Prefix};

/// Rows of the Loc-RIB in the order of their prefixes, each as its prefix and its paths, the best first.
#[derive(Drop)]
pub struct Rows<'a> {
    /// Those of IPv4 that are left; None behind a prefix of IPv6, where they have all gone by.
    pub(crate) v4: Option<Range<'a, V4Prefix, Best>>,
    pub(crate) v6: Range<'a, V6Prefix, Best>,
}

impl<'a> Model for Rows<'a> {
    ghost use Rattle.std.specs.Prelude.{List, [], ◌++◌, unwrap_or};
    ghost use Rattle.ug_types.specs.Ip.{IpPrefix};
    ghost use Rattle.ug_types.specs.declared.route.Path.{Path};

    ghost Value = { List (IpPrefix × List Path) };

    ghost view = { λ r. unwrap_or r.v4 [] ++ r.v6 };
}

impl<'a> Iterator for Rows<'a> {
    type Item = (Prefix, &'a [Path]);

    ghost next_gives = { TakesFirst row_lent };

    ghost remaining = { λ r. at_most (length r) };

    fn next(&mut self) -> Option<(Prefix, &'a [Path])> {
        if let Some(rows) = &mut self.v4 {
            if let Some((prefix, best)) = rows.next() {
                return Some((prefix.widen(), best.as_slice()));
            }
        }
        match self.v6.next() {
            Some((prefix, best)) => Some((prefix.widen(), best.as_slice())),
            None => None,
        }
    }
}
