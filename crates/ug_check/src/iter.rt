//! The rows one after another.

ghost use Rattle.std.specs.Prelude.{length};
ghost use Rattle.std.specs.Iterator.{at_most};
ghost use Rattle.std.specs.Map.Iter.{TakesFirst};
ghost use Rattle.ug_check.specs.Rows.{row_seen};

use crate::row::Row;
use std::collections::btree_map::Iter;
use std::marker::Model;
use ug_short_key::{V4Key, V6Key};
use ug_types::{Attrs, Key};

/// The rows of a table in key order, each as its key and its attributes.
#[derive(Drop)]
pub struct RowIter<'a> {
    pub(crate) v4: Iter<'a, V4Key, Row>,
    pub(crate) v6: Iter<'a, V6Key, Row>,
}

impl<'a> Model for RowIter<'a> {
    ghost use Rattle.std.specs.Prelude.{List, ◌++◌, map};
    ghost use Rattle.ug_types.specs.declared.key.Key.{Key as Route};
    ghost use Rattle.ug_types.specs.Attributes.{Attributes};
    ghost use Rattle.ug_check.specs.Stored.{shown};

    ghost Value = { List (Route × Attributes) };

    ghost view = { λ i. map shown (i.v4 ++ i.v6) };
}

impl<'a> Iterator for RowIter<'a> {
    type Item = (Key, &'a Attrs);

    ghost next_gives = { TakesFirst row_seen };

    ghost remaining = { λ s. at_most (length s) };

    fn next(&mut self) -> Option<(Key, &'a Attrs)> {
        if let Some((key, row)) = self.v4.next() {
            return Some((key.widen(), &row.shared.as_ref().attrs));
        }
        match self.v6.next() {
            Some((key, row)) => Some((key.widen(), &row.shared.as_ref().attrs)),
            None => None,
        }
    }
}
