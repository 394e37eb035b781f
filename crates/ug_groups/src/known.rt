//! What is so of each subgroup, on functions that do nothing.

ghost use Rattle.std.specs.Prelude.{◌≡◌, ℕ, Some, slice_get};
ghost use Rattle.ug_groups.specs.Holders.{IsCounted};
ghost use Rattle.ug_groups.specs.declared.entry.Entry as entries;
ghost use Rattle.ug_groups.specs.Rows.{IsRow};
ghost use Rattle.ug_groups.specs.Entries.{adj_of, row_in};

use crate::entry::Entry;
use ug_intern::Pool;
use ug_types::OutAttrs;

/// What is so of one.
fn know_entry(e: &Entry, pool: &Pool<OutAttrs>)
    requires { IsCounted pool.now (adj_of e.now) }
    ensures { IsRow (row_in pool.now e.now) }
{
    e.subgroup.know_exact(pool);
    e.subgroup.know_queue();
}

/// What is so of each.
pub fn know_entries(all: &[(u32, Entry)], pool: &Pool<OutAttrs>)
    requires { (i : ℕ) (r : ℕ × entries.Entry) → slice_get all.now i ≡ Some r → IsCounted pool.now (adj_of r.1) }
    ensures { (i : ℕ) (r : ℕ × entries.Entry) → slice_get all.now i ≡ Some r → IsRow (row_in pool.now r.1) }
{
    for entry in all {
        know_entry(&entry.1, pool);
    }
}
