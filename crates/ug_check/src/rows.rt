//! Changes to the rows of a family.

ghost use Rattle.std.specs.Prelude.{◌≡◌, ◌<◌, ◌≤◌, ◌^◌, ◌++◌, ℕ, length, Some, None, OnOk, IsSome, IfSome, IfNone, option_map, option_copied};
ghost use Rattle.std.specs.List.{filter};
ghost use Rattle.std.specs.List.Sorted.{IsStrictlySortedBy};
ghost use Rattle.std.specs.Map.{keys_of};
ghost use Rattle.std.specs.Map.Iter.{deref_pair};
ghost use Rattle.std.specs.BTreeMap.{get};
ghost use Rattle.std.specs.BTreeMap.Range.{IsLeBy};
ghost use Rattle.ug_types.specs.declared.family.Family.TheVariants.{V4, V6};
ghost use Rattle.ug_short_key.specs.Keys.{key_order};
ghost use Rattle.ug_check.specs.Rows.{IsAfter};
ghost use Rattle.ug_check.specs.Stored.{fresh_rows, is_stale, row_lent, AreRowsOf, IsChanged, IsFirstAfter, IsStored};

use crate::row::Row;
use std::collections::BTreeMap;
use std::ops::Bound;
use ug_short_key::{V4Key, V6Key};
use ug_types::{Family, Key, NoMemory};

pub fn remove_v4(rows: &mut BTreeMap<V4Key, Row>, key: &Key)
    requires { key.now.prefix.family ≡ V4 }
    ensures row { IsChanged key.now None rows.old.entries rows.new.entries }
    ensures kept { (n : ℕ) → AreRowsOf V4 n rows.old.entries → AreRowsOf V4 n rows.new.entries }
    ensures ascending { IsStrictlySortedBy key_order (keys_of rows.new.entries) }
{
    rows.remove(&V4Key::narrow(key));
}

pub fn remove_v6(rows: &mut BTreeMap<V6Key, Row>, key: &Key)
    requires { key.now.prefix.family ≡ V6 }
    ensures row { IsChanged key.now None rows.old.entries rows.new.entries }
    ensures kept { (n : ℕ) → AreRowsOf V6 n rows.old.entries → AreRowsOf V6 n rows.new.entries }
    ensures ascending { IsStrictlySortedBy key_order (keys_of rows.new.entries) }
{
    rows.remove(&V6Key::narrow(key));
}

/// Gives the key this row. After running out of memory the rows are as before.
pub fn put_v4(rows: &mut BTreeMap<V4Key, Row>, key: &Key, row: Row) -> Result<(), NoMemory>
    requires { key.now.prefix.family ≡ V4 }
    ensures row { OnOk result (IsChanged key.now (Some row) rows.old.entries rows.new.entries) }
    ensures kept { (n : ℕ) → row.shared.value.seen ≤ n → AreRowsOf V4 n rows.old.entries → AreRowsOf V4 n rows.new.entries }
    ensures ascending { IsStrictlySortedBy key_order (keys_of rows.new.entries) }
{
    rows.insert(V4Key::narrow(key), row)?;
    Ok(())
}

/// Gives the key this row. After running out of memory the rows are as before.
pub fn put_v6(rows: &mut BTreeMap<V6Key, Row>, key: &Key, row: Row) -> Result<(), NoMemory>
    requires { key.now.prefix.family ≡ V6 }
    ensures row { OnOk result (IsChanged key.now (Some row) rows.old.entries rows.new.entries) }
    ensures kept { (n : ℕ) → row.shared.value.seen ≤ n → AreRowsOf V6 n rows.old.entries → AreRowsOf V6 n rows.new.entries }
    ensures ascending { IsStrictlySortedBy key_order (keys_of rows.new.entries) }
{
    rows.insert(V6Key::narrow(key), row)?;
    Ok(())
}

/// Removes the rows that were last announced before so many refreshes had begun.
pub fn sweep<K: Ord + Drop>(rows: &mut BTreeMap<K, Row>, refreshes: u64)
    ensures rows { rows.new.entries ≡ fresh_rows refreshes rows.old.entries }
    ensures ascending { IsStrictlySortedBy K.cmp (keys_of rows.new.entries) }
{
    rows.retain(|_, row| row.shared.as_ref().seen >= refreshes);
}

/// How many of the rows were last announced before so many refreshes had begun.
pub fn count_stale<K: Ord>(rows: &BTreeMap<K, Row>, refreshes: u64) -> usize
    ensures count { result ≡ length (filter (λ e. is_stale refreshes e.1) rows.now.entries) }
    ensures small { result < 2 ^ 63 }
{
    rows.iter()
        .filter(|row| row.1.shared.as_ref().seen < refreshes)
        .count()
}

/// The least row above the key, or the first one.
pub fn first_after<'a, K: Ord + Drop>(
    rows: &'a BTreeMap<K, Row>,
    key: Option<K>,
) -> Option<(&'a K, &'a Row)>
    ensures row { IfSome result (λ row. get K.cmp rows.now row.0.now ≡ Some row.1.now) }
    ensures above { IfSome result (λ row. IsAfter K.cmp key row.0.now) }
    ensures least { IfSome result (λ row. (q : K) → IsAfter K.cmp key q → IsSome (get K.cmp rows.now q) → IsLeBy K.cmp row.0.now q) }
    ensures none { IfNone result ((q : K) → IsAfter K.cmp key q → get K.cmp rows.now q ≡ None) }
{
    let start = match key {
        Some(key) => Bound::Excluded(key),
        None => Bound::Unbounded,
    };
    rows.range((start, Bound::Unbounded)).next()
}

/// A row with its key as all see it.
fn lend_v4<'a>(row: Option<(&'a V4Key, &'a Row)>) -> Option<(Key, &'a Row)>
    ensures { option_map row_lent result ≡ option_map deref_pair row.entry }
{
    match row {
        Some((key, row)) => Some((key.widen(), row)),
        None => None,
    }
}

fn lend_v6<'a>(row: Option<(&'a V6Key, &'a Row)>) -> Option<(Key, &'a Row)>
    ensures { option_map row_lent result ≡ option_map deref_pair row.entry }
{
    match row {
        Some((key, row)) => Some((key.widen(), row)),
        None => None,
    }
}

/// The least IPv4 row above the key, or the first one.
pub fn v4_after<'a>(rows: &'a BTreeMap<V4Key, Row>, key: Option<&Key>) -> Option<(Key, &'a Row)>
    requires { (n : ℕ) × AreRowsOf V4 n rows.now.entries }
    ensures { IsFirstAfter rows.now.entries (option_copied key.entry) (option_map row_lent result) }
{
    match key {
        None => lend_v4(first_after(rows, None)),
        Some(key) => match key.prefix.family {
            Family::V4 => lend_v4(first_after(rows, Some(V4Key::narrow(key)))),
            // Every IPv4 row stands before it.
            Family::V6 => None,
        },
    }
}

/// The least IPv6 row above the key, or the first one.
pub fn v6_after<'a>(rows: &'a BTreeMap<V6Key, Row>, key: Option<&Key>) -> Option<(Key, &'a Row)>
    requires { (n : ℕ) × AreRowsOf V6 n rows.now.entries }
    ensures { IsFirstAfter rows.now.entries (option_copied key.entry) (option_map row_lent result) }
{
    match key {
        None => lend_v6(first_after(rows, None)),
        Some(key) => match key.prefix.family {
            // Every IPv6 row stands behind it.
            Family::V4 => lend_v6(first_after(rows, None)),
            Family::V6 => lend_v6(first_after(rows, Some(V6Key::narrow(key)))),
        },
    }
}

/// The least row above the key, or the first one, of both families.
pub fn stored_after<'a>(
    v4: &'a BTreeMap<V4Key, Row>,
    v6: &'a BTreeMap<V6Key, Row>,
    key: Option<&Key>,
) -> Option<(Key, &'a Row)>
    requires { (n : ℕ) × IsStored v4.now.entries v6.now.entries n }
    ensures { IsFirstAfter (v4.now.entries ++ v6.now.entries) (option_copied key.entry) (option_map row_lent result) }
{
    match v4_after(v4, key) {
        Some(row) => Some(row),
        None => v6_after(v6, key),
    }
}
