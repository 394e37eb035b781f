ghost use Rattle.std.specs.Prelude.{◌≡◌, Some, None, IsSome, IfSome, IfNone};
ghost use Rattle.std.specs.BTreeMap.{get};
ghost use Rattle.std.specs.BTreeMap.Range.{IsLeBy};

use std::collections::BTreeMap;
use std::ops::Bound;

/// The first row whose key isn't below this one.
pub fn first_from<'a, K: Ord + Drop, V>(rows: &'a BTreeMap<K, V>, key: K) -> Option<(&'a K, &'a V)>
    ensures row { IfSome result (λ row. get K.cmp rows.now row.0.now ≡ Some row.1.now) }
    ensures above { IfSome result (λ row. IsLeBy K.cmp key row.0.now) }
    ensures least { IfSome result (λ row. (q : K) → IsLeBy K.cmp key q → IsSome (get K.cmp rows.now q) → IsLeBy K.cmp row.0.now q) }
    ensures none { IfNone result ((q : K) → IsLeBy K.cmp key q → get K.cmp rows.now q ≡ None) }
{
    rows.range((Bound::Included(key), Bound::Unbounded)).next()
}
