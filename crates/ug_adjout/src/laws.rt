ghost use Rattle.std.specs.Prelude.{◌≡◌, ℕ, Bool, true, false, List, [], ◌∷◌, ◌++◌, Option, cond};
ghost use Rattle.std.specs.FinMap.{IsAntisymmetric};
ghost use Rattle.std.specs.Cmp.{IsTotalOrder};
ghost use Rattle.std.specs.BTreeMap.{is_at};
ghost use Rattle.std.specs.declared.cmp.Ordering.{Ordering};
ghost use Rattle.std.specs.List.Sorted.{IsStrictlySortedBy};
ghost use Rattle.ug_adjout.specs.Tables.{has, value_at, without, IsTable};
ghost use Rattle.ug_adjout.specs.Pending.{AdjRibOut, nothing_out, requeue, with_desired, with_all_forced, with_formatted, with_all_formatted, IsExact};
ghost use Rattle.ug_adjout.specs.Desiring.{with_each_desired, with_all_desired, AreForcedShown};
ghost use Rattle.ug_adjout.specs.Formatting.{fitting, IsLongestRun};

/// The pending list has exactly the keys for which a packet is owed, each once: at first, and after every change.
pub fn exact_laws<K, V>()
    ensures first { (cmp : K → K → Ordering) (same : V → V → Bool) → IsExact cmp same nothing_out }
    ensures desired { (cmp : K → K → Ordering) → IsTotalOrder cmp → IsAntisymmetric cmp → (same : V → V → Bool) (a : AdjRibOut K V) (key : K) (value : Option V) →
        IsExact cmp same a → IsExact cmp same (with_desired cmp same a key value) }
    ensures forced { (cmp : K → K → Ordering) → IsTotalOrder cmp → IsAntisymmetric cmp → (same : V → V → Bool) (a : AdjRibOut K V) →
        IsExact cmp same a → IsExact cmp same (with_all_forced cmp same a) }
    ensures formatted { (cmp : K → K → Ordering) → IsTotalOrder cmp → IsAntisymmetric cmp → (same : V → V → Bool) (a : AdjRibOut K V) (keys : List K) →
        IsExact cmp same a → IsExact cmp same (with_all_formatted cmp same a keys) }
{}

/// Where one key changed and all others of the list still wait, that key keeps its place, goes last, or leaves.
pub fn requeue_law<K>()
    ensures { (cmp : K → K → Ordering) → IsTotalOrder cmp → IsAntisymmetric cmp → (waits : K → Bool) (old : List K) (key : K) →
        ((q : K) → is_at (cmp key) q ≡ false → has cmp old q ≡ true → waits q ≡ true) →
        requeue cmp waits old (key ∷ []) ≡ cond (waits key) (cond (has cmp old key) old (old ++ key ∷ [])) (without cmp old key) }
{}

/// The keys that fit are the longest run of the first that has room.
pub fn fitting_law<K>()
    ensures { (weigh : K → ℕ) (room : ℕ) (keys : List K) → IsLongestRun weigh room keys (fitting weigh room keys) }
{}

/// A table that is desired at once is its keys desired one after the other: where some keys change, these in key order, and
/// all others are desired as before. Each forced key stands in a table: one that stood in neither would be dropped on the
/// way, and not be forced where its turn comes.
pub fn all_desired_law<K, V>()
    ensures { (cmp : K → K → Ordering) → IsTotalOrder cmp → IsAntisymmetric cmp → (same : V → V → Bool) (a : AdjRibOut K V) (rows : List (K × V)) (value : K → Option V) (keys : List K) →
        IsExact cmp same a → AreForcedShown cmp a → IsTable cmp rows → IsStrictlySortedBy cmp keys → ((q : K) → value_at cmp rows q ≡ value q) →
        ((q : K) → has cmp keys q ≡ false → value q ≡ value_at cmp a.desired q) → with_each_desired cmp same value a keys ≡ with_all_desired cmp same rows a }
{}
