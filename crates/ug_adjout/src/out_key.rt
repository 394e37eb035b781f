ghost use Rattle.std.specs.Prelude.{◌≡◌};
ghost use Rattle.std.specs.declared.cmp.Ordering.TheVariants.{Equal};
ghost use Rattle.ug_short_key.specs.Keys.{same_keys};

use ug_short_key::V4Key;
use ug_types::{Key, Weighed};

/// A key of routes: keys that are equal in their order are the same.
pub trait OutKey: Copy + Ord + Weighed + Drop {
    ghost exact: { (x y : Self) → Self.cmp x y ≡ Equal → x ≡ y };
}

impl OutKey for Key {
    ghost exact = { same_keys };
}

impl OutKey for V4Key {
    ghost exact = { same_keys };
}
