//! A law over the definitions, on a function that does nothing.

ghost use Rattle.std.specs.Prelude.{ℕ, List};
ghost use Rattle.ug_types.specs.Attributes.{PathSegment};
ghost use Rattle.ug_policy.specs.Paths.{AreSegments, prepended, overridden, without_private};

/// Where each segment has 1 to 255 numbers, so has each after an edit: the path can still be written.
pub fn edits_keep_segments()
    ensures prepended { (asn : ℕ) (path : List PathSegment) → AreSegments path → AreSegments (prepended asn path) }
    ensures overridden { (old new : ℕ) (path : List PathSegment) → AreSegments path → AreSegments (overridden old new path) }
    ensures without_private { (path : List PathSegment) → AreSegments path → AreSegments (without_private path) }
{}
