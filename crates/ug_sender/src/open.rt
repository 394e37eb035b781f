//! The session that is open on a wire.

ghost use Rattle.std.specs.Prelude.{◌≡◌, true, false, Some};

/// Whether this session is open.
pub(crate) fn is_open(latest: Option<u32>, session: u32) -> bool
    ensures yes { result ≡ true → latest ≡ Some session }
    ensures no { result ≡ false → latest ≡ Some session → ⊥ }
{
    match latest {
        Some(latest) => latest == session,
        None => false,
    }
}
