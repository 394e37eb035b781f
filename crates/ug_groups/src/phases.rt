//! The phases of a refresh.

ghost use Rattle.std.specs.Prelude.{◌≡◌};
ghost use Rattle.ug_group_rules.specs.Machine.{is_owed, is_quiet};

use ug_group_rules::Phase;

/// Whether no refresh is owed or open.
pub fn is_quiet(phase: Phase) -> bool
    ensures { result ≡ is_quiet phase }
{
    match phase {
        Phase::Quiet => true,
        Phase::Owed | Phase::Open => false,
    }
}

/// Whether a refresh is owed: its begin was not told yet.
pub fn is_owed(phase: Phase) -> bool
    ensures { result ≡ is_owed phase }
{
    match phase {
        Phase::Owed => true,
        Phase::Quiet | Phase::Open => false,
    }
}
