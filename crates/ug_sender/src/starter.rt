//! What starts the threads of lanes.

ghost use Rattle.std.specs.Prelude.{◌≡◌};

/// What starts the threads of lanes.
pub trait Starter: Drop {
    ghost can_start: { Self → Type 0 };

    /// Starts the thread of the lane at a place, and answers whether it did.
    fn start(&self, place: usize) -> bool
        requires { can_start self.now };
}

/// What starts them by a closure, which knows where they are and what they share.
#[derive(Drop)]
pub struct StarterBy<F> {
    pub start: F,
}

impl<F: Fn(usize) -> bool + Drop> Starter for StarterBy<F> {
    ghost can_start = { λ s. F.IsAlwaysCallable s.start };

    fn start(&self, place: usize) -> bool {
        (self.start)(place)
    }
}
