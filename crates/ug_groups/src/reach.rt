ghost use Rattle.std.specs.Prelude.{◌≡◌};
ghost use Rattle.ug_groups.specs.TableChanges.{number_of};

/// Which subgroups are changed: one alone, or all that have its key.
#[derive(Clone, Copy)]
pub enum Reach {
    One(u32),
    Alike(u32),
}

impl Reach {
    /// The number of the one.
    pub fn number(self) -> u32
        ensures { result ≡ number_of self }
    {
        match self {
            Reach::One(g) | Reach::Alike(g) => g,
        }
    }
}
