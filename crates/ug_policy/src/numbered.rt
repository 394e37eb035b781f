//! Items that stand in the order of their sequence numbers.

ghost use Rattle.std.specs.Prelude.{◌≡◌, ℕ, IfOk};
ghost use Rattle.ug_policy.specs.Order.{ascending, rises, rises_above};

use ug_types::{Key, NoMemory};

/// An item with a sequence number.
pub trait Numbered {
    ghost number_of: { Self → ℕ };

    /// The sequence number.
    fn number(&self) -> u32
        ensures { result ≡ number_of self.now };
}

/// The keys of one prefix are numbered by their path identifiers.
impl Numbered for Key {
    ghost number_of = { λ key. key.id };

    fn number(&self) -> u32 {
        self.id
    }
}

/// The items in ascending order of their numbers.
pub fn in_order<T: Numbered + Drop>(items: Vec<T>) -> Result<Vec<T>, NoMemory>
    ensures { IfOk result (λ sorted. sorted.items ≡ ascending T.number_of items.items) }
{
    let mut sorted = items;
    sorted.sort_by_key(|item| item.number())?;
    Ok(sorted)
}

/// Whether each number is above the one before it.
pub fn is_rising<T: Numbered>(items: &[T]) -> bool
    ensures { result ≡ rises T.number_of items.now }
{
    match items {
        [] => true,
        [first, rest @ ..] => is_rising_above(first.number(), rest),
    }
}

/// Whether the first number is above `before`, and each further one above the one before it.
fn is_rising_above<T: Numbered>(before: u32, items: &[T]) -> bool
    ensures { result ≡ rises_above T.number_of before items.now }
{
    let mut highest = before;
    for item in items {
        if item.number() <= highest {
            return false;
        }
        highest = item.number();
    }
    true
}
