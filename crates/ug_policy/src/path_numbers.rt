//! The numbers of one segment.

ghost use Rattle.std.specs.Prelude.{◌≡◌, ◌∷◌, OnOk, OnErr};
ghost use Rattle.ug_policy.specs.Paths.{is_private, public_numbers, in_place_of, replaced};

use ug_types::{NoMemory, NumberList};

/// Whether a number is for private use (RFC 6996).
fn is_private(number: u32) -> bool
    ensures { result ≡ is_private number }
{
    (64512..=65534).contains(&number) || (4_200_000_000..=4_294_967_294).contains(&number)
}

/// Drops the private numbers.
pub fn drop_private_numbers(numbers: &mut NumberList)
    ensures { numbers.new.items ≡ public_numbers numbers.old.items }
{
    numbers.retain(|number| !is_private(*number));
}

/// Puts a number in front. Running out of memory leaves the numbers as they were.
pub fn put_in_front(numbers: &mut NumberList, asn: u32) -> Result<(), NoMemory>
    ensures ok { OnOk result (numbers.new.items ≡ asn ∷ numbers.old.items) }
    ensures err { OnErr result (numbers.new.items ≡ numbers.old.items) }
{
    match numbers.insert(0, asn) {
        Ok(()) => Ok(()),
        Err(_) => Err(NoMemory),
    }
}

/// Puts a new number in the place of each old one.
pub fn replace(numbers: &mut NumberList, old: u32, new: u32)
    ensures { numbers.new.items ≡ replaced old new numbers.old.items }
{
    for i in 0..numbers.len() {
        let number = numbers.at_mut(i);
        *number = in_place_of(*number, old, new);
    }
}

/// The new number where the number is the old one, else the number itself.
fn in_place_of(number: u32, old: u32, new: u32) -> u32
    ensures { result ≡ in_place_of old new number }
{
    if number == old { new } else { number }
}
