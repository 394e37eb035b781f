ghost use Rattle.std.specs.Prelude.{◌≡◌, ◌≤◌, [], ◌∷◌, ◌++◌, true, length, drop, replicate, IfOk, MatchResult, Ok, Err};
ghost use Rattle.byteorder.specs.Endian.{big_number};
ghost use Rattle.ug_types.specs.declared.family.Family.TheVariants.{V4};
ghost use Rattle.ug_types.specs.Ip.{width_of};
ghost use Rattle.ug_message.specs.Spellable.{is_prefix, is_route};
ghost use Rattle.ug_message.specs.RoutesRead.{prefix_from, prefix_at, route_at};

use byteorder::{BigEndian, ByteOrder};
use ug_types::{Family, Key, Prefix};

/// Why bytes don't begin with a route: 1 a length over the family's width (32, or 128), 2 they are cut short.
#[derive(Clone, Copy, PartialEq, Eq)]
pub struct NlriRefusal {
    pub number: u8,
}

/// The IPv4 route that the bytes begin with, and how many of them it takes. Under ADD-PATH its identifier comes
/// first. Bits past the prefix's length are cleared.
pub fn read(bytes: &[u8], add_path: bool) -> Result<(Key, usize), NlriRefusal>
    ensures exact { MatchResult result (λ x. route_at V4 add_path bytes.now ≡ Ok (x.0, x.1)) (λ e. route_at V4 add_path bytes.now ≡ Err e.number) }
    ensures valid { IfOk result (λ x. is_route V4 add_path x.0 ≡ true) }
    ensures within { IfOk result (λ x. x.1 ≤ length bytes.now) }
{
    read_route(Family::V4, bytes, add_path)
}

/// The same of a route of that family.
#[tactic(auto, unfolding(ug_message::specs::RoutesRead::route_at, ug_message::specs::Spellable::is_route))]
pub fn read_route(family: Family, bytes: &[u8], add_path: bool) -> Result<(Key, usize), NlriRefusal>
    ensures exact { MatchResult result (λ x. route_at family add_path bytes.now ≡ Ok (x.0, x.1)) (λ e. route_at family add_path bytes.now ≡ Err e.number) }
    ensures valid { IfOk result (λ x. is_route family add_path x.0 ≡ true) }
    ensures within { IfOk result (λ x. (1 ≤ x.1) × (x.1 ≤ length bytes.now)) }
{
    if !add_path {
        let (prefix, size) = read_prefix(family, bytes)?;
        return Ok((Key { prefix, id: 0 }, size));
    }
    if bytes.len() < 4 {
        return Err(NlriRefusal { number: 2 });
    }
    let id = BigEndian::read_u32(bytes);
    let (_, rest) = bytes.split_at(4);
    let (prefix, size) = read_prefix(family, rest)?;
    Ok((Key { prefix, id }, 4 + size))
}

fn read_prefix(family: Family, bytes: &[u8]) -> Result<(Prefix, usize), NlriRefusal>
    ensures exact { MatchResult result (λ x. prefix_at family bytes.now ≡ Ok (x.0, x.1)) (λ e. prefix_at family bytes.now ≡ Err e.number) }
    ensures valid { IfOk result (λ x. is_prefix family x.0 ≡ true) }
    ensures within { IfOk result (λ x. (1 ≤ x.1) × (x.1 ≤ length bytes.now) × (x.1 ≤ 17)) }
{
    let [len, rest @ ..] = bytes else {
        return Err(NlriRefusal { number: 2 });
    };
    if *len > family.width() {
        return Err(NlriRefusal { number: 1 });
    }
    let count = (*len as usize + 7) / 8;
    if rest.len() < count {
        return Err(NlriRefusal { number: 2 });
    }
    let prefix = prefix_from(family, *len, &rest[..count]);
    Ok((prefix, 1 + count))
}

/// The prefix whose bits the bytes hold.
fn prefix_from(family: Family, len: u8, bytes: &[u8]) -> Prefix
    requires short { len ≤ width_of family }
    requires few { length bytes.now ≤ 16 }
    ensures is { result ≡ prefix_from family len bytes.now }
    ensures valid { is_prefix family result ≡ true }
{
    Prefix::new(family, leading_number(bytes), len).unwrap()
}

/// Up to sixteen bytes as a number of 128 bits, left aligned. Most prefixes have up to four, which takes less time.
fn leading_number(bytes: &[u8]) -> u128
    requires { length bytes.now ≤ 16 }
    ensures { result ≡ big_number 16 bytes.now }
{
    match bytes {
        [a, b, c] => leading_four(*a, *b, *c, 0),
        [a, b] => leading_four(*a, *b, 0, 0),
        [a, b, c, d] => leading_four(*a, *b, *c, *d),
        [a] => leading_four(*a, 0, 0, 0),
        _ => leading_sixteen(bytes),
    }
}

/// Four bytes as a number of 128 bits, left aligned.
fn leading_four(a: u8, b: u8, c: u8, d: u8) -> u128
    ensures { result ≡ big_number 16 (a ∷ b ∷ c ∷ d ∷ []) }
{
    (BigEndian::read_u32(&[a, b, c, d]) as u128) << 96
}

/// Up to sixteen bytes as a number of 128 bits, left aligned.
#[tactic(auto, using(crate::proofs::Padding::padded))]
fn leading_sixteen(bytes: &[u8]) -> u128
    requires { length bytes.now ≤ 16 }
    ensures { result ≡ big_number 16 bytes.now }
{
    BigEndian::read_u128(&sixteen(bytes))
}

/// The bytes, and zeros behind them.
fn sixteen(bytes: &[u8]) -> [u8; 16]
    requires { length bytes.now ≤ 16 }
    ensures { result ≡ bytes.now ++ drop (length bytes.now) (replicate 16 0) }
{
    let mut all = [0; 16];
    all[..bytes.len()].copy_from_slice(bytes);
    all
}
