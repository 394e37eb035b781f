//! ROUTE-REFRESH messages as bytes.

ghost use Rattle.std.specs.Prelude.{◌≡◌, ◌≤◌, ◌==◌, None, length, MatchResult};
ghost use Rattle.std.specs.List.{list_all};
ghost use Rattle.ug_policy.specs.Requests.{has_marker, length_field, is_ipv4_unicast, reserved_field, kind_refusal, refresh_refusal};

use thiserror::Error;

/// Why bytes aren't a ROUTE-REFRESH: 1 they aren't 23, or their length field isn't; 2 the marker; 3 the type isn't 5;
/// 4 the address families aren't 1 and 1; 5 the reserved byte isn't 0.
#[derive(Clone, Copy, Debug, PartialEq, Eq, Error)]
#[error("no request for routes: {number}")]
pub struct RefreshRefusal {
    pub number: u8,
}

/// Whether the bytes are a ROUTE-REFRESH of IPv4 unicast. It takes no memory. The lowest number answers: 1 they aren't
/// 23, or their length field isn't; 2 the marker; 3 the type isn't 5; 4 the address families aren't 1 and 1; 5 the
/// reserved byte isn't 0 (RFC 7313).
pub fn read_refresh(bytes: &[u8]) -> Result<(), RefreshRefusal>
    ensures { MatchResult result (λ _. refresh_refusal bytes.now ≡ None) (λ e. refresh_refusal bytes.now ≡ Some e.number) }
{
    if bytes.len() != 23 || length_field(bytes) != 23 {
        return Err(RefreshRefusal { number: 1 });
    }
    if let Some(number) = kind_refusal(bytes) {
        return Err(RefreshRefusal { number });
    }
    if reserved_field(bytes) != 0 {
        return Err(RefreshRefusal { number: 5 });
    }
    Ok(())
}

/// Why a message isn't a ROUTE-REFRESH of IPv4 unicast, the lowest number first: 2 the marker, 3 the type, 4 the
/// address families.
pub(crate) fn kind_refusal(bytes: &[u8]) -> Option<u8>
    requires { 23 ≤ length bytes.now }
    ensures { result ≡ kind_refusal bytes.now }
{
    if !has_marker(bytes) {
        return Some(2);
    }
    if bytes[18] != 5 {
        return Some(3);
    }
    if !is_ipv4_unicast(bytes) {
        return Some(4);
    }
    None
}

/// How long the message says that it is.
pub(crate) fn length_field(bytes: &[u8]) -> u16
    requires { 23 ≤ length bytes.now }
    ensures { result ≡ length_field bytes.now }
{
    u16::from_be_bytes([bytes[16], bytes[17]])
}

/// The byte between the families: 0 in a request, 1 and 2 in the marks of a refresh.
pub(crate) fn reserved_field(bytes: &[u8]) -> u8
    requires { 23 ≤ length bytes.now }
    ensures { result ≡ reserved_field bytes.now }
{
    bytes[21]
}

fn is_ipv4_unicast(bytes: &[u8]) -> bool
    requires { 23 ≤ length bytes.now }
    ensures { result ≡ is_ipv4_unicast bytes.now }
{
    u16::from_be_bytes([bytes[19], bytes[20]]) == 1 && bytes[22] == 1
}

fn has_marker(bytes: &[u8]) -> bool
    requires { 23 ≤ length bytes.now }
    ensures { result ≡ has_marker bytes.now }
{
    are_ones(&bytes[..16])
}

fn are_ones(bytes: &[u8]) -> bool
    ensures { result ≡ list_all (λ b. b == 255) bytes.now }
{
    for b in bytes {
        if *b != 255 {
            return false;
        }
    }
    true
}
