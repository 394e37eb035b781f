ghost use Rattle.std.specs.Prelude.{◌≡◌, true, ◌+◌, [], ◌∷◌, ◌++◌, ◌==◌, ◌≤◌, not, length, take, OnOk, OnErr, if◌then◌else◌};
ghost use Rattle.std.specs.Int.{w32, w128, to_be_bytes};
ghost use Rattle.ug_types.specs.Ip.{bytes_for};
ghost use Rattle.ug_types.specs.Keys.{weight_of};
ghost use Rattle.ug_message.specs.Spelling.{route};
ghost use Rattle.ug_message.specs.Spellable.{is_route};

use byteorder::{BigEndian, ByteOrder};
use ug_message::{put, put_u32};
use ug_types::{ByteList, Key, NoMemory, Prefix};

/// How many bytes the route takes in a message.
pub fn size(key: &Key) -> usize
    ensures weight { result ≡ weight_of key.now }
    ensures length { result ≡ length (route (not (key.now.id == 0)) key.now) }
{
    prove!(key.prefix.len <= 128);
    key.weight()
}

/// Adds the route at the end, with its identifier where that isn't 0. Running out of memory leaves the list as it was.
#[tactic(auto, unfolding(ug_message::specs::Spelling::route))]
pub fn write(out: &mut ByteList, key: &Key) -> Result<(), NoMemory>
    ensures ok { OnOk result (out.new.items ≡ out.old.items ++ route (not (key.now.id == 0)) key.now) }
    ensures err { OnErr result (out.new.items ≡ out.old.items) }
    // The key is one that such a message can spell.
    ensures formed { is_route key.now.prefix.family (not (key.now.id == 0)) key.now ≡ true }
{
    know(key);
    out.reserve(size(key))?;
    put_identifier(out, key.id);
    put_prefix(out, &key.prefix);
    Ok(())
}

/// Adds an identifier, where it isn't 0, for which there is room.
fn put_identifier(out: &mut ByteList, id: u32)
    requires { (if id == 0 then 0 else 4) ≤ out.old.spare }
    ensures items { out.new.items ≡ out.old.items ++ (if not (id == 0) then to_be_bytes w32 id else []) }
    ensures spare { out.old.spare ≤ out.new.spare + (if id == 0 then 0 else 4) }
{
    if id != 0 {
        put_u32(out, id);
    }
}

/// Adds a prefix for which there is room: its length, and as many bytes as hold so many bits (RFC 4271 section 4.3).
pub fn put_prefix(out: &mut ByteList, prefix: &Prefix)
    requires { 1 + bytes_for prefix.now.len ≤ out.old.spare }
    ensures { out.new.items ≡ out.old.items ++ prefix.now.len ∷ take (bytes_for prefix.now.len) (to_be_bytes w128 prefix.now.bits) }
{
    put(out, &[prefix.len]);
    let bytes = sixteen_bytes(prefix.bits);
    put(out, &bytes[..(prefix.len as usize + 7) / 8]);
}

/// The bytes of a number, the highest first.
fn sixteen_bytes(bits: u128) -> [u8; 16]
    ensures { result ≡ to_be_bytes w128 bits }
{
    let mut bytes = [0; 16];
    BigEndian::write_u128(&mut bytes, bits);
    bytes
}

/// A key is one of its prefix's family.
#[tactic(auto, unfolding(ug_message::specs::Spellable::is_route))]
fn know(key: &Key)
    ensures { is_route key.now.prefix.family (not (key.now.id == 0)) key.now ≡ true }
{
    let _id = key.id;
    let _bits = key.prefix.bits;
    let _len = key.prefix.len;
}
