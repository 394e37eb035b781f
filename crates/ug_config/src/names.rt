//! Names: of lists, maps, policies and peers.

ghost use Rattle.std.specs.Prelude.{◌≡◌, IfOk};
ghost use Rattle.ug_world.specs.Names.{is_name_among};
ghost use Rattle.ug_world.specs.Parts.{is_one_of, names_of, peer_names};

use std::alloc::Global;
use ug_outbound::Peer;
use ug_types::{Name, NameList, Named, NoMemory, Sequence};

/// The names, each one of its own.
pub fn names_of<T>(alloc: Global, items: &[Named<T>]) -> Result<NameList, NoMemory>
    ensures { IfOk result (λ names. names.items ≡ names_of items.now) }
{
    let mut names = Vec::new(alloc);
    for item in items {
        names.push(item.name.copy(alloc)?)?;
    }
    Ok(Sequence::from_vec(names))
}

/// The names of peers, each one of its own.
pub fn peer_names(alloc: Global, peers: &[Peer]) -> Result<NameList, NoMemory>
    ensures { IfOk result (λ names. names.items ≡ peer_names peers.now) }
{
    let mut names = Vec::new(alloc);
    for peer in peers {
        names.push(peer.name.copy(alloc)?)?;
    }
    Ok(Sequence::from_vec(names))
}

/// Whether a name is one of these.
pub fn is_name_among(names: &[Name], name: &Name) -> bool
    ensures { result ≡ is_name_among names.now name.now }
{
    for one in names {
        if *one == *name {
            return true;
        }
    }
    false
}

/// Whether a name is one of these, or none is given.
pub fn is_one_of(names: &[Name], name: &Option<Name>) -> bool
    ensures { result ≡ is_one_of names.now name.now }
{
    match name {
        None => true,
        Some(name) => is_name_among(names, name),
    }
}
