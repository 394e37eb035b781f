//! The keys under which paths can stand.

ghost use Rattle.std.specs.Prelude.{◌≡◌, ◌++◌, true, OnOk, IfOk};
ghost use Rattle.ug_world.specs.World.{paths_to};
ghost use Rattle.ug_world.specs.Private.{own_keys, keys_to, keys_of};

use crate::world::World;
use std::alloc::Global;
use ug_policy::in_order;
use ug_types::{Key, NoMemory, Path, Prefix};

impl World {
    /// The keys under which the paths of all prefixes can stand, in the order of the prefixes: identifier 0, or with
    /// ADD-PATH their own.
    pub fn keys(&self, alloc: Global, add_path: bool) -> Result<Vec<Key>, NoMemory>
        ensures { IfOk result (λ keys. keys.items ≡ keys_of add_path self.now.routes) }
    {
        self.routes.keys(alloc, add_path)
    }

    /// Those under which the paths of one prefix can stand.
    pub fn keys_to(
        &self,
        alloc: Global,
        add_path: bool,
        prefix: &Prefix,
    ) -> Result<Vec<Key>, NoMemory>
        ensures { IfOk result (λ keys. keys.items ≡ keys_to add_path prefix.now (paths_to self.now.routes prefix.now)) }
    {
        let mut keys = Vec::new(alloc);
        put_keys(
            &mut keys,
            alloc,
            add_path,
            prefix,
            self.routes.paths(prefix),
        )?;
        Ok(keys)
    }
}

/// Adds the keys under which these paths to a prefix can stand, in their order.
pub fn put_keys(
    keys: &mut Vec<Key>,
    alloc: Global,
    add_path: bool,
    prefix: &Prefix,
    paths: &[Path],
) -> Result<(), NoMemory>
    ensures { OnOk result (keys.new.items ≡ keys.old.items ++ keys_to add_path prefix.now paths.now) }
{
    if !add_path {
        keys.push(Key {
            prefix: *prefix,
            id: 0,
        })?;
        return Ok(());
    }
    let own = identified(alloc, prefix, paths)?;
    keys.extend_from_slice(&own)?;
    Ok(())
}

/// The keys of paths to a prefix under their own identifiers, in the order of these.
#[tactic(auto, using(crate::proofs::Ascending::ascending_keys))]
fn identified(alloc: Global, prefix: &Prefix, paths: &[Path]) -> Result<Vec<Key>, NoMemory>
    ensures { IfOk result (λ keys. keys.items ≡ keys_to true prefix.now paths.now) }
{
    let keys = unordered(alloc, prefix, paths)?;
    in_order(keys)
}

/// The same in the order of the paths.
fn unordered(alloc: Global, prefix: &Prefix, paths: &[Path]) -> Result<Vec<Key>, NoMemory>
    ensures { IfOk result (λ keys. keys.items ≡ own_keys prefix.now paths.now) }
{
    let mut keys = Vec::new(alloc);
    for path in paths {
        keys.push(Key {
            prefix: *prefix,
            id: path.id,
        })?;
    }
    Ok(keys)
}
