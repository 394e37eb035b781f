ghost use Rattle.std.specs.Prelude.{◌≡◌, IfOk};

use std::alloc::Global;
use std::collections::BTreeMap;
use ug_types::NoMemory;

/// A map with the same entries.
pub fn copied<K: Ord + Copy + Drop, V: Copy + Drop>(
    alloc: Global,
    map: &BTreeMap<K, V>,
) -> Result<BTreeMap<K, V>, NoMemory>
    ensures { IfOk result (λ copy. copy.entries ≡ map.now.entries) }
{
    let mut copy = BTreeMap::new(alloc);
    for (key, value) in map.iter() {
        copy.insert(*key, *value)?;
    }
    Ok(copy)
}
