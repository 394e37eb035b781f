//! The wires of a run, one for each configured peer.

ghost use Rattle.std.specs.Prelude.{◌≡◌, ◌≤◌, [], length, map, take, OnOk, IfOk, IsErrOf};
ghost use Rattle.ug_edge.specs.Told.{Rose};
ghost use Rattle.ug_report.specs.Report.{names_in};
ghost use Rattle.ug_run.specs.Wires.{AreNewWires, HasMade, wire_name};

use std::alloc::Global;
use ug_edge::{Site, SiteFault, Wire};
use ug_types::{Name, NameList, NoMemory, Sequence};
use ug_world::World;

/// The wires of a run, in configured order.
pub type WireList<W> = Sequence<W>;

/// The names of a world's peers, in configured order.
pub fn names_of(alloc: Global, world: &World) -> Result<NameList, NoMemory>
    ensures { IfOk result (λ names. names.items ≡ names_in world.now) }
{
    let count = world.peers();
    let mut names = Sequence::new(alloc);
    names.reserve(count as usize)?;
    for place in 0..count {
        let name = world.peer(place).name.copy(alloc)?;
        let Ok(()) = names.push(name) else {
            return Err(NoMemory);
        };
    }
    Ok(names)
}

/// Why not all wires were made.
#[derive(Clone, Copy, PartialEq, Eq)]
pub enum Unmade {
    /// The site could not make one.
    Failed,
    /// Memory ran out.
    NoMemory,
}

/// Makes a wire to each peer of these names, in this folder, for which there is room. Those that were made are there also
/// where one could not be made.
pub fn make_wires<E: Site>(
    dir: &str,
    names: &[Name],
    wires: &mut WireList<E::Wire>,
    site: &mut E,
) -> Result<(), Unmade>
    requires none { wires.old.items ≡ [] }
    requires room { length names.now ≤ wires.old.spare }
    ensures all { OnOk result (length wires.new.items ≡ length names.now) }
    ensures most { length wires.new.items ≤ length names.now }
    ensures fresh { AreNewWires E.Wire.sessions E.Wire.begun E.Wire.faults wires.new.items }
    ensures made { HasMade (E.made site.old) (E.made site.new) dir.now (take (length wires.new.items) names.now) }
    ensures made_for { map E.Wire.made_for wires.new.items ≡ map (wire_name dir.now) (take (length wires.new.items) names.now) }
    ensures failed { IsErrOf result Unmade.Failed → Rose (E.wire_faults site.old) (E.wire_faults site.new) }
    ensures unharmed { OnOk result (E.wire_faults site.new ≡ E.wire_faults site.old) }
    ensures starved { IsErrOf result Unmade.NoMemory → E.wire_faults site.new ≡ E.wire_faults site.old }
    ensures wire_faults { E.wire_faults site.old ≤ E.wire_faults site.new }
    ensures left { E.left site.new ≡ E.left site.old }
    ensures picks { E.picks site.new ≡ E.picks site.old }
    ensures faults { E.faults site.new ≡ E.faults site.old }
    ensures files { E.files site.new ≡ E.files site.old }
{
    for name in names {
        let wire = match site.wire(dir, name.text()) {
            Ok(wire) => wire,
            Err(SiteFault::Failed) => return Err(Unmade::Failed),
            Err(SiteFault::NoMemory) => return Err(Unmade::NoMemory),
        };
        let Ok(()) = wires.push(wire) else {
            unreachable!()
        };
    }
    Ok(())
}
