//! The listing of groups.

ghost use Rattle.std.specs.Prelude.{◌≡◌, ◌≤◌, Ok as Stands, IfOk, OnOk, IfErr, IsErrOf};
ghost use Rattle.std.specs.List.{concat};
ghost use Rattle.std.specs.String.{string_bytes};
ghost use Rattle.ug_edge.specs.Told.{Rose, AppendsPiece};
ghost use Rattle.ug_commands.specs.Texts.{group_lines};
ghost use Rattle.ug_commands.specs.Grouped.{IsWholly, IsCause, IsGrouped, HasEnded};

use crate::lines::write_lines;
use crate::members::members_of;
use crate::stop::Stop;
use std::alloc::Global;
use ug_config::{ConfigRefusal, read_config};
use ug_edge::{Failed, Sink, Source};
use ug_pieces::{Halt, read_whole, write_all};
use ug_types::NoMemory;
use ug_world::World;

/// The most bytes of a configuration.
const MOST_BYTES: usize = 1_048_576;

/// Reads a configuration to its end and reports the groups of its peers: a line for each, by its first peer in
/// configured order. A refusal of the configuration, and a byte past the 1,048,576th, end it with nothing reported.
pub fn groups<E: Source, K: Sink>(alloc: Global, source: &mut E, report: &mut K) -> Result<(), Stop>
    ensures ok { OnOk result (IsGrouped (E.left source.old) (E.left source.new) (AppendsPiece (K.held report.old) (K.held report.new))) }
    ensures stopped { IfErr result (λ stop. HasEnded stop (E.left source.old) (E.left source.new) (K.held report.old) (K.held report.new)) }
    ensures unread { IsErrOf result Stop.Read → Rose (E.faults source.old) (E.faults source.new) }
    ensures unharmed { (IsErrOf result Stop.Read → ⊥) → E.faults source.new ≡ E.faults source.old }
    ensures failed { IsErrOf result Stop.Report → Rose (K.faults report.old) (K.faults report.new) }
    ensures report_faults { K.faults report.old ≤ K.faults report.new }
    ensures source_faults { E.faults source.old ≤ E.faults source.new }
    ensures files { E.files source.new ≡ E.files source.old }
    ensures picks { E.picks source.new ≡ E.picks source.old }
    ensures made { E.made source.new ≡ E.made source.old }
    ensures wire_faults { E.wire_faults source.new ≡ E.wire_faults source.old }
{
    let world = match read_world(alloc, source) {
        Ok(world) => world,
        Err(stop) => return Err(stop),
    };
    let text = match text_of(alloc, &world) {
        Ok(text) => text,
        Err(NoMemory) => return Err(Stop::NoMemory),
    };
    match write_all(report, text.as_bytes()) {
        Ok(()) => Ok(()),
        Err(Failed) => Err(Stop::Report),
    }
}

/// The world that a source stands for.
pub fn read_world<E: Source>(alloc: Global, source: &mut E) -> Result<World, Stop>
    ensures ok { IfOk result (λ world. IsWholly (E.left source.old) (E.left source.new) (Stands world)) }
    ensures stopped { IfErr result (λ stop. IsCause stop (E.left source.old) (E.left source.new)) }
    ensures unread { IsErrOf result Stop.Read → Rose (E.faults source.old) (E.faults source.new) }
    ensures unharmed { (IsErrOf result Stop.Read → ⊥) → E.faults source.new ≡ E.faults source.old }
    ensures faults { E.faults source.old ≤ E.faults source.new }
    ensures files { E.files source.new ≡ E.files source.old }
    ensures picks { E.picks source.new ≡ E.picks source.old }
    ensures made { E.made source.new ≡ E.made source.old }
    ensures wire_faults { E.wire_faults source.new ≡ E.wire_faults source.old }
{
    let bytes = match read_whole(alloc, MOST_BYTES, source) {
        Ok(bytes) => bytes,
        Err(Halt::Read) => return Err(Stop::Read),
        Err(Halt::TooLong) => return Err(Stop::TooLong),
        Err(Halt::NoMemory) => return Err(Stop::NoMemory),
        Err(Halt::Stopped(NoMemory)) => return Err(Stop::NoMemory),
    };
    match read_config(alloc, bytes.as_slice()) {
        Ok(world) => Ok(world),
        Err(ConfigRefusal::Refused { number, field }) => Err(Stop::Config { number, field }),
        Err(ConfigRefusal::NoMemory) => Err(Stop::NoMemory),
    }
}

/// The lines of the groups of a world's peers.
fn text_of(alloc: Global, world: &World) -> Result<String, NoMemory>
    ensures { IfOk result (λ text. string_bytes text ≡ concat (group_lines world.now)) }
{
    let members = members_of(alloc, world)?;
    let mut text = String::new(alloc);
    write_lines(alloc, members.as_slice(), &mut text)?;
    Ok(text)
}
