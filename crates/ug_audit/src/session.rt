//! The file of one session.

ghost use Rattle.std.specs.Prelude.{◌≡◌, ◌≤◌, ◌<◌, ◌∷◌, [], ℕ, length, List, OnOk, IfOk, IfErr, IsErrOf};
ghost use Rattle.std.specs.String.{string_bytes};
ghost use Rattle.ug_edge.specs.Told.{Rose, AppendsAll, file_told};
ghost use Rattle.ug_audit.specs.Verdicts.{most_bytes, IsVerdictOn};
ghost use Rattle.ug_audit.specs.Texts as texts;
ghost use Rattle.ug_audit.specs.Files.{IsFile};
ghost use Rattle.ug_audit.specs.Sessions.{file_name};
ghost use Rattle.ug_audit.specs.Stopping.{IsFileStop, IsRefutedBy};

use crate::answers::refuted_text;
use crate::last::LastPeer;
use crate::picking::pick;
use crate::reader::hear;
use crate::stop::Stop;
use crate::verdict::Verdict;
use std::alloc::Global;
use ug_edge::{Site, Source};
use ug_hearing::{Breach, Session};
use ug_pieces::Halt;
use ug_types::{NoMemory, PeerId};

/// What is found of a session of a peer, all of whose file is read.
pub fn hear_file<E: Site>(
    alloc: Global,
    dir: &str,
    peer: &LastPeer,
    number: u32,
    session: &mut Session,
    site: &mut E,
) -> Result<Verdict, Stop>
    ensures heard { IfOk result (λ verdict. (bytes : List ℕ) × IsFile (file_told (E.files site.old) (file_name dir.now peer.now.name number)) bytes × (length bytes ≤ most_bytes) × IsVerdictOn peer.now.capabilities session.old bytes verdict) }
    ensures same { session.new ≡ session.old }
    ensures named { OnOk result (AppendsAll (E.picks site.old).names (E.picks site.new).names (file_name dir.now peer.now.name number ∷ [])) }
    ensures stopped { IfErr result (IsFileStop (file_told (E.files site.old) (file_name dir.now peer.now.name number)) (λ (bytes : List ℕ). most_bytes < length bytes)
        (AppendsAll (E.picks site.old).names (E.picks site.new).names (file_name dir.now peer.now.name number ∷ [])) ((E.picks site.new).names ≡ (E.picks site.old).names)) }
    ensures unread { IsErrOf result Stop.Read → Rose (E.faults site.old) (E.faults site.new) }
    ensures unharmed { (IsErrOf result Stop.Read → ⊥) → E.faults site.new ≡ E.faults site.old }
    ensures files { E.files site.new ≡ E.files site.old }
    ensures made { E.made site.new ≡ E.made site.old }
    ensures wire_faults { E.wire_faults site.new ≡ E.wire_faults site.old }
{
    let Ok(name) = file_name(alloc, dir, peer.name.text(), number) else {
        return Err(Stop::NoMemory);
    };
    match pick(name.as_str(), site) {
        Ok(()) => {}
        Err(stop) => return Err(stop),
    }
    match hear(alloc, peer.capabilities, session, site) {
        Ok(verdict) => Ok(verdict),
        Err(Halt::Read) => Err(Stop::Read),
        Err(Halt::TooLong) => Err(Stop::TooLong),
        Err(Halt::NoMemory) => Err(Stop::NoMemory),
        Err(Halt::Stopped(NoMemory)) => Err(Stop::NoMemory),
    }
}

/// The name of the file of a session.
#[tactic(auto, unfolding(crate::specs::Sessions::file_name))]
fn file_name(alloc: Global, dir: &str, peer: &str, number: u32) -> Result<String, NoMemory>
    ensures { IfOk result (λ name. string_bytes name ≡ file_name dir.now peer.now number) }
{
    Ok(format!(in alloc; "{dir}/{peer}.{number}")?)
}

/// A session isn't right: its first breach is told, where there is memory for it.
pub fn refuted(alloc: Global, peer: PeerId, name: &str, session: u32, breach: Breach) -> Stop
    ensures { IsRefutedBy peer session name.now breach result }
{
    match refuted_text(alloc, name, session, &breach) {
        Ok(text) => Stop::Refuted {
            peer,
            session,
            breach,
            text,
        },
        Err(NoMemory) => Stop::NoMemory,
    }
}
