//! The sessions of a run, one after another.

ghost use Rattle.std.specs.Prelude.{◌≡◌, ◌≤◌, ◌<◌, ◌∷◌, ◌++◌, [], ℕ, length, slice_get, Option, Some, List, OnOk, IfOk, IfErr, IsErrOf};
ghost use Rattle.ug_edge.specs.Told.{Rose, file_told, AppendsAll};
ghost use Rattle.ug_world.specs.declared.peer_state.PeerState as peers;
ghost use Rattle.ug_audit.specs.Asked.{IsAsked};
ghost use Rattle.ug_commands.specs.Words as words;
ghost use Rattle.ug_audit.specs.Sessions.{SessionOf, sessions_from, sessions_of};
ghost use Rattle.ug_audit.specs.Auditing.{worlds_of};
ghost use Rattle.ug_audit.specs.Stopping.{last_in, IsRun, IsAt, IsStopped};

use crate::asked::Asked;
use crate::certificate::add_session;
use crate::run::Run;
use crate::session::{hear_file, refuted};
use crate::stop::Stop;
use crate::verdict::Verdict;
use std::alloc::Global;
use ug_edge::{Site, Source};
use ug_pieces::ShortText;
use ug_types::{NoMemory, PeerId};

impl Run {
    /// The certificate of all sessions, which are heard by peer in configured order, and then by number; or why there is none.
    pub fn certificate<E: Site>(
        &self,
        alloc: Global,
        dir: &str,
        site: &mut E,
    ) -> Result<ShortText, Stop>
        requires { IsRun self.now }
        ensures went { IfOk result (λ text. (command : words.AuditCommand) (names : Option (List (List ℕ))) → command.dir ≡ dir.now →
            IsAt command (file_told (E.files site.old)) self.now names (E.picks site.old).names (sessions_of (last_in self.now)) [] →
            IsAt command (file_told (E.files site.old)) self.now names (E.picks site.new).names [] text) }
        ensures stopped { IfErr result (λ stop. (command : words.AuditCommand) (names : Option (List (List ℕ))) → command.dir ≡ dir.now →
            IsAt command (file_told (E.files site.old)) self.now names (E.picks site.old).names (sessions_of (last_in self.now)) [] →
            IsStopped command (file_told (E.files site.old)) (AppendsAll names (E.picks site.new).names) stop) }
        ensures unread { IsErrOf result Stop.Read → Rose (E.faults site.old) (E.faults site.new) }
        ensures unharmed { (IsErrOf result Stop.Read → ⊥) → E.faults site.new ≡ E.faults site.old }
        ensures files { E.files site.new ≡ E.files site.old }
        ensures made { E.made site.new ≡ E.made site.old }
        ensures wire_faults { E.wire_faults site.new ≡ E.wire_faults site.old }
    {
        let mut text = ShortText::new(alloc);
        for id in 0..self.first.peers() {
            match self.hear_peer(alloc, dir, id, site, &mut text) {
                Ok(()) => {}
                Err(stop) => return Err(stop),
            }
        }
        Ok(text)
    }

    /// Hears the sessions of a peer, and adds their certificates.
    fn hear_peer<E: Site>(
        &self,
        alloc: Global,
        dir: &str,
        id: PeerId,
        site: &mut E,
        text: &mut ShortText,
    ) -> Result<(), Stop>
        requires run { IsRun self.now }
        requires id { id < length (last_in self.now).peers }
        ensures went { OnOk result ((command : words.AuditCommand) (names : Option (List (List ℕ))) (s : peers.PeerState) (left : List SessionOf) → command.dir ≡ dir.now → slice_get (last_in self.now).peers id ≡ Some s →
            IsAt command (file_told (E.files site.old)) self.now names (E.picks site.old).names (sessions_from id s 1 s.sessions ++ left) text.old →
            IsAt command (file_told (E.files site.old)) self.now names (E.picks site.new).names left text.new) }
        ensures stopped { IfErr result (λ stop. (command : words.AuditCommand) (names : Option (List (List ℕ))) (s : peers.PeerState) (left : List SessionOf) → command.dir ≡ dir.now → slice_get (last_in self.now).peers id ≡ Some s →
            IsAt command (file_told (E.files site.old)) self.now names (E.picks site.old).names (sessions_from id s 1 s.sessions ++ left) text.old →
            IsStopped command (file_told (E.files site.old)) (AppendsAll names (E.picks site.new).names) stop) }
        ensures unread { IsErrOf result Stop.Read → Rose (E.faults site.old) (E.faults site.new) }
        ensures unharmed { (IsErrOf result Stop.Read → ⊥) → E.faults site.new ≡ E.faults site.old }
        ensures files { E.files site.new ≡ E.files site.old }
        ensures made { E.made site.new ≡ E.made site.old }
        ensures wire_faults { E.wire_faults site.new ≡ E.wire_faults site.old }
    {
        let peer = self.last.peer(id);
        if peer.sessions == 0 {
            return Ok(());
        }
        let timeline = match self
            .timelines
            .timeline(alloc, &self.first, id, self.events.as_slice())
        {
            Ok(timeline) => timeline,
            Err(NoMemory) => return Err(Stop::NoMemory),
        };
        let mut asked = Asked::of(alloc, timeline);
        for before in 0..peer.sessions {
            match self.hear_session(alloc, dir, id, before + 1, &mut asked, site, text) {
                Ok(()) => {}
                Err(stop) => return Err(stop),
            }
        }
        Ok(())
    }

    /// Hears a session of a peer, and adds its certificate.
    fn hear_session<E: Site>(
        &self,
        alloc: Global,
        dir: &str,
        id: PeerId,
        number: u32,
        asked: &mut Asked,
        site: &mut E,
        text: &mut ShortText,
    ) -> Result<(), Stop>
        requires run { IsRun self.now }
        requires id { id < length (last_in self.now).peers }
        requires some { 0 < number }
        requires had { number ≤ length asked.old.begun.items }
        ensures begun { asked.new.begun ≡ asked.old.begun }
        ensures asked { OnOk result (IsAsked id (worlds_of self.now.first self.now.events.items) asked.old → IsAsked id (worlds_of self.now.first self.now.events.items) asked.new) }
        ensures went { OnOk result ((command : words.AuditCommand) (names : Option (List (List ℕ))) (s : peers.PeerState) (left : List SessionOf) → command.dir ≡ dir.now → slice_get (last_in self.now).peers id ≡ Some s →
            IsAsked id (worlds_of self.now.first self.now.events.items) asked.old →
            IsAt command (file_told (E.files site.old)) self.now names (E.picks site.old).names (record { place = id; state = s; number = number } ∷ left) text.old →
            IsAt command (file_told (E.files site.old)) self.now names (E.picks site.new).names left text.new) }
        ensures stopped { IfErr result (λ stop. (command : words.AuditCommand) (names : Option (List (List ℕ))) (s : peers.PeerState) (left : List SessionOf) → command.dir ≡ dir.now → slice_get (last_in self.now).peers id ≡ Some s →
            IsAsked id (worlds_of self.now.first self.now.events.items) asked.old →
            IsAt command (file_told (E.files site.old)) self.now names (E.picks site.old).names (record { place = id; state = s; number = number } ∷ left) text.old →
            IsStopped command (file_told (E.files site.old)) (AppendsAll names (E.picks site.new).names) stop) }
        ensures unread { IsErrOf result Stop.Read → Rose (E.faults site.old) (E.faults site.new) }
        ensures unharmed { (IsErrOf result Stop.Read → ⊥) → E.faults site.new ≡ E.faults site.old }
        ensures files { E.files site.new ≡ E.files site.old }
        ensures made { E.made site.new ≡ E.made site.old }
        ensures wire_faults { E.wire_faults site.new ≡ E.wire_faults site.old }
    {
        let peer = self.last.peer(id);
        let is_open = peer.is_up_with(number);
        let version = self.last.version;
        match asked.aim(alloc, &self.entries, version, is_open, id, number) {
            Ok(()) => {}
            Err(NoMemory) => return Err(Stop::NoMemory),
        }
        let verdict = match hear_file(alloc, dir, peer, number, &mut asked.session, site) {
            Ok(verdict) => verdict,
            Err(stop) => return Err(stop),
        };
        let name = peer.name.text();
        match verdict {
            Verdict::Broken(breach) => Err(refuted(alloc, id, name, number, breach)),
            Verdict::Right(judge) => match add_session(alloc, text, name, number, &judge) {
                Ok(()) => Ok(()),
                Err(NoMemory) => Err(Stop::NoMemory),
            },
        }
    }
}
