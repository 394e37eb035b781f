//! Laws over the definitions, on functions that do nothing.

ghost use Rattle.std.specs.Prelude.{◌≡◌, ◌<◌, ℕ, List, map};
ghost use Rattle.ug_types.specs.Messages.{Message};
ghost use Rattle.ug_events.specs.Events.{Saying};
ghost use Rattle.ug_events.specs.Reads.{Reads};
ghost use Rattle.ug_world.specs.declared.peer_state.PeerState.{PeerState};
ghost use Rattle.ug_world.specs.World.{World};
ghost use Rattle.ug_world.specs.Private.{private_table};
ghost use Rattle.ug_world.specs.Worlds.{worlds, last_world, past};
ghost use Rattle.ug_hearing.specs.declared.breach.Ending as endings;
ghost use Rattle.ug_hearing.specs.declared.breach.Breach as breaches;
ghost use Rattle.ug_hearing.specs.Breaches as session_rules;
ghost use Rattle.ug_audit_rules.specs.declared.entry.Entry as entries;
ghost use Rattle.ug_audit_rules.specs.Audited.{is_lost_in, marks_in, IsHeardRight, IsFirstBreach};
ghost use Rattle.ug_hearing.specs.declared.session.Session as sessions;
ghost use Rattle.ug_hearing.specs.Judged.{IsSession, table_in, last_table};
ghost use Rattle.ug_audit.specs.declared.asked.Asked as asked;
ghost use Rattle.ug_audit.specs.Asked.{IsAsked, IsAimed, AreWithin, EndsWith};

/// The worlds that lines lead through end with the last one.
pub fn worlds_end()
    ensures { (w : World) (lines : List (Reads Saying)) → w.version ≡ 0 → EndsWith (worlds w lines) (last_world w lines) }
{}

/// A session that is aimed at is one of the run. `session`: it follows the private tables of its versions. `right`, `first`:
/// what is found of it is what an auditor asks.
pub fn aims_are_right()
    ensures session { (p : ℕ) (n : ℕ) (ws : List World) (last : World) (s : PeerState) (told : List entries.Entry) (a : asked.Asked) (session : sessions.Session) →
        0 < n → EndsWith ws last → AreWithin last.version (marks_in told) → IsAsked p ws a → IsAimed p n last s told a session → IsSession session (past p n ws) (map (private_table p) ws) }
    ensures right { (p : ℕ) (n : ℕ) (ws : List World) (last : World) (s : PeerState) (told : List entries.Entry) (a : asked.Asked) (session : sessions.Session) (ms : List Message) (ending : endings.Ending) →
        EndsWith ws last → IsAimed p n last s told a session →
        session_rules.IsHeardRight (past p n ws) (table_in (map (private_table p) ws)) session.syncs.items session.lost (last_table session (map (private_table p) ws)) ms ending →
        IsHeardRight ws last p n s (marks_in told) (is_lost_in told p n) ms ending }
    ensures first { (p : ℕ) (n : ℕ) (ws : List World) (last : World) (s : PeerState) (told : List entries.Entry) (a : asked.Asked) (session : sessions.Session) (ms : List Message) (ending : endings.Ending) (b : breaches.Breach) →
        EndsWith ws last → IsAimed p n last s told a session →
        session_rules.IsFirstBreach (past p n ws) (table_in (map (private_table p) ws)) session.syncs.items session.lost (last_table session (map (private_table p) ws)) ms ending b →
        IsFirstBreach ws last p n s (marks_in told) (is_lost_in told p n) ms ending b }
{}
