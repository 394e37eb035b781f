//! Laws over the definitions, on a function that does nothing.

ghost use Rattle.std.specs.Prelude.{◌≡◌, ℕ, List, Bool, true, map, slice_get};
ghost use Rattle.ug_types.specs.declared.mark.Mark as marks;
ghost use Rattle.ug_types.specs.Messages.{Message};
ghost use Rattle.ug_types.specs.Names.{is_name};
ghost use Rattle.ug_hearing.specs.declared.breach.Ending as endings;
ghost use Rattle.ug_hearing.specs.declared.breach.Breach as breaches;
ghost use Rattle.ug_hearing.specs.Breaches as session;
ghost use Rattle.ug_hearing.specs.Breaches.{IsReadAs};
ghost use Rattle.ug_world.specs.declared.peer_state.PeerState.{PeerState};
ghost use Rattle.ug_world.specs.World.{World};
ghost use Rattle.ug_world.specs.Private.{private_table};
ghost use Rattle.ug_world.specs.Worlds.{past};
ghost use Rattle.ug_audit_rules.specs.Audited.{opened_with, marks_to, open_table, IsSound, IsHeardRight, IsBreach, IsFirstBreach};
ghost use Rattle.ug_audit_rules.specs.Reports.{IsWord};

/// Where there is a breach, what is asked of a session isn't so.
pub fn breach_refutes()
    ensures refuted { (ws : List World) (last : World) (p : ℕ) (n : ℕ) (s : PeerState) (syncs : List marks.Mark) (lost : Bool) (bytes : List ℕ) (messages : List Message) (ending : endings.Ending) (b : breaches.Breach) →
        IsReadAs (opened_with s.peer) bytes messages ending → IsBreach ws last p n s syncs lost messages ending b → IsSound ws last p n s syncs lost bytes → ⊥ }
{}

/// A session that was heard right is sound.
pub fn heard_is_sound()
    ensures sound { (ws : List World) (last : World) (p : ℕ) (n : ℕ) (s : PeerState) (syncs : List marks.Mark) (lost : Bool) (bytes : List ℕ) (messages : List Message) (ending : endings.Ending) →
        IsReadAs (opened_with s.peer) bytes messages ending → IsHeardRight ws last p n s syncs lost messages ending → IsSound ws last p n s syncs lost bytes }
{}

/// A name is a word of a report.
pub fn names_are_words()
    ensures word { (name : List ℕ) → is_name name ≡ true → IsWord name }
{}

/// A session that was judged beside the private tables of all versions, in a list, was judged as an auditor asks.
pub fn tables_in_a_list()
    ensures right { (ws : List World) (last : World) (p : ℕ) (n : ℕ) (s : PeerState) (syncs : List marks.Mark) (lost : Bool) (messages : List Message) (ending : endings.Ending) →
        session.IsHeardRight (past p n ws) (λ (version : ℕ). slice_get (map (private_table p) ws) version) (marks_to p n syncs) lost (open_table last p n s) messages ending →
        IsHeardRight ws last p n s syncs lost messages ending }
    ensures first { (ws : List World) (last : World) (p : ℕ) (n : ℕ) (s : PeerState) (syncs : List marks.Mark) (lost : Bool) (messages : List Message) (ending : endings.Ending) (b : breaches.Breach) →
        session.IsFirstBreach (past p n ws) (λ (version : ℕ). slice_get (map (private_table p) ws) version) (marks_to p n syncs) lost (open_table last p n s) messages ending b →
        IsFirstBreach ws last p n s syncs lost messages ending b }
{}
