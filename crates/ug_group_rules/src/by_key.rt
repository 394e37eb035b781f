//! Laws of an event key by key, on functions that do nothing.

ghost use Rattle.std.specs.Prelude.{◌≡◌, ℕ, ◌+◌, ◌&&◌, false, List, Some, None, map, count_by, slice_get};
ghost use Rattle.std.specs.Map.{keys_of};
ghost use Rattle.ug_types.specs.declared.key.Key as keys;
ghost use Rattle.ug_outbound.specs.declared.key.GroupKey.{GroupKey};
ghost use Rattle.ug_events.specs.Events.{Happening};
ghost use Rattle.ug_world.specs.World.{World, key_in};
ghost use Rattle.ug_world.specs.declared.peer_state.PeerState as peers;
ghost use Rattle.ug_world.specs.Private.{wanted};
ghost use Rattle.ug_world.specs.After.{after};
ghost use Rattle.ug_world.specs.Touches.{is_about};
ghost use Rattle.ug_adjout.specs.Tables.{has, value_at};
ghost use Rattle.ug_adjout.specs.Pending.{nothing_out};
ghost use Rattle.ug_adjout.specs.Desiring.{with_each_desired};
ghost use Rattle.ug_pack.specs.Ready.{key_order};
ghost use Rattle.ug_speaker.specs.Speech.{is_request};
ghost use Rattle.ug_speaker.specs.Places.{change_at};
ghost use Rattle.ug_speaker.specs.Counts.{sessions_had};
ghost use Rattle.ug_group_rules.specs.Packets.{Packet, same_out, wanted_rows, all_desired};
ghost use Rattle.ug_group_rules.specs.Machine as machine;
ghost use Rattle.ug_group_rules.specs.Machine.{System, Member, seat_at, sits, given, reseated, retabled, rekeyed, turned, with_turns};
ghost use Rattle.ug_group_rules.specs.Rules.{member_due, due};
ghost use Rattle.ug_group_rules.specs.Touched.{touched_keys, touched, IsKeptIn};

/// What a group key wants. `rows`: its rows have it, whatever the key. `kept`: an event changes nothing of it but under the
/// keys that it touches.
pub fn wanted_laws()
    ensures rows { (group : GroupKey) (w : World) (q : keys.Key) → value_at key_order (wanted_rows group w) q ≡ wanted group w q }
    ensures kept { (e : Happening) (w : World) (group : GroupKey) (q : keys.Key) → has key_order (touched_keys e group.add_path w (after w e)) q ≡ false → wanted group (after w e) q ≡ wanted group w q }
{}

/// Where a subgroup desires what its key should have, it does so after an event too if the keys that the event touches are
/// desired anew, one after the other in key order.
pub fn event_law()
    ensures { (e : Happening) (w : World) (x : machine.Subgroup) → IsKeptIn w x → retabled (after w e) x ≡ touched e w x }
{}

/// A new subgroup's table comes of the rows of one that is there, one after the other (`fresh`); and to be rekeyed by the
/// key that it has changes nothing (`same`).
pub fn table_laws()
    ensures fresh { (group : GroupKey) (w : World) → with_each_desired key_order same_out (value_at key_order (wanted_rows group w)) nothing_out (keys_of (wanted_rows group w)) ≡ all_desired (wanted_rows group w) }
    ensures same { (w : World) (x : machine.Subgroup) → IsKeptIn w x → rekeyed x.key w x ≡ x }
{}

/// Where an event leaves all peers but one as they were, none of these that is down sits anywhere, and no request is about
/// them, the turns of all peers are the turn of that one.
pub fn turn_law()
    ensures { (e : Happening) (old : World) (p : ℕ) (state new : System) (s' : peers.PeerState) → slice_get state.world.peers p ≡ Some s' →
        ((i : ℕ) (s : peers.PeerState) → (i ≡ p → ⊥) → slice_get state.world.peers i ≡ Some s → slice_get old.peers i ≡ Some s) →
        ((i : ℕ) (s : peers.PeerState) → (i ≡ p → ⊥) → slice_get state.world.peers i ≡ Some s → s.up ≡ false → seat_at i state ≡ None) →
        ((i : ℕ) (s : peers.PeerState) → (i ≡ p → ⊥) → slice_get state.world.peers i ≡ Some s → (is_request e && is_about e s) ≡ false) →
        ((s : peers.PeerState) → key_in old s ≡ key_in state.world s) →
        new ≡ turned e old p (slice_get old.peers p) s' state → new.world ≡ state.world → ((q : ℕ) → (q ≡ p → ⊥) → seat_at q new ≡ seat_at q state) →
        with_turns e old 0 state.world.peers state ≡ new }
{}

/// What is due. `changed`: where one member changes, what it makes of that one. `given`: where each member of a subgroup is
/// given a packet, one more for each.
pub fn due_laws()
    ensures changed { (f : Member → Member) (p : ℕ) (peers : List peers.PeerState) (members : List Member) (m : Member) → slice_get members p ≡ Some m →
        due peers (change_at f p members) + member_due (sessions_had (slice_get peers p)) m ≡ due peers members + member_due (sessions_had (slice_get peers p)) (f m) }
    ensures given { (g : ℕ) (packet : Packet) (peers : List peers.PeerState) (members : List Member) → due peers (map (reseated (given g packet)) members) ≡ due peers members + count_by (sits g) members }
{}
