//! Laws over the definitions, on a function that does nothing.

ghost use Rattle.std.specs.Prelude.{◌≡◌, ◌+◌, ℕ, true, false, List, [], slice_get, Option, Some, None};
ghost use Rattle.std.specs.Option.{option_map};
ghost use Rattle.ug_types.specs.declared.key.Key.{Key};
ghost use Rattle.ug_types.specs.declared.route.OutAttrs.{OutAttrs};
ghost use Rattle.ug_types.specs.Attributes.{Attributes};
ghost use Rattle.ug_types.specs.Bytes.{same_bytes};
ghost use Rattle.ug_message.specs.Spellable.{is_route};
ghost use Rattle.ug_message.specs.NextHops.{told_to};
ghost use Rattle.ug_outbound.specs.Keys.{ends_of};
ghost use Rattle.ug_outbound.specs.declared.key.GroupKey.{GroupKey};
ghost use Rattle.ug_events.specs.Events.{Happening, ComesUp, IsEvent};
ghost use Rattle.ug_world.specs.declared.peer_state.PeerState.{PeerState};
ghost use Rattle.ug_world.specs.World.{World, key_in};
ghost use Rattle.ug_world.specs.Private.{wanted, private_table};
ghost use Rattle.ug_world.specs.After.{after};
ghost use Rattle.ug_world.specs.Touches.{is_about, touches};
ghost use Rattle.ug_world.specs.Good.{IsGoodWorld};
ghost use Rattle.ug_world.specs.Sendable.{IsSendable};

/// What a world is to its peers, and what an event leaves as it was. `shared`: a peer's private table is what the peers
/// of its key should have, under its own next hops; `down`: it is empty where the peer isn't up. `fresh`: a peer that
/// comes up does so in one session more, with no filter, and with none that waits. `others`: an event changes no peer
/// that it isn't about; `kept`: it changes nothing for the peers of a key but what it touches; so of the peers that it
/// isn't about no route changes in their private tables but what it touches (`untouched`).
pub fn world_laws()
    ensures shared { (w : World) (p : ℕ) (s : PeerState) (key : Key) → slice_get w.peers p ≡ Some s → s.up ≡ true →
        private_table p w key ≡ option_map (told_to (ends_of s.peer)) (wanted (key_in w s) w key) }
    ensures down { (w : World) (p : ℕ) (s : PeerState) (key : Key) → slice_get w.peers p ≡ Some s → s.up ≡ false →
        private_table p w key ≡ None }
    ensures fresh { (w : World) (name : List ℕ) (p : ℕ) (s : PeerState) → slice_get w.peers p ≡ Some s → same_bytes s.peer.name name ≡ true →
        slice_get (after w (ComesUp name)).peers p ≡ Some (record s { up = true; sessions = s.sessions + 1; filter = []; waiting = [] }) }
    ensures others { (w : World) (e : Happening) (p : ℕ) (s : PeerState) → slice_get w.peers p ≡ Some s → is_about e s ≡ false →
        slice_get (after w e).peers p ≡ Some s }
    ensures kept { (w : World) (e : Happening) (group : GroupKey) (key : Key) → touches e w.tables group key ≡ false →
        wanted group (after w e) key ≡ wanted group w key }
    ensures untouched { (w : World) (e : Happening) (p : ℕ) (s : PeerState) (key : Key) → slice_get w.peers p ≡ Some s → is_about e s ≡ false →
        touches e w.tables (key_in w s) key ≡ false → private_table p (after w e) key ≡ private_table p w key }
{}

/// What can be sent of a good world. `kept`: it stays good after each event that keeps its rules. `wanted`: what the
/// outbound rules give can be sent to every peer of its key, whatever the route maps are, and its key is one of such a
/// peer's session (`wanted_key`); so it is of what a peer's private table has (`told`, `told_key`).
pub fn sendable_laws()
    ensures kept { (w : World) (e : Happening) → IsGoodWorld w → IsEvent e → IsGoodWorld (after w e) }
    ensures wanted { (w : World) (group : GroupKey) (key : Key) (o : OutAttrs) → IsGoodWorld w → wanted group w key ≡ Some o → IsSendable group.family o.attrs }
    ensures wanted_key { (w : World) (group : GroupKey) (key : Key) (o : OutAttrs) → IsGoodWorld w → wanted group w key ≡ Some o →
        is_route group.family group.add_path key ≡ true }
    ensures told { (w : World) (p : ℕ) (s : PeerState) (key : Key) (a : Attributes) → IsGoodWorld w → slice_get w.peers p ≡ Some s → private_table p w key ≡ Some a →
        IsSendable s.peer.family a }
    ensures told_key { (w : World) (p : ℕ) (s : PeerState) (key : Key) (a : Attributes) → IsGoodWorld w → slice_get w.peers p ≡ Some s → private_table p w key ≡ Some a →
        is_route s.peer.family s.peer.add_path key ≡ true }
{}
