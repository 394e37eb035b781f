//! The law of evaluations, on a function that does nothing.

ghost use Rattle.std.specs.Prelude.{◌≡◌, ℕ, ◌≤◌, ◌*◌, true, List, [], ◌∷◌, ◌++◌, length, slice_get, Some};
ghost use Rattle.std.specs.List.{IsDistinct};
ghost use Rattle.ug_board.specs.Entry.{Entry};
ghost use Rattle.ug_board.specs.History.{replay, job_entry};
ghost use Rattle.ug_events.specs.Events.{Happening};
ghost use Rattle.ug_outbound.specs.declared.key.GroupKey.{GroupKey};
ghost use Rattle.ug_world.specs.World.{World, key_in};
ghost use Rattle.ug_world.specs.After.{after};
ghost use Rattle.ug_world.specs.declared.peer_state.PeerState as peers;
ghost use Rattle.ug_speaker.specs.Told.{events_in, is_live, world_at};
ghost use Rattle.ug_speaker.specs.Owes.{IsCourse, IsPeer};
ghost use Rattle.ug_group_rules.specs.Packets.{same_group};
ghost use Rattle.ug_group_rules.specs.Machine.{Job, Said, System, Take, legal};
ghost use Rattle.ug_group_rules.specs.Evaluations.{has_key, live_keys, evaluations};
ghost use Rattle.ug_group_rules.specs.Rules.{group_rules, group_speech};
ghost use Rattle.ug_group_rules.specs.PeerKeys.{peer_keys, up_keys, pairs_asked, paths_at_most, sets_filter, evaluated_from, most_along};

/// How often an event runs the outbound rules, by the peers. In each course the keys of the subgroups are those of the live
/// peers: each live peer's key is among them (`keys`), each of them is a live peer's (`no_others`), and in every state each
/// is there once (`once`). So an event evaluates the pairs of a key and a path that it asks of the live peers' keys before
/// it and after it, each key once, however many peers and subgroups have it (`counted`): no more than the keys of the peers
/// that are up after it, each once, times the paths that it can touch (`at_most`), and none by a request or a list that puts
/// no other filter in force (`unfiltered`). So the events alone bound what a whole history evaluates (`in_all`).
pub fn group_evaluations()
    ensures keys { (opening : World) (history : List (Entry Job Said)) (p : ℕ) (s : peers.PeerState) → IsCourse group_rules group_speech opening history → IsPeer group_rules group_speech p s opening history
        → is_live group_rules group_speech p s opening history ≡ true → has_key (live_keys (replay group_rules opening history)) (key_in (world_at group_rules group_speech opening history) s) ≡ true }
    ensures no_others { (opening : World) (history : List (Entry Job Said)) (key : GroupKey) → IsCourse group_rules group_speech opening history → has_key (live_keys (replay group_rules opening history)) key ≡ true
        → (p : ℕ) × (s : peers.PeerState) × IsPeer group_rules group_speech p s opening history × (is_live group_rules group_speech p s opening history ≡ true)
        × (same_group (key_in (world_at group_rules group_speech opening history) s) key ≡ true) }
    ensures once { (s : System) → IsDistinct same_group (live_keys s) }
    ensures counted { (opening : World) (history : List (Entry Job Said)) (pass : ℕ) (e : Happening) → IsCourse group_rules group_speech opening history → legal (Take e) (replay group_rules opening history) ≡ true
        → evaluations e (replay group_rules opening history)
        ≡ pairs_asked e (peer_keys opening history) (peer_keys opening (history ++ job_entry group_rules pass (Take e) (replay group_rules opening history) ∷ [])) (after (world_at group_rules group_speech opening history) e) }
    ensures at_most { (opening : World) (history : List (Entry Job Said)) (e : Happening) → IsCourse group_rules group_speech opening history → legal (Take e) (replay group_rules opening history) ≡ true
        → evaluations e (replay group_rules opening history)
        ≤ length (up_keys (after (world_at group_rules group_speech opening history) e)) * paths_at_most e (after (world_at group_rules group_speech opening history) e).routes }
    ensures unfiltered { (opening : World) (history : List (Entry Job Said)) (e : Happening) → IsCourse group_rules group_speech opening history → legal (Take e) (replay group_rules opening history) ≡ true → sets_filter e ≡ true
        → ((p : ℕ) (s s' : peers.PeerState) → IsPeer group_rules group_speech p s opening history → slice_get (after (world_at group_rules group_speech opening history) e).peers p ≡ Some s' → s'.filter ≡ s.filter)
        → evaluations e (replay group_rules opening history) ≡ 0 }
    ensures in_all { (opening : World) (history : List (Entry Job Said)) → IsCourse group_rules group_speech opening history → evaluated_from (group_rules.start opening) history ≤ most_along opening (events_in group_rules group_speech history) }
{}
