//! Laws over the rules, on functions that do nothing.

ghost use Rattle.std.specs.Prelude.{◌≡◌, ℕ, ◌<◌, ◌≤◌, ◌&&◌, not, nat_le, true, false, List, ◌∷◌, [], ◌++◌, length, slice_get, Some, is_some};
ghost use Rattle.ug_board.specs.declared.steps.LaneStep.TheVariants.{Next};
ghost use Rattle.ug_board.specs.declared.steps.LaneSaid.TheVariants.{Hand};
ghost use Rattle.ug_board.specs.Entry.{Entry};
ghost use Rattle.ug_board.specs.Rules.{IsMachine};
ghost use Rattle.ug_board.specs.History.{replay, job_entry};
ghost use Rattle.ug_events.specs.Events.{Happening};
ghost use Rattle.ug_world.specs.World.{World};
ghost use Rattle.ug_world.specs.declared.peer_state.PeerState as peers;
ghost use Rattle.ug_world.specs.Touches.{is_about};
ghost use Rattle.ug_message.specs.Texts.{written};
ghost use Rattle.ug_speaker.specs.Speech.{capabilities_of, is_request};
ghost use Rattle.ug_speaker.specs.Told.{events_in, worlds_of, world_after, told, is_lost, begun, is_live, world_at};
ghost use Rattle.ug_speaker.specs.Right.{IsToldRight, IsToldAll, IsToldAgain};
ghost use Rattle.ug_speaker.specs.Owes.{IsSpeaker, IsCourse, IsPeer, IsDrainedSince, TellsMarks};
ghost use Rattle.ug_group_rules.specs.Machine as machine;
ghost use Rattle.ug_group_rules.specs.Machine.{Job, Said, Take, legal, seat_at, subgroup_at, owes, is_full, is_turn, may_merge, must_part, is_drained, has_unlost};
ghost use Rattle.ug_group_rules.specs.Rules.{group_rules, group_speech, lane_reply, purpose};
ghost use Rattle.ug_group_rules.specs.Simulates.{Simulates, IsAnsweredSince, rest_to};

/// What the rules keep. `machine`: what any machine keeps in every state. `speaks`: what a machine that speaks to peers
/// owes, of each step and of each whole history.
pub fn group_laws()
    ensures machine { IsMachine group_rules }
    ensures speaks { IsSpeaker group_rules group_speech }
{}

/// What each course keeps, of what a machine that speaks to peers owes of it: its world is that which the events lead to;
/// each session was told right; sessions are begun as they came up; when everything is told each live peer has its private
/// table; what is handed out is the text of a message; losses are noted once; marks tell what was told; and after a request
/// each route is announced again.
pub fn group_courses()
    ensures world { (opening : World) (history : List (Entry Job Said)) → IsCourse group_rules group_speech opening history → world_at group_rules group_speech opening history ≡ world_after opening (events_in group_rules group_speech history) }
    ensures right { (opening : World) (history : List (Entry Job Said)) (p n : ℕ) (s : peers.PeerState) → IsCourse group_rules group_speech opening history → IsPeer group_rules group_speech p s opening history
        → IsToldRight p n s.peer (worlds_of group_rules group_speech opening history) (told group_rules group_speech p n opening history) }
    ensures begun_at_most { (opening : World) (history : List (Entry Job Said)) (p : ℕ) (s : peers.PeerState) → IsCourse group_rules group_speech opening history → IsPeer group_rules group_speech p s opening history
        → begun group_rules group_speech p opening history ≤ s.sessions }
    ensures begun_all { (opening : World) (history : List (Entry Job Said)) (p : ℕ) (s : peers.PeerState) → IsCourse group_rules group_speech opening history → IsPeer group_rules group_speech p s opening history
        → is_drained (replay group_rules opening history) ≡ true → begun group_rules group_speech p opening history ≡ s.sessions }
    ensures all_told { (opening : World) (history : List (Entry Job Said)) (p : ℕ) (s : peers.PeerState) → IsCourse group_rules group_speech opening history → IsPeer group_rules group_speech p s opening history
        → is_drained (replay group_rules opening history) ≡ true → is_live group_rules group_speech p s opening history ≡ true
        → IsToldAll p (world_at group_rules group_speech opening history) (told group_rules group_speech p s.sessions opening history) }
    ensures text { (opening : World) (history : List (Entry Job Said)) (p session made len : ℕ) (s : peers.PeerState) → IsCourse group_rules group_speech opening history → IsPeer group_rules group_speech p s opening history
        → lane_reply (Next p) (replay group_rules opening history) ≡ Hand session made len
        → written (capabilities_of s.peer) (group_speech.message p (replay group_rules opening history)) ≡ Some (group_rules.handed p (replay group_rules opening history)) }
    ensures losses { (opening : World) (history : List (Entry Job Said)) (p n : ℕ) → IsCourse group_rules group_speech opening history
        → has_unlost n (slice_get (replay group_rules opening history).members p) ≡ (nat_le 1 n && (nat_le n (begun group_rules group_speech p opening history) && not (is_lost group_rules group_speech p n opening history))) }
    ensures marks { (opening : World) (history : List (Entry Job Said)) (pass : ℕ) (job : Job) → IsCourse group_rules group_speech opening history → legal job (replay group_rules opening history) ≡ true
        → TellsMarks group_rules group_speech (purpose job) (group_rules.reply job (replay group_rules opening history)) opening (history ++ job_entry group_rules pass job (replay group_rules opening history) ∷ []) }
    ensures told_again { (opening : World) (before whole : List (Entry Job Said)) (p : ℕ) (asker s : peers.PeerState) → IsDrainedSince group_rules group_speech opening before whole p asker s
        → IsToldAgain p s.peer (world_at group_rules group_speech opening whole) (length (told group_rules group_speech p asker.sessions opening before)) (told group_rules group_speech p s.sessions opening whole) }
{}

/// In each course the members of all subgroups are the live peers (`live`), and a subgroup stands for each of its members
/// (`simulates`). Once a member has asked for all routes, each that is formatted was announced in a packet that was formatted
/// behind the request, or is still to be (`answered`).
pub fn group_simulation()
    ensures live { (opening : World) (history : List (Entry Job Said)) (p : ℕ) (s : peers.PeerState) → IsCourse group_rules group_speech opening history → IsPeer group_rules group_speech p s opening history
        → is_live group_rules group_speech p s opening history ≡ is_some (seat_at p (replay group_rules opening history)) }
    ensures simulates { (opening : World) (history : List (Entry Job Said)) (p : ℕ) (s : peers.PeerState) (t : machine.Seat) → IsCourse group_rules group_speech opening history → IsPeer group_rules group_speech p s opening history
        → seat_at p (replay group_rules opening history) ≡ Some t
        → (x : machine.Subgroup) × (subgroup_at t.sub (replay group_rules opening history) ≡ Some x)
        × Simulates p s (worlds_of group_rules group_speech opening history) (world_at group_rules group_speech opening history) x (told group_rules group_speech p s.sessions opening history ++ rest_to s t.rest) }
    ensures answered { (opening : World) (before later : List (Entry Job Said)) (pass : ℕ) (e : Happening) (p : ℕ) (asker s : peers.PeerState) (at_request t : machine.Seat) → is_request e ≡ true
        → IsPeer group_rules group_speech p asker opening before → is_about e asker ≡ true → seat_at p (replay group_rules opening before) ≡ Some at_request
        → IsCourse group_rules group_speech opening (before ++ job_entry group_rules pass (Take e) (replay group_rules opening before) ∷ later)
        → IsPeer group_rules group_speech p s opening (before ++ job_entry group_rules pass (Take e) (replay group_rules opening before) ∷ later) → s.sessions ≡ asker.sessions
        → seat_at p (replay group_rules opening (before ++ job_entry group_rules pass (Take e) (replay group_rules opening before) ∷ later)) ≡ Some t
        → (x : machine.Subgroup) × (subgroup_at t.sub (replay group_rules opening (before ++ job_entry group_rules pass (Take e) (replay group_rules opening before) ∷ later)) ≡ Some x)
        × IsAnsweredSince (length (told group_rules group_speech p asker.sessions opening before ++ rest_to asker at_request.rest)) x
        (told group_rules group_speech p s.sessions opening (before ++ job_entry group_rules pass (Take e) (replay group_rules opening before) ∷ later) ++ rest_to s t.rest) }
{}

/// An event finds nothing put off: no subgroups that may merge (`merged`), none whose first members have to leave it
/// (`parted`), and after each so many events none that owes a packet but behind a full queue (`formatted`).
pub fn group_order()
    ensures merged { (e : Happening) (s : machine.System) (g h : ℕ) (x y : machine.Subgroup) → legal (Take e) s ≡ true → slice_get s.subgroups g ≡ Some (Some x) → slice_get s.subgroups h ≡ Some (Some y) → may_merge s g h ≡ false }
    ensures parted { (e : Happening) (s : machine.System) (g : ℕ) (x : machine.Subgroup) → legal (Take e) s ≡ true → slice_get s.subgroups g ≡ Some (Some x) → must_part s g ≡ false }
    ensures formatted { (e : Happening) (s : machine.System) (g : ℕ) (x : machine.Subgroup) → legal (Take e) s ≡ true → slice_get s.subgroups g ≡ Some (Some x)
        → is_turn s.world.local.coalesce s.world.version ≡ true → owes x ≡ true → is_full s g ≡ true }
{}
