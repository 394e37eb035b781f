ghost use Rattle.std.specs.Prelude.{◌≡◌, ◌≤◌, ◌++◌, [], true, filter, length};
ghost use Rattle.ug_board.specs.History.{IsLegal, replay, replay_from};
ghost use Rattle.ug_board.specs.Deeds.{deeds, deeds_from, Each, begins, to_peer, IsInTurn};
ghost use Rattle.ug_board.specs.Sessions.{sessions_of};

use crate::machine::Machine;

/// What is told of a longer history is what was told, and then what its further entries tell (`append`). Where the
/// same entries are chosen the same is told (`alike`), and entries of which none is chosen tell nothing (`others`).
pub fn laws_of_growth<M: Machine, X>()
    ensures append { (told : _) (chosen : _) (state : M.State) (old new : _) → deeds_from {X = X} M.rules told chosen state (old ++ new) ≡ deeds_from M.rules told chosen state old ++ deeds_from M.rules told chosen (replay_from M.rules state old) new }
    ensures alike { (told : _) (chosen others : _) (state : M.State) (entries : _) → Each (λ entry. chosen entry ≡ others entry) entries → deeds_from {X = X} M.rules told chosen state entries ≡ deeds_from M.rules told others state entries }
    ensures others { (told : _) (chosen : _) (state : M.State) (entries : _) → filter chosen entries ≡ [] → deeds_from {X = X} M.rules told chosen state entries ≡ [] }
{}

/// Of a legal history: all entries of a peer begin its sessions one by one from 1 on, and hand things out in the one
/// begun last (`in_turn`), and they begin as many as the state says (`begun`). Some of its entries begin no more than
/// that (`at_most`). As many sessions are made as begin (`made`).
pub fn laws_of_sessions<M: Machine, X>()
    ensures in_turn { (told : _) (peer : _) (opening : M.Opening) (history : _) → IsLegal M.rules opening history → IsInTurn {X = X} 0 (deeds M.rules told (to_peer peer) opening history) }
    ensures begun { (told : _) (peer : _) (opening : M.Opening) (history : _) → IsLegal M.rules opening history → begins {X = X} (deeds M.rules told (to_peer peer) opening history) ≡ M.rules.begun peer (replay M.rules opening history) }
    ensures at_most { (told : _) (peer : _) (chosen : _) (opening : M.Opening) (history : _) → IsLegal M.rules opening history → Each (λ entry. chosen entry ≡ true → to_peer peer entry ≡ true) history → begins {X = X} (deeds M.rules told chosen opening history) ≤ M.rules.begun peer (replay M.rules opening history) }
    ensures made { (told : _) → length (sessions_of {X = X} told) ≡ begins told }
{}
