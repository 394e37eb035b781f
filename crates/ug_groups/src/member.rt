//! A peer, as the machine sees it.

ghost use Rattle.std.specs.Prelude.{◌≡◌, ℕ, ◌+◌, ◌<◌, ◌≤◌, ◌==◌, not, ◌∷◌, [], ◌++◌, filter, length, slice_get, slice_set, Some, IfOk};
ghost use Rattle.ug_speaker.specs.Counts.{has};
ghost use Rattle.ug_groups.specs.Kept.{HasRoom};
ghost use Rattle.ug_groups.specs.Fresh.{IsFresh, AreFresh};

use std::alloc::Global;
use ug_types::{NoMemory, NumberList, Sequence};
use ug_world::World;

/// A peer: how many sessions were begun, which of them aren't lost, how many messages were handed out in the last of
/// them, and the subgroup in which it sits while it is live.
#[derive(Drop)]
pub struct Member {
    pub begun: u32,
    pub unlost: NumberList,
    pub handed: u64,
    pub sub: Option<u32>,
}

/// The next of so many sessions begins.
pub fn begin(member: &mut Member, sessions: u32)
    requires room { HasRoom sessions member.old }
    requires more { member.old.begun < sessions }
    ensures begun { member.new.begun ≡ member.old.begun + 1 }
    ensures unlost { member.new.unlost.items ≡ member.old.unlost.items ++ (member.old.begun + 1) ∷ [] }
    ensures handed { member.new.handed ≡ 0 }
    ensures sub { member.new.sub ≡ member.old.sub }
    ensures room { HasRoom sessions member.new }
{
    let session = member.begun + 1;
    let Ok(()) = member.unlost.push(session) else {
        unreachable!()
    };
    member.begun = session;
    member.handed = 0;
}

/// The loss of a session is noted.
pub fn forget(member: &mut Member, session: u32)
    ensures begun { member.new.begun ≡ member.old.begun }
    ensures unlost { member.new.unlost.items ≡ filter (λ (k : ℕ). not (k == session)) member.old.unlost.items }
    ensures spare { member.old.unlost.spare ≤ member.new.unlost.spare }
    ensures handed { member.new.handed ≡ member.old.handed }
    ensures sub { member.new.sub ≡ member.old.sub }
{
    member.unlost.retain(|k| *k != session);
}

/// Whether a session was begun and isn't lost.
pub fn has_unlost(member: &Member, session: u32) -> bool
    ensures { result ≡ has member.now.unlost.items session }
{
    member
        .unlost
        .as_slice()
        .iter()
        .any(|number| *number == session)
}

/// As many peers as the world has, before any session.
#[tactic(auto, using(crate::proofs::FreshMembers::fresh_push, crate::proofs::FreshMembers::fresh_end))]
pub fn fresh_members(alloc: Global, world: &World) -> Result<Vec<Member>, NoMemory>
    ensures { IfOk result (λ members. AreFresh world.now.peers members.items) }
{
    let mut members = Vec::new(alloc);
    for id in 0..world.peers() {
        members.push(fresh_member(alloc, world.session(id))?)?;
    }
    Ok(members)
}

/// A peer before any session, with room for so many.
fn fresh_member(alloc: Global, sessions: u32) -> Result<Member, NoMemory>
    ensures { IfOk result (IsFresh sessions) }
{
    let mut unlost = Sequence::new(alloc);
    unlost.reserve(sessions as usize)?;
    Ok(Member {
        begun: 0,
        unlost,
        handed: 0,
        sub: None,
    })
}
