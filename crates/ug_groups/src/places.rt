//! Members by place.

ghost use Rattle.std.specs.Prelude.{◌≡◌};
ghost use Rattle.ug_speaker.specs.Places.{change_at};
ghost use Rattle.ug_groups.specs.Changes.{with_sub};
ghost use Rattle.ug_groups.specs.Members.{sub_at};

use crate::member::Member;

/// The subgroup in which the peer at a place sits.
#[tactic(auto, using(crate::proofs::ListFacts::get_is, crate::proofs::ListFacts::get_none))]
pub fn sub_at(members: &[Member], place: usize) -> Option<u32>
    ensures { result ≡ sub_at place members.now }
{
    match members.get(place) {
        None => None,
        Some(member) => member.sub,
    }
}

/// It sits in that subgroup now, or nowhere.
#[tactic(auto, using(crate::proofs::ListFacts::set_is, crate::proofs::ListFacts::end_is))]
pub fn seat_at(members: &mut [Member], place: usize, sub: Option<u32>)
    ensures { members.new ≡ change_at (with_sub sub) place members.old }
{
    if place < members.len() {
        let member = &mut members[place];
        member.sub = sub;
    }
}
