//! Laws over the definitions that the queue's contracts cite.
ghost use Rattle.ug_queue.specs.Rests.{RestLaws, MemberLaws};

/// What members have still to take, after a packet more and after packets are gone; and that the packets there are what some member has still to take.
pub fn rest_laws<P>()
    ensures { RestLaws P }
{}

/// Where members stand and what they have still to take, after one of them came, took a packet, or went.
pub fn member_laws<P>()
    ensures { MemberLaws P }
{}
