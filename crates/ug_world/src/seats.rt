//! What an event makes of a peer.

ghost use Rattle.std.specs.Prelude.{◌≡◌, ◌<◌, OnOk, OnErr, IfOk};
ghost use Rattle.ug_policy.specs.OrfApplying.{applied};
ghost use Rattle.ug_policy.specs.OrfViews.{orf_seen};
ghost use Rattle.ug_world.specs.After.{come_up, gone_down, with_policy, refiltered, with_orf};

use crate::peer_state::PeerState;
use std::alloc::Global;
use ug_policy::{Filter, OrfMessage, apply_orf};
use ug_types::{Name, NoMemory};

/// The peer comes up, in one session more and with no filter of its own.
pub fn come_up(alloc: Global, seat: &mut PeerState)
    requires { seat.old.sessions < 4294967295 }
    ensures { seat.new ≡ come_up seat.old }
{
    seat.up = true;
    seat.sessions += 1;
    seat.filter = Filter::none(alloc);
    seat.waiting = Filter::none(alloc);
}

/// The peer goes down.
pub fn go_down(seat: &mut PeerState)
    ensures { seat.new ≡ gone_down seat.old }
{
    seat.up = false;
}

/// The peer has another policy, or none.
pub fn set_policy(seat: &mut PeerState, policy: Option<Name>)
    ensures { seat.new ≡ with_policy policy seat.old }
{
    seat.peer.policy = policy;
}

/// The filter that waits is in force. Running out of memory changes nothing.
pub fn refilter(alloc: Global, seat: &mut PeerState) -> Result<(), NoMemory>
    ensures ok { OnOk result (seat.new ≡ refiltered seat.old) }
    ensures err { OnErr result (seat.new ≡ seat.old) }
{
    let filter = seat.waiting.copy(alloc)?;
    seat.filter = filter;
    Ok(())
}

/// The filter that waits is changed by a message, and put in force where the message says so. Running out of memory
/// changes nothing.
pub fn apply_message(
    alloc: Global,
    seat: &mut PeerState,
    message: &OrfMessage,
) -> Result<(), NoMemory>
    ensures ok { OnOk result (seat.new ≡ with_orf (orf_seen message.entry.now) seat.old) }
    ensures err { OnErr result (seat.new ≡ seat.old) }
{
    let waiting = changed(alloc, &seat.waiting, message)?;
    if message.now {
        let filter = waiting.copy(alloc)?;
        seat.filter = filter;
    }
    seat.waiting = waiting;
    Ok(())
}

/// A filter after the changes of a message.
fn changed(alloc: Global, filter: &Filter, message: &OrfMessage) -> Result<Filter, NoMemory>
    ensures { IfOk result (λ changed. changed ≡ applied message.entry.now.entries.items filter.now) }
{
    let mut entries = filter.entries().copy(alloc)?;
    apply_orf(&mut entries, message)?;
    Ok(Filter::new(entries))
}
