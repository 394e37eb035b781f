//! The losses of a history, in the order of the report: by peer, and then by session.

ghost use Rattle.std.specs.Prelude.{◌≡◌, ◌+◌, ◌++◌, IfOk, OnOk};
ghost use Rattle.ug_board.specs.Seen.{seen_step};
ghost use Rattle.ug_report.specs.Report.{losses_from};
ghost use Rattle.ug_event_loop.specs.Crew.{all_losses};
ghost use Rattle.ug_run.specs.Losses.{loss_in, losses_told, losses_to};

use std::alloc::Global;
use ug_board::{BoardEntry, BoardStep, History, LaneStep};
use ug_report::Loss;
use ug_types::{NoMemory, PeerId};

/// The losses of all peers, of which there are so many, by peer and then by session. It looks once at the history, and
/// then for each peer at the losses in it.
#[tactic(auto, using(crate::proofs::Lost::all_told, crate::proofs::Lost::next_peer))]
pub(crate) fn losses_of<J: Drop, R: Drop>(
    alloc: Global,
    peers: u32,
    history: &History<J, R>,
) -> Result<Vec<Loss>, NoMemory>
    ensures { IfOk result (λ losses. losses.items ≡ losses_from 0 (all_losses 0 peers history.now.items)) }
{
    let told = losses_told(alloc, history)?;
    let mut losses = Vec::new(alloc);
    for peer in 0..peers {
        add_losses(&mut losses, peer, told.as_slice())?;
    }
    Ok(losses)
}

/// The losses of a history, as they come in it.
fn losses_told<J: Drop, R: Drop>(
    alloc: Global,
    history: &History<J, R>,
) -> Result<Vec<Loss>, NoMemory>
    ensures { IfOk result (λ losses. losses.items ≡ losses_told history.now.items) }
{
    let mut losses = Vec::new(alloc);
    for i in 0..history.len() {
        let entry = history.at(i);
        add_loss(&mut losses, &entry)?;
    }
    Ok(losses)
}

/// Adds the loss of an entry, where it is one.
fn add_loss<J: Drop, R: Drop>(
    losses: &mut Vec<Loss>,
    entry: &BoardEntry<&J, &R>,
) -> Result<(), NoMemory>
    ensures { OnOk result (losses.new.items ≡ losses.old.items ++ loss_in (seen_step entry.now.step)) }
{
    if let BoardStep::Lane(LaneStep::Lost { peer, session }) = entry.step() {
        losses.push(Loss { peer, session })?;
    }
    Ok(())
}

/// Adds the losses of a peer.
fn add_losses(losses: &mut Vec<Loss>, peer: PeerId, told: &[Loss]) -> Result<(), NoMemory>
    ensures { OnOk result (losses.new.items ≡ losses.old.items ++ losses_to peer told.now) }
{
    for loss in told {
        if loss.peer == peer {
            losses.push(*loss)?;
        }
    }
    Ok(())
}
