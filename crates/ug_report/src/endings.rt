//! The last lines of a report.

ghost use Rattle.std.specs.Prelude.{◌≡◌, ◌++◌, OnOk};
ghost use Rattle.std.specs.List.{flat_map};
ghost use Rattle.std.specs.String.{string_bytes};
ghost use Rattle.ug_report.specs.Report.{loss_text, counts_text, lost_status, name_at};

use crate::lines::name_at;
use ug_types::{Name, NoMemory, PeerId};

/// A session that was lost: the place of its peer, and its number.
#[derive(Clone, Copy, PartialEq, Eq)]
pub struct Loss {
    pub peer: PeerId,
    pub session: u32,
}

/// Adds a line for each of these sessions. The names are those of the peers, in configured order.
pub fn write_losses(out: &mut String, names: &[Name], losses: &[Loss]) -> Result<(), NoMemory>
    ensures { OnOk result (string_bytes out.new ≡ string_bytes out.old ++ flat_map (loss_text names.now) losses.now) }
{
    for loss in losses {
        write_loss(out, names, *loss)?;
    }
    Ok(())
}

/// Adds the line of a session that was lost.
#[tactic(auto, unfolding(crate::specs::Report::loss_text))]
fn write_loss(out: &mut String, names: &[Name], loss: Loss) -> Result<(), NoMemory>
    ensures { OnOk result (string_bytes out.new ≡ string_bytes out.old ++ loss_text names.now loss) }
{
    let Loss { peer, session } = loss;
    let name = name_at(names, peer);
    write!(out, "lost {name} {session}\n")?;
    Ok(())
}

/// Adds the line of the counts: how many lines were accepted, and how many refused.
#[tactic(auto, unfolding(crate::specs::Report::counts_text))]
pub fn write_counts(out: &mut String, accepted: u64, refused: u64) -> Result<(), NoMemory>
    ensures { OnOk result (string_bytes out.new ≡ string_bytes out.old ++ counts_text accepted refused) }
{
    write!(out, "accepted {accepted} refused {refused}\n")?;
    Ok(())
}

/// Adds the status line of a run that lost a session, of which this was the first.
#[tactic(auto, unfolding(crate::specs::Report::lost_status))]
pub fn write_lost_status(out: &mut String, names: &[Name], loss: Loss) -> Result<(), NoMemory>
    ensures { OnOk result (string_bytes out.new ≡ string_bytes out.old ++ lost_status (name_at names.now loss.peer) loss.session) }
{
    let Loss { peer, session } = loss;
    let name = name_at(names, peer);
    write!(out, "status 8 lost {name} {session}\n")?;
    Ok(())
}
