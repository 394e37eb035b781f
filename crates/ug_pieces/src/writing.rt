ghost use Rattle.std.specs.Prelude.{◌≡◌, ◌≤◌, OnOk, OnErr};
ghost use Rattle.ug_edge.specs.Told.{Rose, AppendsPiece};
ghost use Rattle.ug_pieces.specs.Reporting.{AppendsFront};

use ug_edge::{Failed, Sink};

/// Writes all of the text, where no call fails.
pub fn write_all<K: Sink>(report: &mut K, text: &[u8]) -> Result<(), Failed>
    ensures ok { OnOk result (AppendsPiece (K.held report.old) (K.held report.new) text.now) }
    ensures err { OnErr result (AppendsFront (K.held report.old) (K.held report.new) text.now) }
    ensures failed { OnErr result (Rose (K.faults report.old) (K.faults report.new)) }
    ensures unharmed { OnOk result (K.faults report.new ≡ K.faults report.old) }
    ensures faults { K.faults report.old ≤ K.faults report.new }
{
    let mut at = 0;
    while at < text.len() {
        let (_, rest) = text.split_at(at);
        let n = report.write(rest)?;
        at += n;
    }
    Ok(())
}
