//! Laws over the definitions, on functions that do nothing.

ghost use Rattle.std.specs.Prelude.{◌≡◌, ◌++◌, ◌<◌, ℕ, List, [], length, true, Option, Some, Ok};
ghost use Rattle.ug_types.specs.declared.mark.Mark as marks;
ghost use Rattle.ug_edge.specs.Told.{AppendsAll, Bytes, FileText, Rose, file_named, file_told};
ghost use Rattle.ug_board.specs.Deeds.{Each};
ghost use Rattle.ug_commands.specs.Words.{AuditCommand, RunCommand};
ghost use Rattle.ug_config.specs.Worlds.{config};
ghost use Rattle.ug_commands.specs.Listed.{IsConfigured};
ghost use Rattle.ug_events.specs.Events.{Saying};
ghost use Rattle.ug_events.specs.Reads.{Reads};
ghost use Rattle.ug_world.specs.World.{World};
ghost use Rattle.ug_world.specs.Worlds.{last_world};
ghost use Rattle.ug_speaker.specs.Owes.{IsOpening};
ghost use Rattle.ug_report.specs.declared.status.Status as statuses;
ghost use Rattle.ug_report.specs.Report.{AreOf64, names_in, completed_text, losses_from, losses_status};
ghost use Rattle.ug_report.specs.Statuses.{row_of};
ghost use Rattle.ug_event_loop.specs.Contents.{WireTold, Content};
ghost use Rattle.ug_event_loop.specs.Kept.{IsKept};
ghost use Rattle.ug_run.specs.Told.{RunTold};
ghost use Rattle.ug_run.specs.Commands.{IsRunOf};
ghost use Rattle.ug_audit_rules.specs.declared.entry.Entry as entries;
ghost use Rattle.ug_audit_rules.specs.Audited.{IsAudited};
ghost use Rattle.ug_audit_rules.specs.Reports.{IsWord};
ghost use Rattle.ug_run.specs.Files.{all_syncs, held_by, TellAll};
ghost use Rattle.ug_run.specs.Reports.{AreTold, IsReport};
ghost use Rattle.ug_run.specs.AuditedRuns.{LeavesRight};
ghost use Rattle.ug_audit.specs.Auditing.{IsAuditing};
ghost use Rattle.ug_audit.specs.Right.{AreRight};
ghost use Rattle.ug_run.specs.Sites.{HoldSessions, IsNothingAmiss};

use ug_speaker::Speaker;

/// What a completed run keeps to its peers is what an auditor asks of its files, with a report that tells of its marks and
/// its losses.
pub fn kept_is_audited()
    ensures kept { (w : World) (lines : List (Reads Saying)) (marks : List (List marks.Mark)) (wires : List WireTold) (contents : List (List Content)) (lost : List (List ℕ)) (told : List entries.Entry) →
        w.version ≡ 0 → TellAll wires → IsKept w lines marks true wires contents lost → AreTold told (all_syncs lines marks) lost →
        IsAudited w lines told (held_by wires) }
{}

/// The report of a completed run tells an auditor just its marks and its losses, with the status line behind it or a front
/// of that. The names of its peers are words, and its numbers are of 64 bits.
pub fn report_is_read()
    ensures read { (w : World) (lines : List (Reads Saying)) (marks : List (List marks.Mark)) (wires : List WireTold) (contents : List (List Content)) (lost : List (List ℕ)) (front : List ℕ) (tail : List ℕ) →
        IsOpening w → Each IsWord (names_in w) → length lines < 18446744073709551616 → Each AreOf64 marks →
        IsKept w lines marks true wires contents lost → losses_status (names_in w) (losses_from 0 lost) ≡ front ++ tail →
        IsReport (last_world w lines) (completed_text w lines marks (losses_from 0 lost) ++ front) (all_syncs lines marks) lost }
{}

/// Whatever speaker it was over, a run of a configuration that completed leaves files that an auditor finds right, where its
/// files and its wires tell what they hold and its report held nothing before.
pub fn run_is_audited<M: Speaker>()
    ensures audited { (command : RunCommand) (configuration : List ℕ) (events : List ℕ) (report : List ℕ) (run : RunTold M.Job M.Said) →
        IsRunOf M.Machine.rules M.speech command run → (row_of run.status).completed ≡ true → TellAll run.wires →
        file_told run.before.files command.config ≡ Bytes configuration → file_told run.before.files command.events ≡ Bytes events →
        run.before.held ≡ Some [] → run.after.held ≡ Some report →
        (w : World) × IsConfigured (Bytes configuration) (Ok w) × LeavesRight w events report run.wires }
{}

/// So the files are right that such a run leaves, where each session is in the file of its peer's name and its number. An
/// audit of them ends with `Ok`, unless a call of the outside fails, memory runs out, or a file is past its limit.
pub fn files_are_right<M: Speaker>()
    ensures right { (audit : AuditCommand) (files : List FileText) (w : World)
        (command : RunCommand) (configuration : List ℕ) (events : List ℕ) (report : List ℕ) (run : RunTold M.Job M.Said) →
        IsRunOf M.Machine.rules M.speech command run → (row_of run.status).completed ≡ true → TellAll run.wires →
        file_told run.before.files command.config ≡ Bytes configuration → file_told run.before.files command.events ≡ Bytes events →
        run.before.held ≡ Some [] → run.after.held ≡ Some report →
        file_named audit.config files ≡ Some configuration → file_named audit.events files ≡ Some events → file_named audit.report files ≡ Some report →
        config configuration ≡ Ok w → HoldSessions files audit.dir (names_in w) run.wires →
        AreRight audit files }
    ensures ends { (audit : AuditCommand) (files : List FileText) (w : World)
        (command : RunCommand) (configuration : List ℕ) (events : List ℕ) (report : List ℕ) (run : RunTold M.Job M.Said)
        (ending : statuses.Status) (seen : Option (List (List ℕ))) (seen' : Option (List (List ℕ))) (before : Option (List ℕ)) (held : Option (List ℕ)) (failures : ℕ) (failures' : ℕ) →
        IsRunOf M.Machine.rules M.speech command run → (row_of run.status).completed ≡ true → TellAll run.wires →
        file_told run.before.files command.config ≡ Bytes configuration → file_told run.before.files command.events ≡ Bytes events →
        run.before.held ≡ Some [] → run.after.held ≡ Some report →
        file_named audit.config files ≡ Some configuration → file_named audit.events files ≡ Some events → file_named audit.report files ≡ Some report →
        config configuration ≡ Ok w → HoldSessions files audit.dir (names_in w) run.wires →
        IsAuditing audit (file_told (Some files)) (AppendsAll seen seen') ending before held (Rose failures failures') →
        IsNothingAmiss ending }
{}
