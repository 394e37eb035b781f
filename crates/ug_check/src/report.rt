//! The report on a stream.

ghost use Rattle.std.specs.Prelude.{◌≡◌, ◌≤◌, [], ◌∷◌, ◌++◌, List, ℕ, Option, length, OnOk, IfErr, IsErrOf};
ghost use Rattle.std.specs.List.{concat};
ghost use Rattle.std.specs.List.Sorted.{IsStrictlySortedBy};
ghost use Rattle.std.specs.Map.{keys_of};
ghost use Rattle.std.specs.String.{string_bytes};
ghost use Rattle.ug_edge.specs.Told.{Rose, AppendsPiece};
ghost use Rattle.ug_text.specs.Rows.{row_text};
ghost use Rattle.ug_check.specs.Decoded.{row_texts, totals_text};
ghost use Rattle.ug_check.specs.Checks.{IsReportedUntil};
ghost use Rattle.ug_check.specs.Written.{HasWritten};

use crate::checker::Checker;
use crate::stop::Stop;
use crate::table::Table;
use std::alloc::Global;
use ug_edge::{Failed, Sink};
use ug_pieces::write_all;
use ug_text::RowWriter;
use ug_types::{Attrs, Key, NoMemory};

/// How many bytes are written at once, as nearly as whole lines come.
const PIECE: usize = 1 << 16;

/// Writes the rows of the table and the totals.
pub fn write_report<K: Sink>(alloc: Global, checker: &Checker, report: &mut K) -> Result<(), Stop>
    ensures ok { OnOk result (AppendsPiece (K.held report.old) (K.held report.new)
        (concat (row_texts checker.now.table.rows ++ totals_text checker.now.messages checker.now.eors (length checker.now.table.rows) (length checker.now.reader.left) ∷ []))) }
    ensures stopped { IfErr result (λ stop. IsReportedUntil stop (K.held report.old) (K.held report.new)
        (row_texts checker.now.table.rows ++ totals_text checker.now.messages checker.now.eors (length checker.now.table.rows) (length checker.now.reader.left) ∷ [])) }
    ensures ascending { IsStrictlySortedBy ⟦<Key as Ord>⟧.cmp (keys_of checker.now.table.rows) }
    ensures failed { IsErrOf result Stop.Report → Rose (K.faults report.old) (K.faults report.new) }
    ensures no_read { IsErrOf result Stop.Read → ⊥ }
    ensures faults { K.faults report.old ≤ K.faults report.new }
{
    let mut text = String::new(alloc);
    match write_rows(alloc, &checker.table, &mut text, report) {
        Ok(()) => {}
        Err(stop) => return Err(stop),
    }
    match add_totals(checker, &mut text) {
        Ok(()) => {}
        Err(NoMemory) => return Err(Stop::NoMemory),
    }
    match write_all(report, text.as_bytes()) {
        Ok(()) => Ok(()),
        Err(Failed) => Err(Stop::Report),
    }
}

/// Adds the line of totals.
#[tactic(auto, unfolding(crate::specs::Decoded::totals_text))]
fn add_totals(checker: &Checker, text: &mut String) -> Result<(), NoMemory>
    ensures { OnOk result (string_bytes text.new ≡ string_bytes text.old
        ++ totals_text checker.now.messages checker.now.eors (length checker.now.table.rows) (length checker.now.reader.left)) }
{
    let messages = checker.messages;
    let eors = checker.eors;
    let rows = checker.table.len();
    let rest = checker.reader.rest();
    write!(
        text,
        "messages {messages} eors {eors} rows {rows} rest {rest}\n"
    )?;
    Ok(())
}

/// Writes the rows of the table, but for those that the text has at the end.
fn write_rows<K: Sink>(
    alloc: Global,
    table: &Table,
    text: &mut String,
    report: &mut K,
) -> Result<(), Stop>
    ensures ok { OnOk result ((before : Option (List ℕ)) (lines : List (List ℕ)) (rest : List (List ℕ)) →
        HasWritten before (K.held report.old) (string_bytes text.old) lines (row_texts table.now.rows ++ rest) →
        HasWritten before (K.held report.new) (string_bytes text.new) lines rest) }
    ensures stopped { IfErr result (λ stop. (before : Option (List ℕ)) (lines : List (List ℕ)) (rest : List (List ℕ)) →
        HasWritten before (K.held report.old) (string_bytes text.old) lines (row_texts table.now.rows ++ rest) →
        IsReportedUntil stop before (K.held report.new) lines) }
    ensures ascending { IsStrictlySortedBy ⟦<Key as Ord>⟧.cmp (keys_of table.now.rows) }
    ensures failed { IsErrOf result Stop.Report → Rose (K.faults report.old) (K.faults report.new) }
    ensures no_read { IsErrOf result Stop.Read → ⊥ }
    ensures faults { K.faults report.old ≤ K.faults report.new }
{
    let mut writer = RowWriter::new(alloc);
    for (key, attrs) in table.iter() {
        match put_row(&mut writer, &key, attrs, text, report) {
            Ok(()) => {}
            Err(stop) => return Err(stop),
        }
    }
    Ok(())
}

/// Adds a row to the text, and writes the text where it is long enough.
fn put_row<'a, K: Sink>(
    writer: &mut RowWriter<'a>,
    key: &Key,
    attrs: &'a Attrs,
    text: &mut String,
    report: &mut K,
) -> Result<(), Stop>
    ensures ok { OnOk result ((before : Option (List ℕ)) (lines : List (List ℕ)) (rest : List (List ℕ)) →
        HasWritten before (K.held report.old) (string_bytes text.old) lines (row_text key.now attrs.now ∷ rest) →
        HasWritten before (K.held report.new) (string_bytes text.new) lines rest) }
    ensures stopped { IfErr result (λ stop. (before : Option (List ℕ)) (lines : List (List ℕ)) (rest : List (List ℕ)) →
        HasWritten before (K.held report.old) (string_bytes text.old) lines (row_text key.now attrs.now ∷ rest) →
        IsReportedUntil stop before (K.held report.new) lines) }
    ensures failed { IsErrOf result Stop.Report → Rose (K.faults report.old) (K.faults report.new) }
    ensures no_read { IsErrOf result Stop.Read → ⊥ }
    ensures faults { K.faults report.old ≤ K.faults report.new }
{
    match writer.write_row(text, key, attrs) {
        Ok(()) => {}
        Err(NoMemory) => return Err(Stop::NoMemory),
    }
    if text.len() < PIECE {
        return Ok(());
    }
    match write_all(report, text.as_bytes()) {
        Ok(()) => {}
        Err(Failed) => return Err(Stop::Report),
    }
    text.clear();
    Ok(())
}
