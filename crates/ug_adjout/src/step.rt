//! What is done with a key.
ghost use Rattle.std.specs.Prelude.{◌≡◌};
ghost use Rattle.ug_adjout.specs.Stored.{is_owed, with_change, quiet};
ghost use Rattle.ug_adjout.specs.Stepped.{makes_row, wanted_by, formatted_by, stepped};

use crate::row::{Change, Row};
use ug_intern::AttrId;

/// The key is desired so from now on, and waits at that place where it waits for nothing yet; or it is formatted as it is
/// desired.
#[derive(Clone, Copy, Drop)]
pub enum Step {
    Want(Change),
    Format,
}

impl Step {
    /// Whether a key without a row gets one.
    pub fn makes_row(self) -> bool
        ensures { result ≡ makes_row self }
    {
        match self {
            Step::Want(want) => want.desired.is_some(),
            Step::Format => false,
        }
    }

    /// What becomes of the row; None where the key has none any more.
    pub fn row(self, row: Row) -> Option<Row>
        ensures { result ≡ stepped self row }
    {
        match self {
            Step::Want(want) => wanted(row, want),
            Step::Format => formatted(row),
        }
    }
}

/// Whether a packet is owed for a key that is to be desired so.
pub fn owes(row: Row, desired: Option<AttrId>) -> bool
    ensures { result ≡ is_owed row.formatted desired row.forced }
{
    row.formatted != desired || (row.forced && desired.is_some())
}

/// The row of a key that is desired anew.
fn wanted(row: Row, want: Change) -> Option<Row>
    ensures { result ≡ wanted_by row want row.change }
{
    let Some(change) = row.change else {
        if row.formatted == want.desired {
            return quiet(row.formatted);
        }
        return Some(waiting(row, want.place, want.desired));
    };
    if owes(row, want.desired) {
        return Some(waiting(row, change.place, want.desired));
    }
    quiet(row.formatted)
}

/// The row of a key that is formatted.
fn formatted(row: Row) -> Option<Row>
    ensures { result ≡ formatted_by row row.change }
{
    match row.change {
        Some(change) => quiet(change.desired),
        None => quiet(row.formatted),
    }
}

/// The row of a key that waits at the place for this value.
fn waiting(row: Row, place: u32, desired: Option<AttrId>) -> Row
    ensures { result ≡ with_change row place desired }
{
    Row {
        formatted: row.formatted,
        forced: row.forced,
        change: Some(Change { place, desired }),
    }
}

/// The row of a key that waits for nothing.
fn quiet(formatted: Option<AttrId>) -> Option<Row>
    ensures { result ≡ quiet formatted }
{
    match formatted {
        Some(_) => Some(Row {
            formatted,
            forced: false,
            change: None,
        }),
        None => None,
    }
}
