ghost use Rattle.std.specs.Prelude.{◌≡◌};
ghost use Rattle.ug_adjout.specs.Stored.{desired_of};
ghost use Rattle.ug_adjout.specs.Stepped.{known};

use ug_intern::AttrId;

/// That a packet is owed for a key: its place in the list, and the value that it shall have, or that it is to be withdrawn.
#[derive(Clone, Copy, Drop)]
pub struct Change {
    pub place: u32,
    pub desired: Option<AttrId>,
}

/// What there is to know of a key.
#[derive(Clone, Copy, Drop)]
pub struct Row {
    pub formatted: Option<AttrId>,
    pub forced: bool,
    pub change: Option<Change>,
}

impl Row {
    /// What the key is desired with.
    pub fn desired(&self) -> Option<AttrId>
        ensures { result ≡ desired_of self.now }
    {
        match self.change {
            Some(change) => change.desired,
            None => self.formatted,
        }
    }
}

/// The row, or else one that says nothing of its key.
pub fn known(row: Option<Row>) -> Row
    ensures { result ≡ known row }
{
    match row {
        Some(row) => row,
        None => Row {
            formatted: None,
            forced: false,
            change: None,
        },
    }
}
