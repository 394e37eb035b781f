//! A row in few bytes.
ghost use Rattle.std.specs.Prelude.{◌≡◌};

use crate::row::{Change, Row};
use std::marker::Model;
use ug_intern::AttrId;

/// A row in 16 bytes: its numbers, 0 where it has none, and which of them it has. Contracts see the row.
#[derive(Clone, Copy, Drop)]
pub struct Kept {
    is_formatted: bool,
    is_forced: bool,
    waits: bool,
    is_desired: bool,
    formatted: AttrId,
    desired: AttrId,
    place: u32,
}

const _: () = prove!(size_of::<Kept>() == 16);

impl Model for Kept {
    ghost use Rattle.std.specs.Prelude.{is_some, unwrap_or};
    ghost use Rattle.ug_adjout.specs.declared.row.Row.{Row as Told};
    ghost use Rattle.ug_adjout.specs.Kept.{where_told, change_where, IsKept, place_of, desired_in};
    ghost use Rattle.ug_adjout.specs.Kept.{flag_again, number_again, waits_again, place_again, desired_flag_again, desired_again};

    ghost Value = { Told };

    ghost view = { λ k. record { formatted = where_told k.is_formatted k.formatted; forced = k.is_forced; change = change_where k.waits k.place (where_told k.is_desired k.desired) } };

    ghost invariant = { λ k. IsKept k.is_formatted k.waits k.is_desired k.formatted k.desired k.place };

    ghost inverse = { λ row. record { is_formatted = is_some row.formatted; is_forced = row.forced; waits = is_some row.change; is_desired = is_some (desired_in row.change); formatted = unwrap_or row.formatted 0; desired = unwrap_or (desired_in row.change) 0; place = place_of row.change } };

    ghost inverse_ok = { λ k h i. record { is_formatted = flag_again k.is_formatted k.formatted i; is_forced = k.is_forced; waits = waits_again k.waits k.place (where_told k.is_desired k.desired) i; is_desired = desired_flag_again k.waits k.is_desired k.place k.desired h.idle i; formatted = number_again k.is_formatted k.formatted h.formatted_blank i; desired = desired_again k.waits k.is_desired k.place k.desired h.idle h.desired_blank i; place = place_again k.waits k.place (where_told k.is_desired k.desired) h.place_blank i } };
}

impl Kept {
    pub fn of(row: Row) -> Kept
        ensures { result ≡ row }
    {
        let (waits, place, desired) = match row.change {
            Some(change) => (true, change.place, change.desired),
            None => (false, 0, None),
        };
        Kept {
            is_formatted: row.formatted.is_some(),
            is_forced: row.forced,
            waits,
            is_desired: desired.is_some(),
            formatted: row.formatted.unwrap_or(0),
            desired: desired.unwrap_or(0),
            place,
        }
    }

    pub fn row(&self) -> Row
        ensures { result ≡ self.now }
    {
        let formatted = if self.is_formatted {
            Some(self.formatted)
        } else {
            None
        };
        let desired = if self.is_desired {
            Some(self.desired)
        } else {
            None
        };
        let change = if self.waits {
            Some(Change {
                place: self.place,
                desired,
            })
        } else {
            None
        };
        Row {
            formatted,
            forced: self.is_forced,
            change,
        }
    }
}
