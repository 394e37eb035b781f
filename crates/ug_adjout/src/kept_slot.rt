//! A slot that is compared in few steps.
ghost use Rattle.std.specs.Prelude.{◌≡◌, Some, refl};
ghost use Rattle.std.specs.Ordering.{eq_by_cmp};
ghost use Rattle.std.specs.Cmp as laws;
ghost use Rattle.ug_adjout.specs.Places.{slot_cmp, slot_total};

use crate::slot::Slot;
use std::cmp::Ordering;
use std::marker::Model;
use ug_intern::AttrId;

/// A slot as two numbers that order as it does: its value plus 1, or 0 where it has none, and its place. Contracts see
/// the slot.
#[derive(Clone, Copy, Drop)]
pub struct KeptSlot {
    value: u64,
    place: u32,
}

impl Model for KeptSlot {
    ghost use Rattle.std.specs.Prelude.{◌≤◌, ◌^◌};
    ghost use Rattle.ug_adjout.specs.declared.slot.Slot.{Slot as Told};
    ghost use Rattle.ug_adjout.specs.KeptSlots.{value_told, number_of, number_again};

    ghost Value = { Told };

    ghost view = { λ s. record { value = value_told s.value; place = s.place } };

    ghost invariant = { λ s. s.value ≤ 2 ^ 32 };

    ghost inverse = { λ s. record { value = number_of s.value; place = s.place } };

    ghost inverse_ok = { λ s h i. record { value = number_again s.value i; place = s.place } };
}

impl KeptSlot {
    pub fn of(slot: Slot) -> KeptSlot
        ensures { result ≡ slot }
    {
        let value = match slot.value {
            Some(value) => u64::from(value) + 1,
            None => 0,
        };
        KeptSlot {
            value,
            place: slot.place,
        }
    }

    pub fn value(&self) -> Option<AttrId>
        ensures { result ≡ self.now.value }
    {
        match self.value {
            0 => None,
            value => Some((value - 1) as u32),
        }
    }

    pub fn place(&self) -> u32
        ensures { result ≡ self.now.place }
    {
        self.place
    }
}

impl PartialEq for KeptSlot {
    ghost eq = { eq_by_cmp slot_cmp };

    ghost laws = { laws.partial_equiv_from_equiv (laws.eq_by_cmp_equiv slot_total) };

    fn eq(&self, other: &Self) -> bool {
        self.cmp(other).is_eq()
    }
}

impl Eq for KeptSlot {
    ghost laws = { laws.eq_by_cmp_equiv slot_total };
}

impl PartialOrd for KeptSlot {
    ghost partial_cmp = { λ a b. Some (slot_cmp a b) };

    ghost laws = { laws.po slot_total (λ a b. refl) };

    fn partial_cmp(&self, other: &Self) -> Option<Ordering> {
        Some(self.cmp(other))
    }
}

impl Ord for KeptSlot {
    ghost cmp = { slot_cmp };

    ghost total = { slot_total };

    ghost matches_partial_cmp = { λ a b. refl };

    ghost matches_eq = { λ a b. refl };

    #[tactic(auto, using(crate::specs::KeptSlots::told_order))]
    fn cmp(&self, other: &Self) -> Ordering {
        match self.value.cmp(&other.value) {
            Ordering::Equal => self.place.cmp(&other.place),
            order => order,
        }
    }
}
