//! How attributes and names compare: by what they are, and not by the room that their lists have to spare.

ghost use Rattle.std.specs.Prelude.{Some, refl, nat_eq};
ghost use Rattle.std.specs.Ordering.{nat_cmp};
ghost use Rattle.std.specs.Cmp as laws;
ghost use Rattle.std.specs.Cmp.{on_equiv, on_per};
ghost use Rattle.std.specs.Cmp.Lexicographic.{pointwise, slice_cmp, nat_list_eq_equiv, nat_list_cmp_total, texts_ties, texts_po};
ghost use Rattle.std.specs.Hash.{on_Alike};
ghost use Rattle.ug_types.specs.contracts.attrs.AttrPartsPartialEq.TheImpl.Laws as equal;
ghost use Rattle.ug_types.specs.contracts.attrs.AttrPartsEq.TheImpl.Laws as equivalent;
ghost use Rattle.ug_types.specs.contracts.attrs.AttrPartsHash.TheImpl.Laws as hashed;
ghost use Rattle.ug_types.specs.Bare.{bare_parts};

use crate::attrs::{AttrParts, Attrs};
use crate::name::Name;
use std::cmp::Ordering;
use std::hash::{Hash, Hasher};

impl PartialEq for Attrs {
    ghost eq = { λ a b. ⟦<AttrParts as PartialEq>⟧.eq (bare_parts a) (bare_parts b) };

    ghost laws = { on_per bare_parts equal.lawful.laws };

    fn eq(&self, other: &Self) -> bool {
        self.parts() == other.parts()
    }
}

impl Eq for Attrs {
    ghost laws = { on_equiv bare_parts equivalent.lawful.laws };
}

impl Hash for Attrs {
    ghost hash_input = { λ a. ⟦<AttrParts as Hash>⟧.hash_input (bare_parts a) };

    ghost respects_eq = { (on_Alike bare_parts (record { fed = hashed.lawful.respects_eq })).fed };

    fn hash<H: Hasher>(&self, state: &mut H) {
        self.parts().hash(state);
    }
}

impl PartialEq for Name {
    ghost eq = { pointwise nat_eq };

    ghost laws = { laws.partial_equiv_from_equiv nat_list_eq_equiv };

    fn eq(&self, other: &Self) -> bool {
        self.text() == other.text()
    }
}

impl Eq for Name {
    ghost laws = { nat_list_eq_equiv };
}

impl PartialOrd for Name {
    ghost partial_cmp = { λ a b. Some (slice_cmp nat_cmp a b) };

    ghost laws = { texts_po };

    fn partial_cmp(&self, other: &Self) -> Option<Ordering> {
        Some(self.cmp(other))
    }
}

impl Ord for Name {
    ghost cmp = { slice_cmp nat_cmp };

    ghost total = { nat_list_cmp_total };

    ghost matches_partial_cmp = { λ a b. refl };

    ghost matches_eq = { texts_ties };

    fn cmp(&self, other: &Self) -> Ordering {
        self.text().cmp(other.text())
    }
}
