//! Owned names are compared in canonical order.
ghost use Rattle.std.specs.Prelude.{◌≡◌, Some, refl};
ghost use Rattle.std.specs.Ordering.{eq_by_cmp};
ghost use Rattle.std.specs.Cmp.{eq_by_cmp_equiv, partial_equiv_from_equiv, partial_order_from_total};
ghost use Rattle.ndn_name.specs.CanonicalOrder.{canonical_cmp, canonical_cmp_total};

use crate::name::Name;
use std::cmp::Ordering;

impl PartialEq for Name {
    ghost eq = { eq_by_cmp canonical_cmp };

    ghost laws = { partial_equiv_from_equiv (eq_by_cmp_equiv canonical_cmp_total) };

    fn eq(&self, other: &Name) -> bool {
        self.octets() == other.octets()
    }
}

impl Eq for Name {
    ghost laws = { eq_by_cmp_equiv canonical_cmp_total };
}

impl PartialOrd for Name {
    ghost partial_cmp = { λ a b. Some (canonical_cmp a b) };

    ghost laws = { partial_order_from_total canonical_cmp_total };

    fn partial_cmp(&self, other: &Name) -> Option<Ordering> {
        Some(self.cmp(other))
    }
}

impl Ord for Name {
    ghost cmp = { canonical_cmp };

    ghost total = { canonical_cmp_total };

    ghost matches_partial_cmp = { λ a b. refl };

    ghost matches_eq = { λ a b. refl };

    fn cmp(&self, other: &Name) -> Ordering {
        self.view().compare(&other.view())
    }
}
