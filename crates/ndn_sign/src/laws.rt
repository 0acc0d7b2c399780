ghost use Rattle.std.specs.Prelude.{◌≡◌, ℕ, List, Some, slice_get};
ghost use Rattle.ndn_sign.specs.Ring.{IsRing, NamedKey, key_number};

/// The number of a pair's name is the pair's.
pub fn names_tell_pairs_apart()
    ensures { (ring : List NamedKey) (number : ℕ) (pair : NamedKey) → IsRing ring
        → slice_get ring number ≡ Some pair → key_number pair.name ring ≡ Some number }
{}
