ghost use Rattle.std.specs.Prelude.{◌≡◌, ◌↔◌, ℕ, List, ◌∷◌, max, map, slice_index, IsTrue};
ghost use Rattle.std.specs.List.{fold};
ghost use Rattle.svs_vector.specs.Vectors.{join, Covers, covers, join_all, HaveSameVectors};

/// A join has the greater number of each member, and a join of all the greatest.
pub fn join_takes_the_greater()
    ensures two { (v w : List ℕ) (p : ℕ) → slice_index (join v w) p ≡ max (slice_index v p) (slice_index w p) }
    ensures all { (vs : List (List ℕ)) (p : ℕ)
        → slice_index (join_all vs) p ≡ fold max 0 (map (λ v. slice_index v p) vs) }
{}

/// Which of two vectors is heard first doesn't matter.
pub fn join_is_commutative()
    ensures { (v w : List ℕ) → join v w ≡ join w v }
{}

/// How joins are grouped doesn't matter.
pub fn join_is_associative()
    ensures { (u v w : List ℕ) → join (join u v) w ≡ join u (join v w) }
{}

/// A vector that is heard again changes nothing.
pub fn join_is_idempotent()
    ensures itself { (v : List ℕ) → join v v ≡ v }
    ensures again { (v w : List ℕ) → join (join v w) w ≡ join v w }
{}

/// The test for covering is yes exactly where a join would change nothing.
pub fn covers_is_nothing_gained()
    ensures { (v w : List ℕ) → IsTrue (covers v w) ↔ Covers v w }
{}

/// A join covers both its vectors, and whatever covers both covers it.
pub fn join_is_the_least_that_covers_both()
    ensures first { (v w : List ℕ) → Covers (join v w) v }
    ensures second { (v w : List ℕ) → Covers (join v w) w }
    ensures least { (u v w : List ℕ) → Covers u v → Covers u w → Covers u (join v w) }
{}

/// After joins with the vectors of a list, one after another, a vector is the join of all: the first value and the
/// list.
pub fn joins_are_the_join_of_all()
    ensures { (v : List ℕ) (ws : List (List ℕ)) → fold join v ws ≡ join_all (v ∷ ws) }
{}

/// The order in which vectors are heard, and how often each is, doesn't matter.
pub fn joins_in_any_order_give_the_same()
    ensures { (v : List ℕ) (us ws : List (List ℕ)) → HaveSameVectors us ws → fold join v us ≡ fold join v ws }
{}
