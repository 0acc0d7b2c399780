ghost use Rattle.std.specs.Prelude.{◌≡◌, ◌≢◌, ◌^◌, ◌<◌, ℕ, List, Ok, Err, IfErr, length};
ghost use Rattle.std.specs.List.{All};
ghost use Rattle.std.specs.List.Sorted.{IsPermutation, IsStrictlySortedBy};
ghost use Rattle.std.specs.Map.{keys_of};
ghost use Rattle.ndn_name.specs.Names.{Component};
ghost use Rattle.ndn_name.specs.CanonicalOrder.{canonical_cmp};
ghost use Rattle.svs_vector.specs.declared.vector_fault.VectorFault.{VectorFault};
ghost use Rattle.svs_vector.specs.declared.vector_fault.VectorFault.TheVariants.{NoMemory};
ghost use Rattle.svs_vector.specs.Rosters.{IsRoster};
ghost use Rattle.svs_vector.specs.Format as format;
ghost use Rattle.svs_vector.specs.StateVector.{Entry, vector_of};
ghost use Rattle.svs_vector.specs.EntriesVector.{vector_of_entries, HaveSameEntries, IsVector, IsFault};
ghost use Rattle.svs_vector.specs.WrittenVector.{in_canonical_order, known_entries, written_vector};

use crate::entry::ENTRY_PLACES;
use crate::read::VECTOR_PLACES;
use crate::roster::MEMBER_LIMIT;
use crate::types::{SEQ_NO, STATE_VECTOR, STATE_VECTOR_ENTRY};

/// The types of elements, the order tables and the limit of members are those of the format.
pub fn constants_are_the_formats()
    ensures state_vector { STATE_VECTOR ≡ format.StateVector }
    ensures entry { STATE_VECTOR_ENTRY ≡ format.StateVectorEntry }
    ensures number { SEQ_NO ≡ format.SeqNo }
    ensures vector_table { VECTOR_PLACES ≡ format.state_vector_table }
    ensures entry_table { ENTRY_PLACES ≡ format.entry_table }
    ensures members { MEMBER_LIMIT ≡ format.member_limit }
{}

/// What is read as a state vector is the vector of its entries: the greatest number of each member.
/// What is refused has this fault first, in reading order.
pub fn state_vectors_tell_their_entries()
    ensures vector { (roster : List (List Component)) (octets vector : List ℕ) → IsRoster roster
        → vector_of roster octets ≡ Ok vector → IsVector roster octets vector }
    ensures fault { (roster : List (List Component)) (octets : List ℕ) (fault : VectorFault)
        → vector_of roster octets ≡ Err fault → IsFault roster octets fault }
{}

/// The fault of octets follows from the octets, and is never out of memory.
pub fn vector_faults_are_of_the_octets()
    ensures { (roster : List (List Component)) (octets : List ℕ)
        → IfErr (vector_of roster octets) (λ fault. fault ≢ NoMemory) }
{}

/// The entries that are written are those of the members of whom something is known, and their
/// names rise in canonical order.
pub fn entries_are_written_in_canonical_order()
    ensures rises { (entries : List Entry)
        → IsStrictlySortedBy canonical_cmp (keys_of (in_canonical_order entries)) }
    ensures same { (roster : List (List Component)) (vector : List ℕ) → IsRoster roster
        → IsPermutation (known_entries roster vector)
        (in_canonical_order (known_entries roster vector)) }
{}

/// In which order entries stand, and how often each does, doesn't matter.
pub fn entries_tell_the_same_in_any_order()
    ensures { (roster : List (List Component)) (a b : List Entry) → HaveSameEntries a b
        → vector_of_entries roster a ≡ vector_of_entries roster b }
{}

/// The state vector that was written is read back, with the numbers that were given.
pub fn written_vectors_are_read_back()
    ensures { (roster : List (List Component)) (vector : List ℕ) → IsRoster roster
        → length vector ≡ length roster → All (λ n. n < 2 ^ 16) vector
        → vector_of roster (written_vector roster vector) ≡ Ok vector }
{}
