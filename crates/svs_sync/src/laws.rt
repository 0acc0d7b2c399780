ghost use Rattle.std.specs.Prelude.{◌≡◌, ◌^◌, ◌<◌, ◌↔◌, ◌++◌, ◌∷◌, [], ℕ, List, Ok, Some, length, slice_get, IsTrue};
ghost use Rattle.std.specs.List.{All};
ghost use Rattle.ndn_name.specs.Names.{Component, IsName, encoding};
ghost use Rattle.ndn_sign.specs.Ring.{NamedKey, key_number, pair};
ghost use Rattle.svs_vector.specs.Rosters.{IsRoster};
ghost use Rattle.svs_sync.specs.Suppression.{SyncEvent, SyncMember, after_sync_events, fires, mode_of};
ghost use Rattle.ndn_tlv.specs.Types as types;
ghost use Rattle.svs_sync.specs.SyncInterest.{sync_interest, sync_verdict, is_sync_name, IsNodeName, IsKeyName};
ghost use Rattle.svs_sync.specs.declared.sync_refusal.SyncRefusal.TheVariants.{NoMemory, Vector};
ghost use Rattle.svs_vector.specs.declared.vector_fault.VectorFault.TheVariants as vector;
ghost use Rattle.std.specs.Prelude.{◌≢◌, IfErr};
ghost use Rattle.svs_sync.specs.SyncStates.{kept, state_after_events, when_fired};

/// After any list of events, the sync state is what the table says over the list of vectors heard since the member was
/// last Steady, with their join in place of the list.
pub fn what_is_kept_is_the_join()
    ensures after { (members : ℕ) (events : List SyncEvent) (m : SyncMember)
        → state_after_events events (kept members m) ≡ kept members (after_sync_events events m) }
    ensures fires { (members now : ℕ) (known : List ℕ) (m : SyncMember)
        → when_fired now known (kept members m) ≡ fires now known m }
    ensures mode { (members : ℕ) (m : SyncMember) → mode_of (kept members m).heard ≡ mode_of m.heard }
{}

/// The sync Interest that was made is checked: it has the vector that was given, and its signer
/// is the number of the key in the ring.
pub fn made_sync_interests_are_checked()
    ensures { (group key_name : List Component) (roster : List (List Component))
        (vector key : List ℕ) (ring : List NamedKey) (signer : ℕ)
        → IsName group → IsNodeName group → IsRoster roster → All IsNodeName roster
        → length vector ≡ length roster → All (λ n. n < 2 ^ 16) vector
        → IsName key_name → IsKeyName key_name
        → key_number (encoding key_name) ring ≡ Some signer
        → slice_get ring signer ≡ Some (pair (encoding key_name) key)
        → sync_verdict group roster ring (sync_interest group vector roster key_name key)
        ≡ Ok (signer, vector) }
{}

/// What the test of a sync Interest's name says: it is the group's, version 2 and one parameters
/// digest.
pub fn sync_interests_are_tested()
    ensures { (group name : List Component) → IsName group → IsName name
        → IsTrue (is_sync_name group name)
        ↔ ((digest : List ℕ)
        × (name
        ≡ group ++ (types.VersionNameComponent, 2 ∷ []) ∷ (types.ParametersSha256DigestComponent, digest) ∷ [])) }
{}

/// The vector of a sync Interest has a number for each member.
pub fn received_vectors_have_all_members()
    ensures { (group : List Component) (roster : List (List Component)) (ring : List NamedKey)
        (octets : List ℕ) (received : ℕ × List ℕ)
        → sync_verdict group roster ring octets ≡ Ok received → length received.1 ≡ length roster }
{}

/// The refusal of octets follows from the octets, and is never out of memory, nor is the fault of their vector.
pub fn sync_refusals_are_of_the_octets()
    ensures { (group : List Component) (roster : List (List Component)) (ring : List NamedKey)
        (octets : List ℕ) → IfErr (sync_verdict group roster ring octets)
        (λ refusal. (refusal ≢ NoMemory) × (refusal ≢ Vector vector.NoMemory)) }
{}
