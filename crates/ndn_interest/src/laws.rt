ghost use Rattle.std.specs.Prelude.{◌≡◌, ◌&&◌, ◌<◌, ◌≤◌, ◌↔◌, ◌++◌, ℕ, Bool, List, Ok, Some, IsTrue, length, is_some};
ghost use Rattle.std.specs.Prelude.{slice_get};
ghost use Rattle.ndn_tlv.specs.Elements.{IsOctets};
ghost use Rattle.ndn_name.specs.Names.{Component, IsName, encoding};
ghost use Rattle.ndn_sign.specs.Hmac.{hmac};
ghost use Rattle.ndn_sign.specs.Ring.{NamedKey, key_number, pair};
ghost use Rattle.ndn_packet.specs.Outer.{packet_limit};
ghost use Rattle.ndn_interest.specs.Interest.{Interest, interest_of, IsDigested, InterestIsSpelled};
ghost use Rattle.ndn_interest.specs.Signer.{has_its_digest, is_signed, signer_of};
ghost use Rattle.ndn_interest.specs.WrittenInterest.{written_plain, written_interest, read_plain, read_signed};

/// An Interest is the spelling of its element. In that stands what its parameters digest is of, and
/// what is signed: the name without the digest, and the octets from the beginning of the parameters
/// to the signature.
pub fn interest_is_spelled()
    ensures { (octets : List ℕ) (i : Interest) → IsOctets octets → interest_of octets ≡ Ok i
        → InterestIsSpelled octets i }
{}

/// An Interest has a signed portion exactly where it has parameters, says how it is signed, and has
/// a signature.
pub fn signed_interests_are_complete()
    ensures { (octets : List ℕ) (i : Interest) → IsOctets octets → interest_of octets ≡ Ok i
        → is_some i.signed
        ≡ (is_some i.parameters && is_some i.signature_type && is_some i.signature) }
{}

/// A plain Interest that was written is read back: the fields that were given, and no other.
pub fn written_plain_is_read()
    ensures { (name : List Component) (can_be_prefix : Bool) → IsName name → 0 < length name
        → length (written_plain name can_be_prefix) ≤ packet_limit
        → interest_of (written_plain name can_be_prefix) ≡ Ok (read_plain name can_be_prefix) }
{}

/// A signed Interest that was written is read back: the fields that were given, a name that ends in
/// the parameters digest, and a signature that is the mac of the signed portion under the key.
pub fn written_interest_is_read()
    ensures { (name key_name : List Component) (parameters key : List ℕ)
        → IsName name → IsName key_name
        → length (written_interest name parameters key_name key) ≤ packet_limit
        → interest_of (written_interest name parameters key_name key)
        ≡ Ok (read_signed name parameters key_name key) }
{}

/// The last component of the name of a signed Interest that was written is its parameters digest.
pub fn written_interest_has_its_digest()
    ensures { (name key_name : List Component) (parameters key : List ℕ)
        → IsDigested (read_signed name parameters key_name key) }
{}

/// What the tests of digest and signature say: the signature is the mac, under the key of that
/// number, of what is signed. Whoever signed an Interest is of the ring.
pub fn signers_are_tested()
    ensures digest { (i : Interest) → IsTrue (has_its_digest i) ↔ IsDigested i }
    ensures signature { (ring : List NamedKey) (signer : ℕ) (signed : List ℕ × List ℕ) (i : Interest)
        → IsTrue (is_signed ring signer signed i)
        ↔ ((pair : NamedKey) × (slice_get ring signer ≡ Some pair)
        × (i.signature ≡ Some (hmac pair.key (signed.0 ++ signed.1)))) }
    ensures number { (ring : List NamedKey) (i : Interest) (signer : ℕ)
        → signer_of ring i ≡ Ok signer → signer < length ring }
{}

/// The signer of a signed Interest that was written is the number of its key in the ring.
pub fn written_interest_has_its_signer()
    ensures { (name key_name : List Component) (parameters key : List ℕ) (ring : List NamedKey) (signer : ℕ)
        → key_number (encoding key_name) ring ≡ Some signer
        → slice_get ring signer ≡ Some (pair (encoding key_name) key)
        → signer_of ring (read_signed name parameters key_name key) ≡ Ok signer }
{}
