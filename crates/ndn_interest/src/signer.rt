ghost use Rattle.std.specs.Prelude.{◌≡◌, Ok, Err, MatchResult};
ghost use Rattle.ndn_interest.specs.Interest.{interest_seen};
ghost use Rattle.ndn_interest.specs.Signer.{located_key, signer_of};

use crate::interest_view::InterestView;
use crate::signature_error::SignatureError;
use ndn_packet::SIGNATURE_HMAC_WITH_SHA256;
use ndn_sign::KeyRing;

/// The number of the key in the ring under which an Interest is signed (NDN Packet Format 0.3, "Signed Interest"; RFC
/// 2104). It allocates nothing.
pub fn signer_of(interest: &InterestView<'_>, ring: &KeyRing) -> Result<u32, SignatureError>
    ensures { MatchResult result
        (λ signer. signer_of ring.now (interest_seen interest.now) ≡ Ok signer)
        (λ refusal. signer_of ring.now (interest_seen interest.now) ≡ Err refusal) }
{
    let (first, second) = interest.signed_portion().ok_or(SignatureError::Unsigned)?;
    if !interest.params_digest_matches() {
        return Err(SignatureError::ParamsDigest);
    }
    let signer = key_of(interest, ring).ok_or(SignatureError::UnknownKey)?;
    let signature = interest.signature;
    if !signature.is_some_and(|mac| ring.check_mac(signer, first, second, mac)) {
        return Err(SignatureError::BadSignature);
    }
    Ok(signer)
}

// The number of the key that an Interest names, where it is signed by HMAC with SHA-256.
fn key_of(interest: &InterestView<'_>, ring: &KeyRing) -> Option<u32>
    ensures { result
        ≡ located_key ring.now (interest_seen interest.now).signature_type (interest_seen interest.now).locator }
{
    match (interest.signature_type, &interest.locator) {
        (Some(SIGNATURE_HMAC_WITH_SHA256), Some(name)) => ring.find(name.octets()),
        _ => None,
    }
}
