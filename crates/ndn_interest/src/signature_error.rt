use thiserror::Error;

/// Why an Interest is not taken as signed under a key of a ring, in the order of the tests.
#[derive(Clone, Copy, Debug, PartialEq, Eq, Error)]
pub enum SignatureError {
    #[error("the Interest is not signed")]
    Unsigned,
    #[error("the parameters digest is not that of the parameters")]
    ParamsDigest,
    /// The Interest is not signed by HMAC with SHA-256, or names no key of the ring.
    #[error("no key of the ring is named")]
    UnknownKey,
    #[error("the signature is not that of the key")]
    BadSignature,
}
