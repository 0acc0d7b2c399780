ghost use Rattle.std.specs.Prelude.{◌≡◌, ◌++◌, IfOk};
ghost use Rattle.ndn_sign.specs.Hmac.{hmac};

use crate::hashing::{begin, finish};
use sha2::Sha256;
use std::alloc::{AllocError, Global};
use std::marker::Model;

// A key that is ready for macs: a message of few octets then costs two compressions of SHA-256, and
// not four.
#[derive(Drop)]
pub(crate) struct PreparedKey {
    key: Vec<u8>,
    // SHA-256 that has taken in the key under the inner pad, and under the outer one.
    inner: Sha256,
    outer: Sha256,
}

// A prepared key is seen as the key.
impl Model for PreparedKey {
    ghost use Rattle.std.specs.Prelude.{ℕ, List};
    ghost use Rattle.ndn_sign.specs.Hmac.{inner_pad, outer_pad};
    ghost use Rattle.ndn_sign.specs.Prepared.{IsBegun};

    ghost Value = { List ℕ };

    ghost view = { λ k. k.key.items };

    ghost invariant = { λ k. IsBegun inner_pad k.key.items k.inner × IsBegun outer_pad k.key.items k.outer };
}

impl PreparedKey {
    pub(crate) fn new(alloc: Global, key: &[u8]) -> Result<PreparedKey, AllocError>
        ensures { IfOk result (λ prepared. prepared ≡ key.now) }
    {
        let (inner, outer) = begin(key);
        Ok(PreparedKey {
            key: key.to_vec(alloc)?,
            inner,
            outer,
        })
    }

    pub(crate) fn key(&self) -> &[u8]
        ensures { result.now ≡ self.now }
    {
        &self.key
    }

    // The mac of `first` and then `second`, taken as one message.
    pub(crate) fn mac(&self, first: &[u8], second: &[u8]) -> [u8; 32]
        ensures { result ≡ hmac self.now (first.now ++ second.now) }
    {
        let inner = self.inner.clone().unwrap();
        let outer = self.outer.clone().unwrap();
        finish(inner, outer, first, second)
    }
}
