ghost use Rattle.std.specs.Prelude.{◌≡◌, ◌<◌, ◌↔◌, ◌++◌, ◌∷◌, [], ℕ, Some, length, slice_get, option_map, IfOk, OnOk};
ghost use Rattle.std.specs.Prelude.{OnErr, IsTrue};
ghost use Rattle.ndn_sign.specs.Hmac.{hmac};
ghost use Rattle.ndn_sign.specs.Ring.{IsRing, key_number, pair_limit};

use crate::prepared_key::PreparedKey;
use crate::ring_fault::RingFault;
use indexmap::IndexMap;
use std::alloc::{AllocError, Global};
use std::marker::Model;

/// The keys that packets may be signed with, under the names that key locators give them.
///
/// A name is kept as the octets of its value. Pairs are numbered from 0 as they are added.
#[derive(Drop)]
pub struct KeyRing {
    pairs: IndexMap<Vec<u8>, PreparedKey>,
}

// A ring is seen as the list of its pairs.
impl Model for KeyRing {
    ghost use Rattle.std.specs.Prelude.{List, map};
    ghost use Rattle.ndn_sign.specs.Ring.{IsRing, NamedKey, pair};

    ghost Value = { List NamedKey };

    ghost view = { λ ring. map (λ entry. pair entry.0.items entry.1) ring.pairs.entries };

    ghost invariant = { λ ring. IsRing (map (λ entry. pair entry.0.items entry.1) ring.pairs.entries) };
}

impl KeyRing {
    /// A ring without keys.
    pub fn new(alloc: Global) -> KeyRing
        ensures { result ≡ [] }
    {
        KeyRing {
            pairs: IndexMap::new(alloc),
        }
    }

    /// Adds a key under a name that the ring does not have, and gives the pair's number.
    pub fn add(&mut self, name: &[u8], key: &[u8]) -> Result<u32, RingFault>
        requires room { length self.old < pair_limit }
        ensures number { IfOk result (λ number. number ≡ length self.old) }
        ensures ok { OnOk result (self.new ≡ self.old ++ record { name = name.now; key = key.now } ∷ []) }
        ensures duplicate { (number : ℕ)
            → (result ≡ Err (RingFault.Duplicate number)) ↔ (key_number name.now self.old ≡ Some number) }
        ensures err { OnErr result (self.new ≡ self.old) }
        ensures ring { IsRing self.new }
    {
        if let Some(number) = self.find(name) {
            return Err(RingFault::Duplicate { number });
        }
        let number = self.pairs.len() as u32;
        self.insert(name, key)?;
        Ok(number)
    }

    // Adds a pair whose name is not there.
    fn insert(&mut self, name: &[u8], key: &[u8]) -> Result<(), AllocError>
        requires new_name { key_number name.now self.old ≡ None }
        requires room { length self.old < pair_limit }
        ensures ok { OnOk result (self.new ≡ self.old ++ record { name = name.now; key = key.now } ∷ []) }
        ensures err { OnErr result (self.new ≡ self.old) }
        ensures ring { IsRing self.new }
    {
        let alloc = *self.pairs.allocator();
        let name = name.to_vec(alloc)?;
        let key = PreparedKey::new(alloc, key)?;
        self.pairs.insert(name, key)?;
        Ok(())
    }

    /// The number of the key of this name.
    pub fn find(&self, name: &[u8]) -> Option<u32>
        ensures number { result ≡ key_number name.now self.now }
        ensures ring { IsRing self.now }
    {
        let number = self.pairs.get_index_of(name)?;
        Some(number as u32)
    }

    /// The octets of the key's name.
    pub fn name(&self, number: u32) -> &[u8]
        requires { number < length self.now }
        ensures { option_map (λ pair. pair.name) (slice_get self.now number) ≡ Some result.now }
    {
        let (name, _) = self.pairs.get_index(number as usize).unwrap();
        name
    }

    /// The key.
    pub fn key(&self, number: u32) -> &[u8]
        requires { number < length self.now }
        ensures { option_map (λ pair. pair.key) (slice_get self.now number) ≡ Some result.now }
    {
        self.prepared(number).key()
    }

    // The key, ready for macs.
    fn prepared(&self, number: u32) -> &PreparedKey
        requires { number < length self.now }
        ensures { option_map (λ pair. pair.key) (slice_get self.now number) ≡ Some result.now }
    {
        let (_, key) = self.pairs.get_index(number as usize).unwrap();
        key
    }

    /// How many pairs there are.
    pub fn len(&self) -> usize
        ensures len { result ≡ length self.now }
        ensures ring { IsRing self.now }
    {
        self.pairs.len()
    }

    /// Whether these octets are the mac of `first` and then `second`, taken as one message, under
    /// the key of that number: all of its 32 octets.
    pub fn check_mac(&self, number: u32, first: &[u8], second: &[u8], mac: &[u8]) -> bool
        requires { number < length self.now }
        ensures { IsTrue result
            ↔ (option_map (λ pair. hmac pair.key (first.now ++ second.now)) (slice_get self.now number)
            ≡ Some mac.now) }
    {
        self.prepared(number).mac(first, second).as_slice() == mac
    }
}
