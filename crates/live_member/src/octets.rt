ghost use Rattle.std.specs.Prelude.{◌≡◌};

use std::marker::Model;

/// The octets of a packet. They are moved in and out without taking memory.
#[derive(Debug, Drop)]
pub struct Octets {
    octets: Vec<u8>,
}

// Octets are seen as a list.
impl Model for Octets {
    ghost use Rattle.std.specs.Prelude.{ℕ, List};

    ghost Value = { List ℕ };

    ghost view = { λ o. o.octets.items };
}

impl Octets {
    pub fn new(octets: Vec<u8>) -> Octets
        ensures { result ≡ octets.items }
    {
        Octets { octets }
    }

    pub fn as_slice(&self) -> &[u8]
        ensures { result.now ≡ self.now }
    {
        self.octets.as_slice()
    }

    pub fn into_vec(self) -> Vec<u8>
        ensures { result.items ≡ self }
    {
        let Octets { octets } = self;
        octets
    }
}
