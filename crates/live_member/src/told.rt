ghost use Rattle.std.specs.Prelude.{◌≡◌, IfOk};
ghost use Rattle.live_member.specs.Reports.{IsReport};

use crate::lists::Lists;
use crate::octets::Octets;
use std::alloc::{AllocError, Global};
use std::marker::{Model, PhantomData};

/// A sync Interest of a member, which reports no publication that isn't in the lists.
#[derive(Drop)]
pub struct Told<L: Lists> {
    octets: Vec<u8>,
    of: PhantomData<L>,
}

// A `Told` is seen as its octets.
impl<L: Lists> Model for Told<L> {
    ghost use Rattle.std.specs.Prelude.{ℕ, List};
    ghost use Rattle.live_member.specs.Reports.{IsReport};

    ghost Value = { List ℕ };

    ghost view = { λ t. t.octets.items };

    ghost invariant = { λ t. IsReport L.meaning t.octets.items };
}

impl<L: Lists> Told<L> {
    pub(crate) fn new(octets: Vec<u8>) -> Told<L>
        requires { IsReport L.meaning octets.items }
        ensures { result ≡ octets.items }
    {
        Told {
            octets,
            of: PhantomData,
        }
    }

    pub fn octets(&self) -> &[u8]
        ensures same { result.now ≡ self.now }
        ensures told { IsReport L.meaning self.now }
    {
        self.octets.as_slice()
    }

    /// A `Told` with a copy of the octets.
    pub fn copy(&self, alloc: Global) -> Result<Told<L>, AllocError>
        ensures { IfOk result (λ told. told ≡ self.now) }
    {
        Ok(Told {
            octets: self.octets.as_slice().to_vec(alloc)?,
            of: PhantomData,
        })
    }

    // A copy of the octets alone.
    pub(crate) fn copied(&self, alloc: Global) -> Result<Octets, AllocError>
        ensures { IfOk result (λ octets. octets ≡ self.now) }
    {
        Ok(Octets::new(self.octets.as_slice().to_vec(alloc)?))
    }
}
