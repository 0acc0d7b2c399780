ghost use Rattle.std.specs.Prelude.{◌≡◌, IsOk, IfOk, IfSome};
ghost use Rattle.sha2.specs.Sha256.{sha256};
ghost use Rattle.ndn_data.specs.Data.{data_of};
ghost use Rattle.repo_object.specs.Packets.{IsPacket, packet_name, packet_content};

use crate::body::Body;
use ndn_data::DataView;
use ndn_sign::digest as digest_of;
use std::alloc::{AllocError, Global};
use std::marker::Model;
use std::sync::Arc;

// The octets of a packet alone, or a body that packets share, with its digest and the places of its name and content.
#[derive(Debug, Drop)]
enum Form {
    Own(Vec<u8>),
    Shared(Arc<Body>),
}

/// A Data packet. If [`Packet::new`] made it, packets that share it have its octets in memory once, and its digest and
/// the places of its name and its content are found once, when it is made.
#[derive(Debug)]
pub struct Packet {
    form: Form,
}

// A packet is dropped by one call, and not variant by variant of its form.
impl Drop for Packet {
    fn drop(self) {
        let Packet { form: _ } = self;
    }
}

// A packet is seen as its octets.
impl Model for Packet {
    ghost use Rattle.std.specs.Prelude.{ℕ, List, IsOk};
    ghost use Rattle.ndn_data.specs.Data.{data_of};
    ghost use Rattle.repo_object.specs.Forms.{octets_in};

    ghost Value = { List ℕ };

    ghost view = { λ p. octets_in p.form };

    ghost invariant = { λ p. IsOk (data_of (octets_in p.form)) };
}

impl Packet {
    /// A packet that can be shared. Its digest is computed here if `known` is `None`.
    pub fn new(
        alloc: Global,
        octets: Vec<u8>,
        known: Option<&[u8; 32]>,
    ) -> Result<Packet, AllocError>
        requires data { IsOk (data_of octets.items) }
        requires digest { IfSome known (λ digest. digest.now ≡ sha256 octets.items) }
        ensures { IfOk result (λ packet. packet ≡ octets.items) }
    {
        let body = Arc::new(alloc, Body::new(octets, known))?;
        Ok(Packet {
            form: Form::Shared(body),
        })
    }

    /// A packet that is not shared. [`Packet::share`] copies it, and its digest, its name and its content are found
    /// anew at each call for them. Making it allocates nothing.
    pub fn alone(octets: Vec<u8>) -> Packet
        requires { IsOk (data_of octets.items) }
        ensures { result ≡ octets.items }
    {
        Packet {
            form: Form::Own(octets),
        }
    }

    /// The same packet once more. Its octets are copied only if it is not a shared one.
    pub fn share(&self, alloc: Global) -> Result<Packet, AllocError>
        ensures { IfOk result (λ packet. packet ≡ self.now) }
    {
        match &self.form {
            Form::Own(octets) => Packet::new(alloc, octets.as_slice().to_vec(alloc)?, None),
            Form::Shared(body) => {
                let body = Arc::try_clone(body)?;
                Ok(Packet {
                    form: Form::Shared(body),
                })
            }
        }
    }

    pub fn octets(&self) -> &[u8]
        ensures same { result.now ≡ self.now }
        ensures packet { IsPacket self.now }
    {
        let octets = self.slice();
        is_packet(octets);
        octets
    }

    fn slice(&self) -> &[u8]
        ensures same { result.now ≡ self.now }
        ensures data { IsOk (data_of result.now) }
    {
        match &self.form {
            Form::Own(octets) => octets,
            Form::Shared(body) => body.octets(),
        }
    }

    /// SHA-256 (FIPS 180-4) of the octets.
    pub fn digest(&self) -> [u8; 32]
        ensures { result ≡ sha256 self.now }
    {
        match &self.form {
            Form::Own(octets) => digest_of(octets),
            Form::Shared(body) => body.digest(),
        }
    }

    /// The value of the packet's name.
    pub fn name(&self) -> &[u8]
        ensures { result.now ≡ packet_name self.now }
    {
        match &self.form {
            Form::Own(octets) => DataView::read(octets).unwrap().name.octets(),
            Form::Shared(body) => body.name(),
        }
    }

    /// The packet's content, which is empty where it has none.
    pub fn content(&self) -> &[u8]
        ensures { result.now ≡ packet_content self.now }
    {
        match &self.form {
            Form::Own(octets) => DataView::read(octets).unwrap().content,
            Form::Shared(body) => body.content(),
        }
    }
}

// Octets that read as Data are a packet's. Costs nothing, and is called for its clause.
fn is_packet(octets: &[u8])
    requires { IsOk (data_of octets.now) }
    ensures { IsPacket octets.now }
{
    let _ = octets;
}
