ghost use Rattle.std.specs.Prelude.{◌≡◌, IsOk, IfSome, option_map};
ghost use Rattle.sha2.specs.Sha256.{sha256};
ghost use Rattle.ndn_tlv.specs.Elements.{item};
ghost use Rattle.ndn_data.specs.Data.{data_of};
ghost use Rattle.repo_object.specs.Packets.{packet_name, packet_content};
ghost use Rattle.repo_object.specs.Bodies.{first_of_type, first_value, LiesAt};

use ndn_packet::outer_element;
use ndn_sign::digest as digest_of;
use ndn_tlv::{Element, Reader, types};
use std::marker::Model;

// Where a field's value lies in a packet's octets.
#[derive(Clone, Copy, Debug)]
struct Place {
    start: u16,
    end: u16,
}

// The octets of a shared packet, with their digest and the places of the packet's name and content.
#[derive(Debug, Drop)]
pub(crate) struct Body {
    octets: Vec<u8>,
    digest: [u8; 32],
    name: Place,
    content: Place,
}

// A body is seen as its octets.
impl Model for Body {
    ghost use Rattle.std.specs.Prelude.{◌≡◌, ℕ, List};
    ghost use Rattle.repo_object.specs.Bodies.{IsBody};

    ghost Value = { List ℕ };

    ghost view = { λ b. b.octets.items };

    ghost invariant = { IsBody };
}

impl Body {
    // The body of these octets. Their digest is computed here if `known` is `None`.
    pub(crate) fn new(octets: Vec<u8>, known: Option<&[u8; 32]>) -> Body
        requires data { IsOk (data_of octets.items) }
        requires digest { IfSome known (λ digest. digest.now ≡ sha256 octets.items) }
        ensures { result ≡ octets.items }
    {
        let digest = digest_known(&octets, known);
        let name = name_place(&octets);
        let content = content_place(&octets);
        Body {
            octets,
            digest,
            name,
            content,
        }
    }

    pub(crate) fn octets(&self) -> &[u8]
        ensures { result.now ≡ self.now }
    {
        &self.octets
    }

    pub(crate) fn digest(&self) -> [u8; 32]
        ensures { result ≡ sha256 self.now }
    {
        self.digest
    }

    pub(crate) fn name(&self) -> &[u8]
        ensures { result.now ≡ packet_name self.now }
    {
        &self.octets[usize::from(self.name.start)..usize::from(self.name.end)]
    }

    pub(crate) fn content(&self) -> &[u8]
        ensures { result.now ≡ packet_content self.now }
    {
        &self.octets[usize::from(self.content.start)..usize::from(self.content.end)]
    }
}

// The digest of `octets`, which is computed here if `known` is `None`.
fn digest_known(octets: &[u8], known: Option<&[u8; 32]>) -> [u8; 32]
    requires { IfSome known (λ digest. digest.now ≡ sha256 octets.now) }
    ensures { result ≡ sha256 octets.now }
{
    match known {
        Some(digest) => *digest,
        None => digest_of(octets),
    }
}

fn name_place(octets: &[u8]) -> Place
    requires { IsOk (data_of octets.now) }
    ensures { LiesAt octets.now result (packet_name octets.now) }
{
    place_of(octets, types::NAME)
}

fn content_place(octets: &[u8]) -> Place
    requires { IsOk (data_of octets.now) }
    ensures { LiesAt octets.now result (packet_content octets.now) }
{
    place_of(octets, types::CONTENT)
}

// The place of the value of a Data packet's first field of type `typ`, or an empty place if it has none.
fn place_of(octets: &[u8], typ: u32) -> Place
    requires { IsOk (data_of octets.now) }
    ensures { LiesAt octets.now result (first_value typ octets.now) }
{
    let packet = outer_element(octets, types::DATA).unwrap();
    let elements = Reader::new(packet.value, packet.value_start);
    match first_of_type(typ, elements) {
        Some(field) => Place {
            start: field.value_start as u16,
            end: field.end as u16,
        },
        None => Place { start: 0, end: 0 },
    }
}

// The first of `elements` that is of type `typ`, or `None`.
fn first_of_type<'p>(typ: u32, elements: Reader<'p>) -> Option<Element<'p>>
    ensures { option_map item result ≡ first_of_type typ elements.entry.items }
{
    let mut rest = elements;
    while let Ok(Some(element)) = rest.next() {
        if element.typ == typ {
            return Some(element);
        }
    }
    None
}
