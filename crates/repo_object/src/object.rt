ghost use Rattle.std.specs.Prelude.{◌≡◌, ◌≤◌, length, map, nat_lt, IfOk, IsTrue};
ghost use Rattle.std.specs.List.{All, list_all};
ghost use Rattle.ndn_tlv.specs.Types as standard;
ghost use Rattle.ndn_name.specs.Names.{encoding};
ghost use Rattle.repo_object.specs.Limits.{object_name_limit, segment_limit};
ghost use Rattle.repo_object.specs.Objects.{is_object_name, IsContent, IsObject};

use ndn_name::{Name, NameView};
use ndn_tlv::{Reader, types};
use std::alloc::{AllocError, Global};
use std::marker::Model;

/// How many octets of value an object's name may have.
pub const OBJECT_NAME_LIMIT: usize = 400;

/// How many segments an object may have.
pub const SEGMENT_LIMIT: usize = 20_000;

/// How many segments a record or an index packet lists at most.
pub const MOST_LISTED: usize = 200;

/// How many octets the content of a segment may have.
pub const CONTENT_LIMIT: usize = 8_000;

/// A named object: the contents of its segments, in order.
///
/// Its name has 1 to 400 octets of value and no component that is a digest, and it has at most 20,000 contents of 1 to
/// 8,000 octets.
#[derive(Debug)]
pub struct Object {
    name: Name,
    contents: Vec<Vec<u8>>,
}

// An object is dropped by one call, which is proved once, and not field by field wherever one goes out of scope.
impl Drop for Object {
    fn drop(self) {
        let Object {
            name: _,
            contents: _,
        } = self;
    }
}

// An object is seen as its name and the list of its contents.
impl Model for Object {
    ghost use Rattle.std.specs.Prelude.{map};
    ghost use Rattle.repo_object.specs.Objects.{NamedContents, IsObject};

    ghost Value = { NamedContents };

    ghost view = { λ o. record { name = o.name; contents = map (λ c. c.items) o.contents.items } };

    ghost invariant = { λ o. IsObject (record {
      name = o.name;
      contents = map (λ c. c.items) o.contents.items;
    }) };
}

impl Object {
    /// The object of this name and these contents, which are copied.
    pub fn new(alloc: Global, name: &Name, contents: &[Vec<u8>]) -> Result<Object, AllocError>
        requires name { IsTrue (is_object_name name.now) }
        requires few { length contents.now ≤ segment_limit }
        requires contents { All (λ c. IsContent c.items) contents.now }
        ensures { IfOk result (λ object. object
            ≡ record { name = name.now; contents = map (λ c. c.items) contents.now }) }
    {
        let mut copies = Vec::with_capacity(alloc, contents.len())?;
        for content in contents {
            copies.push(content.to_vec(alloc)?)?;
        }
        Ok(Object::from_parts(name.clone()?, copies))
    }

    /// The object of this name and these contents, which are moved into it.
    pub fn from_parts(name: Name, contents: Vec<Vec<u8>>) -> Object
        requires name { IsTrue (is_object_name name) }
        requires few { length contents.items ≤ segment_limit }
        requires contents { All (λ c. IsContent c.items) contents.items }
        ensures { result ≡ record { name = name; contents = map (λ c. c.items) contents.items } }
    {
        name.cite_soundness();
        Object { name, contents }
    }

    /// The name and the contents, which are moved out of it.
    pub fn into_parts(self) -> (Name, Vec<Vec<u8>>)
        ensures name { result.0 ≡ self.name }
        ensures contents { map (λ c. c.items) result.1.items ≡ self.contents }
        ensures within { IsObject self }
    {
        let Object { name, contents } = self;
        (name, contents)
    }

    pub fn name(&self) -> &Name
        ensures same { result.now ≡ self.now.name }
        ensures within { IsObject self.now }
    {
        &self.name
    }

    /// The contents of the segments, in order.
    pub fn contents(&self) -> &[Vec<u8>]
        ensures same { map (λ c. c.items) result.now ≡ self.now.contents }
        ensures contents { All (λ c. IsContent c.items) result.now }
        ensures few { length result.now ≤ segment_limit }
        ensures within { IsObject self.now }
    {
        &self.contents
    }
}

/// Whether an object may have this name: 1 to 400 octets of value, and no component that is a digest
/// (types 1 and 2).
pub fn is_object_name(name: &NameView<'_>) -> bool
    ensures test { result ≡ is_object_name name.now }
    ensures short { IsTrue result → length (encoding name.now) ≤ object_name_limit }
{
    let octets = name.octets().len();
    0 < octets && octets <= OBJECT_NAME_LIMIT && has_no_digest(name)
}

// The greater of the two types of components that are digests. These two are the least types that there are.
const GREATEST_DIGEST: u32 = types::PARAMETERS_SHA256_DIGEST_COMPONENT as u32;

// Whether no component of the name is a digest.
fn has_no_digest(name: &NameView<'_>) -> bool
    ensures { result ≡ list_all (λ c. nat_lt standard.ParametersSha256DigestComponent c.0) name.now }
{
    let mut components = Reader::new(name.octets(), 0);
    while let Ok(Some(component)) = components.next() {
        if component.typ <= GREATEST_DIGEST {
            return false;
        }
    }
    true
}
