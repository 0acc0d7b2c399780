ghost use Rattle.std.specs.Prelude.{◌≡◌, ◌<◌, ◌≤◌, length};
ghost use Rattle.ndn_name.specs.Names.{encoding};
ghost use Rattle.repo_plan.specs.Parts.{IsShape, shape_of_segments};
ghost use Rattle.repo_object.specs.Limits.{node_name_limit};
ghost use Rattle.repo_object.specs.Formats.{IsListing};
ghost use Rattle.repo_object.specs.Wants.{listed_in, IsListedIndex, want_index, want_segment};

use crate::digests_view::DigestsView;
use crate::expected::Expected;
use crate::want::listed_in;
use ndn_name::{Name, NameView};
use repo_plan::{Part, Shape};
use std::marker::Model;

/// What the record of an object lists, in borrowed octets: the object's name, how many segments it has, and digests, of
/// the index packets if there are any, and else of the segments' packets.
#[derive(Debug, Drop)]
pub struct ListingView<'p> {
    name: NameView<'p>,
    segments: u16,
    digests: DigestsView<'p>,
}

impl<'p> Model for ListingView<'p> {
    ghost use Rattle.repo_object.specs.Publication.{Listed};
    ghost use Rattle.repo_object.specs.Formats.{IsListing};

    ghost Value = { Listed };

    ghost view = { λ l. record { name = l.name; segments = l.segments; digests = l.digests } };

    ghost invariant = { λ l. IsListing (record {
      name = l.name;
      segments = l.segments;
      digests = l.digests;
    }) };
}

impl<'p> ListingView<'p> {
    pub(crate) fn new(
        name: NameView<'p>,
        segments: u16,
        digests: DigestsView<'p>,
    ) -> ListingView<'p>
        requires { IsListing (record { name = name; segments = segments; digests = digests }) }
        ensures { result ≡ record { name = name.entry; segments = segments; digests = digests.entry } }
    {
        ListingView {
            name,
            segments,
            digests,
        }
    }

    /// The name of the object.
    pub fn name(&self) -> &NameView<'p>
        ensures same { result.now ≡ self.now.name }
        ensures within { IsListing self.now }
    {
        &self.name
    }

    /// How many segments the object has, and how many index packets list them.
    pub fn shape(&self) -> Shape
        ensures same { result ≡ shape_of_segments self.now.segments }
        ensures sized { IsShape result }
        ensures within { IsListing self.now }
    {
        Shape::of(self.segments)
    }

    /// The digests: of the index packets if there are any, and else of the segments' packets.
    pub fn digests(&self) -> &DigestsView<'p>
        ensures same { result.now ≡ self.now.digests }
        ensures within { IsListing self.now }
    {
        &self.digests
    }

    /// How many digests index packet `k`, counted from 0, lists: those of the 200 segments from place `200 k` on, or of
    /// fewer where the object ends before.
    pub fn listed_in(&self, k: u16) -> u16
        ensures { result ≡ listed_in self.now.segments k }
    {
        listed_in(self.segments, k)
    }

    /// What the index packet `part` must be, which the record lists, of a publication by `node` in `group`.
    pub fn index<'w>(&'w self, part: Part, node: &'w Name, group: &'w Name) -> Expected<'w>
        requires listed { IsListedIndex part self.now }
        requires node { length (encoding node.now) ≤ node_name_limit }
        requires group { length (encoding group.now) ≤ node_name_limit }
        ensures { result ≡ want_index part self.now node.now group.now }
    {
        let digest = self.digests.get(usize::from(part.part - 1)).unwrap();
        Expected::of_index(part, self.segments, digest, node, group)
    }

    /// What the segment `part` must be, whose digest the record or an index packet lists.
    pub fn segment<'w>(&'w self, part: Part, digest: &'w [u8; 32]) -> Expected<'w>
        requires segment { (shape_of_segments self.now.segments).index < part.part }
        ensures { result ≡ want_segment part (shape_of_segments self.now.segments) self.now.name digest.now }
    {
        Expected::of_segment(part, self.shape(), &self.name, digest)
    }
}
