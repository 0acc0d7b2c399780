ghost use Rattle.std.specs.Prelude.{◌≡◌, ◌<◌, Some, IsSome, option_map};
ghost use Rattle.repo_plan.specs.Parts.{IsShape};
ghost use Rattle.repo_object.specs.Publication.{shape_stated};
ghost use Rattle.repo_object.specs.Records.{record_of};
ghost use Rattle.repo_object.specs.Stated.{seen_record};
ghost use Rattle.repo_object.specs.Verdict.{stated_in};

use crate::digests_view::DigestsView;
use crate::listing_view::ListingView;
use crate::record_fields::RecordReader;
use ndn_data::DataView;
use repo_plan::Shape;

/// A record in borrowed octets: it lists the parts of an object, or withdraws the publication of a number.
#[derive(Debug, Drop)]
pub enum RecordView<'p> {
    Lists(ListingView<'p>),
    Withdraws { seq: u16 },
}

impl<'p> RecordView<'p> {
    // The record of this content, or `None` if it is no record's. It allocates nothing.
    pub(crate) fn read(content: &'p [u8]) -> Option<RecordView<'p>>
        ensures { option_map seen_record result ≡ record_of content.now }
    {
        match RecordReader::new(content)? {
            RecordReader::Withdraws(seq) => Some(RecordView::Withdraws { seq }),
            RecordReader::Lists {
                name,
                segments,
                digests,
                row,
            } => {
                let digests = DigestsView::read(digests, row)?;
                Some(RecordView::Lists(ListingView::new(name, segments, digests)))
            }
        }
    }

    // The record of a content that is known to be a record's, as that of a checked packet is. Its digests are not read
    // here.
    fn known(content: &'p [u8]) -> RecordView<'p>
        requires { IsSome (record_of content.now) }
        ensures { record_of content.now ≡ Some (seen_record result) }
    {
        match RecordReader::new(content).unwrap() {
            RecordReader::Withdraws(seq) => RecordView::Withdraws { seq },
            RecordReader::Lists {
                name,
                segments,
                digests,
                row,
            } => {
                let digests = DigestsView::known(digests, row);
                RecordView::Lists(ListingView::new(name, segments, digests))
            }
        }
    }

    /// How many segments the publication has, and how many index packets list them. A withdrawal has none.
    pub fn shape(&self) -> Shape
        ensures same { result ≡ shape_stated (seen_record self.now) }
        ensures sized { IsShape result }
    {
        match self {
            RecordView::Lists(listing) => listing.shape(),
            RecordView::Withdraws { .. } => Shape::of(0),
        }
    }

    /// The record of a packet that is known to be a record's.
    pub fn in_packet(packet: &'p [u8]) -> RecordView<'p>
        requires { IsSome (stated_in packet.now) }
        ensures { stated_in packet.now ≡ Some (seen_record result) }
    {
        RecordView::known(DataView::read(packet).unwrap().content)
    }
}
