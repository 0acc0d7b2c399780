// What records say of their publications, and packets that were received.
ghost use Rattle.std.specs.Prelude.{◌≡◌, Some, option_map, IsSome, IfOk, List};
ghost use Rattle.repo_object.specs.Verdict.{stated_in};
ghost use Rattle.repo_holdings.specs.Records.{Packet as Stored};
ghost use Rattle.repo_holdings.specs.StoredParents.{lists_at, ListsAsMany};
ghost use Rattle.repo_holdings.specs.Gaining.{summary_of, summary_in, summary_shape, IsArrival};

use ndn_name::Name;
use repo_object::{Packet, RecordView};
use repo_plan::{Part, Shape};
use std::alloc::{AllocError, Global};

/// What the record of a publication says.
#[derive(Drop)]
pub enum RecordSummary {
    /// It is an object of this name, and has the parts that the shape counts.
    Object { shape: Shape, name: Name },
    /// It withdraws what its publisher published under that number, and has its record alone.
    Withdrawal { seq: u16 },
}

impl RecordSummary {
    // What a packet says that is known to be a record.
    fn of_record(alloc: Global, packet: &[u8]) -> Result<RecordSummary, AllocError>
        requires { IsSome (stated_in packet.now) }
        ensures { IfOk result (λ summary. option_map summary_of (stated_in packet.now) ≡ Some summary) }
    {
        match RecordView::in_packet(packet) {
            RecordView::Lists(listing) => Ok(RecordSummary::Object {
                shape: listing.shape(),
                name: Name::from_short(alloc, listing.name())?,
            }),
            RecordView::Withdraws { seq } => Ok(RecordSummary::Withdrawal { seq }),
        }
    }

    /// Which parts the publication has.
    pub fn shape(&self) -> Shape
        ensures { result ≡ summary_shape self.now }
    {
        match self {
            RecordSummary::Object { shape, .. } => *shape,
            RecordSummary::Withdrawal { .. } => Shape::of(0),
        }
    }
}

/// A packet that was received for a part, and what it says, if it is a record.
#[derive(Drop)]
pub struct Arrival {
    pub packet: Packet,
    pub summary: Option<RecordSummary>,
}

impl Arrival {
    /// The packet that was received for a part and passed for it, with what it says, if it is a record.
    pub fn new(alloc: Global, part: Part, packet: Packet) -> Result<Arrival, AllocError>
        requires record_part { part.part ≡ 0 → IsSome (stated_in packet) }
        ensures packet { IfOk result (λ arrival. arrival.packet ≡ packet) }
        ensures summary { IfOk result (λ arrival. arrival.summary ≡ summary_in part packet) }
        ensures arrival { IfOk result (λ arrival. (packets : List Stored)
            → ListsAsMany packet (lists_at packets part)
            → IsArrival packets part arrival.packet arrival.summary) }
    {
        let octets = packet.octets();
        let summary = if part.part == 0 {
            Some(RecordSummary::of_record(alloc, octets)?)
        } else {
            None
        };
        Ok(Arrival { packet, summary })
    }
}
