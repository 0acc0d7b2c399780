ghost use Rattle.std.specs.Prelude.{◌≡◌, ◌≤◌, vec_len};
ghost use Rattle.repo_holdings.specs.Gaining.{PlanFits, KeepsOthers, HaveRoomFor, HaveUsed};
ghost use Rattle.repo_holdings.specs.HoldingsState.{held_plan, AreInOrder};
ghost use Rattle.repo_holdings.specs.NewPublications.{with_packets, as_parts, publishes_too, IsNew, ArePackets};

use super::Holdings;
use super::gaining::gain;
use crate::changes::change_by_summary;
use crate::record_summary::RecordSummary;
use repo_object::Packet;
use repo_plan::{Part, Plan};
use repo_store::Store;

impl Holdings {
    /// The parts of a new publication with this summary are held from now on, with these packets, where room was
    /// made: the record, the index packets and the segments. An object is catalogued, and what a withdrawal withdraws
    /// is removed. It allocates nothing.
    pub fn publish_parts(
        &mut self,
        publisher: u32,
        seq: u16,
        summary: RecordSummary,
        packets: Vec<Packet>,
    )
        requires room { vec_len packets ≤ self.old.spare }
        requires new { IsNew (held_plan self.old) (publisher, seq) }
        requires packets { ArePackets summary packets.items }
        ensures published { self.new ≡ publishes_too (publisher, seq) packets.items self.old }
        ensures in_order { AreInOrder self.new }
    {
        let parts = packets.len();
        gain_all(
            &mut self.stock.plan,
            &mut self.stock.store,
            publisher,
            seq,
            &summary,
            packets,
        );
        let change = change_by_summary(
            &self.stock.plan,
            &self.stock.store,
            &mut self.stock.notes,
            (publisher, seq),
            Some(summary),
            &[],
        );
        change.make(&mut self.catalogue);
        self.spare -= parts;
    }
}

// The parts of a new publication with this summary are held from now on, with these packets, for which room was
// made.
fn gain_all(
    plan: &mut Plan,
    store: &mut Store,
    publisher: u32,
    seq: u16,
    summary: &RecordSummary,
    packets: Vec<Packet>,
)
    requires room { HaveRoomFor (vec_len packets) plan.old store.old }
    requires tied { PlanFits plan.old store.old.packets }
    requires new { IsNew plan.old (publisher, seq) }
    requires packets { ArePackets summary.now packets.items }
    ensures packets { store.new.packets ≡ with_packets
        (as_parts (publisher, seq) 0 packets.items) store.old.packets }
    ensures others { KeepsOthers plan.old plan.new }
    ensures tied { PlanFits plan.new store.new.packets }
    ensures room { HaveUsed (vec_len packets) plan.old store.old plan.new store.new }
{
    let shape = summary.shape();
    let mut x = 0;
    for packet in packets {
        let part = Part {
            publisher,
            seq,
            part: x,
        };
        let shape = if x == 0 { Some(shape) } else { None };
        gain(plan, store, part, packet, shape);
        x += 1;
    }
}
