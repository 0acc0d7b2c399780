// Parts that are held from now on, in the plan, in the store and in the catalogue.
ghost use Rattle.std.specs.Prelude.{◌≡◌, ◌-◌, ◌<◌, true, false};
ghost use Rattle.std.specs.List.{All};
ghost use Rattle.repo_plan.specs.Parts.{pair_of};
ghost use Rattle.repo_plan.specs.Plan.{holds, hides, may_be_asked_for, is_claimed, after_hold, uses_room};
ghost use Rattle.repo_store.specs.StoreList.{with_packet};
ghost use Rattle.repo_holdings.specs.Contents.{IsDigestIn};
ghost use Rattle.repo_holdings.specs.Gaining.{PlanFits, IsArrival, IsMissing, IsPacketOf, HaveRoomFor};
ghost use Rattle.repo_holdings.specs.Stock.{IsSound, HasRoom, AfterHolding};
ghost use Rattle.repo_holdings.specs.Taking.{IsChange};
ghost use Rattle.repo_holdings.specs.HoldingsState.{held_plan, AreInOrder};

use super::Holdings;
use super::stock::Stock;
use crate::changes::{Change, change_by_summary};
use crate::contents::ContentsDigest;
use crate::record_summary::Arrival;
use repo_object::Packet;
use repo_plan::{Part, Plan, Shape};
use repo_store::Store;

impl Holdings {
    /// A part that is wanted is held from now on, with the packet received for it, where capacity was reserved, and the
    /// catalogue changes by it: an object is listed where no part of it is missing any more, unless it is withdrawn,
    /// and what a withdrawal withdraws is removed. It allocates nothing.
    pub fn gain(&mut self, part: Part, arrival: Arrival)
        requires room { 0 < self.old.spare }
        requires arrival { IsArrival self.old.store part arrival.packet arrival.summary }
        requires asked { may_be_asked_for (held_plan self.old) part ≡ true }
        requires not_held { holds (held_plan self.old) part ≡ false }
        requires not_hidden { hides (held_plan self.old) (pair_of part) ≡ false }
        requires not_claimed { is_claimed (held_plan self.old) part ≡ false }
        ensures gained { self.new ≡ record self.old {
          store = with_packet part arrival.packet self.old.store;
          spare = self.old.spare - 1;
        } }
        ensures in_order { AreInOrder self.new }
    {
        let change = self.stock.gain(part, arrival, &[]);
        change.make(&mut self.catalogue);
        self.spare -= 1;
    }
}

impl Stock {
    // A part that is asked for is held from now on, with the packet received for it, where there is room, and what the
    // packet reports is noted. The answer is the change of the catalogue. Digests that are given in `digests` aren't
    // computed again.
    pub(super) fn gain(
        &mut self,
        part: Part,
        arrival: Arrival,
        digests: &[ContentsDigest],
    ) -> Change
        requires room { HasRoom 1 1 self.old }
        requires sound { IsSound self.old }
        requires missing { IsMissing self.old.plan part }
        requires arrival { IsArrival self.old.store.packets part arrival.packet arrival.summary }
        requires digests { All (IsDigestIn (with_packet part arrival.packet self.old.store.packets)) digests.now }
        ensures gained { AfterHolding part arrival.packet self.old self.new }
        ensures sound { IsSound self.new }
        ensures change { IsChange result self.old.store.packets self.new.store.packets }
    {
        let shape = arrival.summary.as_ref().map(|summary| summary.shape());
        gain(&mut self.plan, &mut self.store, part, arrival.packet, shape);
        let publication = (part.publisher, part.seq);
        change_by_summary(
            &self.plan,
            &self.store,
            &mut self.notes,
            publication,
            arrival.summary,
            digests,
        )
    }
}

// A part that is asked for is held from now on, with its packet, within the capacity. `shape` has the part counts that
// a record reports.
pub(super) fn gain(
    plan: &mut Plan,
    store: &mut Store,
    part: Part,
    packet: Packet,
    shape: Option<Shape>,
)
    requires room { HaveRoomFor 1 plan.old store.old }
    requires tied { PlanFits plan.old store.old.packets }
    requires missing { IsMissing plan.old part }
    requires packet { IsPacketOf store.old.packets part packet shape }
    ensures plan { plan.new ≡ uses_room (after_hold part shape plan.old) }
    ensures store { store.new ≡ record {
      packets = with_packet part packet store.old.packets;
      spare = store.old.spare - 1;
    } }
    ensures tied { PlanFits plan.new store.new.packets }
{
    plan.hold_reserved(part, shape);
    store.put_shared(part, packet);
}
