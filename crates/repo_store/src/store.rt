ghost use Rattle.std.specs.Prelude.{◌≡◌, ◌-◌, ◌*◌, ◌<◌, ◌≤◌, [], length, max, not, option_map, Ok, Err, IsOk, IfOk};
ghost use Rattle.std.specs.Prelude.{OnOk, OnErr, MatchResult};
ghost use Rattle.ndn_data.specs.Data.{data_of};
ghost use Rattle.sorted_lists.specs.SortedList.{keys, contains, value_of};
ghost use Rattle.repo_plan.specs.Parts.{part_cmp};
ghost use Rattle.repo_store.specs.StoreList.{with_packet, packets_in, packets_outside, packets_in_any};
ghost use Rattle.repo_store.specs.StoreList.{packets_outside_all, different_octets, StoreIsSound};
ghost use Rattle.repo_store.specs.Slots.{HeldIsSound};
ghost use Rattle.repo_store.specs.Indexes.{satisfies_held, IsFirstOf};
ghost use Rattle.repo_store.specs.NameLayers.{IsIndexOf};
ghost use Rattle.repo_store.specs.Served.{served};

use crate::names::Names;
use crate::packet_table::{PacketTable, Stored, lesser};
use ndn_interest::InterestView;
use ndn_name::{NameView, PacketFault};
use repo_object::Packet;
use repo_plan::Part;
use std::alloc::{AllocError, Global};
use std::marker::Model;

/// The packets of parts, each part once, with capacity for more. Packets of the same octets are kept once.
///
/// A part, and a packet that is asked for by its full name, is found at once. Packets that were put since the last call
/// of `order_names` are found by their names, or by prefixes of them, by a walk over all those packets.
pub struct Store {
    kept: PacketTable,
    names: Names,
}

// A store is dropped by one call, which is proved once, and not field by field wherever one goes out of scope.
impl Drop for Store {
    fn drop(self) {
        let Store { kept: _, names: _ } = self;
    }
}

// A store is seen as the list of its parts and their packets, beside the number of packets that
// there is capacity for.
impl Model for Store {
    ghost use Rattle.repo_store.specs.StoreList.{StoreList};

    ghost Value = { StoreList };

    ghost use Rattle.repo_store.specs.PacketTable.{entries_of};
    ghost use Rattle.repo_store.specs.StoreFields.{IsStored};

    ghost view = { λ s. record { packets = entries_of s.kept.slots s.kept.held; spare = s.kept.spare } };

    ghost invariant = { IsStored };
}

impl Store {
    pub fn new(alloc: Global) -> Store
        ensures { result ≡ record { packets = []; spare = 0 } }
    {
        Store {
            kept: PacketTable::new(alloc),
            names: Names::new(alloc),
        }
    }

    /// How many packets there are.
    //
    // A caller sees the value alone, so `sound` states what the invariant says of it.
    pub fn len(&self) -> usize
        ensures number { result ≡ length self.now.packets }
        ensures sound { StoreIsSound self.now.packets }
    {
        self.kept.len()
    }

    /// How many different packets there are: those of the same octets count once.
    pub fn kept(&self) -> usize
        ensures { result ≡ length (different_octets self.now.packets) }
    {
        self.kept.packets()
    }

    /// The packet of a part.
    pub fn get(&self, part: Part) -> Option<&[u8]>
        ensures found { option_map (λ octets. octets.now) result
            ≡ value_of part_cmp self.now.packets part }
        ensures sound { StoreIsSound self.now.packets }
    {
        let slot = self.kept.slot_of(part)?;
        Some(self.kept.octets(slot))
    }

    /// The packet of a part, which may be shared with another holder.
    pub fn packet(&self, part: Part) -> Option<&Packet>
        ensures { option_map (λ packet. packet.now) result ≡ value_of part_cmp self.now.packets part }
    {
        let slot = self.kept.slot_of(part)?;
        self.kept.packet(slot)
    }

    /// Puts a packet that reads as Data under its part. The reserved capacity is unchanged.
    ///
    /// The answer is `false` where there is a packet of the part already, which then stays.
    pub fn put(&mut self, part: Part, octets: &[u8]) -> Result<bool, AllocError>
        requires { IsOk (data_of octets.now) }
        ensures fresh { IfOk result
            (λ fresh. fresh ≡ not (contains part_cmp (keys self.old.packets) part)) }
        ensures ok { OnOk result (self.new ≡ record self.old {
          packets = with_packet part octets.now self.old.packets;
        }) }
        ensures err { OnErr result (self.new ≡ self.old) }
    {
        if self.kept.has(part) {
            return Ok(false);
        }
        let alloc = self.names.allocator();
        let packet = Packet::new(alloc, octets.to_vec(alloc)?, None)?;
        let Some(room) = self.kept.spare().checked_add(1) else {
            return Err(AllocError);
        };
        self.reserve(room)?;
        Ok(self.put_shared(part, packet))
    }

    /// Reserves capacity for `n` packets, unless there is as much already.
    pub fn reserve(&mut self, n: usize) -> Result<(), AllocError>
        ensures ok { OnOk result (self.new ≡ record self.old { spare = max self.old.spare n }) }
        ensures err { OnErr result (self.new ≡ self.old) }
    {
        if n <= self.kept.spare() {
            return Ok(());
        }
        self.names.reserve(n)?;
        self.kept.reserve(n)
    }

    /// Puts a packet that reads as Data under its part, where capacity was reserved. It allocates nothing.
    ///
    /// The answer is `false` where there is a packet of the part already, which then stays. The room
    /// counts as used all the same.
    pub fn put_reserved(&mut self, part: Part, octets: Vec<u8>) -> bool
        requires spare { 0 < self.old.spare }
        requires is_data { IsOk (data_of octets.items) }
        ensures fresh { result ≡ not (contains part_cmp (keys self.old.packets) part) }
        ensures put { self.new ≡ record {
          packets = with_packet part octets.items self.old.packets;
          spare = self.old.spare - 1;
        } }
    {
        self.put_shared(part, Packet::alone(octets))
    }

    /// Puts a packet, which others may hold too, under its part, where capacity was reserved. No octets are copied.
    ///
    /// The answer is `false` where there is a packet of the part already, which then stays. The room counts as used all
    /// the same.
    pub fn put_shared(&mut self, part: Part, packet: Packet) -> bool
        requires spare { 0 < self.old.spare }
        ensures fresh { result ≡ not (contains part_cmp (keys self.old.packets) part) }
        ensures put { self.new ≡ record {
          packets = with_packet part packet self.old.packets;
          spare = self.old.spare - 1;
        } }
    {
        match self.kept.put(part, packet) {
            Some(slot) => {
                self.names.put((part, slot));
                true
            }
            None => false,
        }
    }

    /// The packet of the least part that satisfies the Interest: the packet's name is the Interest's,
    /// or its full name is, or its full name begins with it where the Interest allows that. `None`
    /// where there is none, or where the packet must be fresh.
    #[tactic(auto, unfolding(crate::specs::Served::served_entry, crate::specs::Served::first_served))]
    pub fn serve(&self, interest: &[u8]) -> Result<Option<&[u8]>, PacketFault>
        ensures served { MatchResult result
            (λ found. served interest.now self.now.packets
            ≡ Ok (option_map (λ octets. octets.now) found))
            (λ fault. served interest.now self.now.packets ≡ Err fault) }
    {
        let interest = InterestView::read(interest)?;
        if interest.must_be_fresh {
            return Ok(None);
        }
        let found = first_for(
            &self.kept,
            &self.names,
            &interest.name,
            interest.can_be_prefix,
        );
        match found {
            Some(held) => Ok(Some(self.kept.octets(held.1))),
            None => Ok(None),
        }
    }

    /// Puts the packets that were put since the last call in order of their names. It allocates nothing.
    ///
    /// `serve` answers the same before and after. After this call it doesn't walk over those packets.
    pub fn order_names(&mut self)
        ensures { self.new ≡ self.old }
    {
        self.names.order(&self.kept);
    }

    /// Drops the packets of a publication's parts, and gives their number. It allocates nothing.
    pub fn drop_parts(&mut self, publisher: u32, seq: u16) -> u32
        ensures number { result ≡ length (packets_in (publisher, seq) self.old.packets) }
        ensures dropped { self.new ≡ record self.old {
          packets = packets_outside (publisher, seq) self.old.packets;
        } }
    {
        self.drop_all(&[(publisher, seq)]) as u32
    }

    /// Drops the packets of the parts of the publications `pairs`, and gives the number of packets. It takes one pass
    /// over the packets that are in order of their names; none where `pairs` is one publication of few parts. A
    /// publication may stand twice. Each has at most 65,536 parts. It allocates nothing.
    pub fn drop_all(&mut self, pairs: &[(u32, u16)]) -> usize
        ensures number { result ≡ length (packets_in_any pairs.now self.old.packets) }
        ensures few { result ≤ length pairs.now * 65536 }
        ensures dropped { self.new ≡ record self.old {
          packets = packets_outside_all pairs.now self.old.packets;
        } }
    {
        let taken = self.names.take_out(&self.kept, pairs);
        let number = self.kept.drop_all(pairs);
        self.names.drop_all(&self.kept, pairs, number, taken);
        number
    }
}

// The held entry with the least part of those whose packet satisfies an Interest of this name.
fn first_for(
    kept: &PacketTable,
    names: &Names,
    name: &NameView<'_>,
    can_be_prefix: bool,
) -> Option<Stored>
    requires { IsIndexOf kept.now.slots kept.now.held names.now }
    ensures found { IsFirstOf kept.now.held (satisfies_held kept.now.slots name.now can_be_prefix) result }
    ensures sound { HeldIsSound kept.now }
{
    let asked = name.octets();
    lesser(
        names.first(kept, asked, can_be_prefix),
        kept.first_with_full_name(asked),
    )
}
