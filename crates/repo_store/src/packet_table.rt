ghost use Rattle.std.specs.Prelude.{◌≡◌, ◌↔◌, ℕ, ◌+◌, ◌-◌, ◌*◌, ◌<◌, ◌≤◌, [], Some, length, max, not, IsTrue, is_some};
ghost use Rattle.std.specs.Prelude.{OnOk, OnErr, option_map};
ghost use Rattle.std.specs.Prelude.{true, MatchOption, IsSome};
ghost use Rattle.slab.specs.Slab.{HasRoomFor};
ghost use Rattle.sorted_lists.specs.SortedList.{keys, contains, value_of, with_value, without_key};
ghost use Rattle.sorted_lists.specs.Members.{In};
ghost use Rattle.repo_plan.specs.Parts.{part_cmp};
ghost use Rattle.repo_store.specs.StoreList.{different_octets};
ghost use Rattle.sha2.specs.Sha256.{sha256};
ghost use Rattle.repo_store.specs.PacketTable.{fingerprint_of, at, octets_at, fingerprint_at, entries_of};
ghost use Rattle.repo_store.specs.Slots.{HeldIsSound, KeepsOne, IsUsed, PacketsStay, held_outside, held_outside_all};
ghost use Rattle.repo_store.specs.Slots.{is_sought, is_sought_at, has_full_name, IsNextOf, IsStoredIn, IsPut, HasFew};
ghost use Rattle.repo_store.specs.Indexes.{name_of, lesser, IsFirstOf};

use repo_object::Packet;
use repo_plan::Part;
use slab::Slab;
use sorted_lists::SortedMap;
use std::alloc::{AllocError, Global};
use std::cmp::Ordering;
use std::marker::Model;

// An entry: a part that is held, and the slot of its packet.
pub(crate) type Stored = (Part, usize);

// An entry, with the fingerprint of its packet's digest. Packets whose digests have one fingerprint stand together,
// each with its parts, of which the least comes first.
#[derive(Clone, Copy, Debug, PartialEq, Eq, PartialOrd, Ord)]
struct Fingerprinted {
    fingerprint: u64,
    slot: usize,
    part: Part,
}

// Which packet of those with one fingerprint is sought: by its octets, or by its digest and its name.
#[derive(Clone, Copy)]
enum Sought<'s> {
    Octets(&'s [u8]),
    FullName(&'s [u8], &'s [u8]),
}

// A publication has few parts where their numbers are below this. So few are searched one by one when they are dropped.
// The bound matters for speed alone.
pub(crate) const FEW: u16 = 4;

// The least part: no part comes before it.
pub(crate) const FIRST: Part = Part {
    publisher: 0,
    seq: 0,
    part: 0,
};

// The packets of parts, each different one once, in slots that the slab picks; with capacity for more.
#[derive(Drop)]
pub(crate) struct PacketTable {
    packets: Slab<Packet>,
    // By part, the slot of its packet.
    parts: SortedMap<Part, usize>,
    fingerprints: SortedMap<Fingerprinted, ()>,
    spare: usize,
}

impl Model for PacketTable {
    ghost use Rattle.repo_store.specs.PacketTable.{PacketTableState};

    ghost Value = { PacketTableState };

    ghost use Rattle.repo_store.specs.Slots.{TableIsSound};

    ghost view = { λ k. record { slots = k.packets.slots; held = k.parts.entries; spare = k.spare } };

    ghost invariant = { TableIsSound };
}

impl Sought<'_> {
    fn is(&self, packet: &Packet) -> bool
        ensures { result ≡ is_sought self.now packet.now }
    {
        match self {
            Sought::Octets(octets) => packet.octets() == *octets,
            Sought::FullName(digest, name) => packet.digest().as_slice() == *digest
                && packet.name() == *name,
        }
    }
}

impl PacketTable {
    pub(crate) fn new(alloc: Global) -> PacketTable
        ensures { result ≡ record { slots = []; held = []; spare = 0 } }
    {
        PacketTable {
            packets: Slab::new(alloc),
            parts: SortedMap::new(alloc),
            fingerprints: SortedMap::new(alloc),
            spare: 0,
        }
    }

    pub(crate) fn spare(&self) -> usize
        ensures { result ≡ self.now.spare }
    {
        self.spare
    }

    // How many parts there are.
    pub(crate) fn len(&self) -> usize
        ensures number { result ≡ length self.now.held }
        ensures sound { HeldIsSound self.now }
    {
        self.parts.len()
    }

    // How many packets there are.
    pub(crate) fn packets(&self) -> usize
        ensures { result ≡ length (different_octets (entries_of self.now.slots self.now.held)) }
    {
        self.packets.len()
    }

    // The slot of a part's packet.
    pub(crate) fn slot_of(&self, part: Part) -> Option<usize>
        ensures found { result ≡ value_of part_cmp self.now.held part }
        ensures sound { HeldIsSound self.now }
    {
        self.parts.get(part)
    }

    pub(crate) fn has(&self, part: Part) -> bool
        ensures { result ≡ contains part_cmp (keys self.now.held) part }
    {
        self.slot_of(part).is_some()
    }

    // Whether the held parts of this publication have numbers below `FEW`.
    pub(crate) fn has_few(&self, pair: (u32, u16)) -> bool
        ensures { IsTrue result → HasFew pair self.now.held }
    {
        let first = Part {
            publisher: pair.0,
            seq: pair.1,
            part: FEW,
        };
        match self.parts.first_from(first) {
            Some((part, _)) => (part.publisher, part.seq) != pair,
            None => true,
        }
    }

    // The packet in a slot.
    pub(crate) fn packet(&self, slot: usize) -> Option<&Packet>
        ensures { option_map (λ p. p.now) result ≡ at self.now.slots slot }
    {
        self.packets.get(slot)
    }

    // The octets of the packet in a slot; none where the slot is empty.
    pub(crate) fn octets(&self, slot: usize) -> &[u8]
        ensures { result.now ≡ octets_at self.now.slots slot }
    {
        match self.packets.get(slot) {
            Some(packet) => packet.octets(),
            None => &[],
        }
    }

    // The name of the packet in a slot; empty where the slot is.
    pub(crate) fn name(&self, slot: usize) -> &[u8]
        ensures { result.now ≡ name_of (at self.now.slots slot) }
    {
        match self.packets.get(slot) {
            Some(packet) => packet.name(),
            None => &[],
        }
    }

    // Reserves capacity for `n` parts, unless there is as much already.
    pub(crate) fn reserve(&mut self, n: usize) -> Result<(), AllocError>
        ensures ok { OnOk result (self.new ≡ record self.old { spare = max self.old.spare n }) }
        ensures err { OnErr result (self.new ≡ self.old) }
    {
        if self.spare < n {
            self.packets.reserve(n)?;
            self.parts.reserve(n)?;
            self.fingerprints.reserve(n)?;
            self.spare = n;
        }
        Ok(())
    }

    // The entry with the least part of those whose packet's full name is `asked`. The octets of a full name end with a
    // component of 34 octets.
    pub(crate) fn first_with_full_name(&self, asked: &[u8]) -> Option<Stored>
        ensures found { IsFirstOf self.now.held (has_full_name self.now.slots asked.now) result }
        ensures sound { HeldIsSound self.now }
    {
        let _ = &self.packets;
        let (name, last) = asked.split_last_chunk::<34>()?;
        let digest = last.as_slice().strip_prefix(&[0x01, 0x20])?;
        self.first_of_fingerprint(fingerprint_of(digest), &Sought::FullName(digest, name))
    }

    // The entry with the least part of those whose packet is sought and has a digest of this fingerprint. The slots of
    // the fingerprint are looked at in turn: there are several only where different packets have the same fingerprint.
    fn first_of_fingerprint(&self, fingerprint: u64, sought: &Sought<'_>) -> Option<Stored>
        ensures { IsFirstOf self.now.held (is_sought_at self.now.slots fingerprint sought.now) result }
    {
        let mut least = None;
        let mut from = 0;
        while from < self.packets.capacity() {
            let Some(next) = next_of_fingerprint(&self.fingerprints, fingerprint, from) else {
                return least;
            };
            if self.is_sought(sought, next.1) {
                least = lesser(least, Some(next));
            }
            from = next.1 + 1;
        }
        least
    }

    fn is_sought(&self, sought: &Sought<'_>, slot: usize) -> bool
        requires { IsSome (at self.now.slots slot) }
        ensures { result ≡ is_sought sought.now (octets_at self.now.slots slot) }
    {
        sought.is(self.packets.get(slot).unwrap())
    }

    // Puts a packet under its part, within the capacity. The answer is the packet's slot, or `None` where there is a
    // packet of the part already, which then stays. The capacity counts as used all the same.
    pub(crate) fn put(&mut self, part: Part, packet: Packet) -> Option<usize>
        requires { 0 < self.old.spare }
        ensures { MatchOption result
            ((contains part_cmp (keys self.old.held) part ≡ true)
            × (self.new ≡ record self.old { spare = self.old.spare - 1 }))
            (λ slot. IsPut part packet slot self.old self.new) }
    {
        if self.has(part) {
            self.spare -= 1;
            return None;
        }
        let fingerprint = fingerprint_in(&packet);
        let found = self.first_of_fingerprint(fingerprint, &Sought::Octets(packet.octets()));
        let slot = keep(&mut self.packets, packet, found);
        self.parts.insert(part, slot);
        self.fingerprints.insert(
            Fingerprinted {
                fingerprint,
                slot,
                part,
            },
            (),
        );
        self.spare -= 1;
        Some(slot)
    }

    // Drops the parts of these publications, and gives the number of parts.
    pub(crate) fn drop_all(&mut self, pairs: &[(u32, u16)]) -> usize
        ensures number { result + length self.new.held ≡ length self.old.held }
        ensures few { result ≤ length pairs.now * 65536 }
        ensures held { self.new.held ≡ held_outside_all pairs.now self.old.held }
        ensures same { PacketsStay self.old self.new }
        ensures spare { self.new.spare ≡ self.old.spare }
        ensures sound { HeldIsSound self.old }
    {
        let before = self.parts.len();
        for pair in pairs {
            self.drop_pair(*pair);
        }
        before - self.parts.len()
    }

    // Drops the parts of one publication.
    fn drop_pair(&mut self, pair: (u32, u16))
        ensures held { self.new.held ≡ held_outside pair self.old.held }
        ensures few { length self.old.held ≤ length self.new.held + 65536 }
        ensures same { PacketsStay self.old self.new }
        ensures spare { self.new.spare ≡ self.old.spare }
    {
        let first = Part {
            publisher: pair.0,
            seq: pair.1,
            part: 0,
        };
        while let Some((part, slot)) = self.parts.first_from(first) {
            if (part.publisher, part.seq) != pair {
                return;
            }
            self.drop_part(part, slot);
        }
    }

    // Drops a part, and its packet where no other part has it.
    fn drop_part(&mut self, part: Part, slot: usize)
        requires { In (part, slot) self.old.held }
        ensures number { part.part < 65536 }
        ensures held { self.new.held ≡ without_key part_cmp part self.old.held }
        ensures same { PacketsStay self.old self.new }
        ensures spare { self.new.spare ≡ self.old.spare }
    {
        let fingerprint = fingerprint_in(self.packets.get(slot).unwrap());
        self.parts.remove(part);
        self.fingerprints.remove(Fingerprinted {
            fingerprint,
            slot,
            part,
        });
        if !is_used(&self.fingerprints, fingerprint, slot) {
            self.packets.remove(slot);
        }
    }
}

// Keeps a packet, and gives its slot: that of the entry that was found, or else a new one.
fn keep(packets: &mut Slab<Packet>, packet: Packet, found: Option<Stored>) -> usize
    requires { HasRoomFor packets.old 1 }
    ensures kept { IsStoredIn found packet packets.old packets.new result }
    ensures room { (n : ℕ) → HasRoomFor packets.old (n + 1) → HasRoomFor packets.new n }
{
    match found {
        Some((_, slot)) => slot,
        None => packets.insert_reserved(packet),
    }
}

// The entry with this fingerprint, in slot `from` or a later one, that has the lowest slot and then the lowest part.
fn next_of_fingerprint(
    fingerprints: &SortedMap<Fingerprinted, ()>,
    fingerprint: u64,
    from: usize,
) -> Option<Stored>
    ensures { IsNextOf (keys fingerprints.now.entries) fingerprint from result }
{
    let first = Fingerprinted {
        fingerprint,
        slot: from,
        part: FIRST,
    };
    match fingerprints.first_from(first) {
        Some((next, ())) if next.fingerprint == fingerprint => Some((next.part, next.slot)),
        _ => None,
    }
}

// Whether `fingerprints` has an entry with this fingerprint and this slot.
fn is_used(fingerprints: &SortedMap<Fingerprinted, ()>, fingerprint: u64, slot: usize) -> bool
    ensures { IsUsed (keys fingerprints.now.entries) fingerprint slot result }
{
    match next_of_fingerprint(fingerprints, fingerprint, slot) {
        Some(next) => next.1 == slot,
        None => false,
    }
}

// Of two entries the one with the lesser part, and `a` where the parts are the same; the other one where one is `None`.
pub(crate) fn lesser(a: Option<Stored>, b: Option<Stored>) -> Option<Stored>
    ensures { result ≡ lesser a b }
{
    match (a, b) {
        (Some(first), Some(second)) => match first.0.cmp(&second.0) {
            Ordering::Greater => b,
            _ => a,
        },
        (None, _) => b,
        _ => a,
    }
}

// The fingerprint of a packet's digest.
fn fingerprint_in(packet: &Packet) -> u64
    ensures { result ≡ fingerprint_of (sha256 packet.now) }
{
    fingerprint_of(&packet.digest())
}

// The first eight octets of a digest, as a number.
#[tactic(auto, unfolding(crate::specs::PacketTable::fingerprint_of))]
fn fingerprint_of(digest: &[u8]) -> u64
    requires { 8 ≤ length digest.now }
    ensures { result ≡ fingerprint_of digest.now }
{
    u64::from_be_bytes(*digest.first_chunk().unwrap())
}
