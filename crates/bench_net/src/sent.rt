ghost use Rattle.std.specs.Prelude.{◌≡◌, ◌+◌, ◌-◌, ◌<◌, [], ◌∷◌, ◌++◌, length, max, IfOk, OnOk, OnErr, option_map};
ghost use Rattle.bench_net.specs.SentList.{sent_octets, sent_packet, sent_sender, sent_vector, was_sent};

use indexmap::IndexSet;
use std::alloc::{AllocError, Global};
use std::marker::Model;

// A packet that was sent.
#[derive(Drop)]
struct Packet {
    sender: u32,
    // The vector's number among those that were sent.
    vector: usize,
    octets: Vec<u8>,
}

/// The packets that were sent in a group, numbered from 1 in the order of sending, with capacity for more.
///
/// Each has its sender, the vector that it reports, and its octets. It is found by number and by sender and vector, in
/// a time that doesn't grow with the list.
pub struct Sent {
    packets: Vec<Packet>,
    // Each vector that was sent, once.
    vectors: IndexSet<Vec<u16>>,
    // Each pair of a sender and the number of a vector that it sent.
    sent_pairs: IndexSet<(u32, usize)>,
    spare: usize,
}

// A `Sent` is dropped by one call, which is proved once, and not field by field wherever one goes out of scope.
impl Drop for Sent {
    fn drop(self) {
        let Sent {
            packets: _,
            vectors: _,
            sent_pairs: _,
            spare: _,
        } = self;
    }
}

// What was sent is seen as a list, with the number of packets for which there is capacity.
impl Model for Sent {
    ghost use Rattle.bench_net.specs.SentList.{SentList};

    ghost Value = { SentList };

    ghost use Rattle.bench_net.specs.SentFields.{lists_of, packets_of, AreSent};

    ghost view = { λ s. record {
      packets = packets_of (lists_of s.vectors.keys) s.packets.items;
      spare = s.spare;
    } };

    ghost invariant = { AreSent };
}

impl Sent {
    pub fn new(alloc: Global) -> Sent
        ensures { result ≡ record { packets = []; spare = 0 } }
    {
        Sent {
            packets: Vec::new(alloc),
            vectors: IndexSet::new(alloc),
            sent_pairs: IndexSet::new(alloc),
            spare: 0,
        }
    }

    /// How many packets were sent.
    pub fn len(&self) -> usize
        ensures { result ≡ length self.now.packets }
    {
        self.packets.len()
    }

    /// Appends a packet and gives its number. The spare capacity is unchanged.
    pub fn add(&mut self, sender: u32, vector: &Vec<u16>, octets: &[u8]) -> Result<u32, AllocError>
        requires { length self.old.packets < 4294967295 }
        ensures number { IfOk result (λ k. k ≡ length self.old.packets + 1) }
        ensures ok { OnOk result (self.new ≡ record self.old {
          packets = self.old.packets ++ sent_packet sender vector.now.items octets.now ∷ [];
        }) }
        ensures err { OnErr result (self.new ≡ self.old) }
    {
        let alloc = *self.packets.allocator();
        let vector = vector.to_vec(alloc)?;
        let octets = octets.to_vec(alloc)?;
        let Some(room) = self.spare.checked_add(1) else {
            return Err(AllocError);
        };
        self.reserve(room)?;
        Ok(self.add_reserved(sender, vector, octets))
    }

    /// Reserves capacity for `n` packets, unless there is as much already.
    pub fn reserve(&mut self, n: usize) -> Result<(), AllocError>
        ensures ok { OnOk result (self.new ≡ record self.old { spare = max self.old.spare n }) }
        ensures err { OnErr result (self.new ≡ self.old) }
    {
        if self.spare < n {
            self.packets.reserve(n)?;
            self.vectors.reserve(n)?;
            self.sent_pairs.reserve(n)?;
            self.spare = n;
        }
        Ok(())
    }

    /// Appends a packet, for which capacity was reserved, and gives its number. It allocates nothing.
    pub fn add_reserved(&mut self, sender: u32, vector: Vec<u16>, octets: Vec<u8>) -> u32
        requires spare { 0 < self.old.spare }
        requires few { length self.old.packets < 4294967295 }
        ensures number { result ≡ length self.old.packets + 1 }
        ensures sent { self.new.packets ≡ self.old.packets ++ sent_packet sender vector.items octets.items ∷ [] }
        ensures spare { self.new.spare ≡ self.old.spare - 1 }
    {
        let (vector, _) = self.vectors.insert_full(vector).unwrap();
        self.sent_pairs.insert((sender, vector)).unwrap();
        let packet = Packet {
            sender,
            vector,
            octets,
        };
        self.packets.push(packet).unwrap();
        self.spare -= 1;
        self.packets.len() as u32
    }

    /// The octets of the packet of that number.
    pub fn octets(&self, k: u32) -> Option<&[u8]>
        ensures { option_map (λ octets. octets.now) result ≡ sent_octets self.now.packets k }
    {
        let place = k.checked_sub(1)?;
        let packet = self.packets.get(place as usize)?;
        Some(&packet.octets)
    }

    /// The vector that the packet of that number reports.
    pub fn vector(&self, k: u32) -> Option<&[u16]>
        ensures { option_map (λ vector. vector.now) result ≡ sent_vector self.now.packets k }
    {
        let after = k.checked_sub(1)?;
        let packet = self.packets.get(after as usize)?;
        Some(self.vectors.as_slice()[packet.vector].as_slice())
    }

    /// Who sent the packet of that number.
    pub fn sender(&self, k: u32) -> Option<u32>
        ensures { result ≡ sent_sender self.now.packets k }
    {
        let after = k.checked_sub(1)?;
        let packet = self.packets.get(after as usize)?;
        Some(packet.sender)
    }

    /// Whether the sender sent a packet that reports this vector.
    pub fn has(&self, sender: u32, vector: &[u16]) -> bool
        ensures { result ≡ was_sent sender vector.now self.now.packets }
    {
        match self.vectors.get_index_of(vector) {
            Some(vector) => self.sent_pairs.contains(&(sender, vector)),
            None => false,
        }
    }
}
