ghost use Rattle.std.specs.Prelude.{◌≡◌, ◌<◌, ◌^◌, length, option_map, Ok, Err, IfOk, MatchResult};
ghost use Rattle.svs_sync.specs.Suppression.{mode_of};
ghost use Rattle.sorted_lists.specs.SortedList.{value_of};
ghost use Rattle.repo_plan.specs.Parts.{part_cmp};
ghost use Rattle.repo_store.specs.Served.{served};
ghost use Rattle.repo_holdings.specs.Listed.{member_catalogue};
ghost use Rattle.repo_member.specs.MemberState.{IsMemberState, initial_member, member_ends_claims, member_resets};
ghost use Rattle.repo_member.specs.MemberState.{member_restarts};

mod block;
mod command;
mod counts;
mod fetching;
mod outcome;
mod publishing;
mod syncing;

use crate::group::Group;
use crate::post::Post;
pub use block::Blocked;
pub use command::Answered;
use ndn_name::PacketFault;
pub use outcome::FetchCounts;
pub use publishing::Published;
use repo_catalog::Catalogue;
use repo_holdings::Holdings;
use repo_object::Packet;
use repo_plan::Part;
use repo_process::Processes;
use std::alloc::{AllocError, Global};
use std::marker::Model;
use svs_sync::{Machine, Mode};
use svs_vector::Vector;
pub use syncing::Fire;

/// One member of a group: its publications, the numbers that it knows, the packets that it holds, the claims of its
/// sixteen fetchers, its sync state, its catalogue and its insertion processes.
///
/// A call that is refused, or that runs out of memory, has changed nothing.
pub struct Member {
    number: u32,
    log: Vec<Post>,
    vector: Vector,
    machine: Machine,
    held: Holdings,
    processes: Processes,
}

// A member is dropped by one call, which is proved once, and not field by field wherever one goes out of scope.
impl Drop for Member {
    fn drop(self) {
        let Member {
            number: _,
            log: _,
            vector: _,
            machine: _,
            held: _,
            processes: _,
        } = self;
    }
}

// Contracts see a member as its `MemberState`. The held parts of its plan and its catalogue follow from the packets
// that it stores.
impl Model for Member {
    ghost use Rattle.repo_member.specs.MemberState.{MemberState};

    ghost Value = { MemberState };

    ghost use Rattle.repo_member.specs.Members.{member_state, IsMember};

    ghost view = { member_state };

    ghost invariant = { IsMember };
}

impl Member {
    /// The member of that number, which has nothing yet, with its first draw.
    pub fn new(
        alloc: Global,
        g: &Group,
        number: u32,
        now: u64,
        draw: u32,
    ) -> Result<Member, AllocError>
        requires number { number < length g.now.members.names }
        requires early { now < 2 ^ 62 }
        ensures { IfOk result (λ member.
            member ≡ initial_member (length g.now.members.names) number now draw) }
    {
        let members = g.roster().len();
        Ok(Member {
            number,
            log: Vec::new(alloc),
            vector: Vector::new(alloc, members)?,
            machine: Machine::new(alloc, members, now, draw)?,
            held: Holdings::new(alloc, members)?,
            processes: Processes::new(alloc),
        })
    }

    /// The objects that the member published or fetched whole, and that it does not know to be withdrawn.
    pub fn catalogue(&self) -> &Catalogue
        ensures { result.now.entries ≡ member_catalogue self.now.store }
    {
        self.held.catalogue()
    }

    /// The member's vector.
    //
    // A caller sees the value alone, so `sound` states what holds of every member.
    pub fn vector(&self) -> &Vector
        ensures known { result.now ≡ self.now.known }
        ensures sound { IsMemberState self.now }
    {
        &self.vector
    }

    pub fn mode(&self) -> Mode
        ensures { result ≡ mode_of self.now.machine.heard }
    {
        self.machine.mode()
    }

    /// The time from which on the member's timer may fire.
    pub fn deadline(&self) -> u64
        ensures { result ≡ self.now.machine.deadline }
    {
        self.machine.deadline()
    }

    /// How many draws were used, which is the number of the next one.
    pub fn next_draw(&self) -> u64
        ensures { result ≡ self.now.machine.draws }
    {
        self.machine.next_draw()
    }

    /// How often the member published, objects and withdrawals: at most 65,535 times.
    pub fn log_len(&self) -> u32
        ensures len { result ≡ length self.now.log }
        ensures small { result < 2 ^ 16 }
    {
        u32::from(self.vector.get(self.number))
    }

    /// The octets of the packet of a part that the member holds. It allocates nothing.
    pub fn packet(&self, part: Part) -> Option<&[u8]>
        ensures { option_map (λ octets. octets.now) result ≡ value_of part_cmp self.now.store part }
    {
        self.held.packet(part)
    }

    /// The packet of a part that the member holds, which may be shared. It allocates nothing.
    pub fn stored(&self, part: Part) -> Option<&Packet>
        ensures { option_map (λ packet. packet.now) result ≡ value_of part_cmp self.now.store part }
    {
        self.held.stored(part)
    }

    /// Puts the packets that were added since the last call in order of their names, so that an Interest is answered
    /// fast. The member stays as it is. It allocates nothing.
    pub fn order_names(&mut self)
        ensures { self.new ≡ self.old }
    {
        self.held.order_names();
    }

    /// What the member answers to an Interest: the packet of the least part that satisfies it. It allocates nothing.
    pub fn serve(&self, interest: &[u8]) -> Result<Option<&[u8]>, PacketFault>
        ensures { MatchResult result
            (λ found. served interest.now self.now.store ≡ Ok (option_map (λ octets. octets.now) found))
            (λ fault. served interest.now self.now.store ≡ Err fault) }
    {
        self.held.serve(interest)
    }

    /// Every fetcher's claim ends. It allocates nothing.
    pub fn end_claims(&mut self)
        ensures { self.new ≡ member_ends_claims self.old }
    {
        self.held.end_claims();
    }

    /// The sync state starts again, with one draw. It allocates nothing.
    pub fn reset(&mut self, now: u64, draw: u32)
        requires early { now < 2 ^ 62 }
        requires few { self.old.machine.draws < 2 ^ 62 }
        ensures { self.new ≡ member_resets now draw self.old }
    {
        self.machine.reset(now, draw);
    }

    /// The member starts again: claims and insertions end, and the sync state is reset. What it published, knows,
    /// holds and hid stays, and so do the attempts and the numbers of processes. It allocates nothing.
    pub fn restart(&mut self, now: u64, draw: u32)
        requires early { now < 2 ^ 62 }
        requires few { self.old.machine.draws < 2 ^ 62 }
        ensures { self.new ≡ member_restarts now draw self.old }
    {
        self.end_claims();
        self.processes.clear();
        self.reset(now, draw);
    }
}
