ghost use Rattle.std.specs.Prelude.{◌≡◌, ◌<◌, ◌≤◌, ◌^◌, ◌↔◌, Ok, IsFalse, IfOk, IfErr, IsOkAnd, OnOk, OnErr};
ghost use Rattle.std.specs.Prelude.{length, slice_index};
ghost use Rattle.svs_vector.specs.Vectors.{join};
ghost use Rattle.svs_sync.specs.Suppression.{mode_of};
ghost use Rattle.svs_sync.specs.SyncStates.{when_fired};
ghost use Rattle.repo_member.specs.Groups.{node_limit};
ghost use Rattle.repo_member.specs.MemberState.{IsOfGroup, member_learns, member_hears, member_fires};
ghost use Rattle.repo_member.specs.Verdicts.{sync_of, hear_verdict, IsHearRefusal};
ghost use Rattle.repo_member.specs.Fires.{IsFireAnswer};

use super::Member;
use crate::group::Group;
use crate::refusals::HearRefusal;
use repo_holdings::Holdings;
use repo_object::key_name;
use std::alloc::{AllocError, Global};
use svs_sync::{Fired, Mode, make_sync};
use svs_vector::Vector;

/// What a member does when its timer fires.
#[derive(Debug, Drop)]
pub enum Fire {
    /// It is not due yet.
    Early,
    /// It is due, and others have sent what it knows.
    Quiet,
    /// It sends this sync Interest.
    Sent(Vec<u8>),
}

impl Member {
    /// The member hears a sync Interest: its vector is from now on the join with the Interest's vector, and its sync
    /// state is informed of that vector too.
    pub fn hear(
        &mut self,
        g: &Group,
        octets: &[u8],
        now: u64,
        draw: u32,
    ) -> Result<Mode, HearRefusal>
        requires group { IsOfGroup g.now self.old }
        requires early { now < 2 ^ 62 }
        requires few { self.old.machine.draws < 2 ^ 62 }
        ensures ok { OnOk result (IsOkAnd (hear_verdict g.now self.old octets.now)
            (λ received. self.new ≡ member_hears received now draw self.old)) }
        ensures mode { IfOk result (λ mode. mode ≡ mode_of self.new.machine.heard) }
        ensures refused { IfErr result (IsHearRefusal (hear_verdict g.now self.old octets.now)) }
        ensures err { OnErr result (self.new ≡ self.old) }
    {
        let received = self.received(g, octets)?;
        Ok(self.hear_vector(&received, now, draw))
    }

    /// The member hears a vector that reports no more publications of it than it made, as `hear` does. It takes no
    /// memory.
    pub fn hear_vector(&mut self, received: &Vector, now: u64, draw: u32) -> Mode
        requires width { length received.now ≡ length self.old.known }
        requires members { length received.now ≤ node_limit }
        requires own { slice_index received.now self.old.number ≤ length self.old.log }
        requires early { now < 2 ^ 62 }
        requires few { self.old.machine.draws < 2 ^ 62 }
        ensures new { self.new ≡ member_hears received.now now draw self.old }
        ensures mode { result ≡ mode_of self.new.machine.heard }
    {
        let mode = self.machine.heard(now, received, &self.vector, draw);
        learn(&mut self.vector, &mut self.held, received);
        mode
    }

    /// The member joins the vector of a sync Interest to its own, as `hear` does, and its sync state isn't informed of
    /// it.
    ///
    /// The answer is whether the member's vector changed.
    pub fn join_from(&mut self, g: &Group, octets: &[u8]) -> Result<bool, HearRefusal>
        requires group { IsOfGroup g.now self.old }
        ensures ok { OnOk result (IsOkAnd (hear_verdict g.now self.old octets.now)
            (λ received. self.new ≡ member_learns received self.old)) }
        ensures changed { IfOk result (λ changed. IsFalse changed ↔ (self.new.known ≡ self.old.known)) }
        ensures refused { IfErr result (IsHearRefusal (hear_verdict g.now self.old octets.now)) }
        ensures err { OnErr result (self.new ≡ self.old) }
    {
        let received = self.received(g, octets)?;
        Ok(self.join_vector(&received))
    }

    /// The member joins a vector to its own, as `join_from` does. The vector reports no more publications of the member
    /// than it made. It takes no memory.
    pub fn join_vector(&mut self, received: &Vector) -> bool
        requires width { length received.now ≡ length self.old.known }
        requires members { length received.now ≤ node_limit }
        requires own { slice_index received.now self.old.number ≤ length self.old.log }
        ensures new { self.new ≡ member_learns received.now self.old }
        ensures changed { IsFalse result ↔ (self.new.known ≡ self.old.known) }
    {
        learn(&mut self.vector, &mut self.held, received)
    }

    /// The member's timer fires.
    pub fn fire(&mut self, g: &Group, now: u64, draw: u32) -> Result<Fire, AllocError>
        requires group { IsOfGroup g.now self.old }
        requires early { now < 2 ^ 62 }
        requires few { self.old.machine.draws < 2 ^ 62 }
        ensures fire { IfOk result (IsFireAnswer (when_fired now self.old.known self.old.machine)
            (sync_of g.now self.old.number self.old.known)) }
        ensures ok { OnOk result (self.new ≡ member_fires now draw self.old) }
        ensures err { OnErr result (self.new ≡ self.old) }
    {
        let fire = match self.machine.fires(now, &self.vector) {
            Fired::Early => Fire::Early,
            Fired::Quiet => Fire::Quiet,
            Fired::Send => Fire::Sent(self.sync(*self.log.allocator(), g)?),
        };
        self.machine.fired(now, &self.vector, draw);
        Ok(fire)
    }

    /// The sync Interest with the member's vector as it is now.
    pub fn sync(&self, alloc: Global, g: &Group) -> Result<Vec<u8>, AllocError>
        requires { IsOfGroup g.now self.now }
        ensures { IfOk result (λ sync. sync.items ≡ sync_of g.now self.now.number self.now.known) }
    {
        sync_of(alloc, g, self.number, &self.vector)
    }

    // The vector that octets have, if they are a sync Interest of the group and report no more publications of this
    // member than it made. Memory is taken for it last.
    fn received(&self, g: &Group, octets: &[u8]) -> Result<Vector, HearRefusal>
        requires { IsOfGroup g.now self.now }
        ensures received { IfOk result (λ received. hear_verdict g.now self.now octets.now ≡ Ok received) }
        ensures own { IfOk result (λ received. slice_index received self.now.number ≤ length self.now.log) }
        ensures width { IfOk result (λ received. length received ≡ length self.now.known) }
        ensures members { IfOk result (λ received. length received ≤ node_limit) }
        ensures refused { IfErr result (IsHearRefusal (hear_verdict g.now self.now octets.now)) }
    {
        let received = match g.check_numbers(octets) {
            Ok((_, received)) => received,
            Err(refusal) => return Err(HearRefusal::Sync(refusal)),
        };
        self.not_ahead(received.get(self.number))?;
        Ok(received.to_vector(*self.log.allocator())?)
    }

    // The vector has no more publications of this member than it made.
    fn not_ahead(&self, received: u16) -> Result<(), HearRefusal>
        ensures ok { OnOk result (received ≤ length self.now.log) }
        ensures ahead { IfErr result (λ refusal.
            (refusal ≡ HearRefusal.OwnNumberAhead (length self.now.log) received) × (length self.now.log < received)) }
    {
        let own = self.vector.get(self.number);
        if received > own {
            return Err(HearRefusal::OwnNumberAhead {
                own: u32::from(own),
                told: u32::from(received),
            });
        }
        Ok(())
    }
}

// Joins `received` to the vector of a member and of its holdings. The answer is whether the vector changed.
fn learn(vector: &mut Vector, held: &mut Holdings, received: &Vector) -> bool
    requires width { length received.now ≡ length vector.old }
    requires few { length received.now ≤ node_limit }
    requires known { held.old.known ≡ vector.old }
    ensures vector { vector.new ≡ join vector.old received.now }
    ensures held { held.new ≡ record held.old { known = join vector.old received.now } }
    ensures changed { IsFalse result ↔ (vector.new ≡ vector.old) }
{
    for member in 0..received.members() as u32 {
        held.raise(member, received.get(member));
    }
    vector.join(received)
}

// The sync Interest of the member `number` with the vector `vector`.
pub(super) fn sync_of(
    alloc: Global,
    g: &Group,
    number: u32,
    vector: &Vector,
) -> Result<Vec<u8>, AllocError>
    requires member { number < length g.now.members.names }
    requires width { length vector.now ≡ length g.now.members.names }
    ensures { IfOk result (λ sync. sync.items ≡ sync_of g.now number vector.now) }
{
    g.cite_soundness();
    let key_name = key_name(g.roster().name(number))?;
    let key = g.members().key(number);
    make_sync(alloc, g.name(), vector, g.roster(), &key_name, key)
}
