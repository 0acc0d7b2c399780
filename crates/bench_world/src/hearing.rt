// Sync Interests from outside.
ghost use Rattle.std.specs.Prelude.{◌≡◌, ◌⊎◌, ◌<◌, ◌≤◌, ◌^◌, true, false, Ok, Err, IfOk, IfErr, OnOk, OnErr};
ghost use Rattle.std.specs.Prelude.{length, slice_index};
ghost use Rattle.bench_net.specs.SentList.{was_sent};
ghost use Rattle.svs_sync.specs.Suppression.{mode_of};
ghost use Rattle.repo_member.specs.MemberState.{IsOfGroup, member_hears};
ghost use Rattle.repo_member.specs.Verdicts.{group_verdict};
ghost use Rattle.bench_world.specs.Hearing.{accepted_sync, CanHearVector};

use crate::event::EventError;
use crate::numbers::numbers;
use bench_net::Sent;
use repo_member::{Group, HearRefusal, Member};
use std::alloc::Global;
use svs_sync::{Mode, SyncRefusal, check_sync};
use svs_vector::Vector;

// The signer and the vector of the sync Interest in `octets`, if the member takes it.
pub(crate) fn signed_vector(
    alloc: Global,
    g: &Group,
    member: &Member,
    number: u32,
    octets: &[u8],
) -> Result<(u32, Vector), HearRefusal>
    requires group { IsOfGroup g.now member.now }
    requires number { number ≡ member.now.number }
    requires there { number < length member.now.known }
    ensures received { IfOk result (λ received. accepted_sync (length member.now.log) number
        (group_verdict g.now octets.now)
        ≡ Ok (record { sender = received.0; vector = received.1 })) }
    ensures own { IfOk result (λ received. slice_index received.1 member.now.number ≤ length member.now.log) }
    ensures width { IfOk result (λ received. length received.1 ≡ length member.now.known) }
    ensures refused { IfErr result (λ refusal. (refusal ≡ HearRefusal.NoMemory)
        ⊎ (accepted_sync (length member.now.log) number (group_verdict g.now octets.now) ≡ Err refusal)) }
{
    g.cite_soundness();
    let (signer, vector) = match check_sync(alloc, octets, g.name(), g.roster(), g.members()) {
        Ok(received) => received,
        Err(SyncRefusal::NoMemory) => return Err(HearRefusal::NoMemory),
        Err(refusal) => return Err(HearRefusal::Sync(refusal)),
    };
    let own = member.log_len();
    let received = u32::from(vector.get(number));
    if received > own {
        return Err(HearRefusal::OwnNumberAhead {
            own,
            told: received,
        });
    }
    Ok((signer, vector))
}

// The member hears the vector, if the signer sent it: the mode of its sync state afterwards. Else the vector is
// foreign.
pub(crate) fn hear_sent(
    alloc: Global,
    sent: &Sent,
    member: &mut Member,
    signer: u32,
    vector: &Vector,
    now: u64,
    draw: u32,
) -> Result<Mode, EventError>
    requires vector { CanHearVector vector.now member.old }
    requires early { now < 2 ^ 62 }
    requires few { member.old.machine.draws < 2 ^ 62 }
    ensures sent { OnOk result (was_sent signer vector.now sent.now.packets ≡ true) }
    ensures ok { OnOk result (member.new ≡ member_hears vector.now now draw member.old) }
    ensures mode { IfOk result (λ mode. mode ≡ mode_of member.new.machine.heard) }
    ensures foreign { IfErr result (λ fault. (fault ≡ EventError.NoMemory)
        ⊎ ((fault ≡ EventError.Foreign) × (was_sent signer vector.now sent.now.packets ≡ false))) }
    ensures err { OnErr result (member.new ≡ member.old) }
{
    let numbers = numbers(alloc, vector)?;
    if !sent.has(signer, numbers.as_slice()) {
        return Err(EventError::Foreign);
    }
    Ok(member.hear_vector(vector, now, draw))
}
