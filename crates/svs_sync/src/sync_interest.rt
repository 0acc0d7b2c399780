ghost use Rattle.std.specs.Prelude.{◌≡◌, ◌≢◌, ◌⊎◌, IfOk, IsOk, MatchResult, Ok, Err, Some, length};
ghost use Rattle.std.specs.List.{All};
ghost use Rattle.svs_vector.specs.declared.vector_fault.VectorFault.TheVariants as fault;
ghost use Rattle.svs_sync.specs.SyncInterest.{sync_name, sync_interest, sync_verdict, is_sync_name, IsNodeName};
ghost use Rattle.svs_sync.specs.SyncInterest.{IsKeyName};

use crate::sync_refusal::SyncRefusal;
use ndn_interest::{InterestView, signer_of, write_signed};
use ndn_name::{Name, NameFault, NameView, PacketWriteFault};
use ndn_sign::KeyRing;
use ndn_tlv::types;
use std::alloc::{AllocError, Global};
use svs_vector::{Roster, Vector, VectorNumbers};

// What stands after the group's name in the name of its sync Interests: the component of version 2, and the head of the
// parameters digest's component.
const AFTER_GROUP: [u8; 5] = [
    types::VERSION_NAME_COMPONENT as u8,
    1,
    VERSION,
    types::PARAMETERS_SHA256_DIGEST_COMPONENT as u8,
    32,
];

// The version of State Vector Sync.
const VERSION: u8 = 2;

/// Makes the sync Interest of a member that knows this vector, signed with its key (State Vector
/// Sync; NDN Packet Format 0.3, "Signed Interest").
pub fn make_sync(
    alloc: Global,
    group: &Name,
    vector: &Vector,
    roster: &Roster,
    key_name: &Name,
    key: &[u8],
) -> Result<Vec<u8>, AllocError>
    requires group { IsNodeName group.now }
    requires width { length vector.now ≡ length roster.now }
    requires members { All IsNodeName roster.now }
    requires key_name { IsKeyName key_name.now }
    ensures { IfOk result (λ octets. octets.items
        ≡ sync_interest group.now vector.now roster.now key_name.now key.now) }
{
    let name = sync_name(alloc, group)?;
    let parameters = vector.write(alloc, roster)?;
    write_signed(alloc, &name, &parameters, key_name, key).map_err(PacketWriteFault::only_memory)
}

// The name of the group's sync Interests, without the parameters digest.
fn sync_name(alloc: Global, group: &Name) -> Result<Name, AllocError>
    requires { IsNodeName group.now }
    ensures { IfOk result (λ name. name ≡ sync_name group.now) }
{
    let mut name = group.clone()?;
    name.push(types::VERSION_NAME_COMPONENT, &[VERSION])
        .map_err(NameFault::only_memory)?;
    Ok(name)
}

/// Checks the octets of a sync Interest of the group, and gives the number of the key in the ring
/// that signed it, and its vector.
///
/// Only the vector takes memory, and that comes last: it is checked as [`check_numbers`] checks it.
pub fn check_sync(
    alloc: Global,
    octets: &[u8],
    group: &Name,
    roster: &Roster,
    ring: &KeyRing,
) -> Result<(u32, Vector), SyncRefusal>
    ensures verdict { MatchResult result
        (λ received. sync_verdict group.now roster.now ring.now octets.now ≡ Ok (received.0, received.1))
        (λ refusal. (sync_verdict group.now roster.now ring.now octets.now ≡ Err refusal)
        ⊎ (refusal ≡ SyncRefusal.NoMemory)) }
    ensures memory { result ≡ Err SyncRefusal.NoMemory
        → IsOk (sync_verdict group.now roster.now ring.now octets.now) }
    ensures vector { result ≢ Err (SyncRefusal.Vector fault.NoMemory) }
    ensures width { IfOk result (λ received. length received.1 ≡ length roster.now) }
{
    let (signer, received) = check_numbers(octets, group, roster, ring)?;
    match received.to_vector(alloc) {
        Ok(vector) => Ok((signer, vector)),
        Err(_) => Err(SyncRefusal::NoMemory),
    }
}

/// Checks the octets of a sync Interest of the group, and gives the number of the key in the ring
/// that signed it, and its numbers. It allocates nothing.
///
/// The signer is recognised by its key alone, whatever the numbers are. What follows the state vector in the parameters
/// is passed over.
pub fn check_numbers(
    octets: &[u8],
    group: &Name,
    roster: &Roster,
    ring: &KeyRing,
) -> Result<(u32, VectorNumbers), SyncRefusal>
    ensures verdict { MatchResult result
        (λ received. sync_verdict group.now roster.now ring.now octets.now ≡ Ok (received.0, received.1))
        (λ refusal. sync_verdict group.now roster.now ring.now octets.now ≡ Err refusal) }
    ensures width { IfOk result (λ received. length received.1 ≡ length roster.now) }
{
    let interest = InterestView::read(octets)?;
    if !is_sync_name(&interest.name, group) {
        return Err(SyncRefusal::WrongGroup);
    }
    let signer = signer_of(&interest, ring)?;
    match VectorNumbers::read(interest.parameters.unwrap_or(&[]), roster) {
        Ok(received) => Ok((signer, received)),
        Err(fault) => Err(SyncRefusal::Vector(fault)),
    }
}

// Whether the name is that of the group's sync Interests, with a parameters digest after it.
fn is_sync_name(name: &NameView<'_>, group: &Name) -> bool
    ensures { result ≡ is_sync_name group.now name.now }
{
    let Some(after) = name.octets().strip_prefix(group.octets()) else {
        return false;
    };
    match after.strip_prefix(&AFTER_GROUP) {
        Some(digest) => digest.len() == 32,
        None => false,
    }
}
