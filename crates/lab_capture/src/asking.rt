// The Interests that ask for parts whose packets were received.
ghost use Rattle.std.specs.Prelude.{◌≡◌, ◌<◌, ◌≤◌, Err, Some, false, length, IfOk};
ghost use Rattle.std.specs.Option.{option_map};
ghost use Rattle.ndn_interest.specs.WrittenInterest.{written_plain};
ghost use Rattle.ndn_name.specs.Names.{encoding};
ghost use Rattle.repo_object.specs.Wants.{asked_name};
ghost use Rattle.lab_capture.specs.Frames.{asked_digest, interest_for};

use ndn_data::DataView;
use ndn_interest::write_plain;
use ndn_name::{NAME_LIMIT, Name, NameFault, NameView, full_name};
use ndn_sign::digest;
use repo_plan::Part;
use std::alloc::{AllocError, Global};

// The Interest that asks for a part by the name of its packet, and unless it is a record by the packet's digest too;
// none where the packet has no name that can be asked for.
pub(crate) fn interest_for(
    alloc: Global,
    part: Part,
    packet: &[u8],
) -> Result<Option<Vec<u8>>, AllocError>
    ensures { IfOk result (λ interest. option_map (λ i. i.items) interest ≡ interest_for part packet.now) }
{
    let Ok(data) = DataView::read(packet) else {
        return Ok(None);
    };
    if data.name.len() == 0 {
        return Ok(None);
    }
    match asked_name(alloc, part, packet, &data.name) {
        Ok(name) => write_asking(alloc, &name),
        Err(NameFault::NameTooLong) => Ok(None),
        Err(_) => Err(AllocError),
    }
}

// The Interest that asks for a name.
fn write_asking(alloc: Global, name: &Name) -> Result<Option<Vec<u8>>, AllocError>
    requires { 0 < length name.now }
    ensures { IfOk result (λ interest. option_map (λ i. i.items) interest ≡ Some (written_plain name.now false)) }
{
    Ok(Some(write_plain(alloc, name, false)?))
}

// The name by which a part is asked for, where its packet has the name `name`.
fn asked_name(
    alloc: Global,
    part: Part,
    packet: &[u8],
    name: &NameView<'_>,
) -> Result<Name, NameFault>
    ensures ok { IfOk result (λ asked. asked ≡ asked_name name.now (asked_digest part packet.now)) }
    ensures too_long { result ≡ Err NameFault.NameTooLong
        → NAME_LIMIT < length (encoding (asked_name name.now (asked_digest part packet.now))) }
    ensures fits { IfOk result (λ asked. length (encoding asked) ≤ NAME_LIMIT) }
{
    match Name::from_view(alloc, name) {
        Ok(name) if part.part == 0 => Ok(name),
        Ok(name) => full_name(alloc, &name, &digest(packet)),
        Err(fault) => Err(fault),
    }
}
