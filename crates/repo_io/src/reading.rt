ghost use Rattle.std.specs.Prelude.{◌≡◌, ◌<◌, ◌≤◌, ◌+◌, length, Err, IfOk, OnOk, OnErr};
ghost use Rattle.std.specs.Io.KnownBytes.{IsAtEnd, Keeps, prepend_known};
ghost use Rattle.repo_io.specs.Outside.{HasRisen};

use crate::failed::Failed;
use crate::read_fault::ReadFault;
use crate::source::Source;
use std::alloc::Global;

// How many octets are asked for at once.
const CHUNK: usize = 4096;

/// Reads to the end, or until there are `most` octets.
pub fn read_up_to<S: Source>(
    alloc: Global,
    source: &mut S,
    most: usize,
) -> Result<Vec<u8>, ReadFault>
    ensures taken { IfOk result
        (λ octets. Keeps (S.left source.old) (prepend_known octets.items (S.left source.new))) }
    ensures most { IfOk result (λ octets. length octets.items ≤ most) }
    ensures whole { IfOk result (λ octets. length octets.items < most
        → IsAtEnd (S.left source.new)) }
    ensures risen { result ≡ Err ReadFault.Failed
        → HasRisen (S.faults source.old) (S.faults source.new) }
{
    let mut octets = Vec::new(alloc);
    while octets.len() < most {
        let room = most - octets.len();
        if read_some(source, &mut octets, room)? == 0 {
            return Ok(octets);
        }
    }
    Ok(octets)
}

// Reads as many octets as one call gives, and returns how many. There is capacity for `room`.
fn read_some<S: Source>(
    source: &mut S,
    octets: &mut Vec<u8>,
    room: usize,
) -> Result<usize, ReadFault>
    requires { 0 < room }
    ensures taken { OnOk result (Keeps (prepend_known octets.old.items (S.left source.old))
        (prepend_known octets.new.items (S.left source.new))) }
    ensures count { IfOk result
        (λ n. (n ≤ room) × (length octets.new.items ≡ length octets.old.items + n)) }
    ensures end { IfOk result (λ n. n ≡ 0 → IsAtEnd (S.left source.new)) }
    ensures risen { result ≡ Err ReadFault.Failed
        → HasRisen (S.faults source.old) (S.faults source.new) }
    ensures faults { S.faults source.old ≤ S.faults source.new }
{
    let mut chunk = [0; CHUNK];
    let n = source.read(&mut chunk[..room.min(CHUNK)])?;
    octets.extend_from_slice(&chunk[..n])?;
    Ok(n)
}
