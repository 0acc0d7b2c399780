ghost use Rattle.std.specs.Prelude.{◌≡◌, ◌⊎◌, ◌++◌, ◌<◌, length, map, None, Some, IfErr, IfOk, IfSome, MatchOption};
ghost use Rattle.std.specs.Int.{w32, from_le_bytes};
ghost use Rattle.std.specs.List.{All};
ghost use Rattle.lab_capture.specs.Captures.{IsFrame, IsNoCapture, IsStation, address, capture_octets, ethertype};
ghost use Rattle.lab_capture.specs.Captures.{frame_record, framed, number_octets};
ghost use Rattle.lab_capture.specs.Reading.{after_type, first_frame, is_size, number_at, packet_at, station_at};

use crate::fault::CaptureFault;
use crate::frame::Frame;
use crate::station::{Station, station_of};
use crate::writing::{CAPTURE_HEAD, ETHERTYPE, FRAME_HEAD_LEN, SNAP_LEN};
use std::alloc::Global;

/// The frames of a capture of whole frames between stations, as `put_capture_head` and `put_frame` write one.
pub fn read_capture(alloc: Global, octets: &[u8]) -> Result<Vec<Frame<'_>>, CaptureFault>
    // These frames are the only ones whose capture the octets are.
    ensures frames { IfOk result (λ frames. octets.now ≡ capture_octets (map framed frames.items)) }
    ensures are { IfOk result (λ frames. All IsFrame (map framed frames.items)) }
    ensures refused { IfErr result (λ fault. (fault ≡ CaptureFault.NoMemory)
        ⊎ ((fault ≡ CaptureFault.NoCapture) × IsNoCapture octets.now)) }
{
    let Some((head, mut rest)) = octets.split_first_chunk() else {
        return Err(CaptureFault::NoCapture);
    };
    if *head != CAPTURE_HEAD {
        return Err(CaptureFault::NoCapture);
    }
    let mut frames = Vec::new(alloc);
    while !rest.is_empty() {
        let Some((frame, others)) = first_frame(rest) else {
            return Err(CaptureFault::NoCapture);
        };
        let Ok(()) = frames.push(frame) else {
            return Err(CaptureFault::NoMemory);
        };
        rest = others;
    }
    Ok(frames)
}

// The frame whose record `octets` begin with, if they begin with one, and what follows it.
fn first_frame(octets: &[u8]) -> Option<(Frame<'_>, &[u8])>
    ensures read { MatchOption result (first_frame octets.now ≡ None)
        (λ x. first_frame octets.now ≡ Some (framed x.0, x.1.now)) }
    ensures spelled { IfSome result (λ x. octets.now ≡ frame_record (framed x.0) ++ x.1.now) }
    ensures is { IfSome result (λ x. IsFrame (framed x.0)) }
{
    let (seconds, rest) = take_number(octets)?;
    let (micros, rest) = take_number(rest)?;
    let (captured, rest) = take_number(rest)?;
    let (count, rest) = take_number(rest)?;
    if !is_size(captured, count) {
        return None;
    }
    let (destination, rest) = take_station(rest)?;
    let (source, rest) = take_station(rest)?;
    let rest = after_type(rest)?;
    let (packet, rest) = take_packet(rest, (count - FRAME_HEAD_LEN) as usize)?;
    let frame = Frame {
        seconds,
        micros,
        source,
        destination,
        packet,
    };
    Some((frame, rest))
}

// `captured`, how many octets of a frame follow, is `count`, how many it has, and a frame of a capture may have that
// many.
fn is_size(captured: u32, count: u32) -> bool
    ensures { result ≡ is_size captured count }
{
    captured == count && (FRAME_HEAD_LEN <= count && count <= SNAP_LEN)
}

// Each of the following functions takes a field from the beginning of octets, and returns what follows it too.

#[tactic(auto, unfolding(crate::specs::Reading::number_at))]
fn take_number(octets: &[u8]) -> Option<(u32, &[u8])>
    ensures read { MatchOption result (number_at octets.now ≡ None)
        (λ x. number_at octets.now ≡ Some (x.0, x.1.now)) }
    ensures spelled { IfSome result (λ x. octets.now ≡ number_octets x.0 ++ x.1.now) }
{
    let (number, rest) = octets.split_first_chunk()?;
    Some((number_of(*number), rest))
}

fn number_of(octets: [u8; 4]) -> u32
    ensures read { result ≡ from_le_bytes w32 octets }
    ensures spelled { octets ≡ number_octets result }
{
    u32::from_le_bytes(octets)
}

#[tactic(auto, unfolding(crate::specs::Reading::station_at))]
fn take_station(octets: &[u8]) -> Option<(Station, &[u8])>
    ensures read { MatchOption result (station_at octets.now ≡ None)
        (λ x. station_at octets.now ≡ Some (x.0, x.1.now)) }
    ensures station { IfSome result (λ x. IsStation x.0) }
    ensures spelled { IfSome result (λ x. octets.now ≡ address x.0 ++ x.1.now) }
{
    let (found, rest) = octets.split_first_chunk()?;
    let station = station_of(found)?;
    Some((station, rest))
}

#[tactic(auto, unfolding(crate::specs::Reading::after_type))]
fn after_type(octets: &[u8]) -> Option<&[u8]>
    ensures read { MatchOption result (after_type octets.now ≡ None) (λ rest. after_type octets.now ≡ Some rest.now) }
    ensures spelled { IfSome result (λ rest. octets.now ≡ ethertype ++ rest.now) }
{
    let (found, rest) = octets.split_first_chunk()?;
    if *found == ETHERTYPE {
        Some(rest)
    } else {
        None
    }
}

#[tactic(auto, unfolding(crate::specs::Reading::packet_at))]
fn take_packet(octets: &[u8], count: usize) -> Option<(&[u8], &[u8])>
    ensures read { MatchOption result (packet_at count octets.now ≡ None)
        (λ x. packet_at count octets.now ≡ Some (x.0.now, x.1.now)) }
    ensures spelled { IfSome result (λ x. octets.now ≡ x.0.now ++ x.1.now) }
    ensures len { IfSome result (λ x. length x.0.now ≡ count) }
{
    octets.split_at_checked(count)
}
