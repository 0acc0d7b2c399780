ghost use Rattle.std.specs.Prelude.{◌≡◌, ◌≤◌, ◌+◌, ◌++◌, length, take, OnErr, OnOk};
ghost use Rattle.lab_capture.specs.Captures.{IsFrame, IsStation, address, capture_head, frame_head_octets};
ghost use Rattle.lab_capture.specs.Captures.{frame_octets, frame_record, framed, number_octets, snap_octets};

use crate::frame::Frame;
use crate::station::{Station, address};
use std::alloc::AllocError;

// How a capture begins: the magic number of times in microseconds, version 2.4, zone and accuracy 0, the most octets of
// a frame that follow, and the link type of Ethernet, each with its lowest octet first.
pub(crate) const CAPTURE_HEAD: [u8; 24] = [
    0xd4, 0xc3, 0xb2, 0xa1, 2, 0, 4, 0, 0, 0, 0, 0, 0, 0, 0, 0, 0xff, 0xff, 0, 0, 1, 0, 0, 0,
];

// The type of frames with packets of NDN.
pub(crate) const ETHERTYPE: [u8; 2] = [0x86, 0x24];

// How many octets stand before the packet in a frame: two addresses and the type.
pub(crate) const FRAME_HEAD_LEN: u32 = 14;

// How many octets of a frame a capture has at most.
pub(crate) const SNAP_LEN: u32 = 65_535;

/// Appends the head of a capture. Where memory runs out nothing changes.
pub fn put_capture_head(out: &mut Vec<u8>) -> Result<(), AllocError>
    ensures ok { OnOk result (out.new.items ≡ out.old.items ++ capture_head) }
    ensures err { OnErr result (out.new.items ≡ out.old.items) }
{
    out.extend_from_slice(&CAPTURE_HEAD)
}

/// Appends the record of a frame. Where memory runs out nothing changes.
pub fn put_frame(out: &mut Vec<u8>, frame: &Frame<'_>) -> Result<(), AllocError>
    requires { IsFrame (framed frame.now) }
    ensures ok { OnOk result (out.new.items ≡ out.old.items ++ frame_record (framed frame.now)) }
    ensures err { OnErr result (out.new.items ≡ out.old.items) }
{
    let before = out.len();
    let written = write_frame(out, frame);
    if written.is_err() {
        out.truncate(before);
    }
    written
}

// Appends the record of a frame. Where memory runs out, a part of it may be appended.
fn write_frame(out: &mut Vec<u8>, frame: &Frame<'_>) -> Result<(), AllocError>
    requires { IsFrame (framed frame.now) }
    ensures ok { OnOk result (out.new.items ≡ out.old.items ++ frame_record (framed frame.now)) }
    ensures kept { take (length out.old.items) out.new.items ≡ out.old.items }
{
    let len = frame_len(frame);
    write_number(out, frame.seconds)?;
    write_number(out, frame.micros)?;
    write_number(out, len)?;
    write_number(out, len)?;
    write_address(out, frame.destination)?;
    write_address(out, frame.source)?;
    write_octets(out, &ETHERTYPE)?;
    write_octets(out, frame.packet)
}

// How many octets a frame has.
fn frame_len(frame: &Frame<'_>) -> u32
    requires { frame_head_octets + length frame.now.packet.now ≤ snap_octets }
    ensures { result ≡ frame_octets (framed frame.now) }
{
    FRAME_HEAD_LEN + frame.packet.len() as u32
}

fn write_number(out: &mut Vec<u8>, number: u32) -> Result<(), AllocError>
    ensures ok { OnOk result (out.new.items ≡ out.old.items ++ number_octets number) }
    ensures err { OnErr result (out.new.items ≡ out.old.items) }
{
    out.extend_from_slice(&number.to_le_bytes())
}

fn write_address(out: &mut Vec<u8>, station: Station) -> Result<(), AllocError>
    requires { IsStation station }
    ensures ok { OnOk result (out.new.items ≡ out.old.items ++ address station) }
    ensures err { OnErr result (out.new.items ≡ out.old.items) }
{
    out.extend_from_slice(&address(station))
}

fn write_octets(out: &mut Vec<u8>, octets: &[u8]) -> Result<(), AllocError>
    ensures ok { OnOk result (out.new.items ≡ out.old.items ++ octets.now) }
    ensures err { OnErr result (out.new.items ≡ out.old.items) }
{
    out.extend_from_slice(octets)
}
