ghost use Rattle.std.specs.Prelude.{◌≡◌};
ghost use Rattle.lab_capture.specs.Captures.{frame_at, framed};

use crate::station::Station;

/// A frame of Ethernet with a packet of NDN in it, as a capture has it.
#[derive(Clone, Copy, Debug, PartialEq, Eq)]
pub struct Frame<'p> {
    /// When it was sent: whole seconds, and microseconds after them.
    pub seconds: u32,
    pub micros: u32,
    pub source: Station,
    pub destination: Station,
    pub packet: &'p [u8],
}

impl<'p> Frame<'p> {
    /// The frame of a packet that is sent at a time in milliseconds.
    pub fn at(time: u64, source: Station, destination: Station, packet: &'p [u8]) -> Frame<'p>
        ensures { framed result ≡ frame_at time source destination packet.now }
    {
        Frame {
            seconds: (time / 1000 % 4_294_967_296) as u32,
            micros: (time % 1000 * 1000) as u32,
            source,
            destination,
            packet,
        }
    }
}
