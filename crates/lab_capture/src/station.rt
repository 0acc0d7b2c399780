ghost use Rattle.std.specs.Prelude.{◌≡◌, IfSome};
ghost use Rattle.lab_capture.specs.Captures.{IsStation, address};
ghost use Rattle.lab_capture.specs.Reading.{numbered, station_of};

/// Who sends a frame, or whom it is for. Members, mirrors and clients are numbered from 0.
#[derive(Clone, Copy, Debug, PartialEq, Eq)]
pub enum Station {
    Member(u8),
    Mirror(u8),
    Client(u8),
    /// A station that is no member and no client, and sends octets from outside.
    Outside,
    /// All members at once.
    AllMembers,
}

// The Ethernet address of a station.
pub(crate) fn address(station: Station) -> [u8; 6]
    requires { IsStation station }
    ensures { result ≡ address station }
{
    match station {
        Station::Member(number) => [2, 0, 0, 0, 0, number + 1],
        Station::Mirror(number) => [2, 0, 0, 0, 1, number + 1],
        Station::Client(number) => [2, 0, 0, 0, 2, number + 1],
        Station::Outside => [2, 0, 0, 0, 3, 1],
        Station::AllMembers => [1, 0, 0x5e, 0, 0x17, 0xaa],
    }
}

// The station of an address, if there is one.
pub(crate) fn station_of(octets: &[u8; 6]) -> Option<Station>
    ensures read { result ≡ station_of octets.now }
    ensures station { IfSome result IsStation }
    ensures spelled { IfSome result (λ station. octets.now ≡ address station) }
{
    let [_, _, _, _, kind, number] = *octets;
    let station = numbered(kind, number);
    if address(station) == *octets {
        Some(station)
    } else {
        None
    }
}

// The only station whose address can end with the octets `kind` and `number`.
fn numbered(kind: u8, number: u8) -> Station
    ensures station { IsStation result }
    ensures numbered { result ≡ numbered kind number }
{
    let index = number.saturating_sub(1);
    match kind {
        0 => Station::Member(index),
        1 => Station::Mirror(index),
        2 => Station::Client(index),
        3 => Station::Outside,
        _ => Station::AllMembers,
    }
}
