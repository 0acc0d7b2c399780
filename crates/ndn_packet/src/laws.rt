ghost use Rattle.std.specs.Prelude.{◌≡◌};
ghost use Rattle.ndn_packet.specs.Outer.{packet_limit};
ghost use Rattle.ndn_packet.specs.SignatureInfo.{SignatureHmacWithSha256};

use crate::outer::PACKET_LIMIT;
use crate::signature_info::SIGNATURE_HMAC_WITH_SHA256;

/// The limit of packets and the signature type are those of the definitions.
pub fn constants_are_the_definitions()
    ensures limit { PACKET_LIMIT ≡ packet_limit }
    ensures hmac { SIGNATURE_HMAC_WITH_SHA256 ≡ SignatureHmacWithSha256 }
{}
