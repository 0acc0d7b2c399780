ghost use Rattle.std.specs.Prelude.{◌≡◌, ◌≤◌, ℕ, List, Option, Ok, length};
ghost use Rattle.ndn_tlv.specs.Elements.{IsOctets};
ghost use Rattle.ndn_name.specs.Names.{Component, IsName};
ghost use Rattle.ndn_packet.specs.Outer.{packet_limit};
ghost use Rattle.ndn_data.specs.Data.{Data, data_of, DataIsSpelled};
ghost use Rattle.ndn_data.specs.WrittenData.{written_data, read_back};

/// A Data packet is the spelling of its element, and in that stands what is signed, from the
/// beginning of the Name on, and then the SignatureValue.
pub fn data_is_spelled()
    ensures { (octets : List ℕ) (d : Data) → IsOctets octets → data_of octets ≡ Ok d
        → DataIsSpelled octets d }
{}

/// The content of a packet is no longer than a packet may be.
pub fn contents_fit()
    ensures { (octets : List ℕ) (d : Data) → data_of octets ≡ Ok d → length d.content ≤ packet_limit }
{}

/// A packet that was written is read back: the fields that were given, and a signature that is the
/// mac of the signed portion under the key.
pub fn written_data_is_read()
    ensures { (name key_name : List Component) (last : Option ℕ) (content key : List ℕ)
        → IsName name → IsName key_name
        → length (written_data name last content key_name key) ≤ packet_limit
        → data_of (written_data name last content key_name key)
        ≡ Ok (read_back name last content key_name key) }
{}
