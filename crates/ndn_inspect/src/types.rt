ghost use Rattle.std.specs.Prelude.{◌≡◌};
ghost use Rattle.ndn_inspect.specs.Types.{type_name, has_elements};

// What elements of this type are called (NDN Packet Format 0.3, "TLV-TYPE numbers").
#[tactic(auto, unfolding(crate::specs::Types::type_name))]
pub(crate) fn name_of(typ: u32) -> &'static str
    ensures { result.now ≡ type_name typ }
{
    match typ {
        0x01 => "ImplicitSha256DigestComponent",
        0x02 => "ParametersSha256DigestComponent",
        0x05 => "Interest",
        0x06 => "Data",
        0x07 => "Name",
        0x08 => "GenericNameComponent",
        0x0a => "Nonce",
        0x0c => "InterestLifetime",
        0x12 => "MustBeFresh",
        0x14 => "MetaInfo",
        0x15 => "Content",
        0x16 => "SignatureInfo",
        0x17 => "SignatureValue",
        0x18 => "ContentType",
        0x19 => "FreshnessPeriod",
        0x1a => "FinalBlockId",
        0x1b => "SignatureType",
        0x1c => "KeyLocator",
        0x1d => "KeyDigest",
        0x1e => "ForwardingHint",
        0x21 => "CanBePrefix",
        0x22 => "HopLimit",
        0x24 => "ApplicationParameters",
        0x2c => "InterestSignatureInfo",
        0x2e => "InterestSignatureValue",
        0x32 => "SegmentNameComponent",
        0x36 => "VersionNameComponent",
        0x3a => "SequenceNumNameComponent",
        _ => "Unknown",
    }
}

// Whether the value of such an element is read as elements.
#[tactic(auto, unfolding(crate::specs::Types::has_elements))]
pub(crate) fn has_elements(typ: u32) -> bool
    ensures { result ≡ has_elements typ }
{
    matches!(typ, 0x05 | 0x06 | 0x07 | 0x14 | 0x16 | 0x1a | 0x1c | 0x2c)
}
