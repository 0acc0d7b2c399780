//! The types of the elements of NDN Packet Format 0.3, each under the name that the standard gives
//! it ("TLV-TYPE number assignments").

ghost use Rattle.std.specs.Prelude.{◌≡◌};
ghost use Rattle.ndn_tlv.specs.Types as standard;

// Packets.
pub const INTEREST: u32 = 0x05;

pub const DATA: u32 = 0x06;

// Names, and their components, whose types are at most 65,535.
pub const NAME: u32 = 0x07;

pub const IMPLICIT_SHA256_DIGEST_COMPONENT: u16 = 0x01;

pub const PARAMETERS_SHA256_DIGEST_COMPONENT: u16 = 0x02;

pub const GENERIC_NAME_COMPONENT: u16 = 0x08;

pub const SEGMENT_NAME_COMPONENT: u16 = 0x32;

pub const VERSION_NAME_COMPONENT: u16 = 0x36;

pub const SEQUENCE_NUM_NAME_COMPONENT: u16 = 0x3a;

// What an Interest has besides its name.
pub const CAN_BE_PREFIX: u32 = 0x21;

pub const MUST_BE_FRESH: u32 = 0x12;

pub const FORWARDING_HINT: u32 = 0x1e;

pub const NONCE: u32 = 0x0a;

pub const INTEREST_LIFETIME: u32 = 0x0c;

pub const HOP_LIMIT: u32 = 0x22;

pub const APPLICATION_PARAMETERS: u32 = 0x24;

pub const INTEREST_SIGNATURE_INFO: u32 = 0x2c;

pub const INTEREST_SIGNATURE_VALUE: u32 = 0x2e;

// What a Data packet and its MetaInfo have.
pub const META_INFO: u32 = 0x14;

pub const CONTENT: u32 = 0x15;

pub const SIGNATURE_INFO: u32 = 0x16;

pub const SIGNATURE_VALUE: u32 = 0x17;

pub const CONTENT_TYPE: u32 = 0x18;

pub const FRESHNESS_PERIOD: u32 = 0x19;

pub const FINAL_BLOCK_ID: u32 = 0x1a;

// What a SignatureInfo and its KeyLocator have.
pub const SIGNATURE_TYPE: u32 = 0x1b;

pub const KEY_LOCATOR: u32 = 0x1c;

pub const KEY_DIGEST: u32 = 0x1d;

/// Each type has the number that the standard gives it.
pub fn types_are_the_standards()
    ensures packets { (INTEREST ≡ standard.Interest) × (DATA ≡ standard.Data) }
    ensures names { (NAME ≡ standard.Name)
        × (IMPLICIT_SHA256_DIGEST_COMPONENT ≡ standard.ImplicitSha256DigestComponent)
        × (PARAMETERS_SHA256_DIGEST_COMPONENT ≡ standard.ParametersSha256DigestComponent)
        × (GENERIC_NAME_COMPONENT ≡ standard.GenericNameComponent)
        × (SEGMENT_NAME_COMPONENT ≡ standard.SegmentNameComponent)
        × (VERSION_NAME_COMPONENT ≡ standard.VersionNameComponent)
        × (SEQUENCE_NUM_NAME_COMPONENT ≡ standard.SequenceNumNameComponent) }
    ensures in_interest { (CAN_BE_PREFIX ≡ standard.CanBePrefix)
        × (MUST_BE_FRESH ≡ standard.MustBeFresh)
        × (FORWARDING_HINT ≡ standard.ForwardingHint)
        × (NONCE ≡ standard.Nonce)
        × (INTEREST_LIFETIME ≡ standard.InterestLifetime)
        × (HOP_LIMIT ≡ standard.HopLimit)
        × (APPLICATION_PARAMETERS ≡ standard.ApplicationParameters)
        × (INTEREST_SIGNATURE_INFO ≡ standard.InterestSignatureInfo)
        × (INTEREST_SIGNATURE_VALUE ≡ standard.InterestSignatureValue) }
    ensures in_data { (META_INFO ≡ standard.MetaInfo)
        × (CONTENT ≡ standard.Content)
        × (SIGNATURE_INFO ≡ standard.SignatureInfo)
        × (SIGNATURE_VALUE ≡ standard.SignatureValue)
        × (CONTENT_TYPE ≡ standard.ContentType)
        × (FRESHNESS_PERIOD ≡ standard.FreshnessPeriod)
        × (FINAL_BLOCK_ID ≡ standard.FinalBlockId) }
    ensures in_signature { (SIGNATURE_TYPE ≡ standard.SignatureType)
        × (KEY_LOCATOR ≡ standard.KeyLocator)
        × (KEY_DIGEST ≡ standard.KeyDigest) }
{}
