ghost use Rattle.std.specs.Prelude.{◌≡◌, length, map, string_bytes, IfOk};
ghost use Rattle.bench_world.specs.Steps.{FaultNamesMember, HearNamesMember, SyncNamesMember};
ghost use Rattle.script_story.specs.RefusalTexts.{field_word, hear_refusal_text, packet_fault_text, part_refusal_text};
ghost use Rattle.script_story.specs.RefusalTexts.{sync_refusal_text, tlv_fault_text, vector_fault_text};

use ndn_name::{Field, PacketFault};
use ndn_tlv::TlvFault;
use repo_member::HearRefusal;
use repo_object::PartRefusal;
use script_report::label;
use std::alloc::{AllocError, Global};
use svs_sync::SyncRefusal;
use svs_vector::VectorFault;

// Each call makes the text of a refusal, as a report has it.

pub(crate) fn hear_refusal(
    alloc: Global,
    labels: &[String],
    refusal: &HearRefusal,
) -> Result<String, AllocError>
    requires { HearNamesMember (length labels.now) refusal.now }
    ensures { IfOk result (λ text. string_bytes text ≡ hear_refusal_text (map string_bytes labels.now) refusal.now) }
{
    match refusal {
        HearRefusal::Sync(refusal) => sync_refusal(alloc, labels, refusal),
        HearRefusal::OwnNumberAhead { .. } => "OwnNumberAhead".to_string(alloc),
        HearRefusal::NoMemory => unreachable!(),
    }
}

fn sync_refusal(
    alloc: Global,
    labels: &[String],
    refusal: &SyncRefusal,
) -> Result<String, AllocError>
    requires { SyncNamesMember (length labels.now) refusal.now }
    ensures { IfOk result (λ text. string_bytes text ≡ sync_refusal_text (map string_bytes labels.now) refusal.now) }
{
    match refusal {
        SyncRefusal::Packet(fault) => packet_fault(alloc, fault),
        SyncRefusal::WrongGroup => "WrongGroup".to_string(alloc),
        SyncRefusal::Unsigned => "Unsigned".to_string(alloc),
        SyncRefusal::ParamsDigest => "ParamsDigest".to_string(alloc),
        SyncRefusal::UnknownKey => "UnknownKey".to_string(alloc),
        SyncRefusal::BadSignature => "BadSignature".to_string(alloc),
        SyncRefusal::Vector(fault) => vector_fault(alloc, labels, fault),
        SyncRefusal::NoMemory => unreachable!(),
    }
}

fn vector_fault(alloc: Global, labels: &[String], fault: &VectorFault) -> Result<String, AllocError>
    requires { FaultNamesMember (length labels.now) fault.now }
    ensures { IfOk result (λ text. string_bytes text ≡ vector_fault_text (map string_bytes labels.now) fault.now) }
{
    match fault {
        VectorFault::BadVector { at } => format!(in alloc; "BadVector {at}"),
        VectorFault::NumberTooLarge { member, number } => {
            let label = label(labels, *member);
            format!(in alloc; "NumberTooLarge {label} {number}")
        }
        VectorFault::NoMemory => unreachable!(),
    }
}

pub(crate) fn part_refusal(alloc: Global, refusal: &PartRefusal) -> Result<String, AllocError>
    ensures { IfOk result (λ text. string_bytes text ≡ part_refusal_text refusal.now) }
{
    match refusal {
        PartRefusal::Packet(fault) => packet_fault(alloc, fault),
        PartRefusal::UnsignedOctets => "UnsignedOctets".to_string(alloc),
        PartRefusal::OtherName => "OtherName".to_string(alloc),
        PartRefusal::OtherDigest => "OtherDigest".to_string(alloc),
        PartRefusal::UnknownKey => "UnknownKey".to_string(alloc),
        PartRefusal::BadSignature => "BadSignature".to_string(alloc),
        PartRefusal::BadRecord => "BadRecord".to_string(alloc),
    }
}

pub(crate) fn packet_fault(alloc: Global, fault: &PacketFault) -> Result<String, AllocError>
    ensures { IfOk result (λ text. string_bytes text ≡ packet_fault_text fault.now) }
{
    match fault {
        PacketFault::Tlv(fault) => tlv_fault(alloc, fault),
        PacketFault::PacketTooLong => "PacketTooLong".to_string(alloc),
        PacketFault::WrongType { typ } => format!(in alloc; "WrongType {typ}"),
        PacketFault::TrailingOctets { at } => format!(in alloc; "TrailingOctets {at}"),
        PacketFault::Critical { typ, at } => format!(in alloc; "Critical {typ} {at}"),
        PacketFault::Missing { field } => {
            let word = field_word(*field);
            format!(in alloc; "Missing {word}")
        }
        PacketFault::BadField { field, at } => {
            let word = field_word(*field);
            format!(in alloc; "BadField {word} {at}")
        }
    }
}

fn tlv_fault(alloc: Global, fault: &TlvFault) -> Result<String, AllocError>
    ensures { IfOk result (λ text. string_bytes text ≡ tlv_fault_text fault.now) }
{
    match fault {
        TlvFault::Truncated { at } => format!(in alloc; "Truncated {at}"),
        TlvFault::NotShortest { at } => format!(in alloc; "NotShortest {at}"),
        TlvFault::ZeroType { at } => format!(in alloc; "ZeroType {at}"),
        TlvFault::TypeTooLarge { at } => format!(in alloc; "TypeTooLarge {at}"),
    }
}

fn field_word(field: Field) -> &'static str
    ensures { result.now ≡ field_word field }
{
    match field {
        Field::Name => "Name",
        Field::CanBePrefix => "CanBePrefix",
        Field::MustBeFresh => "MustBeFresh",
        Field::Nonce => "Nonce",
        Field::InterestLifetime => "InterestLifetime",
        Field::HopLimit => "HopLimit",
        Field::ParametersDigest => "ParametersDigest",
        Field::MetaInfo => "MetaInfo",
        Field::ContentType => "ContentType",
        Field::FreshnessPeriod => "FreshnessPeriod",
        Field::FinalBlockId => "FinalBlockId",
        Field::SignatureInfo => "SignatureInfo",
        Field::SignatureType => "SignatureType",
        Field::KeyLocator => "KeyLocator",
        Field::SignatureValue => "SignatureValue",
    }
}
