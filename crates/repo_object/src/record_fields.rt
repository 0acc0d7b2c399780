ghost use Rattle.std.specs.Prelude.{◌≡◌, ◌+◌, ◌^◌, ◌<◌, ◌≤◌, [], ◌∷◌, length, option_map, slice_get, IsSome, is_some};
ghost use Rattle.std.specs.Prelude.{MatchOption, IfSome, IfOk, IfErr};
ghost use Rattle.ndn_tlv.specs.Elements.{item};
ghost use Rattle.repo_object.specs.Limits.{segment_limit};
ghost use Rattle.repo_object.specs.Publication.{count_listed};
ghost use Rattle.repo_object.specs.Records.{record_of, index_of, withdrawal_among, counted_among, digest_in};
ghost use Rattle.repo_object.specs.Records.{number_in, object_name_in, segment_count_in};
ghost use Rattle.repo_object.specs.Readers.{stated_to_come, remaining_digests, digests_left, IsRow, HasItsRow};
ghost use Rattle.repo_object.specs.Readers.{BeginsWith};

use crate::object::{SEGMENT_LIMIT, is_object_name};
use crate::record_fault::RecordFault;
use crate::record_types;
use ndn_name::NameView;
use ndn_tlv::{Element, FieldReader, Place, Reader, read_number, types};
use repo_plan::Shape;

#[derive(Clone, Copy, Debug)]
pub(crate) enum RecordField {
    Withdraws,
    Name,
    SegmentCount,
    Digest,
    IndexDigest,
}

const RECORD: [Place<RecordField>; 5] = [
    Place {
        typ: record_types::WITHDRAWS,
        field: RecordField::Withdraws,
        repeats: false,
    },
    Place {
        typ: types::NAME,
        field: RecordField::Name,
        repeats: false,
    },
    Place {
        typ: record_types::SEGMENT_COUNT,
        field: RecordField::SegmentCount,
        repeats: false,
    },
    Place {
        typ: record_types::DIGEST,
        field: RecordField::Digest,
        repeats: true,
    },
    Place {
        typ: record_types::INDEX_DIGEST,
        field: RecordField::IndexDigest,
        repeats: true,
    },
];

const INDEX: [Place<RecordField>; 1] = [Place {
    typ: record_types::DIGEST,
    field: RecordField::Digest,
    repeats: true,
}];

// A reader of the digests that a record or an index packet lists.
#[derive(Debug, Drop)]
pub(crate) struct DigestReader<'p> {
    fields: FieldReader<'p, RecordField>,
    // Whether the digests are of index packets.
    indexes: bool,
    // How many digests must still follow.
    left: u16,
}

// A record that was read up to its digests.
#[derive(Drop)]
pub(crate) enum RecordReader<'p> {
    Withdraws(u16),
    Lists {
        name: NameView<'p>,
        segments: u16,
        digests: DigestReader<'p>,
        // The octets after the SegmentCount: the digests one after another, if nothing else stands there.
        row: &'p [u8],
    },
}

impl<'p> RecordReader<'p> {
    // The record of `content`, read up to its digests, or `None` if what was read is no record's.
    pub(crate) fn new(content: &'p [u8]) -> Option<RecordReader<'p>>
        ensures read { MatchOption result
            (record_of content.now ≡ None)
            (λ reader. record_of content.now ≡ stated_to_come reader) }
        ensures row { IfSome result HasItsRow }
    {
        let mut fields = FieldReader::new(Reader::new(content, 0), &RECORD);
        let Ok(Some(first)) = fields.next() else {
            return None;
        };
        let (field, element) = first;
        match field {
            RecordField::Withdraws => withdrawal(fields, element),
            RecordField::Name => listing(content, fields, element),
            _ => None,
        }
    }
}

// The record that begins with the Withdraws element `number`, or `None` if it is no record.
fn withdrawal<'p>(
    mut fields: FieldReader<'p, RecordField>,
    number: Element<'p>,
) -> Option<RecordReader<'p>>
    ensures read { MatchOption result
        (withdrawal_among (item number.entry) fields.entry.items fields.entry.fault ≡ None)
        (λ reader. withdrawal_among (item number.entry) fields.entry.items fields.entry.fault ≡ stated_to_come reader) }
    ensures row { IfSome result HasItsRow }
{
    let withdrawn = number_in(number)?;
    match fields.next() {
        Ok(None) => Some(RecordReader::Withdraws(withdrawn)),
        _ => None,
    }
}

// The record of `content` that begins with the Name element `name`, read up to its digests, or `None` if what was read
// is no record's.
fn listing<'p>(
    content: &'p [u8],
    mut fields: FieldReader<'p, RecordField>,
    name: Element<'p>,
) -> Option<RecordReader<'p>>
    requires name { name.value_start + length name.value.now < 2 ^ 64 }
    requires fields { BeginsWith content.now (RecordField.Name, item name) fields }
    ensures read { MatchOption result
        (counted_among (item name.entry) fields.entry.items fields.entry.fault ≡ None)
        (λ reader. counted_among (item name.entry) fields.entry.items fields.entry.fault ≡ stated_to_come reader) }
    ensures row { IfSome result HasItsRow }
{
    let Ok(Some(second)) = fields.next() else {
        return None;
    };
    let (RecordField::SegmentCount, count) = second else {
        return None;
    };
    let name = object_name_in(name)?;
    let segments = segment_count_in(count)?;
    let shape = Shape::of(segments);
    let (_, row) = content.split_at(count.end);
    Some(RecordReader::Lists {
        name,
        segments,
        digests: DigestReader {
            fields,
            indexes: shape.index != 0,
            left: count_listed(segments),
        },
        row,
    })
}

// How many digests the record of an object of `segments` segments lists.
fn count_listed(segments: u16) -> u16
    requires { segments ≤ segment_limit }
    ensures { result ≡ count_listed segments }
{
    let shape = Shape::of(segments);
    if shape.index == 0 {
        return segments;
    }
    shape.index
}

// The object's name that is the element's value, or `None`.
fn object_name_in(element: Element<'_>) -> Option<NameView<'_>>
    requires { element.value_start + length element.value.now < 2 ^ 64 }
    ensures { result ≡ object_name_in (item element.entry) }
{
    let name = NameView::read(element.value, element.value_start).ok()?;
    if !is_object_name(&name) {
        return None;
    }
    Some(name)
}

// The number of segments that is the element's value, or `None`.
fn segment_count_in(element: Element<'_>) -> Option<u16>
    ensures few { IfSome result (λ n. n ≤ segment_limit) }
    ensures read { result ≡ segment_count_in (item element.entry) }
{
    let count = read_number(element.value)?;
    if count > SEGMENT_LIMIT as u64 {
        return None;
    }
    Some(count as u16)
}

// The number of a publication that is the element's value, or `None`.
fn number_in(element: Element<'_>) -> Option<u16>
    ensures { result ≡ number_in (item element.entry) }
{
    let number = read_number(element.value)?;
    if number == 0 || number > u64::from(u16::MAX) {
        return None;
    }
    Some(number as u16)
}

impl<'p> DigestReader<'p> {
    // A reader of the digests of an index packet of this content that must list `count`.
    pub(crate) fn of_index(content: &'p [u8], count: u16) -> DigestReader<'p>
        ensures read { remaining_digests result ≡ index_of content.now count }
        ensures row { IsSome (remaining_digests result) → IsRow content.now result }
    {
        let fields = FieldReader::new(Reader::new(content, 0), &INDEX);
        DigestReader {
            fields,
            indexes: false,
            left: count,
        }
    }

    // Another reader of the same digests.
    pub(crate) fn copy(&self) -> DigestReader<'p>
        ensures { result ≡ self.now }
    {
        DigestReader {
            fields: self.fields.copy(),
            indexes: self.indexes,
            left: self.left,
        }
    }

    // How many digests must still follow.
    pub(crate) fn left(&self) -> u16
        ensures { result ≡ self.now.left }
    {
        self.left
    }

    // The next digest, or `None` after the last one. A field that lists no such digest, a digest too few and one too
    // many are faults.
    pub(crate) fn next(&mut self) -> Result<Option<&'p [u8; 32]>, RecordFault>
        ensures ok { IfOk result (λ next. MatchOption next
            (remaining_digests self.old ≡ Some [])
            (λ digest. remaining_digests self.old
            ≡ option_map (λ digests. digest.now ∷ digests) (remaining_digests self.new))) }
        ensures fewer { IfOk result (λ next. IfSome next (λ _. self.new.left < self.old.left)) }
        ensures bad { IfErr result
            (λ fault. (fault ≡ RecordFault.BadRecord) × (remaining_digests self.old ≡ None)) }
    {
        let Ok(next) = self.fields.next() else {
            return Err(RecordFault::BadRecord);
        };
        let Some(field) = next else {
            return if self.left == 0 {
                Ok(None)
            } else {
                Err(RecordFault::BadRecord)
            };
        };
        let (field, element) = field;
        let Some(digest) = digest_in(self.indexes, field, element) else {
            return Err(RecordFault::BadRecord);
        };
        let Some(left) = self.left.checked_sub(1) else {
            return Err(RecordFault::BadRecord);
        };
        self.left = left;
        Ok(Some(digest))
    }

    // Whether exactly `left` digests follow.
    pub(crate) fn are_all(mut self) -> bool
        ensures { result ≡ is_some (remaining_digests self.entry) }
    {
        while let Ok(next) = self.next() {
            if next.is_none() {
                return true;
            }
        }
        false
    }

    // The digest at `place`, counted from 0, of those that the reader has still to read, which are all there.
    pub(crate) fn at(mut self, place: usize) -> Option<&'p [u8; 32]>
        requires { IsSome (remaining_digests self) }
        ensures { option_map (λ digest. digest.now) result
            ≡ slice_get (digests_left self.entry) place }
    {
        let mut before = place;
        while let Ok(Some(digest)) = self.next() {
            if before == 0 {
                return Some(digest);
            }
            before -= 1;
        }
        None
    }
}

// The digest that a field lists, or `None`: of an index packet if `indexes`, and else of a segment.
fn digest_in(indexes: bool, field: RecordField, element: Element<'_>) -> Option<&[u8; 32]>
    ensures { MatchOption result
        (digest_in indexes (field, item element.entry) ≡ None)
        (λ digest. digest_in indexes (field, item element.entry) ≡ Some digest.now) }
{
    let indexed = match field {
        RecordField::Digest => false,
        RecordField::IndexDigest => true,
        _ => return None,
    };
    if indexed != indexes {
        return None;
    }
    <&[u8; 32]>::try_from(element.value).ok()
}
