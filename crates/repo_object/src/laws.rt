ghost use Rattle.std.specs.Prelude.{◌≡◌, ◌≢◌, ◌+◌, ◌-◌, ◌<◌, ◌≤◌, ◌^◌, ◌↔◌, ℕ, false, List, Some, Ok, IsOk, length};
ghost use Rattle.std.specs.Prelude.{map};
ghost use Rattle.std.specs.Prelude.{slice_get, IsTrue, IsSome, IfSome, None};
ghost use Rattle.std.specs.List.{All};
ghost use Rattle.sha2.specs.Sha256.{sha256};
ghost use Rattle.ndn_tlv.specs.Elements.{IsOctets, Item, elements};
ghost use Rattle.ndn_tlv.specs.OrderTable.{fields};
ghost use Rattle.ndn_name.specs.Names.{Component, IsName, encoding, full_name};
ghost use Rattle.ndn_packet.specs.Outer.{packet_limit};
ghost use Rattle.ndn_data.specs.Data.{Data, Satisfies};
ghost use Rattle.ndn_interest.specs.Interest.{interest_of};
ghost use Rattle.ndn_interest.specs.WrittenInterest.{read_plain};
ghost use Rattle.repo_plan.specs.declared.part.Part.{Part};
ghost use Rattle.repo_plan.specs.declared.shape.Shape.{Shape};
ghost use Rattle.repo_plan.specs.Parts.{most_listed, index_packets, last_part};
ghost use Rattle.repo_object.specs.Limits.{node_name_limit, object_name_limit, segment_limit, content_limit};
ghost use Rattle.repo_object.specs.Objects.{NamedContents, Post, IsObject, IsPost, Publisher, IsPublisher};
ghost use Rattle.repo_object.specs.Objects.{IsShortName, key_name, record_name, segment_name, shape_in};
ghost use Rattle.repo_object.specs.Objects.Post.{Offers};
ghost use Rattle.repo_object.specs.Publication.{Listed, RecordSays, published_segments, published_listing, listed_by};
ghost use Rattle.repo_object.specs.Publication.{published_record, record_packet, packets, packet_at};
ghost use Rattle.repo_object.specs.Publication.{shape_stated};
ghost use Rattle.repo_object.specs.Published.{AreCollisionFree};
ghost use Rattle.repo_object.specs.declared.record_fields.RecordField.{RecordField};
ghost use Rattle.repo_object.specs.Records.{record_fields, record_of, index_of};
ghost use Rattle.repo_object.specs.KindTables.{Kind, kind_table, is_of_kind};
ghost use Rattle.repo_object.specs.Formats.{IsListing, IsStated, HasStated, HasIndex};
ghost use Rattle.repo_object.specs.WorkedContents.{RecordsAreReadSo, IndexPacketsAreReadSo};
ghost use Rattle.repo_object.specs.Wants.{WantedPart, asked_name, want_record, want_index, want_segment, listed_in};
ghost use Rattle.repo_object.specs.Verdict.{part_verdict, Passes, may_say, content_in, stated_in, index_in};
ghost use Rattle.repo_object.specs.Cuts.{pieces, AreCut};

use crate::names::NODE_NAME_LIMIT;
use crate::object::{CONTENT_LIMIT, MOST_LISTED, OBJECT_NAME_LIMIT, SEGMENT_LIMIT};

/// The limits in code are those of the definitions.
pub fn limits_are_the_definitions()
    ensures node_name { NODE_NAME_LIMIT ≡ node_name_limit }
    ensures object_name { OBJECT_NAME_LIMIT ≡ object_name_limit }
    ensures segments { SEGMENT_LIMIT ≡ segment_limit }
    ensures listed { MOST_LISTED ≡ most_listed }
    ensures content { CONTENT_LIMIT ≡ content_limit }
{}

/// The pieces of a content, one after another, are the content. Each but the last has `size` octets, and none is empty
/// or longer.
pub fn cut_pieces_are_the_content()
    ensures { (size : ℕ) (content : List ℕ) → 0 < size → AreCut size content (pieces size content) }
{}

/// A record says what its fields say, within the limits: a Name, a SegmentCount and the digests that a record of that
/// many segments lists, or Withdraws alone. An index packet lists Digests alone, and is read as one of `count` digests
/// exactly if it has `count`.
pub fn records_are_what_their_fields_say()
    ensures fields { (content : List ℕ) (says : RecordSays) → (record_of content ≡ Some says) ↔ HasStated content says }
    ensures within { (content : List ℕ) (says : RecordSays) → IsOctets content → length content < 2 ^ 64
        → record_of content ≡ Some says → IsStated says }
    ensures index { (content : List ℕ) (count : ℕ) (digests : List (List ℕ))
        → (index_of content count ≡ Some digests) ↔ (HasIndex content digests × (length digests ≡ count)) }
{}

/// Fields of one kind of record, without a fault, are read from a content by the table of all kinds exactly if the
/// order table of that kind alone reads them.
pub fn each_kind_has_its_own_table()
    ensures { (kind : Kind) (content : List ℕ) (items : List (RecordField × Item))
        → All (λ x. IsTrue (is_of_kind kind x.0)) items
        → (record_fields content ≡ record { items = items; fault = None })
        ↔ (fields (kind_table kind) (elements 0 content) ≡ record { items = items; fault = None }) }
{}

/// Small records of each kind, and contents that are no record's, are read as `RecordsAreReadSo` says.
pub fn records_are_read_so()
    ensures { RecordsAreReadSo }
{}

/// Small contents are read as index packets as `IndexPacketsAreReadSo` says.
pub fn index_packets_are_read_so()
    ensures { IndexPacketsAreReadSo }
{}

/// Octets pass for a want as a packet exactly if they pass every check. A record that passes says what its
/// publication's record may say, and an index packet that passes lists as many digests as the want says.
pub fn passing_is_every_check()
    ensures checks { (want : WantedPart) (key_name key octets : List ℕ) (d : Data)
        → (part_verdict want key_name key octets ≡ Ok d) ↔ Passes want key_name key octets d }
    ensures stated { (want : WantedPart) (key_name key octets : List ℕ) → IsOk (part_verdict want key_name key octets)
        → want.part.part ≡ 0 → IsTrue (may_say want.part.seq (stated_in octets)) }
    ensures lists { (want : WantedPart) (key_name key octets : List ℕ) → IsOk (part_verdict want key_name key octets)
        → IfSome want.lists (λ count. IsSome (index_in octets count)) }
{}

/// A publication has a packet for each part, and none has more octets than a packet may have.
pub fn packets_fit()
    ensures count { (publisher : Publisher) (seq : ℕ) (post : Post)
        → length (packets publisher seq post) ≡ last_part (shape_in post) + 1 }
    ensures short { (publisher : Publisher) (seq : ℕ) (post : Post)
        → IsPublisher publisher → IsPost seq post → seq < 2 ^ 16
        → All (λ packet. length packet ≤ packet_limit) (packets publisher seq post) }
    ensures parts { (publisher : Publisher) (seq x : ℕ) (post : Post) (octets : List ℕ)
        → IsPublisher publisher → IsPost seq post → seq < 2 ^ 16
        → packet_at publisher seq post x ≡ Some octets → length octets ≤ packet_limit }
{}

/// The record of a publication is read as what was written, and it says the publication's part counts. An index packet
/// lists the digests of its segments, and the packet of a segment has that segment's content.
pub fn packets_are_read_back()
    ensures records { (publisher : Publisher) (seq : ℕ) (post : Post)
        → IsPublisher publisher → IsPost seq post → seq < 2 ^ 16
        → stated_in (record_packet publisher seq (published_record publisher seq post))
        ≡ Some (published_record publisher seq post) }
    ensures shapes { (publisher : Publisher) (seq : ℕ) (post : Post)
        → shape_stated (published_record publisher seq post) ≡ shape_in post }
    ensures indexes { (publisher : Publisher) (seq k : ℕ) (object : NamedContents) (octets : List ℕ)
        → IsPublisher publisher → IsObject object → seq < 2 ^ 16 → k < index_packets (length object.contents)
        → packet_at publisher seq (Offers object) (k + 1) ≡ Some octets
        → index_in octets (listed_in (length object.contents) k)
        ≡ Some (map sha256 (listed_by (published_segments publisher object) k)) }
    ensures segments { (publisher : Publisher) (seq i : ℕ) (object : NamedContents) (octets : List ℕ)
        → IsPublisher publisher → IsObject object
        → packet_at publisher seq (Offers object) (index_packets (length object.contents) + i + 1) ≡ Some octets
        → content_in octets ≡ slice_get object.contents i }
{}

/// In a group, records with the same name are of the same node and number. Packets that are numbered under names have
/// the same name only if those names and the packets' numbers are the same, and none has a record's name.
pub fn names_tell_parts_apart()
    ensures records { (node other group : List Component) (seq second : ℕ)
        → seq < 2 ^ 16 → second < 2 ^ 16
        → record_name node group seq ≡ record_name other group second
        → (node ≡ other) × (seq ≡ second) }
    ensures segments { (name other : List Component) (i j : ℕ) → i < 2 ^ 16 → j < 2 ^ 16
        → segment_name name i ≡ segment_name other j → (name ≡ other) × (i ≡ j) }
    ensures apart { (node group name : List Component) (seq i : ℕ)
        → record_name node group seq ≢ segment_name name i }
{}

/// Each packet of a publication passes for the want of its part, under its publisher's key.
pub fn packets_pass_for_their_wants()
    ensures records { (publisher : Publisher) (part : Part) (post : Post) (octets : List ℕ)
        → IsPublisher publisher → IsPost part.seq post → part.seq < 2 ^ 16 → part.part ≡ 0
        → packet_at publisher part.seq post 0 ≡ Some octets
        → IsOk (part_verdict (want_record part publisher.node publisher.group)
        (encoding (key_name publisher.node)) publisher.key octets) }
    ensures indexes { (publisher : Publisher) (part : Part) (object : NamedContents) (octets : List ℕ)
        → IsPublisher publisher → IsObject object → part.seq < 2 ^ 16
        → 0 < part.part → part.part ≤ index_packets (length object.contents)
        → packet_at publisher part.seq (Offers object) part.part ≡ Some octets
        → IsOk (part_verdict
        (want_index part (published_listing publisher part.seq object) publisher.node publisher.group)
        (encoding (key_name publisher.node)) publisher.key octets) }
    ensures segments { (publisher : Publisher) (part : Part) (object : NamedContents) (octets : List ℕ)
        → IsPublisher publisher → IsObject object → index_packets (length object.contents) < part.part
        → packet_at publisher part.seq (Offers object) part.part ≡ Some octets
        → IsOk (part_verdict (want_segment part (shape_in (Offers object)) object.name (sha256 octets))
        (encoding (key_name publisher.node)) publisher.key octets) }
{}

/// Of the packets of a group's publications, only the record of the same node and number passes for the want of a
/// record. Only the part's own octets pass for the want of an index packet or a segment, if the two publications are
/// free of collisions.
pub fn packets_that_pass_are_the_parts()
    ensures records { (own other : Publisher) (part : Part) (theirs : Post) (seq x : ℕ)
        (key_name key octets : List ℕ)
        → IsPublisher own → IsPublisher other → IsPost seq theirs → own.group ≡ other.group
        → part.seq < 2 ^ 16 → seq < 2 ^ 16
        → packet_at other seq theirs x ≡ Some octets
        → IsOk (part_verdict (want_record part own.node own.group) key_name key octets)
        → (x ≡ 0) × (own.node ≡ other.node) × (part.seq ≡ seq) }
    ensures indexes { (own other : Publisher) (part : Part) (object : NamedContents) (theirs : Post)
        (seq x : ℕ) (key_name key packet octets : List ℕ)
        → IsPublisher own → IsObject object → IsPublisher other → IsPost seq theirs
        → AreCollisionFree (record { publisher = own; seq = part.seq; post = Offers object })
        (record { publisher = other; seq = seq; post = theirs })
        → part.seq < 2 ^ 16 → seq < 2 ^ 16
        → 0 < part.part → part.part ≤ index_packets (length object.contents)
        → packet_at own part.seq (Offers object) part.part ≡ Some packet
        → packet_at other seq theirs x ≡ Some octets
        → IsOk (part_verdict (want_index part (published_listing own part.seq object) own.node own.group)
        key_name key octets)
        → octets ≡ packet }
    ensures segments { (own other : Publisher) (part : Part) (object : NamedContents) (theirs : Post)
        (seq x : ℕ) (key_name key packet octets : List ℕ)
        → IsPublisher own → IsObject object → IsPublisher other → IsPost seq theirs
        → AreCollisionFree (record { publisher = own; seq = part.seq; post = Offers object })
        (record { publisher = other; seq = seq; post = theirs })
        → seq < 2 ^ 16 → index_packets (length object.contents) < part.part
        → packet_at own part.seq (Offers object) part.part ≡ Some packet
        → packet_at other seq theirs x ≡ Some octets
        → IsOk (part_verdict (want_segment part (shape_in (Offers object)) object.name (sha256 packet))
        key_name key octets)
        → octets ≡ packet }
{}

/// A packet that passes for a want is one that the want's Interest asks for, by its name or, if the digest is known, by
/// its full name.
pub fn passing_packets_are_asked_for()
    ensures { (want : WantedPart) (key_name key octets : List ℕ) (d : Data)
        → Passes want key_name key octets d → IsName want.name → IsName d.name
        → Satisfies (asked_name want.name want.digest) false (sha256 octets) d }
{}

/// The Interest of a want is read as a plain one of the record's name, or of the full name of the index packet or the
/// segment.
pub fn wants_are_plain_interests()
    ensures records { (part : Part) (node group : List Component)
        → IsShortName node → IsShortName group → part.seq < 2 ^ 16
        → interest_of (want_record part node group).interest
        ≡ Ok (read_plain (record_name node group part.seq) false) }
    ensures indexes { (part : Part) (l : Listed) (digest : List ℕ) (node group : List Component)
        → IsShortName node → IsShortName group → part.seq < 2 ^ 16 → part.part < 2 ^ 16
        → slice_get l.digests (part.part - 1) ≡ Some digest → length digest ≡ 32 → IsOctets digest
        → interest_of (want_index part l node group).interest
        ≡ Ok (read_plain
        (full_name (segment_name (record_name node group part.seq) (part.part - 1)) digest) false) }
    ensures segments { (part : Part) (shape : Shape) (l : Listed) (digest : List ℕ)
        → IsListing l → part.part < 2 ^ 16 → length digest ≡ 32 → IsOctets digest
        → interest_of (want_segment part shape l.name digest).interest
        ≡ Ok (read_plain (full_name (segment_name l.name (part.part - shape.index - 1)) digest) false) }
{}
