// Publications that become whole by packets that were received.
ghost use Rattle.std.specs.Prelude.{◌≡◌, ◌-◌, ◌<◌, ◌≤◌, ◌^◌, [], List, length, map, min, Some, unwrap_or};
ghost use Rattle.std.specs.Prelude.{slice_get, IfSome, IfOk};
ghost use Rattle.std.specs.List.{All};
ghost use Rattle.sha2.specs.Sha256.{sha256};
ghost use Rattle.sorted_lists.specs.SortedList.{value_of};
ghost use Rattle.repo_plan.specs.Parts.{part_cmp};
ghost use Rattle.repo_object.specs.Packets.{packet_content};
ghost use Rattle.repo_holdings.specs.Records.{Packet};
ghost use Rattle.repo_holdings.specs.Contents.{IsDigestIn};
ghost use Rattle.repo_holdings.specs.Taking.{with_fetched_for, PartsDiffer};
ghost use Rattle.repo_holdings.specs.WholeContents.{joined, AreContentsIn, IsWholeIn};

use super::Holdings;
use crate::contents::{ContentsDigest, content_of, stored_content};
use repo_object::{Checked, Job};
use repo_plan::Part;
use sha2::{Digest, Sha256};
use std::alloc::{AllocError, Global};

/// A publication that becomes whole, with the contents of its segments one after another, borrowed, not copied.
#[derive(Drop)]
pub struct Whole<'a> {
    pub publisher: u32,
    pub seq: u16,
    pub contents: Vec<&'a [u8]>,
}

impl Whole<'_> {
    /// How many octets the contents have together, as far as a `u64` counts, and the SHA-256 of them joined.
    pub fn digest(&self) -> ContentsDigest
        ensures publication { (result.publisher ≡ self.now.publisher) × (result.seq ≡ self.now.seq) }
        ensures octets { result.octets ≡ min (2 ^ 64 - 1) (length (joined self.now.contents.items)) }
        ensures digest { result.digest ≡ sha256 (joined self.now.contents.items) }
        ensures made { (packets : List Packet) → IsWholeIn packets self.now → IsDigestIn packets result }
    {
        let mut octets: u64 = 0;
        let mut digest = Sha256::new();
        for content in &self.contents {
            octets = octets.saturating_add(content.len() as u64);
            digest.update(content);
        }
        ContentsDigest {
            publisher: self.publisher,
            seq: self.seq,
            octets,
            digest: digest.finalize(),
        }
    }
}

impl Holdings {
    /// Publications that become whole by the results `parts` of `jobs`, with their contents, borrowed, not copied. They
    /// are in order where the jobs are in order of their parts. So the digests of the contents can be made before the
    /// packets are taken, and be given to `take`.
    ///
    /// Only publications are among them of which segments were received, by jobs that stand next to each other. `take`
    /// lists the others all the same.
    pub fn whole_with<'a>(
        &'a self,
        alloc: Global,
        jobs: &[Job],
        parts: &[Option<Checked<'a>>],
    ) -> Result<Vec<Whole<'a>>, AllocError>
        requires { PartsDiffer (map (λ job. job.want.part) jobs.now) }
        ensures { IfOk result
            (λ whole. All (IsWholeIn (with_fetched_for jobs.now parts.now self.now.store)) whole.items) }
    {
        let mut whole = Vec::new(alloc);
        let mut came: usize = 0;
        for place in 0..jobs.len() {
            let Part { publisher, seq, .. } = jobs[place].want.part();
            came = came.saturating_add(usize::from(received_at(parts, place).is_some()));
            if !is_last(jobs, place) {
                continue;
            }
            let may_be_whole = self.misses_only(alloc, publisher, seq, came)?;
            came = 0;
            if may_be_whole {
                if let Some(contents) = self.contents_with(alloc, publisher, seq, jobs, parts)? {
                    whole.push(Whole {
                        publisher,
                        seq,
                        contents,
                    })?;
                }
            }
        }
        Ok(whole)
    }

    // Whether just `came` parts of a publication, after its record, are wanted and not claimed, and `came` isn't 0. The
    // time this takes goes by `came`, and not by how many parts there are.
    fn misses_only(
        &self,
        alloc: Global,
        publisher: u32,
        seq: u16,
        came: usize,
    ) -> Result<bool, AllocError> {
        if came == 0 {
            return Ok(false);
        }
        let record = Part {
            publisher,
            seq,
            part: 0,
        };
        let most = came.saturating_add(1);
        let missing = self.stock.plan.wanted_after(alloc, Some(record), most)?;
        let is_of = |part: &&Part| (part.publisher, part.seq) == (publisher, seq);
        Ok(missing.iter().filter(is_of).count() == came)
    }

    // The contents of a publication's segments, as they are stored or were received; `None` where one is missing.
    fn contents_with<'a>(
        &'a self,
        alloc: Global,
        publisher: u32,
        seq: u16,
        jobs: &[Job],
        parts: &[Option<Checked<'a>>],
    ) -> Result<Option<Vec<&'a [u8]>>, AllocError>
        requires { PartsDiffer (map (λ job. job.want.part) jobs.now) }
        ensures contents { IfOk result (λ contents. IfSome contents (λ contents.
            AreContentsIn (with_fetched_for jobs.now parts.now self.now.store) (publisher, seq) contents.items)) }
        ensures few { IfOk result (λ contents. IfSome contents (λ contents.
            length (joined contents.items) < 2 ^ 64)) }
    {
        let Some(shape) = self.stock.plan.shape(publisher, seq) else {
            return Ok(None);
        };
        let mut contents = Vec::with_capacity(alloc, usize::from(shape.segments))?;
        for x in 0..shape.segments {
            let part = Part {
                publisher,
                seq,
                part: shape.index + 1 + x,
            };
            let Some(content) = self.content_with(part, jobs, parts) else {
                return Ok(None);
            };
            contents.push(content)?;
        }
        Ok(Some(contents))
    }

    // The content of a part, if its packet is stored or was received.
    fn content_with<'a>(
        &'a self,
        part: Part,
        jobs: &[Job],
        parts: &[Option<Checked<'a>>],
    ) -> Option<&'a [u8]>
        requires { PartsDiffer (map (λ job. job.want.part) jobs.now) }
        ensures exact { IfSome result (λ content. content.now ≡ packet_content (unwrap_or
            (value_of part_cmp (with_fetched_for jobs.now parts.now self.now.store) part) [])) }
        ensures short { IfSome result (λ content. length content.now ≤ 8800) }
    {
        if let Some(content) = stored_content(&self.stock.store, part) {
            return Some(content);
        }
        let Ok(place) = jobs.binary_search_by_key(&part, |job| job.want.part()) else {
            return None;
        };
        let checked = received_at(parts, place)?;
        Some(content_of(checked))
    }
}

// The packet received for the job at `place`, if there is one.
fn received_at<'s, 'a>(parts: &'s [Option<Checked<'a>>], place: usize) -> Option<&'s Checked<'a>>
    ensures { IfSome result (λ checked. slice_get parts.now place ≡ Some (Some checked.now)) }
{
    parts.get(place)?.as_ref()
}

// Whether the job after the one at `place` is of another publication, or there is none.
fn is_last(jobs: &[Job], place: usize) -> bool
    requires { place < length jobs.now }
{
    let part = jobs[place].want.part();
    match jobs.get(place + 1) {
        Some(next) => {
            let next = next.want.part();
            (next.publisher, next.seq) != (part.publisher, part.seq)
        }
        None => true,
    }
}
