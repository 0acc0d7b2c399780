// Digests over the contents of publications, made in threads.
ghost use Rattle.std.specs.Prelude.{ℕ, ◌≡◌, ◌≤◌, ◌<◌, ◌/◌, List, length, max, min};
ghost use Rattle.std.specs.Prelude.{slice_index_or, IfOk};
ghost use Rattle.repo_holdings.specs.declared.contents.ContentsDigest.{ContentsDigest};
ghost use Rattle.repo_holdings.specs.declared.holdings.whole.Whole.{Whole};
ghost use Rattle.std.specs.List.{All};
ghost use Rattle.repo_holdings.specs.Records.{Packet};
ghost use Rattle.repo_holdings.specs.Contents.{IsDigestIn};
ghost use Rattle.repo_holdings.specs.WholeContents.{IsWholeIn};

use repo_holdings::{ContentsDigest, Whole};
use std::alloc::{AllocError, Global};
use std::thread;
use std::thread::Threads;

// A thread is worth its start where it takes digests of about this many octets.
const WORTH: u64 = 131_072;

/// How many of `workers` workers are worth a thread each for digests over contents of `octets` octets. Where the result
/// is 1, no thread is.
pub fn digest_workers(octets: u64, workers: u32) -> u32
    requires { 1 ≤ workers }
    ensures { result ≡ max (min (octets / 131072) workers) 1 }
{
    (octets / WORTH).min(u64::from(workers)).max(1) as u32
}

/// The digests over the contents of publications that become whole, in their order, by at most `workers` workers. Each
/// worker takes neighbouring publications. For few octets there are fewer workers.
pub fn digests<R: Threads + Sync>(
    rt: &R,
    alloc: Global,
    whole: &[Whole<'_>],
    workers: u32,
) -> Result<Vec<ContentsDigest>, AllocError>
    requires workers { (1 ≤ workers) × (workers ≤ 16) }
    ensures count { IfOk result (λ digests. length digests.items ≡ length whole.now) }
    ensures publishers { IfOk result (λ digests. (k : ℕ) (d : ContentsDigest) (w : Whole) → k < length whole.now
        → (slice_index_or digests.items k d).publisher ≡ (slice_index_or whole.now k w).publisher) }
    ensures numbers { IfOk result (λ digests. (k : ℕ) (d : ContentsDigest) (w : Whole) → k < length whole.now
        → (slice_index_or digests.items k d).seq ≡ (slice_index_or whole.now k w).seq) }
    ensures made { IfOk result (λ digests. (packets : List Packet) → All (IsWholeIn packets) whole.now
        → All (IsDigestIn packets) digests.items) }
{
    let empty = ContentsDigest {
        publisher: 0,
        seq: 0,
        octets: 0,
        digest: [0; 32],
    };
    let mut digests = vec![in alloc; empty; whole.len()]?;
    let threads = digest_workers(octets_of(whole), workers) as usize;
    thread::for_each_mut(
        rt,
        &mut digests,
        threads,
        &|place, made| {
            *made = whole[place].digest();
        },
    );
    Ok(digests)
}

// How many octets the contents have together, as far as a `u64` counts.
fn octets_of(whole: &[Whole<'_>]) -> u64 {
    let mut octets: u64 = 0;
    for publication in whole {
        octets = octets.saturating_add(octets_in(&publication.contents));
    }
    octets
}

// How many octets the contents of one publication have together, as far as a `u64` counts.
fn octets_in(contents: &[&[u8]]) -> u64 {
    let mut octets: u64 = 0;
    for content in contents {
        octets = octets.saturating_add(content.len() as u64);
    }
    octets
}
