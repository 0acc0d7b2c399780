ghost use Rattle.std.specs.Prelude.{◌≡◌, ◌<◌, ◌≤◌, ◌↔◌, ℕ, length, map, IfOk, Err};
ghost use Rattle.std.specs.List.{All};
ghost use Rattle.std.specs.Int.{div_ceil};
ghost use Rattle.repo_object.specs.Limits.{content_limit, segment_limit};
ghost use Rattle.repo_object.specs.Objects.{IsContent};
ghost use Rattle.repo_object.specs.Cuts.{pieces};

use crate::object::{CONTENT_LIMIT, SEGMENT_LIMIT};
use std::alloc::{AllocError, Global};
use thiserror::Error;

/// Why a content was not cut.
#[derive(Clone, Copy, Debug, PartialEq, Eq, Error)]
pub enum CutFault {
    /// The content would make `segments` segments, which is above 20,000.
    #[error("the content makes {segments} segments")]
    TooMany { segments: usize },
    #[error("out of memory")]
    NoMemory,
}

impl From<AllocError> for CutFault {
    ghost use Rattle.std.specs.Prelude.{◌≡◌};
    ghost use Rattle.repo_object.specs.declared.cutting.CutFault.TheVariants.{NoMemory};

    ghost from_gives = { λ _ fault. fault ≡ NoMemory };

    fn from(_: AllocError) -> CutFault {
        CutFault::NoMemory
    }
}

/// The content in pieces of `size` octets, the last of which may be shorter. Empty content gives none.
pub fn cut(alloc: Global, content: &[u8], size: usize) -> Result<Vec<Vec<u8>>, CutFault>
    requires { 0 < size }
    ensures ok { IfOk result (λ made. map (λ piece. piece.items) made.items ≡ pieces size content.now) }
    ensures too_many { (n : ℕ) → (result ≡ Err (CutFault.TooMany n))
        ↔ ((segment_limit < n) × (n ≡ div_ceil (length content.now) size)) }
    ensures few { IfOk result (λ made. length made.items ≤ segment_limit) }
    ensures sizes { IfOk result
        (λ made. All (λ piece. (0 < length piece.items) × (length piece.items ≤ size)) made.items) }
    ensures contents { size ≤ content_limit → IfOk result (λ made. All (λ piece. IsContent piece.items) made.items) }
{
    let segments = content.len().div_ceil(size);
    if segments > SEGMENT_LIMIT {
        return Err(CutFault::TooMany { segments });
    }
    Ok(cut_into(alloc, content, size, segments)?)
}

// The content in `segments` pieces of `size` octets, the last of which may be shorter.
fn cut_into(
    alloc: Global,
    content: &[u8],
    size: usize,
    segments: usize,
) -> Result<Vec<Vec<u8>>, AllocError>
    requires size { 0 < size }
    requires count { segments ≡ div_ceil (length content.now) size }
    ensures ok { IfOk result (λ made. map (λ piece. piece.items) made.items ≡ pieces size content.now) }
    ensures count { IfOk result (λ made. length made.items ≡ segments) }
    ensures sizes { IfOk result
        (λ made. All (λ piece. (0 < length piece.items) × (length piece.items ≤ size)) made.items) }
{
    let mut pieces = Vec::with_capacity(alloc, segments)?;
    for piece in content.chunks(size) {
        pieces.push(piece.to_vec(alloc)?)?;
    }
    Ok(pieces)
}
