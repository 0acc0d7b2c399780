ghost use Rattle.std.specs.Prelude.{◌≡◌, ◌+◌, ◌-◌, ◌<◌, ◌↔◌, false, [], ℕ, List, Some, IsTrue, length, slice_get};
ghost use Rattle.std.specs.Prelude.{unwrap_or};
ghost use Rattle.std.specs.Ordering.{nat_cmp};
ghost use Rattle.sorted_lists.specs.SortedList.{value_of};
ghost use Rattle.repo_process.specs.Processes.{Process, has_index, has_block, is_whole, present, missing, with_block};
ghost use Rattle.repo_process.specs.Processes.{without_block, object_of};

/// A process is complete exactly where it holds a block of each of its indexes. If its object wasn't published, that is
/// exactly where no block is missing.
pub fn complete_processes_have_all_blocks()
    ensures blocks { (p : Process) → IsTrue (is_whole p)
        ↔ ((index : ℕ) → IsTrue (has_index p index) → IsTrue (has_block p index)) }
    ensures missing { (p : Process) → p.published ≡ false → IsTrue (is_whole p) ↔ (missing p ≡ 0) }
{}

/// The object of a process has its blocks as segments, in order of index and numbered from 0.
pub fn blocks_are_segments()
    ensures count { (p : Process) → length (object_of p).contents ≡ p.last + 1 - p.first }
    ensures each { (p : Process) (i : ℕ) → i < p.last + 1 - p.first
        → slice_get (object_of p).contents i
        ≡ Some (unwrap_or (value_of nat_cmp p.blocks (p.first + i)) []) }
{}

/// A block stays as it was received, whatever is received for its index later. A process that receives a new block and
/// takes it back is as it was before.
pub fn blocks_stay_until_taken_back()
    ensures stays { (p : Process) (index : ℕ) (content : List ℕ) → IsTrue (has_block p index)
        → with_block index content p ≡ p }
    ensures comes { (p : Process) (index : ℕ) (content : List ℕ) → has_block p index ≡ false
        → value_of nat_cmp (with_block index content p).blocks index ≡ Some content }
    ensures taken_back { (p : Process) (index : ℕ) (content : List ℕ) → has_block p index ≡ false
        → without_block index (with_block index content p) ≡ p }
{}
