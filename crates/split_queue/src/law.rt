//! What chains are, in the words of whole paths, and what writing to a stream comes to.
ghost use Rattle.std.specs.Prelude.{◌≡◌, ℕ, ◌+◌, ◌<◌, ◌≤◌, ◌++◌, List, length, true, false};
ghost use Rattle.split_queue.specs.declared.range.Range.{Range};
ghost use Rattle.split_queue.specs.Chains.{ChainOf};
ghost use Rattle.split_queue.specs.Paths.{Start, place, walked, fault_at, ends_at, end};
ghost use Rattle.split_queue.specs.Streams.{written};
ghost use Rattle.split_queue.specs.Whole.{IsChainOf, BreaksAt};

use tb_base::Why;

/// Every path comes to an end within the 64 places of a table, and `end` is the first place where it does.
pub fn paths_end()
    ensures ends { (s : Start) → s.size ≤ 64 → s.head < s.size → ends_at s (end s) ≡ true }
    ensures first { (s : Start) (k : ℕ) → k < end s → ends_at s k ≡ false }
{}

/// A chain is given exactly where there is a whole path, and it is the chain of that path.
pub fn chains_are_paths()
    ensures path { (s : Start) (c : ChainOf) → s.size ≤ 64 → s.head < s.size → Ok c ≡ walked s → (ps : List ℕ) × IsChainOf s c ps }
    ensures chain { (s : Start) (c : ChainOf) (ps : List ℕ) → s.size ≤ 64 → s.head < s.size → IsChainOf s c ps → Ok c ≡ walked s }
{}

/// A fault is given exactly where it is the first thing that is wrong on the path.
pub fn faults_come_first()
    ensures breaks { (s : Start) (w : Why) → Err w ≡ walked s → (n : ℕ) × BreaksAt s w n }
    ensures broken { (s : Start) (w : Why) (n : ℕ) → s.size ≤ 64 → s.head < s.size → BreaksAt s w n → Err w ≡ walked s }
{}

/// The fault is a loop exactly where the descriptor was met before.
pub fn loops_were_met()
    ensures met { (s : Start) (n : ℕ) → fault_at s n ≡ Some Why.Loop → (j : ℕ) × ((j < n) × (place s j ≡ place s n)) }
    ensures is_loop { (s : Start) (j n : ℕ) → j < n → place s j ≡ place s n → fault_at s n ≡ Some Why.Loop }
{}

/// Writing two pieces to a stream, one right behind the other, is writing them joined.
pub fn writes_are_joined()
    ensures { (ram : List ℕ) (rs : List Range) (pos : ℕ) (xs ys : List ℕ) →
        written ram rs pos (xs ++ ys) ≡ written (written ram rs pos xs) rs (pos + length xs) ys }
{}
