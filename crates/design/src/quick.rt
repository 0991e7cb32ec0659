// 12 to 15 in one pass over the edges, which says only whether all of them pass, and 16 of blocks of marked nodes. Most designs have
// nothing wrong, and need no more than this; the number and the place of what is wrong are left to the passes of `edges` and `marked`.
// The loops have no branch, and read the slices in order, so that they are compiled to vector code.
ghost use Rattle.std.specs.Prelude.{ℕ, ◌≤◌, ◌<◌, ◌≡◌, true, false, [], ◌∷◌, length};
ghost use Rattle.timing.specs.Answers.{Passed};
ghost use Rattle.timing.specs.Lists.{upto};
ghost use Rattle.timing.specs.Refusals.{◌then◌, first_bad};
ghost use Rattle.timing.specs.Graphs.{design};
ghost use Rattle.timing.specs.Tests.{strays, falls, out_of_range, early_above_late, wrong_marked};

use entries::least;
use timing::MAX_DELAY;

// How many marked nodes a block has.
const BLOCK: usize = 256;

// 12 to 15 of one edge. Its start is below its end, so that only the end is held to n; its early delay is at most its late
// one, so that each of them is held to one end of the range.
fn edge_passes(n: u32, start: u32, end: u32, early: i32, late: i32) -> bool
    ensures { let D = design n (start ∷ []) (end ∷ []) (early ∷ []) (late ∷ []) [] in
        (result ≡ true → (strays D 0 ≡ false) × (falls D 0 ≡ false) × (out_of_range D 0 ≡ false) × (early_above_late D 0 ≡ false)) }
{
    (start < end) & (end < n) & (-MAX_DELAY <= early) & (late <= MAX_DELAY) & (early <= late)
}

// Whether each edge passes.
fn edges_pass(n: u32, starts: &[u32], ends: &[u32], early: &[i32], late: &[i32]) -> bool
    requires { (length ends.now ≡ length starts.now) × (length early.now ≡ length starts.now)
        × (length late.now ≡ length starts.now) }
    ensures { let D = design n starts.now ends.now early.now late.now [] in
        (result ≡ true → (k : ℕ) → k < length starts.now
        → (strays D k ≡ false) × (falls D k ≡ false) × (out_of_range D k ≡ false) × (early_above_late D k ≡ false)) }
{
    let mut pass = true;
    for k in 0..starts.len() {
        pass &= edge_passes(n, starts[k], ends[k], early[k], late[k]);
    }
    pass
}

// Whether all edges pass 12 to 15. Only slices of one length are read; for others the answer is no.
pub(crate) fn all_pass(n: u32, starts: &[u32], ends: &[u32], early: &[i32], late: &[i32]) -> bool
    ensures { let D = design n starts.now ends.now early.now late.now [] in
        let edges = upto (length starts.now) 0 in
        (result ≡ true → (first_bad 12 (strays D) 0 edges then first_bad 13 (falls D) 0 edges
        then first_bad 14 (out_of_range D) 0 edges then first_bad 15 (early_above_late D) 0 edges) ≡ Passed) }
{
    if ends.len() != starts.len() {
        return false;
    }
    if early.len() != starts.len() {
        return false;
    }
    if late.len() != starts.len() {
        return false;
    }
    edges_pass(n, starts, ends, early, late)
}

// 16 of a marked node that has one before it.
fn node_passes(n: u32, before: u32, node: u32) -> bool
    ensures { (result ≡ true → (before < node) × (node < n)) }
{
    (before < node) & (node < n)
}

// Whether the marked nodes at the indices from `from` to before `to` pass 16.
fn block_passes(n: u32, marked: &[u32], from: usize, to: usize) -> bool
    requires { (1 ≤ from) × (to ≤ length marked.now) }
    ensures { let D = design n [] [] [] [] marked.now in
        (result ≡ true → (k : ℕ) → from ≤ k → k < to → wrong_marked D k ≡ false) }
{
    let mut pass = true;
    for k in from..to {
        pass &= node_passes(n, marked[k - 1], marked[k]);
    }
    pass
}

// How many marked nodes pass 16 up to the first block in which one does not: all of them, where there is none. It goes by blocks, so that
// where one is wrong not many behind it are looked at: 16 is tested before anything bounds how many nodes are marked.
pub(crate) fn marked_passed(n: u32, marked: &[u32]) -> usize
    ensures { let D = design n [] [] [] [] marked.now in
        (k : ℕ) → k < result → wrong_marked D k ≡ false }
{
    if marked.is_empty() {
        return 0;
    }
    if n <= marked[0] {
        return 0;
    }
    let mut passed = 1;
    while passed < marked.len() {
        let next = passed + least(marked.len() - passed, BLOCK);
        if !block_passes(n, marked, passed, next) {
            break;
        }
        passed = next;
    }
    passed
}
