// 22, 23 and 24 in a pass each, which says only whether all paths pass. Most lists have no wrong path, and need no more than
// this; the number and the places of a wrong one are left to the passes of `paths`. The first two loops have no branch, and
// read their slice in order, so that they are compiled to vector code. What they show lets the third index with no test.
ghost use Rattle.std.specs.Prelude.{ℕ, ◌<◌, ◌≤◌, ◌≡◌, true, [], length, get_or, None};
ghost use Rattle.timing.specs.Answers.{Passed};
ghost use Rattle.timing.specs.Lists.{sum};
ghost use Rattle.timing.specs.Refusals.{◌then◌, first_fault};
ghost use Rattle.timing.specs.Graphs.{design};
ghost use Rattle.timing.specs.Marks.{path_list, paths_of};
ghost use Rattle.timing.specs.Tests.{meets, empty_at, first_unknown, first_break};

use timing::{MAX_EDGES, MAX_PATHS};

// Whether no path is empty. A path is also empty where those before it take up the flat list of `size` edges, so the lengths
// must not pass it.
fn all_filled(size: usize, lengths: &[u32]) -> bool
    requires { length lengths.now ≤ 1024 }
    ensures { result ≡ true → (sum lengths.now ≤ size)
        × ((p : ℕ) → p < length lengths.now → 0 < get_or lengths.now p 0) }
{
    let mut filled = true;
    let mut total = 0;
    for k in lengths {
        filled &= 0 < *k;
        total += *k as usize;
    }
    filled & (total <= size)
}

// Whether each listed edge is one of the m edges.
fn all_known(m: u32, listed: &[u32]) -> bool
    ensures { result ≡ true → (i : ℕ) → i < length listed.now → get_or listed.now i 0 < m }
{
    let mut known = true;
    for k in listed {
        known &= *k < m;
    }
    known
}

// Whether each edge of a path starts where the one before ends.
fn joins(starts: &[u32], ends: &[u32], path: &[u32]) -> bool
    requires { (length ends.now ≡ length starts.now)
        × ((i : ℕ) → i < length path.now → get_or path.now i 0 < length starts.now) }
    ensures { let D = design 0 starts.now ends.now [] [] [] in
        (result ≡ true → first_break (meets D) 0 path.now ≡ None) }
{
    for i in 1..path.len() {
        let j = path[i - 1] as usize;
        let k = path[i] as usize;
        if ends[j] != starts[k] {
            return false;
        }
    }
    true
}

// Whether the edges of each path join.
fn all_join(starts: &[u32], ends: &[u32], listed: &[u32], lengths: &[u32]) -> bool
    requires { (length ends.now ≡ length starts.now) × (sum lengths.now ≤ length listed.now)
        × ((i : ℕ) → i < length listed.now → get_or listed.now i 0 < length starts.now) }
    ensures { let D = design 0 starts.now ends.now [] [] [] in
        let L = path_list listed.now lengths.now in
        (result ≡ true → first_fault 24 (first_break (meets D) 0) 0 (paths_of L) ≡ Passed) }
{
    let mut rest = listed;
    for k in lengths {
        let (path, after) = rest.split_at(*k as usize);
        if !joins(starts, ends, path) {
            return false;
        }
        rest = after;
    }
    true
}

// Whether all paths pass 22 to 24. For a list of too many paths, or a design of too many edges or of slices of two lengths, the
// answer is no.
pub(crate) fn all_pass(starts: &[u32], ends: &[u32], listed: &[u32], lengths: &[u32]) -> bool
    ensures { let D = design 0 starts.now ends.now [] [] [] in
        let L = path_list listed.now lengths.now in
        (result ≡ true → (first_fault 22 empty_at 0 (paths_of L)
        then first_fault 23 (first_unknown (length starts.now) 0) 0 (paths_of L)
        then first_fault 24 (first_break (meets D) 0) 0 (paths_of L)) ≡ Passed) }
{
    lengths.len() <= MAX_PATHS
        && starts.len() <= MAX_EDGES
        && ends.len() == starts.len()
        && all_filled(listed.len(), lengths)
        && all_known(starts.len() as u32, listed)
        && all_join(starts, ends, listed, lengths)
}
