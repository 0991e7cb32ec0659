// The tests of a list of paths against a design. Each test passes over every path before the next, and those of the paths run
// only where quick passes do not find that all paths pass.
#![tactic(auto)]

ghost use Rattle.std.specs.Prelude.{◌≡◌, List, [], ℕ, ℤ, leb, length};
ghost use Rattle.timing.specs.Refusals.{◌then◌, first_fault};
ghost use Rattle.timing.specs.Refusals.{unless as passed_if};
ghost use Rattle.timing.specs.Graphs.{design};
ghost use Rattle.timing.specs.Marks.{path_list, paths_of};
ghost use Rattle.timing.specs.Tests.{meets, empty_at, first_unknown, first_break, list_tests};

use timing::{MAX_LISTED_EDGES, MAX_PATHS, Verdict};
use verdicts::unless;

mod paths;
mod quick;

// 20 and 21, from the count of paths and of listed edges.
fn list_counts(paths: usize, edges: usize) -> Verdict
    ensures { result ≡ (passed_if 20 (leb paths 1024) then passed_if 21 (leb edges 8192)) }
{
    unless(20, paths <= MAX_PATHS)?;
    unless(21, edges <= MAX_LISTED_EDGES)
}

// 22 to 24, each a pass over every path before the next.
fn each_test(starts: &[u32], ends: &[u32], listed: &[u32], lengths: &[u32]) -> Verdict
    ensures { let D = design 0 starts.now ends.now [] [] [] in
        let L = path_list listed.now lengths.now in
        result ≡ (first_fault 22 empty_at 0 (paths_of L)
        then first_fault 23 (first_unknown (length starts.now) 0) 0 (paths_of L)
        then first_fault 24 (first_break (meets D) 0) 0 (paths_of L)) }
{
    paths::filled(listed, lengths)?;
    paths::named(starts.len(), listed, lengths)?;
    paths::joined(starts, ends, listed, lengths)
}

// 22 to 24.
fn path_tests(starts: &[u32], ends: &[u32], listed: &[u32], lengths: &[u32]) -> Verdict
    ensures { let D = design 0 starts.now ends.now [] [] [] in
        let L = path_list listed.now lengths.now in
        result ≡ (first_fault 22 empty_at 0 (paths_of L)
        then first_fault 23 (first_unknown (length starts.now) 0) 0 (paths_of L)
        then first_fault 24 (first_break (meets D) 0) 0 (paths_of L)) }
{
    if quick::all_pass(starts, ends, listed, lengths) {
        return Ok(());
    }
    each_test(starts, ends, listed, lengths)
}

// 20 to 24, of a list against a design of as many edges as it has starts.
#[tactic(auto, unfolding(timing::specs::Tests::list_tests))]
pub fn and_list_tests(
    before: Verdict,
    starts: &[u32],
    ends: &[u32],
    listed: &[u32],
    lengths: &[u32],
) -> Verdict
    ensures { let L = path_list listed.now lengths.now in
        ((n : ℕ) (early late : List ℤ) (marked : List ℕ)
        → result ≡ (before then list_tests (design n starts.now ends.now early late marked) L)) }
{
    before?;
    list_counts(lengths.len(), listed.len())?;
    path_tests(starts, ends, listed, lengths)
}
