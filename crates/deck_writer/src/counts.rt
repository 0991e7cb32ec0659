// The tests that a writer of decks makes before it writes: 30, and the counts.
ghost use Rattle.std.specs.Prelude.{◌≡◌, leb};
ghost use Rattle.timing.specs.Refusals.{◌then◌};
ghost use Rattle.timing.specs.Refusals.{unless as passed_if};
ghost use Rattle.timing.specs.Tests.{marked_count};
ghost use Rattle.timing.specs.Calls.{deck_write_tests};
ghost use Rattle.deck_writer.specs.Writing.{deck_of};

use timing::{MAX_EDGES, MAX_LISTED_EDGES, MAX_NODES, MAX_PATHS, Verdict};
use verdicts::{marked_count, unless};

// 10, 11, 20, 21 and 16, by the counts.
fn count_tests(n: u32, edges: usize, paths: usize, listed: usize, marked: usize) -> Verdict
    ensures { let design = passed_if 10 (leb n 4096) then passed_if 11 (leb edges 16384) in
        let list = passed_if 20 (leb paths 1024) then passed_if 21 (leb listed 8192) in
        result ≡ (design then list then marked_count n marked) }
{
    unless(10, n <= MAX_NODES)?;
    unless(11, edges <= MAX_EDGES)?;
    unless(20, paths <= MAX_PATHS)?;
    unless(21, listed <= MAX_LISTED_EDGES)?;
    marked_count(n, marked)
}

// The tests of a deck that is to be written; none of them looks at T, or at the marked nodes but for their count.
pub(crate) fn write_tests(
    n: u32,
    starts: &[u32],
    ends: &[u32],
    early: &[i32],
    late: &[i32],
    marked: &[u32],
    listed: &[u32],
    lengths: &[u32],
) -> Verdict
    ensures { let d = deck_of n starts.now ends.now early.now late.now
        marked.now listed.now lengths.now 0 in
        result ≡ deck_write_tests d }
{
    let sizes = sizes::design_sizes(starts, ends, early, late);
    sizes::and_list_sizes(sizes, listed, lengths)?;
    count_tests(n, starts.len(), lengths.len(), listed.len(), marked.len())
}
