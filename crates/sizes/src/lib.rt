// Tests of lengths. 30: lent slices that belong together, and the lengths of the paths against the flat list. 31: the scratch. 33 and
// 34: a result against its room.
#![tactic(auto)]

ghost use Rattle.std.specs.Prelude.{◌≡◌, List, ℕ};
ghost use Rattle.timing.specs.Refusals.{◌then◌};
ghost use Rattle.timing.specs.Graphs.{design};
ghost use Rattle.timing.specs.Marks.{path_list};
ghost use Rattle.timing.specs.Tests.{edge_sizes, design_sizes, time_sizes, list_sizes, words_test, count_tests};
ghost use Rattle.timing.specs.Calls.{largest_room, counts_answer};

use entries::least;
use timing::{GraphCounts, MAX_COPIES, MAX_COPY_EDGES, Refusal, Verdict, WORDS_PER_UNIT};
use verdicts::{same_sizes, then, unless};

// 30 for four slices of edges, from their lengths: those of a design, and the tables that the deck reader is lent.
pub fn edge_sizes(starts: usize, ends: usize, early: usize, late: usize) -> Verdict
    ensures { result ≡ edge_sizes starts ends early late }
{
    let joined = same_sizes(starts, starts, ends);
    let delays = same_sizes(starts, early, late);
    then(joined, delays)
}

// 30 for the four edge slices of a design.
pub fn design_sizes(starts: &[u32], ends: &[u32], early: &[i32], late: &[i32]) -> Verdict
    ensures { (n : ℕ) (marked : List ℕ)
        → result ≡ design_sizes (design n
        starts.now ends.now early.now late.now marked) }
{
    edge_sizes(starts.len(), ends.len(), early.len(), late.len())
}

// 30 for four slices of times, with one place for each of some copies or nodes.
pub fn time_sizes(
    places: usize,
    arrivals: usize,
    requireds: usize,
    slacks: usize,
    earliests: usize,
) -> Verdict
    ensures { result ≡ time_sizes places arrivals requireds slacks earliests }
{
    let sizes = same_sizes(places, arrivals, requireds);
    let more = same_sizes(places, slacks, earliests);
    then(sizes, more)
}

// 30 for a list of paths: its lengths do not add up to the flat list. What is left of the flat list
// is counted down, so that no sum wraps. Inlined beside other tests, its loop would have no registers left for the lengths.
#[inline(never)]
pub fn and_list_sizes(before: Verdict, listed: &[u32], lengths: &[u32]) -> Verdict
    ensures { result ≡ (before then list_sizes (path_list listed.now lengths.now)) }
{
    before?;
    let mut left = listed.len();
    for k in lengths {
        let k = *k as usize;
        if left < k {
            return unless(30, false);
        }
        left -= k;
    }
    unless(30, left == 0)
}

// 31: scratch of so many words, for so many candidates, listed edges and edges of the graph worked on. The three are counted down from an
// eighth of the words, so that no product and no sum wraps.
pub fn scratch_test(words: usize, candidates: usize, listed: usize, edges: usize) -> Verdict
    ensures { result ≡ words_test candidates listed edges words }
{
    let units = words / WORDS_PER_UNIT;
    if units < candidates {
        return unless(31, false);
    }
    let left = units - candidates;
    if left < listed {
        return unless(31, false);
    }
    unless(31, edges <= left - listed)
}

// 33 and 34, from the counts of a result and the lent lengths for its copies and its edges.
fn room_tests(copies: usize, edges: usize, node_room: usize, edge_room: usize) -> Verdict
    ensures { result ≡ count_tests copies edges node_room edge_room }
{
    if least(node_room, MAX_COPIES) < copies {
        return unless(33, false);
    }
    unless(34, edges <= least(edge_room, MAX_COPY_EDGES))
}

// What is answered of a result with so many copies and edges, in a room with so many places for each: 33, 34, or its counts.
pub fn room_answer(
    copies: usize,
    edges: usize,
    node_room: usize,
    edge_room: usize,
) -> Result<GraphCounts, Refusal>
    ensures { result ≡ counts_answer (count_tests copies edges node_room edge_room) copies edges }
{
    room_tests(copies, edges, node_room, edge_room)?;
    Ok(GraphCounts { copies, edges })
}

// The same in the largest room, where none is lent: a size that is told.
pub fn largest_answer(copies: usize, edges: usize) -> Result<GraphCounts, Refusal>
    ensures { result ≡ counts_answer (count_tests copies edges largest_room.nodes largest_room.starts) copies edges }
{
    room_answer(copies, edges, MAX_COPIES, MAX_COPY_EDGES)
}
