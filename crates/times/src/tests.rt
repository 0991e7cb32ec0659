// What `times` tests, in document 01's order.
ghost use Rattle.std.specs.Prelude.{◌≡◌};
ghost use Rattle.timing.specs.Graphs.{design};
ghost use Rattle.timing.specs.Calls.{graph_slices, test_times};

use sizes::time_sizes;
use timed::timing_tests;
use timing::Verdict;

pub(crate) fn times_tests(
    n: u32,
    starts: &[u32],
    ends: &[u32],
    early: &[i32],
    late: &[i32],
    marked: &[u32],
    allowed: u32,
    nodes: &[u32],
    endpoint: &[u32],
    from: &[u32],
    to: &[u32],
    via: &[u32],
    arrivals: usize,
    requireds: usize,
    slacks: usize,
    earliests: usize,
) -> Verdict
    ensures { let D = design n starts.now ends.now
        early.now late.now marked.now in
        let S = graph_slices nodes.now endpoint.now
        from.now to.now via.now in
        result ≡ test_times D S allowed arrivals requireds slacks earliests }
{
    let lent = time_sizes(nodes.len(), arrivals, requireds, slacks, earliests);
    timing_tests(
        lent, n, starts, ends, early, late, marked, allowed, nodes, endpoint, from, to, via,
    )
}
