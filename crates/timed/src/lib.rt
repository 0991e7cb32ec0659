// The tests of the calls that take a design, a true graph and T, in document 01's order: 30, 10 to 16, 25, 32.
#![tactic(auto)]

ghost use Rattle.std.specs.Prelude.{◌≡◌, ℕ, List, length};
ghost use Rattle.timing.specs.Refusals.{◌then◌};
ghost use Rattle.timing.specs.Tests.{design_sizes, room_sizes};
ghost use Rattle.timing.specs.Graphs.{design};
ghost use Rattle.timing.specs.Calls.{graph_slices, timing_tests};

use design::and_design_tests;
use graph::and_graph_test;
use sizes::design_sizes;
use timing::Verdict;
use verdicts::{and_unless, graph_sizes, then};

// 30 for the design, for the graph and for what is lent besides.
fn timing_sizes(
    lent: Verdict,
    starts: &[u32],
    ends: &[u32],
    early: &[i32],
    late: &[i32],
    copies: usize,
    endpoint: usize,
    from: &[u32],
    to: &[u32],
    via: &[u32],
) -> Verdict
    ensures { let graph = room_sizes (record {
      nodes = copies;
      endpoints = endpoint;
      starts = length from.now;
      ends = length to.now;
      names = length via.now;
    }) in
        ((n : ℕ) (marked : List ℕ)
        → let D = design n starts.now ends.now early.now late.now marked in
        result ≡ (design_sizes D then graph then lent)) }
{
    let first = design_sizes(starts, ends, early, late);
    let graph = graph_sizes(copies, endpoint, from.len(), to.len(), via.len());
    then(first, then(graph, lent))
}

// All of them, where `lent` is 30 for the slices that times go into.
pub fn timing_tests(
    lent: Verdict,
    n: u32,
    starts: &[u32],
    ends: &[u32],
    early: &[i32],
    late: &[i32],
    marked: &[u32],
    allowed: u32,
    nodes: &[u32],
    endpoint: &[u32],
    from: &[u32],
    to: &[u32],
    via: &[u32],
) -> Verdict
    ensures { let D = design n starts.now ends.now
        early.now late.now marked.now in
        let S = graph_slices nodes.now endpoint.now
        from.now to.now via.now in
        result ≡ timing_tests D S allowed lent }
{
    let sizes = timing_sizes(
        lent,
        starts,
        ends,
        early,
        late,
        nodes.len(),
        endpoint.len(),
        from,
        to,
        via,
    );
    let fit = and_design_tests(sizes, n, starts, ends, early, late, marked);
    let within = and_unless(fit, 25, allowed <= timing::MAX_ALLOWED_TIME);
    and_graph_test(
        within, n, starts, ends, marked, nodes, endpoint, from, to, via,
    )
}
