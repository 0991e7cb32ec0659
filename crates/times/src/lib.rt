// Times at copies.
//
// `times` tests what it is lent (`tests`), and then fills the four slices (`copies`): arrivals and
// earliest arrivals by one pass over the copies, each with the edges into it (`arrivals`), required times by
// one pass back over the edges (`requireds`), and slacks from arrivals and required times.
#![tactic(auto)]

ghost use Rattle.std.specs.Prelude.{◌≡◌, length};
ghost use Rattle.timing.specs.Graphs.{design};
ghost use Rattle.timing.specs.Calls.{graph_slices, test_times, arrivals_after, requireds_after, slacks_after, earliests_after};

mod arrivals;
mod copies;
mod numbers;
mod requireds;
mod tests;

use crate::copies::fill_times;
use crate::tests::times_tests;
use timing::Verdict;

// The arrival, the required time, the slack and the earliest arrival of every copy of a true graph
// (`endpoint`: 1 for the copies where paths end; `from`, `to`, `via`: the start copies, end copies
// and design edges of its edges). A refusal changes nothing.
pub fn times(
    n: u32,
    starts: &[u32],
    ends: &[u32],
    early: &[i32],
    late: &[i32],
    marked: &[u32],
    allowed: u32,
    nodes: &[u32],
    endpoint: &[u32],
    from: &[u32],
    to: &[u32],
    via: &[u32],
    arrivals: &mut [i64],
    requireds: &mut [i64],
    slacks: &mut [i64],
    earliests: &mut [i64],
) -> Verdict
    ensures { let D = design n starts.now ends.now
        early.now late.now marked.now in
        let S = graph_slices nodes.now endpoint.now
        from.now to.now via.now in
        let tested = test_times D S allowed
        (length arrivals.old) (length requireds.old)
        (length slacks.old) (length earliests.old) in
        (result ≡ tested)
        × (arrivals.new ≡ arrivals_after D S allowed tested arrivals.old)
        × (requireds.new ≡ requireds_after D S allowed tested requireds.old)
        × (slacks.new ≡ slacks_after D S allowed tested slacks.old)
        × (earliests.new ≡ earliests_after D S tested earliests.old) }
{
    times_tests(
        n,
        starts,
        ends,
        early,
        late,
        marked,
        allowed,
        nodes,
        endpoint,
        from,
        to,
        via,
        arrivals.len(),
        requireds.len(),
        slacks.len(),
        earliests.len(),
    )?;
    fill_times(
        early, late, nodes, endpoint, from, to, via, allowed, arrivals, requireds, slacks,
        earliests,
    );
    Ok(())
}
