// The four times of every copy.
ghost use Rattle.std.specs.Prelude.{◌≡◌, ℕ, ◌≤◌, map, pos, ◌-ℤ◌, length, get_or};
ghost use Rattle.timing.specs.Lists.{upto};
ghost use Rattle.timing.specs.Times.{arrival_at, required_at, slack_at, earliest_at};
ghost use Rattle.timing.specs.Calls.{graph_slices, graph_of};
ghost use Rattle.theorems.proofs.Runs.{Onward};
ghost use Rattle.times.specs.Passes.{delay_of, Fit, Small};

use crate::arrivals::fill_arrivals;
use crate::requireds::fill_requireds;

// Slack is required time less arrival.
fn fill_slacks(arrivals: &[i64], requireds: &[i64], slacks: &mut [i64])
    requires small { Small arrivals.now × Small requireds.now }
    requires as_long { let copies = length slacks.old in
        (length arrivals.now ≡ copies) × (length requireds.now ≡ copies) }
    ensures { let ats = arrivals.now in
        let rts = requireds.now in
        let copies = upto (length slacks.old) 0 in
        slacks.new ≡ map (λ (c : ℕ). get_or rts c (pos 0) -ℤ get_or ats c (pos 0)) copies }
{
    for (i, s) in slacks.iter_mut().enumerate() {
        *s = requireds[i] - arrivals[i];
    }
}

// The times of a graph that passed its tests.
pub(crate) fn fill_times(
    early: &[i32],
    late: &[i32],
    nodes: &[u32],
    endpoint: &[u32],
    from: &[u32],
    to: &[u32],
    via: &[u32],
    allowed: u32,
    arrivals: &mut [i64],
    requireds: &mut [i64],
    slacks: &mut [i64],
    earliests: &mut [i64],
)
    requires fit { let S = graph_slices nodes.now endpoint.now from.now to.now via.now in
        Fit late.now S
        × Fit early.now S
        × Onward (graph_of S)
        × (allowed ≤ 1000000000)
        × (length endpoint.now ≡ length nodes.now) }
    requires as_long { let copies = length nodes.now in
        (length arrivals.old ≡ copies)
        × (length requireds.old ≡ copies)
        × (length slacks.old ≡ copies)
        × (length earliests.old ≡ copies) }
    ensures { let S = graph_slices nodes.now endpoint.now
        from.now to.now via.now in
        let delay = delay_of late.now in
        let copies = upto (length S.nodes) 0 in
        (arrivals.new ≡ map (arrival_at delay (pos allowed) (graph_of S)) copies)
        × (requireds.new ≡ map (required_at delay (pos allowed) (graph_of S)) copies)
        × (slacks.new ≡ map (slack_at delay (pos allowed) (graph_of S)) copies)
        × (earliests.new ≡ map (earliest_at (delay_of early.now) (graph_of S)) copies) }
{
    fill_arrivals(early, late, nodes, from, to, via, arrivals, earliests);
    fill_requireds(late, nodes, endpoint, from, to, via, allowed, requireds);
    fill_slacks(arrivals, requireds, slacks);
}
