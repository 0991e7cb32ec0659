// The required time of every copy, by one pass over the edges from the last to the first.
ghost use Rattle.std.specs.Prelude.{◌≡◌, ℕ, ◌≤◌, ◌<◌, map, ℤ, pos, length, get_or};
ghost use Rattle.timing.specs.Lists.{upto};
ghost use Rattle.timing.specs.Times.{required_at};
ghost use Rattle.timing.specs.Calls.{graph_slices, graph_of};
ghost use Rattle.theorems.proofs.Runs.{Onward};
ghost use Rattle.times.specs.Passes.{first_required, Over, lowered, delay_of, Fit};

use crate::numbers::{negated, signed, sum};
use entries::wide;
use extremes::smaller;

const NO_REQUIRED: i64 = i64::MAX;

// T where paths end, and elsewhere no time yet.
fn first_required(endpoint: u32, allowed: i64) -> i64
    ensures { result ≡ first_required endpoint allowed }
{
    if endpoint == 1 { allowed } else { NO_REQUIRED }
}

// The same for every copy.
fn first_requireds(endpoint: &[u32], allowed: i64, requireds: &mut [i64])
    requires { length endpoint.now ≡ length requireds.old }
    ensures { let first : ℕ → ℤ = λ c. first_required (get_or endpoint.now c 0) allowed in
        requireds.new ≡ map first (upto (length requireds.old) 0) }
{
    for i in 0..requireds.len() {
        requireds[i] = first_required(endpoint[i], allowed);
    }
}

// Edge `k` of the graph: the required time at its start is no more than over this edge.
fn lower_edge(
    delays: &[i32],
    from: &[u32],
    to: &[u32],
    via: &[u32],
    requireds: &mut [i64],
    k: usize,
)
    requires { Over delays.now to.now via.now requireds.old k
        × (k < length from.now)
        × (get_or from.now k 0 < length requireds.old) }
    ensures { let a = get_or from.now k 0 in
        let b = get_or to.now k 0 in
        let d = delay_of delays.now (get_or via.now k 0) in
        requireds.new ≡ lowered requireds.old a b d }
{
    let a = wide(from[k]);
    let b = wide(to[k]);
    let name = wide(via[k]);
    let t = sum(requireds[b], negated(delays[name]));
    requireds[a] = smaller(t, requireds[a]);
}

// From the last edge to the first: where an edge is met, the required time at its end is final. From
// a copy where no path ends an edge leads on, so that none is left without a time.
pub(crate) fn fill_requireds(
    delays: &[i32],
    nodes: &[u32],
    endpoint: &[u32],
    from: &[u32],
    to: &[u32],
    via: &[u32],
    allowed: u32,
    requireds: &mut [i64],
)
    requires fit { let S = graph_slices nodes.now endpoint.now from.now to.now via.now in
        Fit delays.now S × Onward (graph_of S) }
    requires as_long { let copies = length nodes.now in
        (allowed ≤ 1000000000) × (length requireds.old ≡ copies) × (length endpoint.now ≡ copies) }
    ensures { let S = graph_slices nodes.now endpoint.now
        from.now to.now via.now in
        let delay = delay_of delays.now in
        requireds.new ≡ map (required_at delay (pos allowed) (graph_of S)) (upto (length S.nodes) 0) }
{
    first_requireds(endpoint, signed(allowed), requireds);
    for k in (0..from.len()).rev() {
        lower_edge(delays, from, to, via, requireds, k);
    }
}
