// The records of all nodes, in one pass over the copies. Each node has a place in five slices:
// whether a copy of it was met (1 or 0), and its four times over the copies met so far.
ghost use Rattle.std.specs.Prelude.{◌≡◌, ℕ, ℤ, map, pos, length, get_or, set};
ghost use Rattle.timing.specs.Lists.{upto};
ghost use Rattle.timing.specs.Times.{larger as larger_time, smaller as smaller_time};
ghost use Rattle.timing.specs.Calls.{has_times, arrival_of, required_of, slack_of, earliest_of};
ghost use Rattle.records.specs.Records.{bettered, node_so_far};

use entries::{fill, number_at, time_at};
use extremes::{larger, smaller};

// A node that is not below n has no place.
fn copy_met(known: &mut [u32], v: usize)
    ensures { known.new ≡ set known.old v 1 }
{
    if v < known.len() {
        known[v] = 1;
    }
}

// The first copy of a node gives it its time, and each other one the better of the two.
fn better_node<F: Fn(i64, i64) -> i64>(
    better: F,
    known: &[u32],
    times: &mut [i64],
    v: usize,
    t: i64,
)
    requires { F.IsAlwaysCallable better }
    ensures { let old = get_or times.old v (pos 0) in
        (pick : ℤ → ℤ → ℤ)
        → ((r : ℤ) → F.post better old t r → r ≡ pick old t)
        → times.new ≡ bettered pick known.now times.old v t }
{
    if v < times.len() {
        times[v] = if number_at(known, v) == 0 {
            t
        } else {
            better(times[v], t)
        };
    }
}

// Copy `c` counts for its node.
fn count_copy(
    nodes: &[u32],
    arrivals: &[i64],
    requireds: &[i64],
    slacks: &[i64],
    earliests: &[i64],
    known: &mut [u32],
    na: &mut [i64],
    nr: &mut [i64],
    ns: &mut [i64],
    ne: &mut [i64],
    c: usize,
)
    ensures { let met = known.old in
        let v = get_or nodes.now c 0 in
        (known.new ≡ set met v 1)
        × (na.new ≡ bettered larger_time met na.old v (get_or arrivals.now c (pos 0)))
        × (nr.new ≡ bettered smaller_time met nr.old v (get_or requireds.now c (pos 0)))
        × (ns.new ≡ bettered smaller_time met ns.old v (get_or slacks.now c (pos 0)))
        × (ne.new ≡ bettered smaller_time met ne.old v (get_or earliests.now c (pos 0))) }
{
    let v = number_at(nodes, c) as usize;
    better_node(larger, known, na, v, time_at(arrivals, c));
    better_node(smaller, known, nr, v, time_at(requireds, c));
    better_node(smaller, known, ns, v, time_at(slacks, c));
    better_node(smaller, known, ne, v, time_at(earliests, c));
    copy_met(known, v);
}

pub(crate) fn fill_records(
    nodes: &[u32],
    arrivals: &[i64],
    requireds: &[i64],
    slacks: &[i64],
    earliests: &[i64],
    known: &mut [u32],
    na: &mut [i64],
    nr: &mut [i64],
    ns: &mut [i64],
    ne: &mut [i64],
)
    requires { let places = length known.old in
        (length na.old ≡ places)
        × (length nr.old ≡ places)
        × (length ns.old ≡ places)
        × (length ne.old ≡ places) }
    ensures { let ats = arrivals.now in
        let rts = requireds.now in
        let sts = slacks.now in
        let ets = earliests.now in
        let times = node_so_far nodes.now ats rts sts ets (length nodes.now) in
        let all = upto (length known.old) 0 in
        (known.new ≡ map (λ (v : ℕ). has_times (times v)) all)
        × (na.new ≡ map (λ (v : ℕ). arrival_of (times v)) all)
        × (nr.new ≡ map (λ (v : ℕ). required_of (times v)) all)
        × (ns.new ≡ map (λ (v : ℕ). slack_of (times v)) all)
        × (ne.new ≡ map (λ (v : ℕ). earliest_of (times v)) all) }
{
    known.fill(0);
    fill(na, 0);
    fill(nr, 0);
    fill(ns, 0);
    fill(ne, 0);
    for c in 0..nodes.len() {
        count_copy(
            nodes, arrivals, requireds, slacks, earliests, known, na, nr, ns, ne, c,
        );
    }
}
