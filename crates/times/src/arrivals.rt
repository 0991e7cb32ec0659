// The arrival and the earliest arrival of every copy, by one pass over the copies: the one is the
// largest late delay of a path to the copy, the other the smallest early delay.
ghost use Rattle.std.specs.Prelude.{◌≡◌, [], map, pos, length, set};
ghost use Rattle.timing.specs.Lists.{upto};
ghost use Rattle.timing.specs.Times.{largest, smallest, arrival_at, earliest_at};
ghost use Rattle.timing.specs.Calls.{graph_slices, graph_of};
ghost use Rattle.times.specs.Passes.{delay_of, Over, Fit};
ghost use Rattle.times.specs.Fanins.{over, best_over, ends_here, Fanin, Ready};

use crate::numbers::{sum, time_of};
use entries::wide;
use extremes::{larger, smaller};

// Edge `k` is there and ends at copy `c`.
fn ends_at(to: &[u32], k: usize, c: usize) -> bool
    ensures { result ≡ ends_here to.now k c }
{
    k < to.len() && wide(to[k]) == c
}

// What edge `k` gives its end.
fn over_edge(delays: &[i32], from: &[u32], via: &[u32], times: &[i64], k: usize) -> i64
    requires { Over delays.now from.now via.now times.now k }
    ensures { result ≡ over delays.now from.now via.now times.now k }
{
    let a = wide(from[k]);
    let name = wide(via[k]);
    sum(times[a], time_of(delays[name]))
}

// Gives copy `c` both times: the best over the edges into it, which stand from `first` on, or 0 where
// there is none. Answers the place behind these. Both are kept in locals and stored once, and the first edge
// counts by itself: there is no number that stands for none.
fn arrive(
    early: &[i32],
    late: &[i32],
    from: &[u32],
    to: &[u32],
    via: &[u32],
    arrivals: &mut [i64],
    earliests: &mut [i64],
    c: usize,
    first: usize,
) -> usize
    requires { Ready late.now from.now to.now via.now arrivals.old c first
        × Ready early.now from.now to.now via.now earliests.old c first }
    ensures { let ats = arrivals.old in
        let ets = earliests.old in
        let t = best_over largest late.now from.now via.now ats first result in
        let e = best_over smallest early.now from.now via.now ets first result in
        Fanin to.now c first result
        × (arrivals.new ≡ set ats c t)
        × (earliests.new ≡ set ets c e) }
{
    if ends_at(to, first, c) {
        let mut t = over_edge(late, from, via, arrivals, first);
        let mut e = over_edge(early, from, via, earliests, first);
        let mut k = first + 1;
        // No `for`: where the run of edges into c ends is found by reading it, and the next copy goes on from there.
        while ends_at(to, k, c) {
            t = larger(t, over_edge(late, from, via, arrivals, k));
            e = smaller(e, over_edge(early, from, via, earliests, k));
            k += 1;
        }
        arrivals[c] = t;
        earliests[c] = e;
        return k;
    }
    arrivals[c] = 0;
    earliests[c] = 0;
    first
}

// Edges stand by end copy, and rise: where a copy is met, both times at the starts of the edges into it are
// final. Where paths end is not asked.
pub(crate) fn fill_arrivals(
    early: &[i32],
    late: &[i32],
    nodes: &[u32],
    from: &[u32],
    to: &[u32],
    via: &[u32],
    arrivals: &mut [i64],
    earliests: &mut [i64],
)
    requires fit { let S = graph_slices nodes.now [] from.now to.now via.now in
        Fit late.now S × Fit early.now S }
    requires as_long { (length arrivals.old ≡ length nodes.now) × (length earliests.old ≡ length nodes.now) }
    ensures { let S = graph_slices nodes.now [] from.now to.now via.now in
        let copies = upto (length S.nodes) 0 in
        (arrivals.new ≡ map (arrival_at (delay_of late.now) (pos 0) (graph_of S)) copies)
        × (earliests.new ≡ map (earliest_at (delay_of early.now) (graph_of S)) copies) }
{
    let mut first = 0;
    for c in 0..nodes.len() {
        first = arrive(early, late, from, to, via, arrivals, earliests, c, first);
    }
}
