// The times of one node, in one pass over the copies.
ghost use Rattle.std.specs.Prelude.{◌≡◌, ℕ, eqb, length, get_or};
ghost use Rattle.timing.specs.Lists.{keep, upto};
ghost use Rattle.timing.specs.Times.{node_times};
ghost use Rattle.records.specs.Records.{with_copy, gathered, times_of};

use entries::{number_at, time_at};
use extremes::{larger, smaller};
use timing::Times;

// The times of a node with one more copy.
fn with_copy(t: Option<Times>, copy: Times) -> Option<Times>
    ensures { result ≡ with_copy t copy.arrival copy.required copy.slack copy.earliest }
{
    match t {
        None => Some(copy),
        Some(old) => Some(Times {
            arrival: larger(old.arrival, copy.arrival),
            required: smaller(old.required, copy.required),
            slack: smaller(old.slack, copy.slack),
            earliest: smaller(old.earliest, copy.earliest),
        }),
    }
}

// Copy `c` counts where it is one of node `v`.
fn next_copy(
    t: Option<Times>,
    nodes: &[u32],
    arrivals: &[i64],
    requireds: &[i64],
    slacks: &[i64],
    earliests: &[i64],
    v: u32,
    c: usize,
) -> Option<Times>
    ensures { let ats = arrivals.now in
        let rts = requireds.now in
        let sts = slacks.now in
        let ets = earliests.now in
        result ≡ gathered nodes.now ats rts sts ets v t c }
{
    if number_at(nodes, c) != v {
        return t;
    }
    let copy = Times {
        arrival: time_at(arrivals, c),
        required: time_at(requireds, c),
        slack: time_at(slacks, c),
        earliest: time_at(earliests, c),
    };
    with_copy(t, copy)
}

// The times of node `v` over all copies.
fn over_copies(
    nodes: &[u32],
    arrivals: &[i64],
    requireds: &[i64],
    slacks: &[i64],
    earliests: &[i64],
    v: u32,
) -> Option<Times>
    ensures { let copies = upto (length nodes.now) 0 in
        let of = keep (λ (c : ℕ). eqb (get_or nodes.now c 0) v) copies in
        let ats = arrivals.now in
        let rts = requireds.now in
        result ≡ times_of ats rts slacks.now earliests.now of }
{
    let mut t = None;
    for c in 0..nodes.len() {
        t = next_copy(t, nodes, arrivals, requireds, slacks, earliests, v, c);
    }
    t
}

pub(crate) fn node_times(
    n: u32,
    nodes: &[u32],
    arrivals: &[i64],
    requireds: &[i64],
    slacks: &[i64],
    earliests: &[i64],
    v: u32,
) -> Option<Times>
    ensures { let ats = arrivals.now in
        let rts = requireds.now in
        let sts = slacks.now in
        let ets = earliests.now in
        result ≡ node_times n nodes.now ats rts sts ets v }
{
    if v < n {
        over_copies(nodes, arrivals, requireds, slacks, earliests, v)
    } else {
        None
    }
}
