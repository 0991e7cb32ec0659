// The search for the lowest late copy.
ghost use Rattle.std.specs.Prelude.{◌≡◌, ◌&&◌, map, eqb, pos, length, Ok};
ghost use Rattle.std.specs.Int.Signed.{lt_z};
ghost use Rattle.timing.specs.Answers.{Passed};
ghost use Rattle.timing.specs.Lists.{placed, upto};
ghost use Rattle.timing.specs.Times.{arrival_at, late_copies};
ghost use Rattle.timing.specs.Calls.{graph_slices, graph_of, lowest_late, arrivals_written};
ghost use Rattle.times.specs.Passes.{delay_of, Fit};

use crate::fanin::arrive;

// Paths end at a copy with this endpoint number, and this arrival is above T.
fn is_late(endpoint: u32, allowed: u32, arrival: i64) -> bool
    ensures { result ≡ (eqb endpoint 1 && lt_z (pos allowed) arrival) }
{
    endpoint == 1 && (allowed as i64) < arrival
}

// Over the copies in order, each with the edges into it: the arrivals at their starts stand in their places by then.
pub(crate) fn find_late(
    late: &[i32],
    nodes: &[u32],
    endpoint: &[u32],
    from: &[u32],
    to: &[u32],
    via: &[u32],
    allowed: u32,
    arrivals: &mut [i64],
) -> Option<usize>
    requires fit { Fit late.now (graph_slices nodes.now endpoint.now from.now to.now via.now) }
    requires as_long { let copies = length nodes.now in
        (length arrivals.old ≡ copies) × (length endpoint.now ≡ copies) }
    ensures { let S = graph_slices nodes.now endpoint.now
        from.now to.now via.now in
        let delay = delay_of late.now in
        let at = arrival_at delay (pos allowed) (graph_of S) in
        let written = map at (upto (arrivals_written (length S.nodes) (Ok result)) 0) in
        (Ok result ≡ lowest_late Passed (late_copies delay (pos allowed) (graph_of S)))
        × (arrivals.new ≡ placed written arrivals.old) }
{
    let mut first = 0;
    for c in 0..nodes.len() {
        first = arrive(late, from, to, via, arrivals, c, first);
        if is_late(endpoint[c], allowed, arrivals[c]) {
            return Some(c);
        }
    }
    None
}
