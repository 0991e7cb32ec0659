// Late or not: does a path take longer than T?
//
// `late_or_not` tests what it is lent, as `times` does, and then goes over the copies in order
// (`search`). The arrival of a copy is the largest over the edges into it, which stand next to one
// another (`fanin`). The search stops at the first copy where paths end with an arrival above T.
#![tactic(auto)]

ghost use Rattle.std.specs.Prelude.{◌≡◌, length};
ghost use Rattle.timing.specs.Graphs.{design};
ghost use Rattle.timing.specs.Calls.{graph_slices, late_or_not, arrivals_after_late};

mod fanin;
mod search;

use crate::search::find_late;
use timed::timing_tests;
use timing::Refusal;
use verdicts::same_sizes;

// The lowest copy of a true graph where paths end with an arrival above T, or that there is none. The
// arrivals of the copies up to there, or of all, go into their places; the others are as they were. A
// refusal changes nothing.
pub fn late_or_not(
    n: u32,
    starts: &[u32],
    ends: &[u32],
    early: &[i32],
    late: &[i32],
    marked: &[u32],
    allowed: u32,
    nodes: &[u32],
    endpoint: &[u32],
    from: &[u32],
    to: &[u32],
    via: &[u32],
    arrivals: &mut [i64],
) -> Result<Option<usize>, Refusal>
    ensures { let D = design n starts.now ends.now
        early.now late.now marked.now in
        let S = graph_slices nodes.now endpoint.now
        from.now to.now via.now in
        let answer = late_or_not D S allowed (length arrivals.old) in
        (result ≡ answer) × (arrivals.new ≡ arrivals_after_late D S allowed answer arrivals.old) }
{
    let lent = same_sizes(nodes.len(), nodes.len(), arrivals.len());
    timing_tests(
        lent, n, starts, ends, early, late, marked, allowed, nodes, endpoint, from, to, via,
    )?;
    Ok(find_late(late, nodes, endpoint, from, to, via, allowed, arrivals))
}
