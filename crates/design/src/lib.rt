// The tests of a design. Each test passes over every edge, or every marked node, before the next, and looks at nothing where one before it
// refused. Those of the edges run only where a quick pass does not find that all edges pass, and that of the marked nodes likewise.
#![tactic(auto)]

ghost use Rattle.std.specs.Prelude.{◌≡◌, [], leb, length};
ghost use Rattle.timing.specs.Lists.{upto};
ghost use Rattle.timing.specs.Refusals.{◌then◌, first_bad};
ghost use Rattle.timing.specs.Refusals.{unless as passed_if};
ghost use Rattle.timing.specs.Graphs.{design};
ghost use Rattle.timing.specs.Tests.{strays, falls, out_of_range, early_above_late, design_tests};

use timing::{MAX_EDGES, MAX_NODES, Verdict};
use verdicts::unless;

mod edges;
mod marked;
mod quick;
mod scan;

// 10 and 11, from n and m.
fn design_counts(n: u32, m: usize) -> Verdict
    ensures { result ≡ (passed_if 10 (leb n 4096) then passed_if 11 (leb m 16384)) }
{
    unless(10, n <= MAX_NODES)?;
    unless(11, m <= MAX_EDGES)
}

// 12 to 15, each a pass over every edge before the next. The delays are tested for each edge that there is a start for.
fn each_edge_test(n: u32, starts: &[u32], ends: &[u32], early: &[i32], late: &[i32]) -> Verdict
    ensures { let D = design n starts.now ends.now early.now late.now [] in
        let edges = upto (length starts.now) 0 in
        result ≡ (first_bad 12 (strays D) 0 edges then first_bad 13 (falls D) 0 edges
        then first_bad 14 (out_of_range D) 0 edges then first_bad 15 (early_above_late D) 0 edges) }
{
    edges::all_known(n, starts, ends)?;
    edges::all_rise(starts, ends)?;
    edges::all_in_range(starts.len(), early, late)?;
    edges::all_ordered(starts.len(), early, late)
}

// 12 to 15.
fn edge_tests(n: u32, starts: &[u32], ends: &[u32], early: &[i32], late: &[i32]) -> Verdict
    ensures { let D = design n starts.now ends.now early.now late.now [] in
        let edges = upto (length starts.now) 0 in
        result ≡ (first_bad 12 (strays D) 0 edges then first_bad 13 (falls D) 0 edges
        then first_bad 14 (out_of_range D) 0 edges then first_bad 15 (early_above_late D) 0 edges) }
{
    if quick::all_pass(n, starts, ends, early, late) {
        return Ok(());
    }
    each_edge_test(n, starts, ends, early, late)
}

// 10 to 16.
pub fn and_design_tests(
    before: Verdict,
    n: u32,
    starts: &[u32],
    ends: &[u32],
    early: &[i32],
    late: &[i32],
    marked: &[u32],
) -> Verdict
    ensures { let D = design n starts.now ends.now early.now late.now
        marked.now in
        result ≡ (before then design_tests D) }
{
    before?;
    design_counts(n, starts.len())?;
    edge_tests(n, starts, ends, early, late)?;
    marked::all_rise(n, marked)
}
