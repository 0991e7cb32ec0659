// Test 32, well-formed true graphs, in time linear in nodes, edges, marked nodes and copies.
#![tactic(auto)]

ghost use Rattle.std.specs.Prelude.{◌≡◌, true, false, ◌&&◌, ◌||◌, [], ◌+◌, ◌≤◌, ◌<◌, min, T, eqb, ltb, leb, length, get_or, set};
ghost use Rattle.timing.specs.Lists.{all_of, upto};
ghost use Rattle.timing.specs.Graphs.{design, graph, edge};
ghost use Rattle.timing.specs.WellFormed.{edge_fits};
ghost use Rattle.timing.specs.Refusals.{◌then◌};
ghost use Rattle.timing.specs.Tests.{node_count, graph_test};
ghost use Rattle.timing.specs.Calls.{graph_slices, graph_of};
ghost use Rattle.graph.specs.Passes.{Counted, Clear, FlagsSet, flag, formed, edge_count, key_of, edge_at, edge_passes, joined, copy_ends, copy_passes, lowest_after, walked};

use entries::{least, number_at, wide};
use timing::Verdict;

mod quick;

// A design's numbers may be anything here, so that some may be past the flags.
fn set_flag(flags: &mut [bool], v: usize)
    ensures { flags.new ≡ set flags.old v true }
{
    // Of a slice's `get_mut` nothing is known of what the slice ends as.
    if v < flags.len() {
        flags[v] = true;
    }
}

// Sets the flags of the first `count` numbers of a list.
fn set_flags(list: &[u32], count: usize, flags: &mut [bool])
    requires { count ≤ length list.now }
    ensures { FlagsSet flags.old list.now count flags.new }
{
    for &v in &list[..count] {
        set_flag(flags, wide(v));
    }
}

// How many edges there are of which all three numbers are there.
fn edge_count(from: &[u32], to: &[u32], via: &[u32]) -> usize
    ensures { result ≡ edge_count from.now to.now via.now }
{
    least(from.len(), least(to.len(), via.len()))
}

// Design edge k is there and runs from node v to node w. The two lists may differ in length here, and an end that is not there counts as 0; but one
// test of k is enough where they do not, and a test for each list was slower.
fn edge_is(starts: &[u32], ends: &[u32], k: usize, v: u32, w: u32) -> bool
    ensures { let named = ltb k (length starts.now) in
        result ≡ (named && eqb v (get_or starts.now k 0) && eqb w (get_or ends.now k 0)) }
{
    if k < least(starts.len(), ends.len()) {
        v == starts[k] && w == ends[k]
    } else {
        k < starts.len() && v == starts[k] && w == 0
    }
}

fn edge_fits(starts: &[u32], ends: &[u32], nodes: &[u32], s: u32, t: u32, k: u32) -> bool
    ensures { let D = design 0 starts.now ends.now [] [] [] in
        result ≡ edge_fits D (graph nodes.now [] []) (edge s t k) }
{
    let s = s as usize;
    let t = t as usize;
    s < nodes.len() && t < nodes.len() && edge_is(starts, ends, k as usize, nodes[s], nodes[t])
}

// One number for the place of an edge in the order by end copy, then by design edge.
fn edge_key(t: u32, k: u32) -> u64
    ensures { result ≡ key_of t k }
{
    t as u64 * 4294967296 + k as u64
}

// Edge i fits, and its number is not below the lowest that it may be.
fn edge_passes(
    starts: &[u32],
    ends: &[u32],
    nodes: &[u32],
    from: &[u32],
    to: &[u32],
    via: &[u32],
    lowest: u64,
    i: usize,
) -> bool
    requires { (i < length from.now) × (i < length to.now) × (i < length via.now) }
    ensures { let D = design 0 starts.now ends.now [] [] [] in
        let G = graph nodes.now [] [] in
        let e = edge_at from.now to.now via.now i in
        result ≡ (edge_fits D G e && leb lowest (key_of e.end e.name)) }
{
    let t = to[i];
    let k = via[i];
    edge_fits(starts, ends, nodes, from[i], t, k) && lowest <= edge_key(t, k)
}

// The lowest number that the edge after edge i may have.
fn key_after(to: &[u32], via: &[u32], i: usize) -> u64
    requires { (i < length to.now) × (i < length via.now) × (get_or to.now i 0 < 16384) }
    ensures { result ≡ key_of (get_or to.now i 0) (get_or via.now i 0) + 1 }
{
    edge_key(to[i], via[i]) + 1
}

// Sets the flags of the copies that edge i joins: its end is entered, and its start is left.
fn set_joined(from: &[u32], to: &[u32], i: usize, cin: &mut [bool], cout: &mut [bool])
    requires { (i < length from.now) × (i < length to.now)
        × (get_or to.now i 0 < length cin.old) × (get_or from.now i 0 < length cout.old) }
    ensures { (cin.new ≡ set cin.old (get_or to.now i 0) true)
        × (cout.new ≡ set cout.old (get_or from.now i 0) true) }
{
    let s = wide(from[i]);
    let t = wide(to[i]);
    cin[t] = true;
    cout[s] = true;
}

// Each edge fits and is above the one before it. If all pass, the flags of the copies that they join are set.
fn edges_pass(
    starts: &[u32],
    ends: &[u32],
    nodes: &[u32],
    from: &[u32],
    to: &[u32],
    via: &[u32],
    cin: &mut [bool],
    cout: &mut [bool],
) -> bool
    requires { (length nodes.now ≤ 16384)
        × (length nodes.now ≤ length cin.old) × (length nodes.now ≤ length cout.old) }
    ensures { let passes = edge_passes starts.now ends.now nodes.now
        from.now to.now via.now in
        let m = edge_count from.now to.now via.now in
        (result ≡ all_of passes (upto m 0))
        × (T result → FlagsSet cin.old to.now m cin.new)
        × (T result → FlagsSet cout.old from.now m cout.new) }
{
    let m = edge_count(from, to, via);
    let mut lowest = 0;
    for i in 0..m {
        if !edge_passes(starts, ends, nodes, from, to, via, lowest, i) {
            return false;
        }
        lowest = key_after(to, via, i);
        set_joined(from, to, i, cin, cout);
    }
    true
}

// Copies go by node.
fn node_rises(nodes: &[u32], c: usize) -> bool
    requires { c < length nodes.now }
    ensures { let here = get_or nodes.now c 0 in
        let next = get_or nodes.now (c + 1) 0 in
        result ≡ (leb (length nodes.now) (c + 1) || leb here next) }
{
    let next = c + 1;
    nodes.len() <= next || nodes[c] <= nodes[next]
}

fn has_edge(node: bool, copy: bool) -> bool
    ensures { result ≡ joined node copy }
{
    !node || copy
}

// The lowest node that a copy after copy c may have if paths end at it.
fn lowest_after(nodes: &[u32], endpoint: &[u32], lowest: usize, c: usize) -> usize
    requires { c < length nodes.now }
    ensures { result ≡ lowest_after nodes.now endpoint.now lowest c }
{
    if number_at(endpoint, c) == 1 {
        wide(nodes[c]) + 1
    } else {
        lowest
    }
}

// The tests of copy c but for its edges in. Paths end at a copy only where its node is a sink or marked, and at no other copy of its node: `lowest`
// is the lowest node that a copy where they end may have now. Where none end, the node is no sink and the copy has an edge out.
fn copy_ends(
    n: u32,
    nodes: &[u32],
    endpoint: &[u32],
    nout: &[bool],
    nmarked: &[bool],
    cout: &[bool],
    lowest: usize,
    c: usize,
) -> bool
    requires { (c < length nodes.now) × (n ≤ length nout.now) × (n ≤ length nmarked.now)
        × (length nodes.now ≤ length cout.now) }
    ensures { result ≡ copy_ends n nodes.now endpoint.now
        (flag nout.now) (flag nmarked.now) (flag cout.now) lowest c }
{
    let node = nodes[c];
    if n <= node || !node_rises(nodes, c) {
        return false;
    }
    let v = wide(node);
    if number_at(endpoint, c) == 1 {
        has_edge(nout[v], nmarked[v]) && lowest <= v
    } else {
        // `&` has no branch; `&&` was slower.
        nout[v] & cout[c]
    }
}

fn copy_passes(
    n: u32,
    nodes: &[u32],
    endpoint: &[u32],
    nin: &[bool],
    nout: &[bool],
    nmarked: &[bool],
    cin: &[bool],
    cout: &[bool],
    lowest: usize,
    c: usize,
) -> bool
    requires { (c < length nodes.now)
        × (n ≤ length nin.now) × (n ≤ length nout.now) × (n ≤ length nmarked.now)
        × (length nodes.now ≤ length cin.now) × (length nodes.now ≤ length cout.now) }
    ensures { result ≡ copy_passes n nodes.now endpoint.now
        (flag nin.now) (flag nout.now) (flag nmarked.now)
        (flag cin.now) (flag cout.now) lowest c }
{
    copy_ends(n, nodes, endpoint, nout, nmarked, cout, lowest, c)
        && has_edge(nin[wide(nodes[c])], cin[c])
}

fn copies_pass(
    n: u32,
    nodes: &[u32],
    endpoint: &[u32],
    nin: &[bool],
    nout: &[bool],
    nmarked: &[bool],
    cin: &[bool],
    cout: &[bool],
) -> bool
    requires { (n ≤ length nin.now) × (n ≤ length nout.now) × (n ≤ length nmarked.now)
        × (length nodes.now ≤ length cin.now) × (length nodes.now ≤ length cout.now) }
    ensures { let passes = copy_passes n nodes.now endpoint.now
        (flag nin.now) (flag nout.now) (flag nmarked.now)
        (flag cin.now) (flag cout.now) in
        result ≡ walked passes (lowest_after nodes.now endpoint.now) (length nodes.now) 0 0 }
{
    let mut lowest = 0;
    for c in 0..nodes.len() {
        if !copy_passes(n, nodes, endpoint, nin, nout, nmarked, cin, cout, lowest, c) {
            return false;
        }
        lowest = lowest_after(nodes, endpoint, lowest, c);
    }
    true
}

// Sets the flags of the nodes that have an edge in, that have an edge out, and that are marked.
fn set_node_flags(
    starts: &[u32],
    ends: &[u32],
    marked: &[u32],
    nin: &mut [bool],
    nout: &mut [bool],
    nmarked: &mut [bool],
)
    ensures { let d = min (length starts.now) (length ends.now) in
        FlagsSet nin.old ends.now d nin.new
        × FlagsSet nout.old starts.now d nout.new
        × FlagsSet nmarked.old marked.now (length marked.now) nmarked.new }
{
    let d = least(starts.len(), ends.len());
    set_flags(ends, d, nin);
    set_flags(starts, d, nout);
    set_flags(marked, marked.len(), nmarked);
}

// The edges and the copies, with flags for n nodes and for all copies, all clear. Counts and endpoint numbers were tested before.
fn formed_with(
    n: u32,
    starts: &[u32],
    ends: &[u32],
    marked: &[u32],
    nodes: &[u32],
    endpoint: &[u32],
    from: &[u32],
    to: &[u32],
    via: &[u32],
    nin: &mut [bool],
    nout: &mut [bool],
    nmarked: &mut [bool],
    cin: &mut [bool],
    cout: &mut [bool],
) -> bool
    requires { Counted nodes.now endpoint.now from.now to.now via.now
        × Clear n nin.old × Clear n nout.old × Clear n nmarked.old
        × Clear (length nodes.now) cin.old × Clear (length nodes.now) cout.old }
    ensures { result ≡ formed n starts.now ends.now marked.now
        nodes.now endpoint.now from.now to.now via.now }
{
    if !edges_pass(starts, ends, nodes, from, to, via, cin, cout) {
        return false;
    }
    set_node_flags(starts, ends, marked, nin, nout, nmarked);
    copies_pass(n, nodes, endpoint, nin, nout, nmarked, cin, cout)
}

// The same with arrays for the flags.
fn each_formed(
    n: u32,
    starts: &[u32],
    ends: &[u32],
    marked: &[u32],
    nodes: &[u32],
    endpoint: &[u32],
    from: &[u32],
    to: &[u32],
    via: &[u32],
) -> bool
    requires { (n ≤ 4096) × Counted nodes.now endpoint.now from.now to.now via.now }
    ensures { result ≡ formed n starts.now ends.now marked.now
        nodes.now endpoint.now from.now to.now via.now }
{
    let mut nin = [false; 4096];
    let mut nout = [false; 4096];
    let mut nmarked = [false; 4096];
    let mut cin = [false; 16384];
    let mut cout = [false; 16384];
    formed_with(
        n,
        starts,
        ends,
        marked,
        nodes,
        endpoint,
        from,
        to,
        via,
        &mut nin,
        &mut nout,
        &mut nmarked,
        &mut cin,
        &mut cout,
    )
}

fn well_formed(
    n: u32,
    starts: &[u32],
    ends: &[u32],
    marked: &[u32],
    nodes: &[u32],
    endpoint: &[u32],
    from: &[u32],
    to: &[u32],
    via: &[u32],
) -> bool
    requires { n ≤ 4096 }
    ensures { result ≡ formed n starts.now ends.now marked.now
        nodes.now endpoint.now from.now to.now via.now }
{
    nodes.len() <= timing::MAX_COPIES
        && edge_count(from, to, via) <= timing::MAX_COPY_EDGES
        && verdicts::zero_or_one(endpoint)
        && (quick::all_pass(n, starts, ends, marked, nodes, endpoint, from, to, via)
            || each_formed(n, starts, ends, marked, nodes, endpoint, from, to, via))
}

// 10 and 32: the flags of nodes are a local array, which 10 makes large enough. Every call that
// tests 32 tests 10 before, so that it learns nothing new by it.
fn graph_test(
    n: u32,
    starts: &[u32],
    ends: &[u32],
    marked: &[u32],
    nodes: &[u32],
    endpoint: &[u32],
    from: &[u32],
    to: &[u32],
    via: &[u32],
) -> Verdict
    ensures { let D = design n starts.now ends.now [] [] marked.now in
        let S = graph_slices nodes.now endpoint.now
        from.now to.now via.now in
        result ≡ (node_count n then graph_test D (graph_of S)) }
{
    if timing::MAX_NODES < n {
        return verdicts::unless(10, false);
    }
    verdicts::unless(
        32,
        well_formed(n, starts, ends, marked, nodes, endpoint, from, to, via),
    )
}

// The same after other tests.
pub fn and_graph_test(
    before: Verdict,
    n: u32,
    starts: &[u32],
    ends: &[u32],
    marked: &[u32],
    nodes: &[u32],
    endpoint: &[u32],
    from: &[u32],
    to: &[u32],
    via: &[u32],
) -> Verdict
    ensures { let D = design n starts.now ends.now [] [] marked.now in
        let S = graph_slices nodes.now endpoint.now
        from.now to.now via.now in
        result ≡ (before then node_count n then graph_test D (graph_of S)) }
{
    before?;
    graph_test(n, starts, ends, marked, nodes, endpoint, from, to, via)
}
