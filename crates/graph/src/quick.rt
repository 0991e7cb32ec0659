// 32 of a graph that passes, as most do. It says only whether a graph is found to pass: one that is not found to is left to the
// passes of `lib.rt`, and so are lists of different lengths. Ranges and order of the edges are tested in a loop without a branch,
// which is compiled to vector code; what the edges join, which is read at random, in a loop of its own. That each copy has an
// edge in where its node has one is found by counting.
ghost use Rattle.std.specs.Prelude.{ℕ, ◌+◌, ◌≤◌, ◌<◌, ◌≡◌, true, not, ◌&&◌, ◌||◌, eqb, ltb, length, get_or};
ghost use Rattle.timing.specs.Lists.{one_if, count_of, upto};
ghost use Rattle.graph.specs.Passes.{Counted, Lent, Clear, FlagsSet, flag, formed, Ordered, turns, Matches, EdgesFound, copy_ends, lowest_after, walked};

use crate::{copy_ends, lowest_after, set_node_flags};
use entries::wide;

fn in_range(copies: u32, names: u32, s: u32, t: u32, k: u32) -> bool
    ensures { result ≡ (ltb s copies && ltb t copies && ltb k names) }
{
    (s < copies) & (t < copies) & (k < names)
}

// An edge with end t and name k comes before one with end u and name l.
fn comes_before(t: u32, k: u32, u: u32, l: u32) -> bool
    ensures { result ≡ (ltb t u || (eqb t u && ltb k l)) }
{
    (t < u) | ((t == u) & (k < l))
}

fn one_unless(b: bool) -> u32
    ensures { (result ≡ one_if (not b)) × (result ≤ 1) }
{
    if b { 0 } else { 1 }
}

// How many copies the edges end at; 0 where one is out of range or out of order.
fn ends_counted(copies: u32, names: u32, from: &[u32], to: &[u32], via: &[u32]) -> u32
    requires { let m = length from.now in
        (0 < m) × (m ≤ 65536) × (length to.now ≡ m) × (length via.now ≡ m) }
    ensures { let m = length from.now in
        (0 < result → Ordered copies names from.now to.now via.now m
        × (result ≡ turns to.now m)) }
{
    let mut pass = in_range(copies, names, from[0], to[0], via[0]);
    let mut count = 1;
    for i in 1..from.len() {
        let last = i - 1;
        let ordered = comes_before(to[last], via[last], to[i], via[i]);
        pass &= in_range(copies, names, from[i], to[i], via[i]) & ordered;
        count += one_unless(to[last] == to[i]);
    }
    if pass { count } else { 0 }
}

// Each edge joins copies of the nodes that its design edge joins. If all do, the flags of the copies that they leave are set.
fn edges_match(
    starts: &[u32],
    ends: &[u32],
    nodes: &[u32],
    from: &[u32],
    to: &[u32],
    via: &[u32],
    cout: &mut [bool],
) -> bool
    requires { let m = length from.now in
        Ordered (length nodes.now) (length starts.now) from.now to.now via.now m
        × (length to.now ≡ m) × (length via.now ≡ m) × (length ends.now ≡ length starts.now)
        × (length nodes.now ≤ length cout.old) }
    ensures { let m = length from.now in
        (result ≡ true → ((j : ℕ) → j < m → Matches starts.now ends.now nodes.now
        from.now to.now via.now j)
        × FlagsSet cout.old from.now m cout.new) }
{
    for i in 0..from.len() {
        let s = wide(from[i]);
        let t = wide(to[i]);
        let k = wide(via[i]);
        if nodes[s] != starts[k] {
            return false;
        }
        if nodes[t] != ends[k] {
            return false;
        }
        cout[s] = true;
    }
    true
}

// Each copy passes but for its edges in, and those of nodes without an edge in are as many as have none, where `entered` have one.
fn copies_end(
    n: u32,
    nodes: &[u32],
    endpoint: &[u32],
    nin: &[bool],
    nout: &[bool],
    nmarked: &[bool],
    cout: &[bool],
    entered: u32,
) -> bool
    requires { (n ≤ length nin.now) × (n ≤ length nout.now) × (n ≤ length nmarked.now)
        × (length nodes.now ≤ length cout.now) × (length nodes.now ≤ 16384) }
    ensures { let passes = copy_ends n nodes.now endpoint.now
        (flag nout.now) (flag nmarked.now) (flag cout.now) in
        let copies = length nodes.now in
        let sources = count_of (λ c. not (flag nin.now (get_or nodes.now c 0))) (upto copies 0) in
        (result ≡ true → (walked passes (lowest_after nodes.now endpoint.now) copies 0 0 ≡ true)
        × (sources + entered ≡ copies)) }
{
    let mut lowest = 0;
    let mut sources = 0;
    for c in 0..nodes.len() {
        if !copy_ends(n, nodes, endpoint, nout, nmarked, cout, lowest, c) {
            return false;
        }
        let v = wide(nodes[c]);
        sources += one_unless(nin[v]);
        lowest = lowest_after(nodes, endpoint, lowest, c);
    }
    wide(sources) + wide(entered) == nodes.len()
}

// How many copies have an edge in, if each edge passes, and 0 if not. If all pass, the flags, which were clear, are set for the
// copies that they leave. It stands apart from the loop over the copies: its own loops need the registers.
fn edges_found(
    starts: &[u32],
    ends: &[u32],
    nodes: &[u32],
    from: &[u32],
    to: &[u32],
    via: &[u32],
    cout: &mut [bool],
) -> u32
    requires { let m = length from.now in
        (length nodes.now ≤ 16384) × (length starts.now ≤ 16384) × (length ends.now ≡ length starts.now)
        × (0 < m) × (m ≤ 65536) × (length to.now ≡ m) × (length via.now ≡ m) × Clear (length nodes.now) cout.old }
    ensures { 0 < result → EdgesFound starts.now ends.now nodes.now
        from.now to.now via.now cout.new result }
{
    let entered = ends_counted(nodes.len() as u32, starts.len() as u32, from, to, via);
    if entered == 0 {
        return 0;
    }
    if edges_match(starts, ends, nodes, from, to, via, cout) {
        return entered;
    }
    0
}

// The copies, where the edges pass, with flags for n nodes, all clear.
fn passes_with(
    n: u32,
    starts: &[u32],
    ends: &[u32],
    marked: &[u32],
    nodes: &[u32],
    endpoint: &[u32],
    from: &[u32],
    to: &[u32],
    via: &[u32],
    nin: &mut [bool],
    nout: &mut [bool],
    nmarked: &mut [bool],
    cout: &[bool],
    entered: u32,
) -> bool
    requires { Lent starts.now ends.now nodes.now endpoint.now from.now to.now via.now
        × Clear n nin.old × Clear n nout.old × Clear n nmarked.old
        × EdgesFound starts.now ends.now nodes.now from.now to.now via.now cout.now entered }
    ensures { result ≡ true → formed n starts.now ends.now marked.now
        nodes.now endpoint.now from.now to.now via.now ≡ true }
{
    set_node_flags(starts, ends, marked, nin, nout, nmarked);
    copies_end(n, nodes, endpoint, nin, nout, nmarked, cout, entered)
}

// The same with arrays for the flags of so many nodes and copies.
fn passes_within<const NODES: usize, const COPIES: usize>(
    n: u32,
    starts: &[u32],
    ends: &[u32],
    marked: &[u32],
    nodes: &[u32],
    endpoint: &[u32],
    from: &[u32],
    to: &[u32],
    via: &[u32],
) -> bool
    requires { (n ≤ NODES) × (NODES ≤ 4096) × (length nodes.now ≤ COPIES) × (COPIES ≤ 16384)
        × Lent starts.now ends.now nodes.now endpoint.now from.now to.now via.now }
    ensures { result ≡ true → formed n starts.now ends.now marked.now
        nodes.now endpoint.now from.now to.now via.now ≡ true }
{
    let mut nin = [false; NODES];
    let mut nout = [false; NODES];
    let mut nmarked = [false; NODES];
    let mut cout = [false; COPIES];
    let entered = edges_found(starts, ends, nodes, from, to, via, &mut cout);
    if entered == 0 {
        return false;
    }
    passes_with(
        n,
        starts,
        ends,
        marked,
        nodes,
        endpoint,
        from,
        to,
        via,
        &mut nin,
        &mut nout,
        &mut nmarked,
        &cout,
        entered,
    )
}

// Whether the graph is found to be well-formed. Only lists of one length are read, of a design with no more edges than it may have and a graph
// with some; for others the answer is no.
pub(crate) fn all_pass(
    n: u32,
    starts: &[u32],
    ends: &[u32],
    marked: &[u32],
    nodes: &[u32],
    endpoint: &[u32],
    from: &[u32],
    to: &[u32],
    via: &[u32],
) -> bool
    requires { (n ≤ 4096) × Counted nodes.now endpoint.now from.now to.now via.now }
    ensures { result ≡ true → formed n starts.now ends.now marked.now
        nodes.now endpoint.now from.now to.now via.now ≡ true }
{
    let alike = ends.len() == starts.len()
        && starts.len() <= timing::MAX_EDGES
        && to.len() == from.len()
        && via.len() == from.len()
        && !from.is_empty();
    if !alike {
        return false;
    }
    // An array costs the time to clear all of it, so that small graphs get small ones.
    if n <= 1024 && nodes.len() <= 1024 {
        return passes_within::<1024, 1024>(n, starts, ends, marked, nodes, endpoint, from, to, via);
    }
    passes_within::<4096, 16384>(n, starts, ends, marked, nodes, endpoint, from, to, via)
}
