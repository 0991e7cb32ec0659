// Lays out the tables in the scratch and fills them.
ghost use Rattle.std.specs.Prelude.{◌≡◌, ℕ, ◌≤◌, length, get_or};
ghost use Rattle.timing.specs.Marks.{path_list};
ghost use Rattle.timing.specs.Tests.{candidates};
ghost use Rattle.removal.specs.Counts.{of_starts, of_nodes};
ghost use Rattle.removal.specs.Build.{LaidOut, Baseable, Based, Buildable, Built};
ghost use Rattle.removal.specs.Counts.{of_starts, of_nodes, ListCountable, CopiesCountable, Counting, Counted, Tallied, shares};

use crate::classes::{clear, lay_lists, list_tables};
use crate::edges::sort_edges;
use crate::rows::Layout;
use entries::number_at;
use timing::MAX_EDGES;

// The tables one after the other; the slots come after those that do not change any more, and then the tables that the passes work in.
pub(crate) fn layout(copies: usize, edges: usize, positions: usize, candidates: usize) -> Layout
    requires { (copies ≤ 16384) × (edges ≤ 65536) × (positions ≤ 8192) × (candidates ≤ 134234112) }
    ensures { LaidOut copies edges positions candidates result }
{
    let lists = lay_lists(positions);
    let first = 6 * positions + 3;
    let base = first + copies;
    let into = base + copies + 1;
    let start = into + copies;
    let name = start + edges;
    let default = name + edges;
    let slots = default + edges;
    let seen = slots + candidates;
    let cover = seen + edges;
    let patch = cover + edges;
    let lead = patch + edges;
    Layout {
        copies,
        edges,
        lists,
        first,
        base,
        into,
        start,
        name,
        default,
        slots,
        seen,
        cover,
        patch,
        lead,
        comes: lead + edges,
    }
}

// Fills in for each copy how many marks there are at the nodes below its own, and where its slots start.
fn fill_bases(l: Layout, nodes: &[u32], scratch: &mut [u32], firsts: &[u32])
    requires { Baseable l nodes.now firsts.now scratch.old }
    ensures { Based l nodes.now firsts.now scratch.old scratch.new }
{
    let mut total = l.slots as u32;
    for (c, node) in nodes.iter().enumerate() {
        let v = *node as usize;
        let first = firsts[v];
        let marks = firsts[v + 1] - first;
        scratch[l.first + c] = first;
        scratch[l.base + c] = total;
        total += marks + 1;
    }
    scratch[l.base + nodes.len()] = total;
}

// Fills all tables, and clears the slots and what says which edges are seen and covered. `roots` is for the class of each edge of the design alone.
fn build_with(
    starts: &[u32],
    listed: &[u32],
    lengths: &[u32],
    nodes: &[u32],
    from: &[u32],
    to: &[u32],
    via: &[u32],
    candidates: usize,
    scratch: &mut [u32],
    roots: &mut [u16],
) -> Layout
    requires { Buildable starts.now listed.now lengths.now
        nodes.now from.now to.now via.now candidates scratch.old
        × (length starts.now ≤ length roots.old) × ((e : ℕ) → get_or roots.old e 0 ≡ 0) }
    ensures { Built starts.now listed.now lengths.now nodes.now
        from.now to.now via.now candidates scratch.old scratch.new result }
{
    let l = layout(nodes.len(), from.len(), listed.len(), candidates);
    let mut firsts = [0u32; 4097];
    list_tables(
        l.lists,
        starts,
        listed,
        lengths,
        scratch,
        roots,
        &mut firsts,
    );
    fill_bases(l, nodes, scratch, &firsts);
    sort_edges(l, from, to, via, scratch, roots);
    clear(scratch, l.slots, candidates + l.edges + l.edges);
    l
}

// The same for a design of at most so many edges.
fn build_within<const EDGES: usize>(
    starts: &[u32],
    listed: &[u32],
    lengths: &[u32],
    nodes: &[u32],
    from: &[u32],
    to: &[u32],
    via: &[u32],
    candidates: usize,
    scratch: &mut [u32],
) -> Layout
    requires { Buildable starts.now listed.now lengths.now
        nodes.now from.now to.now via.now candidates scratch.old
        × (length starts.now ≤ EDGES) × (EDGES ≤ 16384) }
    ensures { Built starts.now listed.now lengths.now nodes.now
        from.now to.now via.now candidates scratch.old scratch.new result }
{
    let mut roots = [0u16; EDGES];
    build_with(
        starts, listed, lengths, nodes, from, to, via, candidates, scratch, &mut roots,
    )
}

// All tables; a small design has room of its own, as in `remove`.
pub(crate) fn build(
    starts: &[u32],
    listed: &[u32],
    lengths: &[u32],
    nodes: &[u32],
    from: &[u32],
    to: &[u32],
    via: &[u32],
    candidates: usize,
    scratch: &mut [u32],
) -> Layout
    requires { Buildable starts.now listed.now lengths.now
        nodes.now from.now to.now via.now candidates scratch.old }
    ensures { Built starts.now listed.now lengths.now nodes.now
        from.now to.now via.now candidates scratch.old scratch.new result }
{
    if starts.len() <= 1024 {
        return build_within::<1024>(
            starts, listed, lengths, nodes, from, to, via, candidates, scratch,
        );
    }
    build_within::<MAX_EDGES>(
        starts, listed, lengths, nodes, from, to, via, candidates, scratch,
    )
}

// The node at which the listed edge at a position starts.
fn start_at(starts: &[u32], listed: &[u32], i: usize) -> u32
    ensures { result ≡ get_or starts.now (get_or listed.now i 0) 0 }
{
    let k = number_at(listed, i) as usize;
    number_at(starts, k)
}

// Counts the listed edges from place `first` to `end`, each at the node where it starts.
fn count_path(starts: &[u32], listed: &[u32], first: usize, end: usize, counts: &mut [u32])
    requires { Counting starts.now listed.now counts.old first end }
    ensures { Counted starts.now listed.now counts.old counts.new first end }
{
    for i in first..end {
        let v = start_at(starts, listed, i) as usize;
        counts[v] += 1;
    }
}

// Counts the listed edges that are not first in their path.
fn count_inner(starts: &[u32], listed: &[u32], lengths: &[u32], counts: &mut [u32])
    requires { ListCountable starts.now listed.now lengths.now
        × (length counts.old ≡ 4096)
        × ((v : ℕ) → get_or counts.old v 0 ≡ 0) }
    ensures { Tallied starts.now listed.now lengths.now counts.new }
{
    let mut at = 0;
    for length in lengths {
        let end = at + *length as usize;
        count_path(starts, listed, at + 1, end, counts);
        at = end;
    }
}

// One for each copy, and the count of its node.
fn count_copies(nodes: &[u32], counts: &[u32]) -> usize
    requires { CopiesCountable nodes.now
        × (length counts.now ≡ 4096)
        × ((v : ℕ) → get_or counts.now v 0 ≤ 8192) }
    ensures { result ≡ shares counts.now nodes.now }
{
    let mut total: usize = 0;
    for v in nodes {
        total += 1 + counts[*v as usize] as usize;
    }
    total
}

// How many candidates there are, without scratch.
pub(crate) fn count_candidates(
    starts: &[u32],
    listed: &[u32],
    lengths: &[u32],
    nodes: &[u32],
) -> usize
    requires { ListCountable starts.now listed.now lengths.now × CopiesCountable nodes.now }
    ensures { result ≡ candidates (of_starts starts.now) (of_nodes nodes.now)
        (path_list listed.now lengths.now) }
{
    let mut counts = [0u32; 4096];
    count_inner(starts, listed, lengths, &mut counts);
    count_copies(nodes, &counts)
}
