// Removal of listed paths, from the design and from an earlier true graph. The room is five slices:
// the node and the endpoint number of each copy, and the start copy, the end copy and the design edge of each
// edge. A refusal changes nothing in it, and places past the result stay as they are. How long a room has to be
// is told beforehand by a call that is lent none, from the same passes.
//
// The tables that the passes go by stand in the lent scratch, each at an offset: `scratch[base + i]` is entry i
// of the table at `base`. Nothing is written to the room before 33 and 34 are settled.
//
// What is read beside the scratch while these tables are made and gone over stands on the stack: a function is lent the
// scratch as one slice, and cannot lend one part of it on to be read and another to be written. These are
// local arrays, each as long as a design or a list can ask:
// - `build::count_candidates`: a count for each node, 16,384 bytes. A scratch that is too short (31) stays as it
//   was, so that the candidates are counted without it;
// - `remove_within`, `size_within`: the numbers of the nodes, their endpoint numbers and the numbers of the edges, by
//   which a design is lent as a graph, 16,384, 16,384 and 65,536 bytes; or for at most 1,024
//   nodes and edges 4,096 bytes each;
// - `remove::remove`, `remove::size`: where the edge of each name stands among the edges into a copy, 32,768 bytes, or 2,048 for a design of
//   at most 1,024 edges;
// - `build::build`: the class of each edge alone, 32,768 bytes, or 2,048 for such a design, and how many marks there are at the nodes below
//   each, 16,388 bytes;
// - `classes::list_tables`: 24 bytes for each of 2,048 paths, 49,152 bytes, or 1,536 for at most 64 paths; and while these are sorted two counts for
//   each of 128 digits, 2,048 bytes.
// The most at a time is 231,428 bytes: those of `remove_within` or `size_within`, `remove` or `size`, `build` and `list_tables`.
#![tactic(auto)]

ghost use Rattle.std.specs.Prelude.{◌≡◌, ◌≤◌, length};
ghost use Rattle.timing.specs.Graphs.{design};
ghost use Rattle.timing.specs.Marks.{path_list};
ghost use Rattle.timing.specs.Refusals.{◌then◌};
ghost use Rattle.timing.specs.Tests.{design_sizes, list_sizes, design_tests, list_tests, graph_test};
ghost use Rattle.timing.specs.Calls.{graph_slices, graph_of, graph_sizes, lent_removal, remove_from_design, remove_from_graph};
ghost use Rattle.timing.specs.Calls.{graph_answer, nodes_after, endpoints_after, starts_after, ends_after, names_after, scratch_after};
ghost use Rattle.timing.specs.Calls.{size_from_design, size_from_graph};
ghost use Rattle.removal.specs.Fill.{RoomsAlike};
ghost use Rattle.removal.specs.Numbered.{NumberRoom, Numberable, DesignRemoved, DesignSized};

use crate::numbers::number_design;
use crate::remove::{remove, size};
use design::and_design_tests;
use graph::and_graph_test;
use path_list::and_list_tests;
use sizes::{and_list_sizes, design_sizes};
use timing::{GraphCounts, MAX_EDGES, Refusal, Verdict};
use verdicts::{graph_sizes, then};

mod bounds;
mod build;
mod classes;
mod edges;
mod fill;
mod items;
mod kids;
mod levels;
mod links;
mod marks;
mod numbers;
mod patches;
mod reach;
mod remove;
mod rows;
mod search;
mod show;

// The tests of a design and a list: 30, with those of the call's other slices between, and then 10
// to 16 and 20 to 24.
fn list_tests(
    n: u32,
    starts: &[u32],
    ends: &[u32],
    early: &[i32],
    late: &[i32],
    marked: &[u32],
    listed: &[u32],
    lengths: &[u32],
    others: Verdict,
) -> Verdict
    ensures { let D = design n starts.now ends.now early.now late.now marked.now in
        let L = path_list listed.now lengths.now in
        result ≡ (design_sizes D then list_sizes L then others then design_tests D then list_tests D L) }
{
    let slices = design_sizes(starts, ends, early, late);
    let sums = and_list_sizes(slices, listed, lengths);
    let sizes = then(sums, others);
    let fit = and_design_tests(sizes, n, starts, ends, early, late, marked);
    and_list_tests(fit, starts, ends, listed, lengths)
}

// Removal from a design that has passed its tests. It is lent as a graph, whose numbers are written down in the room for
// them.
fn remove_numbered(
    n: usize,
    starts: &[u32],
    ends: &[u32],
    marked: &[u32],
    listed: &[u32],
    lengths: &[u32],
    numbers: &mut [u32],
    endpoint: &mut [u32],
    names: &mut [u32],
    room_nodes: &mut [u32],
    room_endpoint: &mut [u32],
    room_from: &mut [u32],
    room_to: &mut [u32],
    room_via: &mut [u32],
    scratch: &mut [u32],
) -> Result<GraphCounts, Refusal>
    requires { Numberable starts.now ends.now marked.now listed.now lengths.now n
        × NumberRoom n starts.now marked.now numbers.old endpoint.old names.old
        × RoomsAlike room_nodes.old room_endpoint.old room_from.old room_to.old room_via.old }
    ensures { DesignRemoved starts.now ends.now marked.now listed.now
        lengths.now n result room_nodes.old room_endpoint.old
        room_from.old room_to.old room_via.old scratch.old
        room_nodes.new room_endpoint.new room_from.new
        room_to.new room_via.new scratch.new }
{
    number_design(n, starts, marked, numbers, endpoint, names);
    remove(
        starts,
        listed,
        lengths,
        &numbers[..n],
        &endpoint[..n],
        starts,
        ends,
        &names[..starts.len()],
        room_nodes,
        room_endpoint,
        room_from,
        room_to,
        room_via,
        scratch,
    )
}

// The same of at most so many nodes and edges.
fn remove_within<const NODES: usize, const EDGES: usize>(
    n: usize,
    starts: &[u32],
    ends: &[u32],
    marked: &[u32],
    listed: &[u32],
    lengths: &[u32],
    room_nodes: &mut [u32],
    room_endpoint: &mut [u32],
    room_from: &mut [u32],
    room_to: &mut [u32],
    room_via: &mut [u32],
    scratch: &mut [u32],
) -> Result<GraphCounts, Refusal>
    requires { Numberable starts.now ends.now marked.now listed.now lengths.now n
        × RoomsAlike room_nodes.old room_endpoint.old room_from.old room_to.old room_via.old
        × (n ≤ NODES) × (NODES ≤ 4096) × (length starts.now ≤ EDGES) × (EDGES ≤ 16384) }
    ensures { DesignRemoved starts.now ends.now marked.now listed.now
        lengths.now n result room_nodes.old room_endpoint.old
        room_from.old room_to.old room_via.old scratch.old
        room_nodes.new room_endpoint.new room_from.new
        room_to.new room_via.new scratch.new }
{
    let mut numbers = [0u32; NODES];
    let mut endpoint = [1u32; NODES];
    let mut names = [0u32; EDGES];
    remove_numbered(
        n,
        starts,
        ends,
        marked,
        listed,
        lengths,
        &mut numbers,
        &mut endpoint,
        &mut names,
        room_nodes,
        room_endpoint,
        room_from,
        room_to,
        room_via,
        scratch,
    )
}

// The same in the room that is enough: to clear room for as many as a design can have takes long beside the passes over few.
fn remove_tested(
    n: usize,
    starts: &[u32],
    ends: &[u32],
    marked: &[u32],
    listed: &[u32],
    lengths: &[u32],
    room_nodes: &mut [u32],
    room_endpoint: &mut [u32],
    room_from: &mut [u32],
    room_to: &mut [u32],
    room_via: &mut [u32],
    scratch: &mut [u32],
) -> Result<GraphCounts, Refusal>
    requires { Numberable starts.now ends.now marked.now listed.now lengths.now n
        × RoomsAlike room_nodes.old room_endpoint.old room_from.old room_to.old room_via.old }
    ensures { DesignRemoved starts.now ends.now marked.now listed.now
        lengths.now n result room_nodes.old room_endpoint.old
        room_from.old room_to.old room_via.old scratch.old
        room_nodes.new room_endpoint.new room_from.new
        room_to.new room_via.new scratch.new }
{
    if n <= 1024 && starts.len() <= 1024 {
        return remove_within::<1024, 1024>(
            n,
            starts,
            ends,
            marked,
            listed,
            lengths,
            room_nodes,
            room_endpoint,
            room_from,
            room_to,
            room_via,
            scratch,
        );
    }
    remove_within::<4096, MAX_EDGES>(
        n,
        starts,
        ends,
        marked,
        listed,
        lengths,
        room_nodes,
        room_endpoint,
        room_from,
        room_to,
        room_via,
        scratch,
    )
}

// The true graph of a design and a list of paths.
pub fn remove_from_design(
    n: u32,
    starts: &[u32],
    ends: &[u32],
    early: &[i32],
    late: &[i32],
    marked: &[u32],
    listed: &[u32],
    lengths: &[u32],
    room_nodes: &mut [u32],
    room_endpoint: &mut [u32],
    room_from: &mut [u32],
    room_to: &mut [u32],
    room_via: &mut [u32],
    scratch: &mut [u32],
) -> Result<GraphCounts, Refusal>
    ensures { let D = design n starts.now ends.now early.now late.now marked.now in
        let lent = lent_removal listed.now lengths.now room_nodes.old
        room_endpoint.old room_from.old room_to.old room_via.old
        scratch.old in
        let o = remove_from_design D lent in
        (result ≡ graph_answer o)
        × (room_nodes.new ≡ nodes_after o room_nodes.old)
        × (room_endpoint.new ≡ endpoints_after o room_endpoint.old)
        × (room_from.new ≡ starts_after o room_from.old)
        × (room_to.new ≡ ends_after o room_to.old)
        × (room_via.new ≡ names_after o room_via.old)
        × (scratch.new ≡ scratch_after o scratch.old) }
{
    let room = graph_sizes(
        room_nodes.len(),
        room_endpoint.len(),
        room_from.len(),
        room_to.len(),
        room_via.len(),
    );
    list_tests(n, starts, ends, early, late, marked, listed, lengths, room)?;
    remove_tested(
        n as usize,
        starts,
        ends,
        marked,
        listed,
        lengths,
        room_nodes,
        room_endpoint,
        room_from,
        room_to,
        room_via,
        scratch,
    )
}

// The size of a removal from a design that has passed its tests.
fn size_numbered(
    n: usize,
    starts: &[u32],
    ends: &[u32],
    marked: &[u32],
    listed: &[u32],
    lengths: &[u32],
    numbers: &mut [u32],
    endpoint: &mut [u32],
    names: &mut [u32],
    scratch: &mut [u32],
) -> Result<GraphCounts, Refusal>
    requires { Numberable starts.now ends.now marked.now listed.now lengths.now n
        × NumberRoom n starts.now marked.now numbers.old endpoint.old names.old }
    ensures { DesignSized starts.now ends.now marked.now listed.now
        lengths.now n result scratch.old scratch.new }
{
    number_design(n, starts, marked, numbers, endpoint, names);
    size(
        starts,
        listed,
        lengths,
        &numbers[..n],
        &endpoint[..n],
        starts,
        ends,
        &names[..starts.len()],
        scratch,
    )
}

// The same of at most so many nodes and edges.
fn size_within<const NODES: usize, const EDGES: usize>(
    n: usize,
    starts: &[u32],
    ends: &[u32],
    marked: &[u32],
    listed: &[u32],
    lengths: &[u32],
    scratch: &mut [u32],
) -> Result<GraphCounts, Refusal>
    requires { Numberable starts.now ends.now marked.now listed.now lengths.now n
        × (n ≤ NODES) × (NODES ≤ 4096) × (length starts.now ≤ EDGES) × (EDGES ≤ 16384) }
    ensures { DesignSized starts.now ends.now marked.now listed.now
        lengths.now n result scratch.old scratch.new }
{
    let mut numbers = [0u32; NODES];
    let mut endpoint = [1u32; NODES];
    let mut names = [0u32; EDGES];
    size_numbered(
        n,
        starts,
        ends,
        marked,
        listed,
        lengths,
        &mut numbers,
        &mut endpoint,
        &mut names,
        scratch,
    )
}

// The same in the room that is enough.
fn size_tested(
    n: usize,
    starts: &[u32],
    ends: &[u32],
    marked: &[u32],
    listed: &[u32],
    lengths: &[u32],
    scratch: &mut [u32],
) -> Result<GraphCounts, Refusal>
    requires { Numberable starts.now ends.now marked.now listed.now lengths.now n }
    ensures { DesignSized starts.now ends.now marked.now listed.now
        lengths.now n result scratch.old scratch.new }
{
    if n <= 1024 && starts.len() <= 1024 {
        return size_within::<1024, 1024>(n, starts, ends, marked, listed, lengths, scratch);
    }
    size_within::<4096, MAX_EDGES>(n, starts, ends, marked, listed, lengths, scratch)
}

// How many copies and edges `remove_from_design` makes of the same design and list.
pub fn size_from_design(
    n: u32,
    starts: &[u32],
    ends: &[u32],
    early: &[i32],
    late: &[i32],
    marked: &[u32],
    listed: &[u32],
    lengths: &[u32],
    scratch: &mut [u32],
) -> Result<GraphCounts, Refusal>
    ensures { let D = design n starts.now ends.now early.now late.now marked.now in
        let L = path_list listed.now lengths.now in
        let o = size_from_design D L (length scratch.old) in
        (result ≡ graph_answer o) × (scratch.new ≡ scratch_after o scratch.old) }
{
    list_tests(
        n,
        starts,
        ends,
        early,
        late,
        marked,
        listed,
        lengths,
        Ok(()),
    )?;
    size_tested(n as usize, starts, ends, marked, listed, lengths, scratch)
}

// The tests of a removal from an earlier true graph that come before 31.
fn graph_tests(
    n: u32,
    starts: &[u32],
    ends: &[u32],
    early: &[i32],
    late: &[i32],
    marked: &[u32],
    listed: &[u32],
    lengths: &[u32],
    nodes: &[u32],
    endpoint: &[u32],
    from: &[u32],
    to: &[u32],
    via: &[u32],
    room: Verdict,
) -> Verdict
    ensures { let D = design n starts.now ends.now early.now late.now marked.now in
        let L = path_list listed.now lengths.now in
        let S = graph_slices nodes.now endpoint.now from.now to.now via.now in
        result ≡ (design_sizes D then list_sizes L then graph_sizes S then room
        then design_tests D then list_tests D L then graph_test D (graph_of S)) }
{
    let earlier = graph_sizes(nodes.len(), endpoint.len(), from.len(), to.len(), via.len());
    let others = then(earlier, room);
    let fit = list_tests(
        n, starts, ends, early, late, marked, listed, lengths, others,
    );
    and_graph_test(fit, n, starts, ends, marked, nodes, endpoint, from, to, via)
}

// What is left of an earlier true graph (`nodes`, `endpoint`, `from`, `to`, `via`) after a further list of paths.
pub fn remove_from_graph(
    n: u32,
    starts: &[u32],
    ends: &[u32],
    early: &[i32],
    late: &[i32],
    marked: &[u32],
    listed: &[u32],
    lengths: &[u32],
    nodes: &[u32],
    endpoint: &[u32],
    from: &[u32],
    to: &[u32],
    via: &[u32],
    room_nodes: &mut [u32],
    room_endpoint: &mut [u32],
    room_from: &mut [u32],
    room_to: &mut [u32],
    room_via: &mut [u32],
    scratch: &mut [u32],
) -> Result<GraphCounts, Refusal>
    ensures { let D = design n starts.now ends.now early.now late.now marked.now in
        let S = graph_slices nodes.now endpoint.now from.now to.now via.now in
        let lent = lent_removal listed.now lengths.now room_nodes.old
        room_endpoint.old room_from.old room_to.old room_via.old
        scratch.old in
        let o = remove_from_graph D S lent in
        (result ≡ graph_answer o)
        × (room_nodes.new ≡ nodes_after o room_nodes.old)
        × (room_endpoint.new ≡ endpoints_after o room_endpoint.old)
        × (room_from.new ≡ starts_after o room_from.old)
        × (room_to.new ≡ ends_after o room_to.old)
        × (room_via.new ≡ names_after o room_via.old)
        × (scratch.new ≡ scratch_after o scratch.old) }
{
    let room = graph_sizes(
        room_nodes.len(),
        room_endpoint.len(),
        room_from.len(),
        room_to.len(),
        room_via.len(),
    );
    graph_tests(
        n, starts, ends, early, late, marked, listed, lengths, nodes, endpoint, from, to, via, room,
    )?;
    remove(
        starts,
        listed,
        lengths,
        nodes,
        endpoint,
        from,
        to,
        via,
        room_nodes,
        room_endpoint,
        room_from,
        room_to,
        room_via,
        scratch,
    )
}

// How many copies and edges `remove_from_graph` makes of the same design, earlier true graph and list.
pub fn size_from_graph(
    n: u32,
    starts: &[u32],
    ends: &[u32],
    early: &[i32],
    late: &[i32],
    marked: &[u32],
    listed: &[u32],
    lengths: &[u32],
    nodes: &[u32],
    endpoint: &[u32],
    from: &[u32],
    to: &[u32],
    via: &[u32],
    scratch: &mut [u32],
) -> Result<GraphCounts, Refusal>
    ensures { let D = design n starts.now ends.now early.now late.now marked.now in
        let S = graph_slices nodes.now endpoint.now from.now to.now via.now in
        let L = path_list listed.now lengths.now in
        let o = size_from_graph D S L (length scratch.old) in
        (result ≡ graph_answer o) × (scratch.new ≡ scratch_after o scratch.old) }
{
    graph_tests(
        n,
        starts,
        ends,
        early,
        late,
        marked,
        listed,
        lengths,
        nodes,
        endpoint,
        from,
        to,
        via,
        Ok(()),
    )?;
    size(
        starts, listed, lengths, nodes, endpoint, from, to, via, scratch,
    )
}
