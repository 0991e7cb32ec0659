// Writing a packed true graph. Whether it fits is settled first, so that a refusal leaves the room as it is.
ghost use Rattle.std.specs.Prelude.{◌≡◌, ◌+◌, ◌≤◌, ◌&&◌, [], ◌∷◌, leb, length};
ghost use Rattle.timing.specs.Refusals.{◌then◌};
ghost use Rattle.timing.specs.Refusals.{unless as passed_if};
ghost use Rattle.timing.specs.WellFormed.{zero_or_one};
ghost use Rattle.timing.specs.Tests.{Room, room_sizes};
ghost use Rattle.timing.specs.GraphBytes.{copy_numbers, graph_numbers, packed_graph};
ghost use Rattle.timing.specs.Calls.{graph_slices, graph_of};
ghost use Rattle.packed_lists.specs.Writing.{size, Wrote};
ghost use Rattle.graph_writer.specs.Writing.{Fits, rows_of};

use packed::{number_size, write_number, write_row};
use packed_lists::numbers_size;
use timing::{MAX_COPIES, MAX_COPY_EDGES, Verdict};
use verdicts::{graph_sizes, unless, zero_or_one};

// 30, 32 for the counts, and 32 for the endpoint numbers: where the three slices of edges are as
// long as each other, each length is the count of edges.
pub(crate) fn write_tests(
    copies: usize,
    endpoint: &[u32],
    from: usize,
    to: usize,
    via: usize,
) -> Verdict
    ensures { let ends = endpoint.now in
        let R : Room = record { nodes = copies; endpoints = length ends; starts = from; ends = to; names = via } in
        result ≡ (room_sizes R then passed_if 32 (leb copies 16384 && leb from 65536)
        then passed_if 32 (zero_or_one ends)) }
{
    graph_sizes(copies, endpoint.len(), from, to, via)?;
    unless(32, copies <= MAX_COPIES && from <= MAX_COPY_EDGES)?;
    unless(32, zero_or_one(endpoint))
}

// How many bytes the copies take: each number is counted once, in any order.
#[tactic(auto, using(crate::proofs::Writing::number_most, packed_lists::proofs::Sizes::size_most, packed_lists::proofs::Writing::size_cons, crate::proofs::Writing::size_copies), unfolding(packed_lists::specs::Writing::bytes_of))]
fn copies_size(nodes: &[u32], endpoint: &[u32]) -> usize
    requires { (length nodes.now ≤ 16384) × (length endpoint.now ≡ length nodes.now) }
    ensures { let numbers = length nodes.now ∷ copy_numbers nodes.now endpoint.now in
        (result ≡ size numbers) × (result ≤ 163845) }
{
    number_size(nodes.len() as u32) + numbers_size(nodes) + numbers_size(endpoint)
}

// How many bytes the edges take, likewise.
#[tactic(auto, using(crate::proofs::Writing::number_most, packed_lists::proofs::Sizes::size_most, packed_lists::proofs::Writing::size_cons, crate::proofs::Writing::size_rows), unfolding(packed_lists::specs::Writing::bytes_of))]
fn edges_size(from: &[u32], to: &[u32], via: &[u32]) -> usize
    requires { (length from.now ≤ 65536)
        × (length to.now ≡ length from.now)
        × (length via.now ≡ length from.now) }
    ensures { let rows = rows_of from.now to.now via.now in
        (result ≡ size (length from.now ∷ rows)) × (result ≤ 983045) }
{
    number_size(from.len() as u32) + numbers_size(from) + numbers_size(to) + numbers_size(via)
}

// How many bytes the graph takes.
#[tactic(auto, using(crate::proofs::Writing::size_graph))]
pub(crate) fn graph_size(
    nodes: &[u32],
    endpoint: &[u32],
    from: &[u32],
    to: &[u32],
    via: &[u32],
) -> usize
    requires { Fits nodes.now endpoint.now from.now to.now via.now }
    ensures { let S = graph_slices nodes.now endpoint.now
        from.now to.now via.now in
        result ≡ length (packed_graph (graph_of S)) }
{
    copies_size(nodes, endpoint) + edges_size(from, to, via)
}

// Whether the graph fits a room of so many bytes. Five bytes hold any number, so that its size is asked for in a small room only.
#[tactic(auto, using(crate::proofs::Writing::graph_most))]
pub(crate) fn graph_fits(
    nodes: &[u32],
    endpoint: &[u32],
    from: &[u32],
    to: &[u32],
    via: &[u32],
    len: usize,
) -> bool
    requires { Fits nodes.now endpoint.now from.now to.now via.now }
    ensures { let S = graph_slices nodes.now endpoint.now
        from.now to.now via.now in
        result ≡ leb (length (packed_graph (graph_of S))) len }
{
    if 10 + 10 * nodes.len() + 15 * from.len() <= len {
        return true;
    }
    graph_size(nodes, endpoint, from, to, via) <= len
}

// A number, where the room is known to have the bytes for it.
fn put(room: &mut [u8], at: usize, x: u32) -> usize
    requires { at + size (x ∷ []) ≤ length room.old }
    ensures { Wrote room.old room.new at result (x ∷ []) }
{
    match write_number(room, at, x) {
        Ok(next) => next,
        Err(_) => at,
    }
}

// A copy: its node, then its endpoint number.
fn put_copy(room: &mut [u8], at: usize, node: u32, endpoint: u32) -> usize
    requires { at + size (node ∷ endpoint ∷ []) ≤ length room.old }
    ensures { Wrote room.old room.new at result (node ∷ endpoint ∷ []) }
{
    let at = put(room, at, node);
    put(room, at, endpoint)
}

fn put_copies(room: &mut [u8], mut at: usize, nodes: &[u32], endpoint: &[u32]) -> usize
    requires { (length endpoint.now ≡ length nodes.now)
        × (at + size (copy_numbers nodes.now endpoint.now) ≤ length room.old) }
    ensures { let numbers = copy_numbers nodes.now endpoint.now in
        Wrote room.old room.new at result numbers }
{
    for k in 0..nodes.len() {
        at = put_copy(room, at, nodes[k], endpoint[k]);
    }
    at
}

// An edge: its start copy, its end copy and its design edge.
fn put_row(room: &mut [u8], at: usize, s: u32, t: u32, k: u32) -> usize
    requires { at + size (s ∷ t ∷ k ∷ []) ≤ length room.old }
    ensures { Wrote room.old room.new at result (s ∷ t ∷ k ∷ []) }
{
    match write_row(room, at, s, t, k) {
        Ok(next) => next,
        Err(_) => at,
    }
}

fn put_rows(room: &mut [u8], mut at: usize, from: &[u32], to: &[u32], via: &[u32]) -> usize
    requires { (length to.now ≡ length from.now)
        × (length via.now ≡ length from.now)
        × (at + size (rows_of from.now to.now via.now) ≤ length room.old) }
    ensures { let numbers = rows_of from.now to.now via.now in
        Wrote room.old room.new at result numbers }
{
    for k in 0..from.len() {
        at = put_row(room, at, from[k], to[k], via[k]);
    }
    at
}

// The graph, where it fits the room.
#[tactic(auto, using(crate::proofs::Writing::size_parts))]
pub(crate) fn put_graph(
    nodes: &[u32],
    endpoint: &[u32],
    from: &[u32],
    to: &[u32],
    via: &[u32],
    room: &mut [u8],
) -> usize
    requires { let S = graph_slices nodes.now endpoint.now from.now to.now via.now in
        Fits nodes.now endpoint.now from.now to.now via.now
        × (length (packed_graph (graph_of S)) ≤ length room.old) }
    ensures { let S = graph_slices nodes.now endpoint.now
        from.now to.now via.now in
        Wrote room.old room.new 0 result (graph_numbers (graph_of S)) }
{
    let at = put(room, 0, nodes.len() as u32);
    let at = put_copies(room, at, nodes, endpoint);
    let at = put(room, at, from.len() as u32);
    put_rows(room, at, from, to, via)
}
