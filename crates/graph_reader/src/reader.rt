// Reading a packed true graph: first everything is looked at, and then the room is filled.
ghost use Rattle.std.specs.Prelude.{◌≡◌, ◌≤◌, ◌<◌, map, length, set};
ghost use Rattle.std.proofs.lemmas.List.Edits.{sets};
ghost use Rattle.timing.specs.GraphBytes.{copy_row, read_graph};
ghost use Rattle.timing.specs.Calls.{parsed, graph_answer};
ghost use Rattle.timing.specs.Parsing.{repeated};
ghost use Rattle.timing.specs.Looks.{looked, number_of, next_at, row_at, row_end};
ghost use Rattle.graph_reader.specs.Reading.{count_in, endpoint_in, made_of, edges_in, copy_at, copy_end};
ghost use Rattle.graph_reader.specs.Reading.{copies_from, copies_end, rows_from, rows_place};

use entries::wide;
use packed::read_number;
use packed_lists::{look_rows, take_number};
use timing::{GraphCounts, MAX_COPIES, MAX_COPY_EDGES, Refusal, Taken};
use verdicts::{refuse, unless};

// A count: 32 above a limit, and then the number of the room.
fn look_count(s: &[u8], at: usize, limit: usize, full: u32, room: usize) -> Result<Taken, Refusal>
    ensures { result ≡ number_of (count_in s.now limit full room at) }
{
    let count = read_number(s, at)?;
    let n = wide(count.value);
    unless(32, n <= limit)?;
    unless(full, n <= room)?;
    Ok(count)
}

// An endpoint number: 32 above 1, as soon as it is met.
fn look_endpoint(s: &[u8], at: usize) -> Result<usize, Refusal>
    ensures { result ≡ looked (endpoint_in s.now at) }
{
    let endpoint = read_number(s, at)?;
    unless(32, endpoint.value <= 1)?;
    Ok(endpoint.next)
}

// A copy: its node, and its endpoint number.
fn look_copy(s: &[u8], at: usize) -> Result<usize, Refusal>
    ensures { result ≡ looked (copy_row s.now at) }
{
    let node = read_number(s, at)?;
    look_endpoint(s, node.next)
}

fn look_copies(s: &[u8], at: usize, n: usize) -> Result<usize, Refusal>
    ensures { result ≡ looked (repeated n (copy_row s.now) at) }
{
    let mut here = at;
    for _ in 0..n {
        here = look_copy(s, here)?;
    }
    Ok(here)
}

// The edges, and 3.
fn look_edges(s: &[u8], at: usize, copies: u32, edges: usize) -> Result<GraphCounts, Refusal>
    ensures { result ≡ made_of copies (edges_in s.now edges at) }
{
    let count = look_count(s, at, MAX_COPY_EDGES, 34, edges)?;
    let after = look_rows(s, count.next, count.value, 3)?;
    if after < s.len() {
        return Err(refuse(3, after));
    }
    Ok(GraphCounts {
        copies: wide(copies),
        edges: wide(count.value),
    })
}

pub(crate) fn look(s: &[u8], copies: usize, edges: usize) -> Result<GraphCounts, Refusal>
    ensures { result ≡ graph_answer (parsed (read_graph s.now copies edges)) }
{
    let count = look_count(s, 0, MAX_COPIES, 33, copies)?;
    let after = look_copies(s, count.next, wide(count.value))?;
    look_edges(s, after, count.value, edges)
}

pub(crate) fn next_at(s: &[u8], at: usize) -> usize
    ensures { result ≡ next_at s.now at }
{
    take_number(s, at).next
}

// Copy i of two slices.
fn fill_copy(
    s: &[u8],
    at: usize,
    i: usize,
    room_nodes: &mut [u32],
    room_endpoint: &mut [u32],
) -> usize
    requires { (i < length room_nodes.old) × (i < length room_endpoint.old) }
    ensures { let copy = copy_at s.now at in
        (result ≡ copy_end s.now at)
        × (room_nodes.new ≡ set room_nodes.old i copy.node)
        × (room_endpoint.new ≡ set room_endpoint.old i copy.endpoint) }
{
    let node = take_number(s, at);
    let endpoint = take_number(s, node.next);
    room_nodes[i] = node.value;
    room_endpoint[i] = endpoint.value;
    endpoint.next
}

fn fill_copies(
    s: &[u8],
    at: usize,
    n: usize,
    room_nodes: &mut [u32],
    room_endpoint: &mut [u32],
) -> usize
    requires { (n ≤ length room_nodes.old) × (n ≤ length room_endpoint.old) }
    ensures { let copies = copies_from s.now n at in
        (result ≡ copies_end s.now n at)
        × (room_nodes.new ≡ sets room_nodes.old 0 (map (λ q. q.node) copies))
        × (room_endpoint.new ≡ sets room_endpoint.old 0 (map (λ q. q.endpoint) copies)) }
{
    let mut here = at;
    for i in 0..n {
        here = fill_copy(s, here, i, room_nodes, room_endpoint);
    }
    here
}

// Row i of three slices.
fn fill_row(
    s: &[u8],
    at: usize,
    i: usize,
    room_from: &mut [u32],
    room_to: &mut [u32],
    room_via: &mut [u32],
) -> usize
    requires { (i < length room_from.old) × (i < length room_to.old) × (i < length room_via.old) }
    ensures { let row = row_at s.now at in
        (result ≡ row_end s.now at)
        × (room_from.new ≡ set room_from.old i row.first)
        × (room_to.new ≡ set room_to.old i row.second)
        × (room_via.new ≡ set room_via.old i row.third) }
{
    let from = take_number(s, at);
    let to = take_number(s, from.next);
    let via = take_number(s, to.next);
    room_from[i] = from.value;
    room_to[i] = to.value;
    room_via[i] = via.value;
    via.next
}

fn fill_rows(
    s: &[u8],
    at: usize,
    m: usize,
    room_from: &mut [u32],
    room_to: &mut [u32],
    room_via: &mut [u32],
)
    requires { (m ≤ length room_from.old) × (m ≤ length room_to.old) × (m ≤ length room_via.old) }
    ensures { let rows = rows_from s.now m at in
        (room_from.new ≡ sets room_from.old 0 (map (λ q. q.first) rows))
        × (room_to.new ≡ sets room_to.old 0 (map (λ q. q.second) rows))
        × (room_via.new ≡ sets room_via.old 0 (map (λ q. q.third) rows)) }
{
    let mut here = at;
    for i in 0..m {
        here = fill_row(s, here, i, room_from, room_to, room_via);
    }
}

// The room, where the look passed: the copies, and behind the count of edges the rows.
pub(crate) fn fill(
    s: &[u8],
    n: usize,
    m: usize,
    room_nodes: &mut [u32],
    room_endpoint: &mut [u32],
    room_from: &mut [u32],
    room_to: &mut [u32],
    room_via: &mut [u32],
)
    requires { (n ≤ length room_nodes.old)
        × (n ≤ length room_endpoint.old)
        × (m ≤ length room_from.old)
        × (m ≤ length room_to.old)
        × (m ≤ length room_via.old) }
    ensures { let copies = copies_from s.now n (next_at s.now 0) in
        let rows = rows_from s.now m (rows_place s.now n) in
        (room_nodes.new ≡ sets room_nodes.old 0 (map (λ q. q.node) copies))
        × (room_endpoint.new ≡ sets room_endpoint.old 0 (map (λ q. q.endpoint) copies))
        × (room_from.new ≡ sets room_from.old 0 (map (λ q. q.first) rows))
        × (room_to.new ≡ sets room_to.old 0 (map (λ q. q.second) rows))
        × (room_via.new ≡ sets room_via.old 0 (map (λ q. q.third) rows)) }
{
    let count = fill_copies(s, next_at(s, 0), n, room_nodes, room_endpoint);
    fill_rows(s, next_at(s, count), m, room_from, room_to, room_via);
}
