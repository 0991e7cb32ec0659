// The C interface. Each function answers one signed 64-bit number; a refusal is minus the sum of its number
// and 256 times its place. A slice is a pointer and a length (include/jaqhweni.h).
#![tactic(auto)]

ghost use Rattle.std.specs.Prelude.{◌≡◌, ◌<◌, pos, neg_ℤ, length};
ghost use Rattle.timing.specs.Graphs.{design};
ghost use Rattle.timing.specs.Marks.{path_list};
ghost use Rattle.timing.specs.GraphBytes.{packed_graph};
ghost use Rattle.timing.specs.Calls.{graph_slices, graph_of, lent_removal, remove_from_design, remove_from_graph, graph_answer};
ghost use Rattle.timing.specs.Calls.{nodes_after, endpoints_after, starts_after, ends_after, names_after, scratch_after};
ghost use Rattle.timing.specs.Calls.{size_from_design, size_from_graph};
ghost use Rattle.timing.specs.Calls.{test_times, arrivals_after, requireds_after, slacks_after, earliests_after};
ghost use Rattle.timing.specs.Calls.{late_or_not, arrivals_after_late};
ghost use Rattle.timing.specs.Calls.{graph_write_tests, writing, room_after_writing};
ghost use Rattle.timing.specs.Calls.{refusal_number, graph_number, verdict_number, lateness_number, c_number, c_call, c_room};
ghost use Rattle.true_graph.specs.Small.{SmallRefusal, SmallGraph, SmallLateness, SmallWritten, Small};

use timing::{GraphCounts, Refusal, Verdict};

fn positive(x: usize) -> i64
    requires { x < 9223372036854775808 }
    ensures { result ≡ pos x }
{
    x as i64
}

fn negative(x: usize) -> i64
    requires { x < 9223372036854775808 }
    ensures { result ≡ neg_ℤ (pos x) }
{
    -positive(x)
}

fn refusal_number(r: Refusal) -> i64
    requires { SmallRefusal r }
    ensures { result ≡ refusal_number r }
{
    negative(r.number as usize + 256 * r.place)
}

// What is found has four types, each with an arm of its own here: a trait of which the four are instances would be four impls of more lines,
// since each has its own definition in document 01's terms.
fn graph_number(made: Result<GraphCounts, Refusal>) -> i64
    requires { SmallGraph made }
    ensures { result ≡ graph_number made }
{
    match made {
        Ok(GraphCounts { copies, edges }) => positive(copies + edges * 4294967296),
        Err(r) => refusal_number(r),
    }
}

fn verdict_number(v: Verdict) -> i64
    requires { Small v }
    ensures { result ≡ verdict_number v }
{
    match v {
        Ok(()) => 0,
        Err(r) => refusal_number(r),
    }
}

fn lateness_number(l: Result<Option<usize>, Refusal>) -> i64
    requires { SmallLateness l }
    ensures { result ≡ lateness_number l }
{
    match l {
        Ok(Some(copy)) => positive(1 + copy),
        Ok(None) => 0,
        Err(r) => refusal_number(r),
    }
}

fn written_number(w: Result<usize, Refusal>) -> i64
    requires { SmallWritten w }
    ensures { result ≡ c_number w }
{
    match w {
        Ok(end) => positive(end),
        Err(r) => refusal_number(r),
    }
}

// The packed true graph of a packed deck, into the room. Document 01's C call.
#[unsafe(no_mangle)]
pub extern "C" fn jaqhweni_true_graph(deck: &[u8], room: &mut [u8]) -> i64
    ensures { (result ≡ c_call deck.now room.old)
        × (room.new ≡ c_room deck.now room.old) }
{
    let written = true_graph::pack(deck, room);
    written_number(written)
}

// The true graph of a design and a list of paths.
#[unsafe(no_mangle)]
pub extern "C" fn jaqhweni_remove_from_design(
    n: u32,
    starts: &[u32],
    ends: &[u32],
    early: &[i32],
    late: &[i32],
    marked: &[u32],
    listed: &[u32],
    lengths: &[u32],
    room_nodes: &mut [u32],
    room_endpoint: &mut [u32],
    room_from: &mut [u32],
    room_to: &mut [u32],
    room_via: &mut [u32],
    scratch: &mut [u32],
) -> i64
    ensures { let D = design n starts.now ends.now early.now late.now
        marked.now in
        let lent = lent_removal listed.now lengths.now
        room_nodes.old room_endpoint.old
        room_from.old room_to.old room_via.old scratch.old in
        let o = remove_from_design D lent in
        (result ≡ graph_number (graph_answer o))
        × (room_nodes.new ≡ nodes_after o room_nodes.old)
        × (room_endpoint.new ≡ endpoints_after o room_endpoint.old)
        × (room_from.new ≡ starts_after o room_from.old)
        × (room_to.new ≡ ends_after o room_to.old)
        × (room_via.new ≡ names_after o room_via.old)
        × (scratch.new ≡ scratch_after o scratch.old) }
{
    let made = removal::remove_from_design(
        n,
        starts,
        ends,
        early,
        late,
        marked,
        listed,
        lengths,
        room_nodes,
        room_endpoint,
        room_from,
        room_to,
        room_via,
        scratch,
    );
    graph_number(made)
}

// What is left of an earlier true graph (`nodes`, `endpoint`, `from`, `to`, `via`) after a further list of paths.
#[unsafe(no_mangle)]
pub extern "C" fn jaqhweni_remove_from_graph(
    n: u32,
    starts: &[u32],
    ends: &[u32],
    early: &[i32],
    late: &[i32],
    marked: &[u32],
    listed: &[u32],
    lengths: &[u32],
    nodes: &[u32],
    endpoint: &[u32],
    from: &[u32],
    to: &[u32],
    via: &[u32],
    room_nodes: &mut [u32],
    room_endpoint: &mut [u32],
    room_from: &mut [u32],
    room_to: &mut [u32],
    room_via: &mut [u32],
    scratch: &mut [u32],
) -> i64
    ensures { let D = design n starts.now ends.now early.now late.now
        marked.now in
        let S = graph_slices nodes.now endpoint.now
        from.now to.now via.now in
        let lent = lent_removal listed.now lengths.now
        room_nodes.old room_endpoint.old
        room_from.old room_to.old room_via.old scratch.old in
        let o = remove_from_graph D S lent in
        (result ≡ graph_number (graph_answer o))
        × (room_nodes.new ≡ nodes_after o room_nodes.old)
        × (room_endpoint.new ≡ endpoints_after o room_endpoint.old)
        × (room_from.new ≡ starts_after o room_from.old)
        × (room_to.new ≡ ends_after o room_to.old)
        × (room_via.new ≡ names_after o room_via.old)
        × (scratch.new ≡ scratch_after o scratch.old) }
{
    let made = removal::remove_from_graph(
        n,
        starts,
        ends,
        early,
        late,
        marked,
        listed,
        lengths,
        nodes,
        endpoint,
        from,
        to,
        via,
        room_nodes,
        room_endpoint,
        room_from,
        room_to,
        room_via,
        scratch,
    );
    graph_number(made)
}

// How many copies and edges the true graph of a design and a list of paths has.
#[unsafe(no_mangle)]
pub extern "C" fn jaqhweni_size_from_design(
    n: u32,
    starts: &[u32],
    ends: &[u32],
    early: &[i32],
    late: &[i32],
    marked: &[u32],
    listed: &[u32],
    lengths: &[u32],
    scratch: &mut [u32],
) -> i64
    ensures { let D = design n starts.now ends.now early.now late.now
        marked.now in
        let L = path_list listed.now lengths.now in
        let o = size_from_design D L (length scratch.old) in
        (result ≡ graph_number (graph_answer o)) × (scratch.new ≡ scratch_after o scratch.old) }
{
    let told = removal::size_from_design(
        n, starts, ends, early, late, marked, listed, lengths, scratch,
    );
    graph_number(told)
}

// How many copies and edges are left of an earlier true graph after a further list of paths.
#[unsafe(no_mangle)]
pub extern "C" fn jaqhweni_size_from_graph(
    n: u32,
    starts: &[u32],
    ends: &[u32],
    early: &[i32],
    late: &[i32],
    marked: &[u32],
    listed: &[u32],
    lengths: &[u32],
    nodes: &[u32],
    endpoint: &[u32],
    from: &[u32],
    to: &[u32],
    via: &[u32],
    scratch: &mut [u32],
) -> i64
    ensures { let D = design n starts.now ends.now early.now late.now
        marked.now in
        let S = graph_slices nodes.now endpoint.now
        from.now to.now via.now in
        let L = path_list listed.now lengths.now in
        let o = size_from_graph D S L (length scratch.old) in
        (result ≡ graph_number (graph_answer o)) × (scratch.new ≡ scratch_after o scratch.old) }
{
    let told = removal::size_from_graph(
        n, starts, ends, early, late, marked, listed, lengths, nodes, endpoint, from, to, via,
        scratch,
    );
    graph_number(told)
}

// Arrival, required time, slack and earliest arrival of every copy of a true graph.
#[unsafe(no_mangle)]
pub extern "C" fn jaqhweni_times(
    n: u32,
    starts: &[u32],
    ends: &[u32],
    early: &[i32],
    late: &[i32],
    marked: &[u32],
    allowed: u32,
    nodes: &[u32],
    endpoint: &[u32],
    from: &[u32],
    to: &[u32],
    via: &[u32],
    arrivals: &mut [i64],
    requireds: &mut [i64],
    slacks: &mut [i64],
    earliests: &mut [i64],
) -> i64
    ensures { let D = design n starts.now ends.now early.now late.now
        marked.now in
        let S = graph_slices nodes.now endpoint.now
        from.now to.now via.now in
        let v = test_times D S allowed (length arrivals.old) (length requireds.old)
        (length slacks.old) (length earliests.old) in
        (result ≡ verdict_number v)
        × (arrivals.new ≡ arrivals_after D S allowed v arrivals.old)
        × (requireds.new ≡ requireds_after D S allowed v requireds.old)
        × (slacks.new ≡ slacks_after D S allowed v slacks.old)
        × (earliests.new ≡ earliests_after D S v earliests.old) }
{
    let verdict = times::times(
        n, starts, ends, early, late, marked, allowed, nodes, endpoint, from, to, via, arrivals,
        requireds, slacks, earliests,
    );
    verdict_number(verdict)
}

// The lowest copy of a true graph where paths end with an arrival above T, or that nothing is late.
#[unsafe(no_mangle)]
pub extern "C" fn jaqhweni_late(
    n: u32,
    starts: &[u32],
    ends: &[u32],
    early: &[i32],
    late: &[i32],
    marked: &[u32],
    allowed: u32,
    nodes: &[u32],
    endpoint: &[u32],
    from: &[u32],
    to: &[u32],
    via: &[u32],
    arrivals: &mut [i64],
) -> i64
    ensures { let D = design n starts.now ends.now early.now late.now
        marked.now in
        let S = graph_slices nodes.now endpoint.now
        from.now to.now via.now in
        let answer = late_or_not D S allowed (length arrivals.old) in
        (result ≡ lateness_number answer)
        × (arrivals.new ≡ arrivals_after_late D S allowed answer arrivals.old) }
{
    let answer = late::late_or_not(
        n, starts, ends, early, late, marked, allowed, nodes, endpoint, from, to, via, arrivals,
    );
    lateness_number(answer)
}

// A true graph in packed form, into the room.
#[unsafe(no_mangle)]
pub extern "C" fn jaqhweni_write_graph(
    nodes: &[u32],
    endpoint: &[u32],
    from: &[u32],
    to: &[u32],
    via: &[u32],
    room: &mut [u8],
) -> i64
    ensures { let S = graph_slices nodes.now endpoint.now
        from.now to.now via.now in
        let bytes = packed_graph (graph_of S) in
        (result ≡ c_number (writing (graph_write_tests S) room.old bytes))
        × (room.new ≡ room_after_writing (graph_write_tests S) room.old bytes) }
{
    let written = graph_writer::write_graph(nodes, endpoint, from, to, via, room);
    written_number(written)
}
