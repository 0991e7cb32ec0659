// A whole removal of listed paths from a graph that has passed its tests: 31, the passes over the
// slots, 33 and 34, and then the result. Telling its size is the same but for the result.
ghost use Rattle.std.specs.Prelude.{◌≡◌, ◌≤◌, length};
ghost use Rattle.removal.specs.Fill.{RoomsAlike};
ghost use Rattle.removal.specs.Patches.{NamesIn};
ghost use Rattle.removal.specs.Remove.{Workable, WorkableIn, AllReached, Found, AllSearched, RoomAnswered, AllRemoved, AllSized};

use crate::bounds::bound_all;
use crate::build::{build, count_candidates};
use crate::fill::fill_all;
use crate::reach::reach_all;
use crate::rows::Layout;
use crate::show::{reset_flags, show_all};
use entries::zero;
use sizes::{largest_answer, room_answer, scratch_test};
use timing::{GraphCounts, MAX_EDGES, Refusal};

// What is left of a graph without a copy.
const NO_COPIES: GraphCounts = GraphCounts {
    copies: 0,
    edges: 0,
};

// Finds the slots that are reached: the tables, and then what reaches an end.
fn find(
    starts: &[u32],
    listed: &[u32],
    lengths: &[u32],
    nodes: &[u32],
    endpoint: &[u32],
    from: &[u32],
    to: &[u32],
    via: &[u32],
    candidates: usize,
    scratch: &mut [u32],
    pos: &mut [u16],
) -> Layout
    requires { WorkableIn starts.now listed.now lengths.now
        nodes.now endpoint.now from.now to.now via.now candidates scratch.old
        × (length starts.now ≤ length pos.old) }
    ensures { Found starts.now listed.now lengths.now nodes.now endpoint.now
        from.now to.now via.now scratch.old scratch.new result
        × (length pos.new ≡ length pos.old) }
{
    let layout = build(
        starts, listed, lengths, nodes, from, to, via, candidates, scratch,
    );
    reach_all(layout, endpoint, scratch, pos);
    layout
}

// 31, and then the tables and the slots that are reached. Of a graph without a copy nothing is left to find, and its tables need not fit: a few of their
// words are there for no copy. A removal and its size share this function and its frame: the array by which the candidates
// are counted is gone when those of `build` are made. What it answers: where the tables stand, with the slots flagged that are
// reached; or that there is no copy; or 31.
fn search(
    starts: &[u32],
    listed: &[u32],
    lengths: &[u32],
    nodes: &[u32],
    endpoint: &[u32],
    from: &[u32],
    to: &[u32],
    via: &[u32],
    scratch: &mut [u32],
    pos: &mut [u16],
) -> Result<Option<Layout>, Refusal>
    requires { Workable starts.now listed.now lengths.now nodes.now endpoint.now from.now to.now via.now
        × (length starts.now ≤ length pos.old) }
    ensures { AllSearched starts.now listed.now lengths.now nodes.now endpoint.now
        from.now to.now via.now scratch.old scratch.new result
        × (length pos.new ≡ length pos.old) }
{
    let candidates = count_candidates(starts, listed, lengths, nodes);
    scratch_test(scratch.len(), candidates, listed.len(), from.len())?;
    if nodes.is_empty() {
        return Ok(None);
    }
    let layout = find(
        starts, listed, lengths, nodes, endpoint, from, to, via, candidates, scratch, pos,
    );
    Ok(Some(layout))
}

// 33 and 34 by a count of the slots that are shown, and then the result to the room. The flags are as before the count when the room is filled.
fn write_counted(
    l: Layout,
    nodes: &[u32],
    endpoint: &[u32],
    scratch: &mut [u32],
    pos: &mut [u16],
    room_nodes: &mut [u32],
    room_endpoint: &mut [u32],
    room_from: &mut [u32],
    room_to: &mut [u32],
    room_via: &mut [u32],
) -> Result<GraphCounts, Refusal>
    requires { AllReached l nodes.now endpoint.now scratch.old
        × NamesIn l scratch.old (length pos.old)
        × RoomsAlike room_nodes.old room_endpoint.old room_from.old room_to.old room_via.old }
    ensures { RoomAnswered l nodes.now endpoint.now scratch.old result
        room_nodes.old room_endpoint.old room_from.old
        room_to.old room_via.old room_nodes.new room_endpoint.new
        room_from.new room_to.new room_via.new
        × (length scratch.new ≡ length scratch.old) }
{
    let counts = show_all(l, scratch, pos);
    let answer = room_answer(
        counts.copies,
        counts.edges,
        room_nodes.len(),
        room_from.len(),
    )?;
    reset_flags(l, scratch);
    fill_all(
        l,
        nodes,
        endpoint,
        scratch,
        pos,
        room_nodes,
        room_endpoint,
        room_from,
        room_to,
        room_via,
    );
    Ok(answer)
}

// 33 and 34, and then the result to the room. What is reached bounds what is shown: where there is room for all of that, nothing is counted first.
fn write_result(
    l: Layout,
    nodes: &[u32],
    endpoint: &[u32],
    scratch: &mut [u32],
    pos: &mut [u16],
    room_nodes: &mut [u32],
    room_endpoint: &mut [u32],
    room_from: &mut [u32],
    room_to: &mut [u32],
    room_via: &mut [u32],
) -> Result<GraphCounts, Refusal>
    requires { AllReached l nodes.now endpoint.now scratch.old
        × NamesIn l scratch.old (length pos.old)
        × RoomsAlike room_nodes.old room_endpoint.old room_from.old room_to.old room_via.old }
    ensures { RoomAnswered l nodes.now endpoint.now scratch.old result
        room_nodes.old room_endpoint.old room_from.old
        room_to.old room_via.old room_nodes.new room_endpoint.new
        room_from.new room_to.new room_via.new
        × (length scratch.new ≡ length scratch.old) }
{
    let most = bound_all(l, scratch);
    let ample = room_answer(most.copies, most.edges, room_nodes.len(), room_from.len());
    if ample.is_err() {
        return write_counted(
            l,
            nodes,
            endpoint,
            scratch,
            pos,
            room_nodes,
            room_endpoint,
            room_from,
            room_to,
            room_via,
        );
    }
    Ok(fill_all(
        l,
        nodes,
        endpoint,
        scratch,
        pos,
        room_nodes,
        room_endpoint,
        room_from,
        room_to,
        room_via,
    ))
}

// A removal with a place for each edge of the design to note where its name stands.
fn remove_with(
    starts: &[u32],
    listed: &[u32],
    lengths: &[u32],
    nodes: &[u32],
    endpoint: &[u32],
    from: &[u32],
    to: &[u32],
    via: &[u32],
    room_nodes: &mut [u32],
    room_endpoint: &mut [u32],
    room_from: &mut [u32],
    room_to: &mut [u32],
    room_via: &mut [u32],
    scratch: &mut [u32],
    pos: &mut [u16],
) -> Result<GraphCounts, Refusal>
    requires { Workable starts.now listed.now lengths.now nodes.now endpoint.now from.now to.now via.now
        × RoomsAlike room_nodes.old room_endpoint.old room_from.old room_to.old room_via.old
        × (length starts.now ≤ length pos.old) }
    ensures { AllRemoved starts.now listed.now lengths.now nodes.now endpoint.now
        from.now to.now via.now result room_nodes.old room_endpoint.old
        room_from.old room_to.old room_via.old scratch.old
        room_nodes.new room_endpoint.new room_from.new room_to.new
        room_via.new scratch.new }
{
    let found = search(
        starts, listed, lengths, nodes, endpoint, from, to, via, scratch, pos,
    );
    // No `?` before the match: it would copy the layout, by a call of `memcpy`, which the library for C takes from nobody.
    match found {
        Ok(Some(layout)) => {
            let made = write_result(
                layout,
                nodes,
                endpoint,
                scratch,
                pos,
                room_nodes,
                room_endpoint,
                room_from,
                room_to,
                room_via,
            );
            zero(scratch);
            made
        }
        Ok(None) => {
            zero(scratch);
            Ok(NO_COPIES)
        }
        Err(r) => Err(r),
    }
}

// The same for a design of at most so many edges.
fn remove_within<const PLACES: usize>(
    starts: &[u32],
    listed: &[u32],
    lengths: &[u32],
    nodes: &[u32],
    endpoint: &[u32],
    from: &[u32],
    to: &[u32],
    via: &[u32],
    room_nodes: &mut [u32],
    room_endpoint: &mut [u32],
    room_from: &mut [u32],
    room_to: &mut [u32],
    room_via: &mut [u32],
    scratch: &mut [u32],
) -> Result<GraphCounts, Refusal>
    requires { Workable starts.now listed.now lengths.now nodes.now endpoint.now from.now to.now via.now
        × RoomsAlike room_nodes.old room_endpoint.old room_from.old room_to.old room_via.old
        × (length starts.now ≤ PLACES) × (PLACES ≤ 16384) }
    ensures { AllRemoved starts.now listed.now lengths.now nodes.now endpoint.now
        from.now to.now via.now result room_nodes.old room_endpoint.old
        room_from.old room_to.old room_via.old scratch.old
        room_nodes.new room_endpoint.new room_from.new room_to.new
        room_via.new scratch.new }
{
    let mut pos = [0u16; PLACES];
    remove_with(
        starts,
        listed,
        lengths,
        nodes,
        endpoint,
        from,
        to,
        via,
        room_nodes,
        room_endpoint,
        room_from,
        room_to,
        room_via,
        scratch,
        &mut pos,
    )
}

// A removal of listed paths from a graph. The tests before 31 have passed. With enough scratch, this is all
// zero afterwards. A small design has places of its own: to clear 16,384 takes longer than all else in a small graph.
pub(crate) fn remove(
    starts: &[u32],
    listed: &[u32],
    lengths: &[u32],
    nodes: &[u32],
    endpoint: &[u32],
    from: &[u32],
    to: &[u32],
    via: &[u32],
    room_nodes: &mut [u32],
    room_endpoint: &mut [u32],
    room_from: &mut [u32],
    room_to: &mut [u32],
    room_via: &mut [u32],
    scratch: &mut [u32],
) -> Result<GraphCounts, Refusal>
    requires { Workable starts.now listed.now lengths.now nodes.now endpoint.now from.now to.now via.now
        × RoomsAlike room_nodes.old room_endpoint.old room_from.old room_to.old room_via.old }
    ensures { AllRemoved starts.now listed.now lengths.now nodes.now endpoint.now
        from.now to.now via.now result room_nodes.old room_endpoint.old
        room_from.old room_to.old room_via.old scratch.old
        room_nodes.new room_endpoint.new room_from.new room_to.new
        room_via.new scratch.new }
{
    if starts.len() <= 1024 {
        return remove_within::<1024>(
            starts,
            listed,
            lengths,
            nodes,
            endpoint,
            from,
            to,
            via,
            room_nodes,
            room_endpoint,
            room_from,
            room_to,
            room_via,
            scratch,
        );
    }
    remove_within::<MAX_EDGES>(
        starts,
        listed,
        lengths,
        nodes,
        endpoint,
        from,
        to,
        via,
        room_nodes,
        room_endpoint,
        room_from,
        room_to,
        room_via,
        scratch,
    )
}

// The size of a removal, with a place for each edge of the design.
fn size_with(
    starts: &[u32],
    listed: &[u32],
    lengths: &[u32],
    nodes: &[u32],
    endpoint: &[u32],
    from: &[u32],
    to: &[u32],
    via: &[u32],
    scratch: &mut [u32],
    pos: &mut [u16],
) -> Result<GraphCounts, Refusal>
    requires { Workable starts.now listed.now lengths.now nodes.now endpoint.now from.now to.now via.now
        × (length starts.now ≤ length pos.old) }
    ensures { AllSized starts.now listed.now lengths.now nodes.now endpoint.now
        from.now to.now via.now result scratch.old scratch.new }
{
    let found = search(
        starts, listed, lengths, nodes, endpoint, from, to, via, scratch, pos,
    );
    match found {
        Ok(Some(layout)) => {
            let counts = show_all(layout, scratch, pos);
            zero(scratch);
            largest_answer(counts.copies, counts.edges)
        }
        Ok(None) => {
            zero(scratch);
            Ok(NO_COPIES)
        }
        Err(r) => Err(r),
    }
}

// The same for a design of at most so many edges.
fn size_within<const PLACES: usize>(
    starts: &[u32],
    listed: &[u32],
    lengths: &[u32],
    nodes: &[u32],
    endpoint: &[u32],
    from: &[u32],
    to: &[u32],
    via: &[u32],
    scratch: &mut [u32],
) -> Result<GraphCounts, Refusal>
    requires { Workable starts.now listed.now lengths.now nodes.now endpoint.now from.now to.now via.now
        × (length starts.now ≤ PLACES) × (PLACES ≤ 16384) }
    ensures { AllSized starts.now listed.now lengths.now nodes.now endpoint.now
        from.now to.now via.now result scratch.old scratch.new }
{
    let mut pos = [0u16; PLACES];
    size_with(
        starts, listed, lengths, nodes, endpoint, from, to, via, scratch, &mut pos,
    )
}

// How many copies and edges that removal makes, in the largest room. The scratch is left as by the removal.
pub(crate) fn size(
    starts: &[u32],
    listed: &[u32],
    lengths: &[u32],
    nodes: &[u32],
    endpoint: &[u32],
    from: &[u32],
    to: &[u32],
    via: &[u32],
    scratch: &mut [u32],
) -> Result<GraphCounts, Refusal>
    requires { Workable starts.now listed.now lengths.now nodes.now endpoint.now from.now to.now via.now }
    ensures { AllSized starts.now listed.now lengths.now nodes.now endpoint.now
        from.now to.now via.now result scratch.old scratch.new }
{
    if starts.len() <= 1024 {
        return size_within::<1024>(
            starts, listed, lengths, nodes, endpoint, from, to, via, scratch,
        );
    }
    size_within::<MAX_EDGES>(
        starts, listed, lengths, nodes, endpoint, from, to, via, scratch,
    )
}
