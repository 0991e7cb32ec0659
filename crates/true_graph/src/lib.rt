// From a packed deck to its packed true graph.
#![tactic(auto)]

ghost use Rattle.std.specs.Prelude.{◌≡◌, ◌≤◌};
ghost use Rattle.timing.specs.Graphs.{design};
ghost use Rattle.timing.specs.Marks.{path_list};
ghost use Rattle.timing.specs.Calls.{graph_slices, room_of, removal, remove_from_design};
ghost use Rattle.timing.specs.Calls.{program_room, program_removal, program, c_written, room_after_c};
ghost use Rattle.removal.specs.Remove.{Answered};
ghost use Rattle.true_graph.specs.Deck.{Tested, deck_of, MadeFits, made_written, made_room, ReadFits, read_removal};

use deck_reader::read_deck;
use graph_writer::write_graph;
use removal::remove_from_design;
use sizes::scratch_test;
use timing::{DeckCounts, GraphCounts, MAX_DECK_BYTES, Refusal};
use unfit::test_deck;
use verdicts::refuse;

// Packs the graph that was made, which stands in front of its five slices, into the room.
fn write_made(
    made: Result<GraphCounts, Refusal>,
    nodes: &[u32],
    endpoint: &[u32],
    from: &[u32],
    to: &[u32],
    via: &[u32],
    room: &mut [u8],
) -> Result<usize, Refusal>
    requires { MadeFits made (graph_slices nodes.now endpoint.now from.now to.now via.now) }
    ensures { let S = graph_slices nodes.now endpoint.now
        from.now to.now via.now in
        (result ≡ made_written made S room.old)
        × (room.new ≡ made_room made S room.old) }
{
    let GraphCounts { copies, edges } = made?;
    write_graph(
        &nodes[..copies],
        &endpoint[..copies],
        &from[..edges],
        &to[..edges],
        &via[..edges],
        room,
    )
}

// The true graph of a design and a list of paths, made in a scratch of so many words.
fn remove_in<const WORDS: usize>(
    n: u32,
    starts: &[u32],
    ends: &[u32],
    early: &[i32],
    late: &[i32],
    marked: &[u32],
    listed: &[u32],
    lengths: &[u32],
    room_nodes: &mut [u32],
    room_endpoint: &mut [u32],
    room_from: &mut [u32],
    room_to: &mut [u32],
    room_via: &mut [u32],
) -> Result<GraphCounts, Refusal>
    requires { WORDS ≤ 16384 }
    ensures { let D = design n starts.now ends.now early.now late.now
        marked.now in
        let L = path_list listed.now lengths.now in
        let R = room_of (graph_slices room_nodes.old room_endpoint.old
        room_from.old room_to.old room_via.old) in
        Answered (remove_from_design D (removal L R WORDS)) result
        room_nodes.old room_endpoint.old
        room_from.old room_to.old room_via.old
        room_nodes.new room_endpoint.new
        room_from.new room_to.new room_via.new }
{
    let mut scratch = [0; WORDS];
    remove_from_design(
        n,
        starts,
        ends,
        early,
        late,
        marked,
        listed,
        lengths,
        room_nodes,
        room_endpoint,
        room_from,
        room_to,
        room_via,
        &mut scratch,
    )
}

// The true graph of a design and a list of paths that passed their tests. The scratch makes no difference once 31 passes, and all that
// is lent is cleared: so half of it is lent where that is enough.
fn remove_tested(
    n: u32,
    starts: &[u32],
    ends: &[u32],
    early: &[i32],
    late: &[i32],
    marked: &[u32],
    listed: &[u32],
    lengths: &[u32],
    room_nodes: &mut [u32],
    room_endpoint: &mut [u32],
    room_from: &mut [u32],
    room_to: &mut [u32],
    room_via: &mut [u32],
) -> Result<GraphCounts, Refusal>
    requires { Tested (design n starts.now ends.now early.now late.now marked.now)
        (path_list listed.now lengths.now) }
    ensures { let D = design n starts.now ends.now early.now late.now
        marked.now in
        let L = path_list listed.now lengths.now in
        let R = room_of (graph_slices room_nodes.old room_endpoint.old
        room_from.old room_to.old room_via.old) in
        Answered (remove_from_design D (removal L R 16384)) result
        room_nodes.old room_endpoint.old
        room_from.old room_to.old room_via.old
        room_nodes.new room_endpoint.new
        room_from.new room_to.new room_via.new }
{
    let candidates = n as usize + listed.len() - lengths.len();
    let half = scratch_test(8192, candidates, listed.len(), starts.len());
    match half {
        Ok(()) => remove_in::<8192>(
            n,
            starts,
            ends,
            early,
            late,
            marked,
            listed,
            lengths,
            room_nodes,
            room_endpoint,
            room_from,
            room_to,
            room_via,
        ),
        Err(_) => remove_in::<16384>(
            n,
            starts,
            ends,
            early,
            late,
            marked,
            listed,
            lengths,
            room_nodes,
            room_endpoint,
            room_from,
            room_to,
            room_via,
        ),
    }
}

// Packs the true graph of such a design and list into the room, made in the program's room and scratch.
fn pack_graph(
    n: u32,
    starts: &[u32],
    ends: &[u32],
    early: &[i32],
    late: &[i32],
    marked: &[u32],
    listed: &[u32],
    lengths: &[u32],
    room: &mut [u8],
) -> Result<usize, Refusal>
    requires { Tested (design n starts.now ends.now early.now late.now marked.now)
        (path_list listed.now lengths.now) }
    ensures { let D = design n starts.now ends.now early.now late.now
        marked.now in
        let L = path_list listed.now lengths.now in
        let o = remove_from_design D (removal L program_room 16384) in
        (result ≡ c_written o room.old)
        × (room.new ≡ room_after_c o room.old) }
{
    let mut room_nodes = [0; 512];
    let mut room_endpoint = [0; 512];
    let mut room_from = [0; 2048];
    let mut room_to = [0; 2048];
    let mut room_via = [0; 2048];
    let made = remove_tested(
        n,
        starts,
        ends,
        early,
        late,
        marked,
        listed,
        lengths,
        &mut room_nodes,
        &mut room_endpoint,
        &mut room_from,
        &mut room_to,
        &mut room_via,
    );
    write_made(
        made,
        &room_nodes,
        &room_endpoint,
        &room_from,
        &room_to,
        &room_via,
        room,
    )
}

// The same for a deck: 25 is tested before 31.
fn pack_tested(
    n: u32,
    starts: &[u32],
    ends: &[u32],
    early: &[i32],
    late: &[i32],
    marked: &[u32],
    listed: &[u32],
    lengths: &[u32],
    allowed: u32,
    room: &mut [u8],
) -> Result<usize, Refusal>
    ensures { let D = design n starts.now ends.now early.now late.now
        marked.now in
        let L = path_list listed.now lengths.now in
        let o = program_removal (deck_of D L allowed) in
        (result ≡ c_written o room.old)
        × (room.new ≡ room_after_c o room.old) }
{
    test_deck(
        n, starts, ends, early, late, marked, listed, lengths, allowed,
    )?;
    pack_graph(n, starts, ends, early, late, marked, listed, lengths, room)
}

// The same for a deck that was read into tables: it stands in front of them.
fn pack_read(
    read: Result<DeckCounts, Refusal>,
    starts: &[u32],
    ends: &[u32],
    early: &[i32],
    late: &[i32],
    marked: &[u32],
    listed: &[u32],
    lengths: &[u32],
    room: &mut [u8],
) -> Result<usize, Refusal>
    requires { ReadFits read starts.now ends.now early.now late.now marked.now listed.now lengths.now }
    ensures { let o = read_removal read starts.now ends.now
        early.now late.now marked.now listed.now lengths.now in
        (result ≡ c_written o room.old)
        × (room.new ≡ room_after_c o room.old) }
{
    let deck = read?;
    pack_tested(
        deck.nodes,
        &starts[..deck.edges],
        &ends[..deck.edges],
        &early[..deck.edges],
        &late[..deck.edges],
        &marked[..deck.marked],
        &listed[..deck.listed],
        &lengths[..deck.paths],
        deck.allowed,
        room,
    )
}

// Packs the true graph of a packed deck into the room, in the program's tables. 4 is tested before all.
pub fn pack(deck: &[u8], room: &mut [u8]) -> Result<usize, Refusal>
    ensures { let o = program deck.now in
        (result ≡ c_written o room.old)
        × (room.new ≡ room_after_c o room.old) }
{
    if MAX_DECK_BYTES < deck.len() {
        return Err(refuse(4, MAX_DECK_BYTES));
    }
    let mut starts = [0; 1024];
    let mut ends = [0; 1024];
    let mut early = [0; 1024];
    let mut late = [0; 1024];
    let mut listed = [0; 1024];
    let mut lengths = [0; 256];
    let mut marked = [0; 1024];
    let read = read_deck(
        deck,
        &mut starts,
        &mut ends,
        &mut early,
        &mut late,
        &mut listed,
        &mut lengths,
        &mut marked,
    );
    pack_read(
        read, &starts, &ends, &early, &late, &marked, &listed, &lengths, room,
    )
}
