// Writing a packed true graph.
#![tactic(auto)]

ghost use Rattle.std.specs.Prelude.{◌≡◌};
ghost use Rattle.timing.specs.GraphBytes.{packed_graph};
ghost use Rattle.timing.specs.Calls.{graph_slices, graph_of, writing, room_after_writing, graph_write_tests};

use timing::Refusal;
use verdicts::refuse;

mod writer;

// Writes a packed true graph at the front of the room, or refuses and leaves the room as it is.
pub fn write_graph(
    nodes: &[u32],
    endpoint: &[u32],
    from: &[u32],
    to: &[u32],
    via: &[u32],
    room: &mut [u8],
) -> Result<usize, Refusal>
    ensures { let S = graph_slices nodes.now endpoint.now
        from.now to.now via.now in
        let bytes = packed_graph (graph_of S) in
        (result ≡ writing (graph_write_tests S) room.old bytes)
        × (room.new ≡ room_after_writing (graph_write_tests S) room.old bytes) }
{
    writer::write_tests(nodes.len(), endpoint, from.len(), to.len(), via.len())?;
    if !writer::graph_fits(nodes, endpoint, from, to, via, room.len()) {
        return Err(refuse(35, 0));
    }
    Ok(writer::put_graph(nodes, endpoint, from, to, via, room))
}
