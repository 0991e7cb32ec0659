// Reading a packed true graph.
#![tactic(auto)]

ghost use Rattle.std.specs.Prelude.{◌≡◌};
ghost use Rattle.timing.specs.Calls.{graph_slices, room_of, graph_read, graph_answer};
ghost use Rattle.timing.specs.Calls.{nodes_after, endpoints_after, starts_after, ends_after, names_after};

use timing::{GraphCounts, Refusal};

mod reader;

// Reads a packed true graph into the room, or refuses and leaves the room as it is.
pub fn read_graph(
    s: &[u8],
    room_nodes: &mut [u32],
    room_endpoint: &mut [u32],
    room_from: &mut [u32],
    room_to: &mut [u32],
    room_via: &mut [u32],
) -> Result<GraphCounts, Refusal>
    ensures { let S = graph_slices room_nodes.old room_endpoint.old
        room_from.old room_to.old room_via.old in
        let o = graph_read s.now (room_of S) in
        (result ≡ graph_answer o)
        × (room_nodes.new ≡ nodes_after o room_nodes.old)
        × (room_endpoint.new ≡ endpoints_after o room_endpoint.old)
        × (room_from.new ≡ starts_after o room_from.old)
        × (room_to.new ≡ ends_after o room_to.old)
        × (room_via.new ≡ names_after o room_via.old) }
{
    verdicts::graph_sizes(
        room_nodes.len(),
        room_endpoint.len(),
        room_from.len(),
        room_to.len(),
        room_via.len(),
    )?;
    let counts = reader::look(s, room_nodes.len(), room_from.len())?;
    reader::fill(
        s,
        counts.copies,
        counts.edges,
        room_nodes,
        room_endpoint,
        room_from,
        room_to,
        room_via,
    );
    Ok(counts)
}
