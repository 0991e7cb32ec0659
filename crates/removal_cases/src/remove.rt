// The calls, on the design or on the graph that is held.
use crate::tables::{Design, Graph, List, Room};
use timing::{GraphCounts, Refusal};

// How many copies and edges the removal's result has.
pub(crate) fn size(
    d: &Design<'_>,
    l: &List<'_>,
    held: Option<Graph<'_>>,
    scratch: &mut [u32],
) -> Result<GraphCounts, Refusal> {
    match held {
        Some(g) => removal::size_from_graph(
            d.n, d.starts, d.ends, d.early, d.late, d.marked, l.listed, l.lengths, g.nodes,
            g.endpoint, g.from, g.to, g.via, scratch,
        ),
        None => removal::size_from_design(
            d.n, d.starts, d.ends, d.early, d.late, d.marked, l.listed, l.lengths, scratch,
        ),
    }
}

// The removal itself. Gives its answer, and the room as it is then.
pub(crate) fn remove<'a>(
    d: &Design<'_>,
    l: &List<'_>,
    held: Option<Graph<'_>>,
    room: Room<'a>,
    scratch: &mut [u32],
) -> (Result<GraphCounts, Refusal>, Graph<'a>) {
    let Room {
        nodes,
        endpoint,
        from,
        to,
        via,
    } = room;
    let made = match held {
        Some(g) => removal::remove_from_graph(
            d.n, d.starts, d.ends, d.early, d.late, d.marked, l.listed, l.lengths, g.nodes,
            g.endpoint, g.from, g.to, g.via, nodes, endpoint, from, to, via, scratch,
        ),
        None => removal::remove_from_design(
            d.n, d.starts, d.ends, d.early, d.late, d.marked, l.listed, l.lengths, nodes, endpoint,
            from, to, via, scratch,
        ),
    };
    let room = Graph {
        nodes,
        endpoint,
        from,
        to,
        via,
    };
    (made, room)
}
