// Graphs: read into a room, and written to one.
use crate::BLOCK;
use crate::input::Input;
use crate::say::{full, say_kept, table, written};
use entries::front;
use print::refused;
use std::io::{self, Write};
use timing::GraphCounts;

// No slice has more places, nor has a room of bytes.
const COPIES: usize = 16400;

const EDGES: usize = 65600;

const BYTES: usize = 393216;

// The room that a reader is lent.
#[derive(Drop)]
struct Room<'a> {
    nodes: &'a mut [u32],
    endpoint: &'a mut [u32],
    from: &'a mut [u32],
    to: &'a mut [u32],
    via: &'a mut [u32],
}

// A graph's five slices.
#[derive(Clone, Copy)]
struct Graph<'a> {
    nodes: &'a [u32],
    endpoint: &'a [u32],
    from: &'a [u32],
    to: &'a [u32],
    via: &'a [u32],
}

// What a refusal fills of the room.
const NOTHING: GraphCounts = GraphCounts {
    copies: 0,
    edges: 0,
};

// Reads a graph, and prints the answer and the room. Gives what was read.
fn read<'a, W: Write>(out: &mut W, bytes: &[u8], room: Room<'a>) -> io::Result<Option<Graph<'a>>> {
    let Room {
        nodes,
        endpoint,
        from,
        to,
        via,
    } = room;
    let answer = graph_reader::read_graph(bytes, nodes, endpoint, from, to, via);
    match answer {
        Ok(c) => write!(out, "graph {} {}", c.copies, c.edges)?,
        Err(r) => refused(out, r)?,
    }
    let c = answer.unwrap_or(NOTHING);
    let mut kept = 0;
    table(out, nodes, c.copies, &mut kept)?;
    table(out, endpoint, c.copies, &mut kept)?;
    table(out, from, c.edges, &mut kept)?;
    table(out, to, c.edges, &mut kept)?;
    table(out, via, c.edges, &mut kept)?;
    say_kept(out, kept)?;
    if answer.is_err() {
        return Ok(None);
    }
    Ok(Some(Graph {
        nodes: front(nodes, c.copies),
        endpoint: front(endpoint, c.copies),
        from: front(from, c.edges),
        to: front(to, c.edges),
        via: front(via, c.edges),
    }))
}

// Writes a graph, and prints the answer and the room. Gives the place behind what was written.
fn write<W: Write>(out: &mut W, g: Graph<'_>, room: &mut [u8]) -> io::Result<Option<usize>> {
    let answer = graph_writer::write_graph(g.nodes, g.endpoint, g.from, g.to, g.via, room);
    write!(out, "write ")?;
    written(out, answer, room)?;
    Ok(answer.ok())
}

// What was read is written to a room as long as the bytes that were read.
#[inline(never)]
pub(crate) fn read_case<W: Write>(out: &mut W, input: &mut Input<'_>) -> io::Result<()> {
    let mut nodes = [0; COPIES];
    let mut endpoint = [0; COPIES];
    let mut from = [0; EDGES];
    let mut to = [0; EDGES];
    let mut via = [0; EDGES];
    let room = Room {
        nodes: input.lent(&mut nodes),
        endpoint: input.lent(&mut endpoint),
        from: input.lent(&mut from),
        to: input.lent(&mut to),
        via: input.lent(&mut via),
    };
    let bytes = input.bytes();
    if let Some(graph) = read(out, bytes, room)? {
        let mut byte_room = [0; BLOCK];
        write(out, graph, full(&mut byte_room, bytes.len()))?;
    }
    Ok(())
}

// Reads a graph from bytes, into a room as long as the graph.
#[inline(never)]
fn read_back<W: Write>(out: &mut W, bytes: &[u8], g: Graph<'_>) -> io::Result<()> {
    let mut nodes = [0; COPIES];
    let mut endpoint = [0; COPIES];
    let mut from = [0; EDGES];
    let mut to = [0; EDGES];
    let mut via = [0; EDGES];
    let room = Room {
        nodes: full(&mut nodes, g.nodes.len()),
        endpoint: full(&mut endpoint, g.nodes.len()),
        from: full(&mut from, g.from.len()),
        to: full(&mut to, g.from.len()),
        via: full(&mut via, g.from.len()),
    };
    read(out, bytes, room)?;
    Ok(())
}

// What was written is read into a room as long as the graph.
#[inline(never)]
pub(crate) fn write_case<W: Write>(out: &mut W, input: &mut Input<'_>) -> io::Result<()> {
    let mut byte_room = [0; BYTES];
    let mut nodes = [0; COPIES];
    let mut endpoint = [0; COPIES];
    let mut from = [0; EDGES];
    let mut to = [0; EDGES];
    let mut via = [0; EDGES];
    let byte_room = input.lent(&mut byte_room);
    let graph = Graph {
        nodes: input.slice(&mut nodes),
        endpoint: input.slice(&mut endpoint),
        from: input.slice(&mut from),
        to: input.slice(&mut to),
        via: input.slice(&mut via),
    };
    if let Some(end) = write(out, graph, byte_room)? {
        read_back(out, front(byte_room, end), graph)?;
    }
    Ok(())
}
