// The deck program: reads a deck on standard input, and prints its true graph with all times, or the
// refusal. Every number printed is from a proved call. Tables, room and scratch are arrays, not vectors: their sizes
// are fixed in documents 01 and 02.
#![tactic(auto)]

mod lines;
mod text;

use entries::front;
use lines::{Graph, TimeSlices, put_graph, put_nodes};
use std::io::{self, Read, Write};
use text::{Block, Text};
use timing::{MAX_DECK_BYTES, Refusal};
use verdicts::refuse;

// Why nothing further is said: a call's refusal, or a read or write that failed.
#[derive(Drop)]
enum Stop {
    Refused(Refusal),
    Failed(io::Error),
}

impl From<Refusal> for Stop {
    fn from(r: Refusal) -> Stop {
        Stop::Refused(r)
    }
}

impl From<io::Error> for Stop {
    fn from(e: io::Error) -> Stop {
        Stop::Failed(e)
    }
}

// A design and T.
#[derive(Clone, Copy)]
struct Design<'a> {
    n: u32,
    allowed: u32,
    starts: &'a [u32],
    ends: &'a [u32],
    early: &'a [i32],
    late: &'a [i32],
    marked: &'a [u32],
}

// The records of all nodes, in slices with one place for each.
fn say_nodes<W: Write>(
    out: &mut Text<'_, W>,
    n: u32,
    nodes: &[u32],
    times: TimeSlices<'_>,
) -> Result<(), Stop> {
    let mut known = [0; 4096];
    let mut na = [0; 4096];
    let mut nr = [0; 4096];
    let mut ns = [0; 4096];
    let mut ne = [0; 4096];
    let count = (n as usize).min(4096);
    records::node_records(
        n,
        nodes,
        times.arrivals,
        times.requireds,
        times.slacks,
        times.earliests,
        &mut known[..count],
        &mut na[..count],
        &mut nr[..count],
        &mut ns[..count],
        &mut ne[..count],
    )?;
    let times = TimeSlices {
        arrivals: &na[..count],
        requireds: &nr[..count],
        slacks: &ns[..count],
        earliests: &ne[..count],
    };
    put_nodes(out, &known[..count], times)?;
    Ok(())
}

// The graph with all times, in slices with one place for each copy.
fn say_graph<W: Write>(out: &mut Text<'_, W>, d: Design<'_>, g: Graph<'_>) -> Result<(), Stop> {
    let mut arrivals = [0; 512];
    let mut requireds = [0; 512];
    let mut slacks = [0; 512];
    let mut earliests = [0; 512];
    let count = g.nodes.len().min(512);
    times::times(
        d.n,
        d.starts,
        d.ends,
        d.early,
        d.late,
        d.marked,
        d.allowed,
        g.nodes,
        g.endpoint,
        g.from,
        g.to,
        g.via,
        &mut arrivals[..count],
        &mut requireds[..count],
        &mut slacks[..count],
        &mut earliests[..count],
    )?;
    let times = TimeSlices {
        arrivals: &arrivals[..count],
        requireds: &requireds[..count],
        slacks: &slacks[..count],
        earliests: &earliests[..count],
    };
    put_graph(out, g, times)?;
    say_nodes(out, d.n, g.nodes, times)
}

// Tests a deck, removes the listed paths, and says what is left. 25 is tested before 31.
fn say_deck<W: Write>(
    out: &mut Text<'_, W>,
    d: Design<'_>,
    listed: &[u32],
    lengths: &[u32],
) -> Result<(), Stop> {
    unfit::test_deck(
        d.n, d.starts, d.ends, d.early, d.late, d.marked, listed, lengths, d.allowed,
    )?;
    let mut room_nodes = [0; 512];
    let mut room_endpoint = [0; 512];
    let mut room_from = [0; 2048];
    let mut room_to = [0; 2048];
    let mut room_via = [0; 2048];
    let mut scratch = [0; 16384];
    let made = removal::remove_from_design(
        d.n,
        d.starts,
        d.ends,
        d.early,
        d.late,
        d.marked,
        listed,
        lengths,
        &mut room_nodes,
        &mut room_endpoint,
        &mut room_from,
        &mut room_to,
        &mut room_via,
        &mut scratch,
    )?;
    let g = Graph {
        nodes: front(&room_nodes, made.copies),
        endpoint: front(&room_endpoint, made.copies),
        from: front(&room_from, made.edges),
        to: front(&room_to, made.edges),
        via: front(&room_via, made.edges),
    };
    say_graph(out, d, g)
}

// Reads a deck into the tables, and says what is made of it.
fn say<W: Write>(out: &mut Text<'_, W>, deck: &[u8]) -> Result<(), Stop> {
    let mut starts = [0; 1024];
    let mut ends = [0; 1024];
    let mut early = [0; 1024];
    let mut late = [0; 1024];
    let mut listed = [0; 1024];
    let mut lengths = [0; 256];
    let mut marked = [0; 1024];
    let read = deck_reader::read_deck(
        deck,
        &mut starts,
        &mut ends,
        &mut early,
        &mut late,
        &mut listed,
        &mut lengths,
        &mut marked,
    )?;
    let d = Design {
        n: read.nodes,
        allowed: read.allowed,
        starts: front(&starts, read.edges),
        ends: front(&ends, read.edges),
        early: front(&early, read.edges),
        late: front(&late, read.edges),
        marked: front(&marked, read.marked),
    };
    say_deck(
        out,
        d,
        front(&listed, read.listed),
        front(&lengths, read.paths),
    )
}

// Whether a further byte stands on the input.
fn more_bytes<R: Read>(input: &mut R) -> io::Result<bool> {
    let further = input.bytes().next().transpose()?;
    Ok(further.is_some())
}

// 4 is tested before all.
fn run<R: Read, W: Write>(input: &mut R, out: &mut Text<'_, W>, deck: &[u8]) -> Result<(), Stop> {
    if deck.len() == MAX_DECK_BYTES && more_bytes(input)? {
        return Err(Stop::Refused(refuse(4, MAX_DECK_BYTES)));
    }
    say(out, deck)
}

fn main(rt: HostRuntime) -> io::Result<()> {
    let mut input = rt.stdin();
    let mut deck = Vec::new(rt.alloc());
    input.take(MAX_DECK_BYTES as u64).read_to_end(&mut deck)?;
    let mut block: Block = [0; 65536];
    let mut out = Text::new(rt.stdout(), &mut block);
    match run(&mut input, &mut out, &deck) {
        Ok(()) => {}
        Err(Stop::Refused(r)) => {
            out.put_refused(r)?;
        }
        Err(Stop::Failed(e)) => return Err(e),
    }
    out.flush()
}
