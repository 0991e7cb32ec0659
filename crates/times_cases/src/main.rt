// Finds the times of the graphs on standard input, the records of their nodes, and whether they are late, and
// prints them. The input is up to three blocks of 65,536 bytes, each of packed numbers: a count of cases, and for
// each n, T, a node, the lengths of the four slices for times, of the one for late or not and of the five for
// records, and then ten slices: starts, ends, early and late delays, marked nodes, the nodes and the endpoint
// numbers of the copies, start copies, end copies, design edges.
// Crate `cases` says how a slice is packed; here each has a rise, so that a chain takes few bytes.
#![tactic(auto)]

mod input;
mod say;

use entries::{number_at, time_at};
use input::{Input, MOST, first};
use say::{say_arrivals, say_lines, say_refused, say_times};
use std::io::{self, BufWriter, Read, Write};
use timing::Times;

// How many bytes a block of the input has, and how many blocks there are at most.
const BLOCK: u64 = 65536;

const BLOCKS: u32 = 3;

// The lengths of the slices for the times of copies or nodes.
#[derive(Drop)]
struct Lengths {
    arrivals: u32,
    requireds: u32,
    slacks: u32,
    earliests: u32,
}

impl Lengths {
    fn read(input: &mut Input<'_>) -> Lengths {
        Lengths {
            arrivals: input.number(),
            requireds: input.number(),
            slacks: input.number(),
            earliests: input.number(),
        }
    }
}

// The times of copies or nodes.
#[derive(Clone, Copy)]
struct TimeSlices<'a> {
    arrivals: &'a [i64],
    requireds: &'a [i64],
    slacks: &'a [i64],
    earliests: &'a [i64],
}

impl TimeSlices<'_> {
    fn at(self, k: usize) -> Times {
        Times {
            arrival: time_at(self.arrivals, k),
            required: time_at(self.requireds, k),
            slack: time_at(self.slacks, k),
            earliest: time_at(self.earliests, k),
        }
    }
}

// What a case asks: n, T and a node; how long the slices are that are lent for the times, for late or not and for the
// records; and the slices of the design and of the graph.
#[derive(Drop)]
struct Case<'a> {
    n: u32,
    allowed: u32,
    node: u32,
    of_copies: Lengths,
    lent: u32,
    known: u32,
    of_nodes: Lengths,
    starts: &'a [u32],
    ends: &'a [u32],
    early: &'a [i32],
    late: &'a [i32],
    marked: &'a [u32],
    nodes: &'a [u32],
    endpoint: &'a [u32],
    from: &'a [u32],
    to: &'a [u32],
    via: &'a [u32],
}

impl Case<'_> {
    // Asks for the times of the graph, and says them; then the same of the records.
    fn say_copies<W: Write>(&self, out: &mut W) -> io::Result<()> {
        let mut arrivals = [0; MOST];
        let mut requireds = [0; MOST];
        let mut slacks = [0; MOST];
        let mut earliests = [0; MOST];
        let arrivals = first(&mut arrivals, self.of_copies.arrivals);
        let requireds = first(&mut requireds, self.of_copies.requireds);
        let slacks = first(&mut slacks, self.of_copies.slacks);
        let earliests = first(&mut earliests, self.of_copies.earliests);
        let found = times::times(
            self.n,
            self.starts,
            self.ends,
            self.early,
            self.late,
            self.marked,
            self.allowed,
            self.nodes,
            self.endpoint,
            self.from,
            self.to,
            self.via,
            arrivals,
            requireds,
            slacks,
            earliests,
        );
        let times = TimeSlices {
            arrivals,
            requireds,
            slacks,
            earliests,
        };
        match found {
            Ok(()) => say_lines(out, "copy", times.arrivals.len(), |c| Some(times.at(c)))?,
            Err(r) => say_refused(out, r)?,
        }
        self.say_record(out, times)?;
        self.say_nodes(out, times)
    }

    // Asks for the record of the node, and says it.
    fn say_record<W: Write>(&self, out: &mut W, times: TimeSlices<'_>) -> io::Result<()> {
        match records::node_record(
            self.n,
            self.nodes,
            times.arrivals,
            times.requireds,
            times.slacks,
            times.earliests,
            self.node,
        ) {
            Ok(record) => {
                write!(out, "record {} ", record.node)?;
                say_times(out, record.times)
            }
            Err(r) => say_refused(out, r),
        }
    }

    // Asks for the records of all nodes, and says them.
    fn say_nodes<W: Write>(&self, out: &mut W, of_copies: TimeSlices<'_>) -> io::Result<()> {
        let mut known = [0; MOST];
        let mut arrivals = [0; MOST];
        let mut requireds = [0; MOST];
        let mut slacks = [0; MOST];
        let mut earliests = [0; MOST];
        let known = first(&mut known, self.known);
        let arrivals = first(&mut arrivals, self.of_nodes.arrivals);
        let requireds = first(&mut requireds, self.of_nodes.requireds);
        let slacks = first(&mut slacks, self.of_nodes.slacks);
        let earliests = first(&mut earliests, self.of_nodes.earliests);
        let found = records::node_records(
            self.n,
            self.nodes,
            of_copies.arrivals,
            of_copies.requireds,
            of_copies.slacks,
            of_copies.earliests,
            known,
            arrivals,
            requireds,
            slacks,
            earliests,
        );
        let known = &*known;
        let times = TimeSlices {
            arrivals,
            requireds,
            slacks,
            earliests,
        };
        match found {
            Ok(()) => say_lines(out, "node", known.len(), |v| {
                if number_at(known, v) == 0 {
                    None
                } else {
                    Some(times.at(v))
                }
            }),
            Err(r) => say_refused(out, r),
        }
    }

    // Asks whether the graph is late, and says it and what the lent slice holds then.
    fn say_lateness<W: Write>(&self, out: &mut W) -> io::Result<()> {
        let mut lent = [77; MOST];
        let lent = first(&mut lent, self.lent);
        match late::late_or_not(
            self.n,
            self.starts,
            self.ends,
            self.early,
            self.late,
            self.marked,
            self.allowed,
            self.nodes,
            self.endpoint,
            self.from,
            self.to,
            self.via,
            lent,
        ) {
            Ok(Some(copy)) => writeln!(out, "late {copy}")?,
            Ok(None) => writeln!(out, "on time")?,
            Err(r) => say_refused(out, r)?,
        }
        say_arrivals(out, lent)
    }
}

// Asks all of the case that stands next.
fn run_case<W: Write>(out: &mut W, input: &mut Input<'_>) -> io::Result<()> {
    let mut starts = [0; MOST];
    let mut ends = [0; MOST];
    let mut early = [0; MOST];
    let mut late = [0; MOST];
    let mut marked = [0; MOST];
    let mut nodes = [0; MOST];
    let mut endpoint = [0; MOST];
    let mut from = [0; MOST];
    let mut to = [0; MOST];
    let mut via = [0; MOST];
    let case = Case {
        n: input.number(),
        allowed: input.number(),
        node: input.number(),
        of_copies: Lengths::read(input),
        lent: input.number(),
        known: input.number(),
        of_nodes: Lengths::read(input),
        starts: input.slice(&mut starts),
        ends: input.slice(&mut ends),
        early: input.delays(&mut early),
        late: input.delays(&mut late),
        marked: input.slice(&mut marked),
        nodes: input.slice(&mut nodes),
        endpoint: input.slice(&mut endpoint),
        from: input.slice(&mut from),
        to: input.slice(&mut to),
        via: input.slice(&mut via),
    };
    case.say_copies(out)?;
    case.say_lateness(out)
}

fn run_block<W: Write>(rt: &HostRuntime, out: &mut W) -> io::Result<()> {
    let mut block = Vec::new(rt.alloc());
    rt.stdin().take(BLOCK).read_to_end(&mut block)?;
    let mut input = Input::new(&block);
    for _ in 0..input.number() {
        run_case(out, &mut input)?;
    }
    Ok(())
}

fn main(rt: HostRuntime) -> io::Result<()> {
    let mut out = BufWriter::new(rt.alloc(), rt.stdout())?;
    for _ in 0..BLOCKS {
        run_block(&rt, &mut out)?;
    }
    out.flush()
}
