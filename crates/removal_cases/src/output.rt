// What is printed of a removal.
ghost use Rattle.std.specs.Prelude.{◌<◌};

use crate::tables::Graph;
use entries::front;
use print::{refused, words};
use std::io::{self, Write};
use timing::{GraphCounts, Refusal};

fn mixed(h: u32, word: u32) -> u32
    ensures { result < 4294967291 }
{
    ((u64::from(h) * 1000003 + u64::from(word)) % 4294967291) as u32
}

// A line: the sum over a slice, in order, and its first words.
fn say_slice<W: Write>(out: &mut W, name: &str, s: &[u32], count: usize) -> io::Result<()> {
    let sum = s.iter().fold(1, |h, word| mixed(h, *word));
    write!(out, "{name} {sum}")?;
    words(out, front(s, count))?;
    writeln!(out)
}

// How much of a graph is printed: all where it has at most 40 copies and edges together.
fn shown(made: Result<GraphCounts, Refusal>) -> GraphCounts {
    match made {
        Ok(c) if c.copies <= 40 && c.edges <= 40 - c.copies => c,
        _ => GraphCounts {
            copies: 0,
            edges: 0,
        },
    }
}

// The counts, or the refusal.
fn say_made<W: Write>(out: &mut W, made: Result<GraphCounts, Refusal>) -> io::Result<()> {
    match made {
        Ok(c) => write!(out, "copies {} edges {}", c.copies, c.edges)?,
        Err(r) => refused(out, r)?,
    }
    writeln!(out)
}

// What is told before a removal, and a sum over the scratch.
pub(crate) fn say_told<W: Write>(
    out: &mut W,
    told: Result<GraphCounts, Refusal>,
    scratch: &[u32],
) -> io::Result<()> {
    write!(out, "told ")?;
    say_made(out, told)?;
    say_slice(out, "scratch", scratch, 0)
}

// A removal's answer, the graph if it is small, and a sum over each slice.
pub(crate) fn say<W: Write>(
    out: &mut W,
    made: Result<GraphCounts, Refusal>,
    room: Graph<'_>,
    scratch: &[u32],
) -> io::Result<()> {
    say_made(out, made)?;
    let c = shown(made);
    say_slice(out, "nodes", room.nodes, c.copies)?;
    say_slice(out, "endpoint", room.endpoint, c.copies)?;
    say_slice(out, "from", room.from, c.edges)?;
    say_slice(out, "to", room.to, c.edges)?;
    say_slice(out, "via", room.via, c.edges)?;
    say_slice(out, "scratch", scratch, 0)
}
