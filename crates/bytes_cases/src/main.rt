// Reads and writes the decks and the graphs on standard input, and prints each answer and what stands
// in the lent slices afterwards. The input comes in blocks of 65,536 bytes, each with its cases: their
// count, and for each its kind and what that kind takes, all packed numbers but for the bytes to read.
// 0 reads a deck: the lengths of the seven tables, how many bytes follow, the bytes.
// 1 writes a deck: n, T, the length of the room, and the deck's seven slices.
// 2 reads a graph: the lengths of the five slices of the room, how many bytes follow, the bytes.
// 3 writes a graph: the length of the room, and the graph's five slices.
// A deck's tables and slices: starts, ends, early and late delays, listed edges, lengths, marked nodes.
// What was read is then written, and what was written is then read.
// Crate `cases` says how a slice is packed.
#![tactic(auto)]

use input::Input;
use std::io::{self, BufWriter, Read, Write};

mod decks;
mod graphs;
mod input;
mod say;

// How many bytes a block of the input has, and how many blocks there are at most.
const BLOCK: usize = 65536;

const BLOCKS: u32 = 8;

// A case by its number: an enum would name each once more, where the functions' names say it.
// None is inlined, so that the tables of one case do not stand on the stack in another.
fn case<W: Write>(out: &mut W, input: &mut Input<'_>) -> io::Result<()> {
    match input.number() {
        0 => decks::read_case(out, input),
        1 => decks::write_case(out, input),
        2 => graphs::read_case(out, input),
        _ => graphs::write_case(out, input),
    }
}

fn run_block<W: Write>(rt: &HostRuntime, out: &mut W) -> io::Result<()> {
    let mut block = Vec::new(rt.alloc());
    rt.stdin().take(BLOCK as u64).read_to_end(&mut block)?;
    let mut input = Input::new(&block);
    for _ in 0..input.number() {
        case(out, &mut input)?;
    }
    Ok(())
}

fn main(rt: HostRuntime) -> io::Result<()> {
    let mut out = BufWriter::new(rt.alloc(), rt.stdout())?;
    for _ in 0..BLOCKS {
        run_block(&rt, &mut out)?;
    }
    out.flush()
}
