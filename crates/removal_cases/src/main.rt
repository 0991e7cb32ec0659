// Runs series of removals from standard input, and prints of each what it is told beforehand, its answer,
// the graph if it is small, and a sum over each lent slice afterwards. tests/removal_cases.py says what
// the input and the output are.
#![tactic(auto)]

mod output;
mod remove;
mod tables;

use output::{say, say_told};
use remove::{remove, size};
use std::io::{self, BufWriter, Read, Write};
use tables::{Design, EDGES, Held, Input, List, Room, pattern, zeros};

// How many bytes a block of the input has, and how many blocks there are at most.
const BLOCK: u64 = 65536;

const BLOCKS: u32 = 4;

// No slice of the room has more places.
const PLACES: usize = 2080;

// No scratch for a removal has more words; the one for the call that tells its size may have more.
const SCRATCH: usize = 32768;

const LONG_SCRATCH: usize = 300000;

// Runs the removal that stands next, on what is held, with a scratch of these words.
fn run_removal<W: Write>(
    out: &mut W,
    input: &mut Input<'_>,
    d: &Design<'_>,
    held: &mut Held<'_>,
    words: &mut [u32],
) -> io::Result<()> {
    let mut listed = [0; 8200];
    let mut lengths = [0; 1040];
    let mut nodes = [0; PLACES];
    let mut endpoint = [0; PLACES];
    let mut from = [0; PLACES];
    let mut to = [0; PLACES];
    let mut via = [0; PLACES];
    match input.number() {
        0 => held.clear(),
        1 => {}
        _ => held.read(input),
    }
    let l = List {
        listed: input.slice(&mut listed),
        lengths: input.slice(&mut lengths),
    };
    let room = Room {
        nodes: input.lent(3000000000, &mut nodes),
        endpoint: input.lent(3100000000, &mut endpoint),
        from: input.lent(3200000000, &mut from),
        to: input.lent(3300000000, &mut to),
        via: input.lent(3400000000, &mut via),
    };
    let count = input.number() as usize;

    let scratch = pattern(3500000000, count, words);
    let told = size(d, &l, held.graph(), scratch);
    say_told(out, told, scratch)?;

    let scratch = pattern(3500000000, count.min(SCRATCH), words);
    let (made, room) = remove(d, &l, held.graph(), room, scratch);
    say(out, made, room, scratch)?;
    if let Ok(counts) = made {
        held.keep(room, counts);
    }
    Ok(())
}

// Runs the series that stands next.
fn run_series<W: Write>(out: &mut W, input: &mut Input<'_>, words: &mut [u32]) -> io::Result<()> {
    let mut starts = [0; EDGES];
    let mut ends = [0; EDGES];
    let mut early = [0; EDGES];
    let mut late = [0; EDGES];
    let mut marked = [0; 4200];
    let mut nodes = [0; EDGES];
    let mut endpoint = [0; EDGES];
    let mut from = [0; PLACES];
    let mut to = [0; PLACES];
    let mut via = [0; PLACES];
    let d = Design {
        n: input.number(),
        starts: input.slice(&mut starts),
        ends: input.slice(&mut ends),
        early: input.delays(&mut early),
        late: input.delays(&mut late),
        marked: input.slice(&mut marked),
    };
    let mut held = Held::none(Room {
        nodes: &mut nodes,
        endpoint: &mut endpoint,
        from: &mut from,
        to: &mut to,
        via: &mut via,
    });
    for _ in 0..input.number() {
        run_removal(out, input, &d, &mut held, words)?;
    }
    Ok(())
}

// Reads a block and runs its series; none where the input has ended.
fn run_block<W: Write>(rt: &HostRuntime, out: &mut W) -> io::Result<()> {
    let mut block = Vec::new(rt.alloc());
    rt.stdin().take(BLOCK).read_to_end(&mut block)?;
    let mut input = Input::new(&block);
    let mut words = zeros::<LONG_SCRATCH>();
    for _ in 0..input.number() {
        run_series(out, &mut input, &mut words)?;
    }
    Ok(())
}

fn main(rt: HostRuntime) -> io::Result<()> {
    let mut out = BufWriter::new(rt.alloc(), rt.stdout())?;
    for _ in 0..BLOCKS {
        run_block(&rt, &mut out)?;
    }
    out.flush()
}
