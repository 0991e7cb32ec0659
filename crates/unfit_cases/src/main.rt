// Tests the decks on standard input, and prints what is found. The input is up to three blocks of 65,536 bytes,
// each of packed numbers: a count, and for each deck n, T, and then its seven slices: starts, ends, early
// and late delays, marked nodes, listed edges, lengths.
// Crate `cases` says how a slice is packed.
#![tactic(auto)]

ghost use Rattle.std.specs.Prelude.{◌≤◌, length};

use cases::{fill, unpack};
use entries::front;
use packed_lists::take_number;
use print::refused;
use std::io::{self, BufWriter, Read, Write};

// How many bytes a block of the input has, and how many blocks there are at most.
const BLOCK: u64 = 65536;

const BLOCKS: u32 = 3;

// No slice of edges has more places.
const EDGES: usize = 16400;

// A block of the input, from a place on.
#[derive(Drop)]
struct Input<'a> {
    block: &'a [u8],
    at: usize,
}

impl<'a> Input<'a> {
    fn new(block: &'a [u8]) -> Input<'a> {
        Input { block, at: 0 }
    }

    fn number(&mut self) -> u32 {
        let taken = take_number(self.block, self.at);
        self.at = taken.next;
        taken.value
    }

    // A slice, in the first places of a table.
    fn slice<'t>(&mut self, table: &'t mut [u32]) -> &'t [u32]
        ensures { length result.now ≤ length table.old }
    {
        let filled = fill(self.block, self.at, table);
        self.at = filled.next;
        front(table, filled.len)
    }

    // Delays from their packed numbers.
    fn delays<'t>(&mut self, table: &'t mut [i32]) -> &'t [i32]
        ensures { length result.now ≤ length table.old }
    {
        let mut codes = [0; EDGES];
        let codes = self.slice(&mut codes);
        unpack(codes, table);
        front(table, codes.len())
    }
}

// A design, with T.
#[derive(Drop)]
struct Design<'a> {
    n: u32,
    allowed: u32,
    starts: &'a [u32],
    ends: &'a [u32],
    early: &'a [i32],
    late: &'a [i32],
    marked: &'a [u32],
}

impl Design<'_> {
    // Tests it with the list that stands next.
    fn test<W: Write>(&self, out: &mut W, input: &mut Input<'_>) -> io::Result<()> {
        let mut listed = [0; 8200];
        let mut lengths = [0; 1040];
        match unfit::test_deck(
            self.n,
            self.starts,
            self.ends,
            self.early,
            self.late,
            self.marked,
            input.slice(&mut listed),
            input.slice(&mut lengths),
            self.allowed,
        ) {
            Ok(()) => write!(out, "passed")?,
            Err(r) => refused(out, r)?,
        }
        writeln!(out)
    }
}

// Tests the deck that stands next.
fn case<W: Write>(out: &mut W, input: &mut Input<'_>) -> io::Result<()> {
    let mut starts = [0; EDGES];
    let mut ends = [0; EDGES];
    let mut early = [0; EDGES];
    let mut late = [0; EDGES];
    let mut marked = [0; 4200];
    let design = Design {
        n: input.number(),
        allowed: input.number(),
        starts: input.slice(&mut starts),
        ends: input.slice(&mut ends),
        early: input.delays(&mut early),
        late: input.delays(&mut late),
        marked: input.slice(&mut marked),
    };
    design.test(out, input)
}

fn run_block<W: Write>(rt: &HostRuntime, out: &mut W) -> io::Result<()> {
    let mut block = Vec::new(rt.alloc());
    rt.stdin().take(BLOCK).read_to_end(&mut block)?;
    let mut input = Input::new(&block);
    for _ in 0..input.number() {
        case(out, &mut input)?;
    }
    Ok(())
}

fn main(rt: HostRuntime) -> io::Result<()> {
    let mut out = BufWriter::new(rt.alloc(), rt.stdout())?;
    for _ in 0..BLOCKS {
        run_block(&rt, &mut out)?;
    }
    out.flush()
}
