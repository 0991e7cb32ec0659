// What a series reads and holds.
ghost use Rattle.std.specs.Prelude.{◌≡◌, ◌≤◌, length, min};

use cases::{fill, unpack};
use entries::front;
use packed_lists::take_number;
use timing::GraphCounts;

// No slice of edges or of copies has more places.
pub(crate) const EDGES: usize = 16400;

// A block of the input, from a place on.
#[derive(Drop)]
pub(crate) struct Input<'a> {
    block: &'a [u8],
    at: usize,
}

impl<'a> Input<'a> {
    pub(crate) fn new(block: &'a [u8]) -> Input<'a> {
        Input { block, at: 0 }
    }

    pub(crate) fn number(&mut self) -> u32 {
        let taken = take_number(self.block, self.at);
        self.at = taken.next;
        taken.value
    }

    // A slice, in the first places of a table.
    pub(crate) fn slice<'t>(&mut self, table: &'t mut [u32]) -> &'t [u32]
        ensures { length result.now ≤ length table.old }
    {
        let filled = fill(self.block, self.at, table);
        self.at = filled.next;
        front(table, filled.len)
    }

    // Delays from their packed numbers.
    pub(crate) fn delays<'t>(&mut self, table: &'t mut [i32]) -> &'t [i32]
        ensures { length result.now ≤ length table.old }
    {
        let mut codes = [0; EDGES];
        let codes = self.slice(&mut codes);
        unpack(codes, table);
        front(table, codes.len())
    }

    // A slice of the room, as long as the input says.
    pub(crate) fn lent<'t>(&mut self, first: u32, table: &'t mut [u32]) -> &'t mut [u32]
        requires { first ≤ 3500000000 }
        ensures { length result.now ≤ length table.old }
    {
        let count = self.number() as usize;
        pattern(first, count, table)
    }
}

// A table of zeros.
pub(crate) fn zeros<const N: usize>() -> [u32; N]
    ensures { length result ≡ N }
{
    [0; N]
}

// The first places of a table as a slice to lend, with first + k mod 65,536 at place k, so that a word that is moved
// or changed is seen.
pub(crate) fn pattern(first: u32, count: usize, table: &mut [u32]) -> &mut [u32]
    requires { first ≤ 3500000000 }
    ensures { length result.now ≡ min count (length table.old) }
{
    let len = count.min(table.len());
    for k in 0..len {
        table[k] = first + (k % 65536) as u32;
    }
    &mut table[..len]
}

// n and a design's slices.
#[derive(Drop)]
pub(crate) struct Design<'a> {
    pub n: u32,
    pub starts: &'a [u32],
    pub ends: &'a [u32],
    pub early: &'a [i32],
    pub late: &'a [i32],
    pub marked: &'a [u32],
}

// A list's slices.
#[derive(Drop)]
pub(crate) struct List<'a> {
    pub listed: &'a [u32],
    pub lengths: &'a [u32],
}

// A room for a graph.
#[derive(Drop)]
pub(crate) struct Room<'a> {
    pub nodes: &'a mut [u32],
    pub endpoint: &'a mut [u32],
    pub from: &'a mut [u32],
    pub to: &'a mut [u32],
    pub via: &'a mut [u32],
}

// A graph's slices.
#[derive(Clone, Copy)]
pub(crate) struct Graph<'a> {
    pub nodes: &'a [u32],
    pub endpoint: &'a [u32],
    pub from: &'a [u32],
    pub to: &'a [u32],
    pub via: &'a [u32],
}

// A table with a slice in its first places.
#[derive(Drop)]
struct Table<'a> {
    places: &'a mut [u32],
    len: usize,
}

impl<'a> Table<'a> {
    fn new(places: &'a mut [u32]) -> Table<'a> {
        Table { places, len: 0 }
    }

    fn as_slice(&self) -> &[u32] {
        front(self.places, self.len)
    }

    fn read(&mut self, input: &mut Input<'_>) {
        self.len = input.slice(self.places).len();
    }

    // Copies the first words of a slice.
    fn keep(&mut self, s: &[u32], count: usize) {
        let len = count.min(s.len()).min(self.places.len());
        self.places[..len].copy_from_slice(&s[..len]);
        self.len = len;
    }
}

// The graph that is held, if there is one.
#[derive(Drop)]
pub(crate) struct Held<'a> {
    any: bool,
    nodes: Table<'a>,
    endpoint: Table<'a>,
    from: Table<'a>,
    to: Table<'a>,
    via: Table<'a>,
}

impl<'a> Held<'a> {
    pub(crate) fn none(room: Room<'a>) -> Held<'a> {
        Held {
            any: false,
            nodes: Table::new(room.nodes),
            endpoint: Table::new(room.endpoint),
            from: Table::new(room.from),
            to: Table::new(room.to),
            via: Table::new(room.via),
        }
    }

    pub(crate) fn graph(&self) -> Option<Graph<'_>> {
        if !self.any {
            return None;
        }
        Some(Graph {
            nodes: self.nodes.as_slice(),
            endpoint: self.endpoint.as_slice(),
            from: self.from.as_slice(),
            to: self.to.as_slice(),
            via: self.via.as_slice(),
        })
    }

    pub(crate) fn clear(&mut self) {
        self.any = false;
    }

    pub(crate) fn read(&mut self, input: &mut Input<'_>) {
        self.any = true;
        self.nodes.read(input);
        self.endpoint.read(input);
        self.from.read(input);
        self.to.read(input);
        self.via.read(input);
    }

    // Holds what a removal made in the room.
    pub(crate) fn keep(&mut self, room: Graph<'_>, counts: GraphCounts) {
        self.any = true;
        self.nodes.keep(room.nodes, counts.copies);
        self.endpoint.keep(room.endpoint, counts.copies);
        self.from.keep(room.from, counts.edges);
        self.to.keep(room.to, counts.edges);
        self.via.keep(room.via, counts.edges);
    }
}
