// What a case says, read in turn from a block of the input.
ghost use Rattle.std.specs.Prelude.{◌≤◌, length};

use crate::say::{Item, full};
use cases::{fill, unpack};
use entries::front;
use packed_lists::take_number;

// No slice of edges has more places.
pub(crate) const EDGES: usize = 16400;

// A block, from a place on.
#[derive(Drop)]
pub(crate) struct Input<'a> {
    block: &'a [u8],
    at: usize,
}

impl<'a> Input<'a> {
    pub(crate) fn new(block: &'a [u8]) -> Input<'a> {
        Input { block, at: 0 }
    }

    pub(crate) fn number(&mut self) -> u32 {
        let taken = take_number(self.block, self.at);
        self.at = taken.next;
        taken.value
    }

    // A slice of a table to lend, as long as the input says.
    pub(crate) fn lent<'t, T: Item>(&mut self, table: &'t mut [T]) -> &'t mut [T]
        ensures { length result.now ≤ length table.old }
    {
        full(table, self.number() as usize)
    }

    // A slice, in the first places of a table.
    pub(crate) fn slice<'t>(&mut self, table: &'t mut [u32]) -> &'t [u32]
        ensures { length result.now ≤ length table.old }
    {
        let filled = fill(self.block, self.at, table);
        self.at = filled.next;
        front(table, filled.len)
    }

    // Delays from their packed numbers.
    pub(crate) fn delays<'t>(&mut self, table: &'t mut [i32]) -> &'t [i32]
        ensures { length result.now ≤ length table.old }
    {
        let mut codes = [0; EDGES];
        let codes = self.slice(&mut codes);
        unpack(codes, table);
        front(table, codes.len())
    }

    // Behind a count, as many bytes.
    pub(crate) fn bytes(&mut self) -> &'a [u8] {
        let count = self.number() as usize;
        let rest = &self.block[self.at.min(self.block.len())..];
        let bytes = &rest[..count.min(rest.len())];
        self.at = self.at.saturating_add(bytes.len());
        bytes
    }
}
