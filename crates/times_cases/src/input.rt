// What a case says, read in turn from a block of the input.
ghost use Rattle.std.specs.Prelude.{◌≡◌, ◌≤◌, length, take};

use cases::{fill_rising, unpack};
use entries::front;
use packed_lists::take_number;

// No slice has more places.
pub(crate) const MOST: usize = 4200;

// The first places of a table, or all of them, to lend.
pub(crate) fn first<T>(table: &mut [T], count: u32) -> &mut [T]
    ensures { result.now ≡ take count table.old }
{
    let len = (count as usize).min(table.len());
    &mut table[..len]
}

// A block, from a place on.
#[derive(Drop)]
pub(crate) struct Input<'a> {
    block: &'a [u8],
    at: usize,
}

impl<'a> Input<'a> {
    pub(crate) fn new(block: &'a [u8]) -> Input<'a> {
        Input { block, at: 0 }
    }

    pub(crate) fn number(&mut self) -> u32 {
        let taken = take_number(self.block, self.at);
        self.at = taken.next;
        taken.value
    }

    // A slice, in the first places of a table.
    pub(crate) fn slice<'t>(&mut self, table: &'t mut [u32]) -> &'t [u32]
        ensures { length result.now ≤ length table.old }
    {
        let filled = fill_rising(self.block, self.at, table);
        self.at = filled.next;
        front(table, filled.len)
    }

    // Delays from their packed numbers.
    pub(crate) fn delays<'t>(&mut self, table: &'t mut [i32]) -> &'t [i32]
        ensures { length result.now ≤ length table.old }
    {
        let mut codes = [0; MOST];
        let codes = self.slice(&mut codes);
        unpack(codes, table);
        front(table, codes.len())
    }
}
