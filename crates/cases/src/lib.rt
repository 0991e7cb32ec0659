// How the programs that run cases read them: packed numbers, one after the other. A slice is how many
// numbers are stored, how many more there are, and the stored numbers. Each further number is the last
// one once more; or the rise from number to number stands behind the two counts. So slices need not
// belong together, and a long one takes few bytes.
#![tactic(auto)]

ghost use Rattle.std.specs.Prelude.{min, ◌≡◌, map, length, take};
ghost use Rattle.std.proofs.lemmas.List.Edits.{sets};
ghost use Rattle.timing.specs.Delays.{delay_of};
ghost use Rattle.cases.specs.Slices.{step_value, step_next, Filled, IsSlice, IsRising};

use entries::least;
use packed_delays::unpack_delay;
use packed_lists::take_number;
use timing::Taken;

// How many places of a table a slice took, and the place behind its bytes.
#[derive(Clone, Copy)]
pub struct Slice {
    pub len: usize,
    pub next: usize,
}

// The next stored number, or where none is left the one above the value.
fn step(s: &[u8], rise: u32, left: usize, value: u32, next: usize) -> Taken
    ensures { (result.value ≡ step_value s.now rise left value next)
        × (result.next ≡ step_next s.now left next) }
{
    if left == 0 {
        Taken {
            value: value.saturating_add(rise),
            next,
        }
    } else {
        take_number(s, next)
    }
}

// The stored numbers at a place, and more behind them.
fn fill_from(s: &[u8], at: usize, stored: u32, more: u32, rise: u32, table: &mut [u32]) -> Slice
    ensures { Filled s.now at stored more rise table.old table.new result }
{
    let mut left = stored as usize;
    let len = least(left + more as usize, table.len());
    let mut next = at;
    let mut value: u32 = 0;
    for k in 0..len {
        let x = step(s, rise, left, value, next);
        value = x.value;
        next = x.next;
        left = left.saturating_sub(1);
        table[k] = value;
    }
    Slice { len, next }
}

// The slice at a place.
pub fn fill(s: &[u8], at: usize, table: &mut [u32]) -> Slice
    ensures { IsSlice s.now at table.old table.new result }
{
    let stored = take_number(s, at);
    let more = take_number(s, stored.next);
    fill_from(s, more.next, stored.value, more.value, 0, table)
}

// The same, with a rise.
pub fn fill_rising(s: &[u8], at: usize, table: &mut [u32]) -> Slice
    ensures { IsRising s.now at table.old table.new result }
{
    let stored = take_number(s, at);
    let more = take_number(s, stored.next);
    let rise = take_number(s, more.next);
    fill_from(s, rise.next, stored.value, more.value, rise.value, table)
}

// The delays that some packed numbers stand for, as far as there is room.
pub fn unpack(codes: &[u32], delays: &mut [i32])
    ensures { let len = min (length codes.now) (length delays.old) in
        delays.new ≡ sets delays.old 0 (map delay_of (take len codes.now)) }
{
    let len = least(codes.len(), delays.len());
    for i in 0..len {
        delays[i] = unpack_delay(codes[i]);
    }
}
