// Packed numbers one after the other: how many bytes they take, and how far a reader gets.
#![tactic(auto)]

ghost use Rattle.std.specs.Prelude.{◌≡◌, ℕ, ◌*◌, ◌≤◌, length};
ghost use mathlib.Core.List.{flat_map};
ghost use Rattle.timing.specs.Numbers.{packed};
ghost use Rattle.timing.specs.Parsing.{number, repeated};
ghost use Rattle.timing.specs.Looks.{looked, value_at, next_at};

use crate::skips::skip_blocks;
use entries::wide;
use packed::{number_size, read_number};
use timing::{Refusal, Taken};

mod skips;

// How many numbers are counted at a time.
const BLOCK: usize = 4096;

// How many bytes a block of numbers takes. Its sum fits 32 bits, so that the compiler adds up four numbers at a time.
fn block_size(s: &[u32]) -> u32
    requires { length s.now ≤ 4096 }
    ensures { result ≡ length (flat_map packed s.now) }
{
    let mut total: u32 = 0;
    for x in s {
        total += number_size(*x) as u32;
    }
    total
}

// How many bytes the numbers of a slice take.
pub fn numbers_size(s: &[u32]) -> usize
    ensures { result ≡ length (flat_map packed s.now) }
{
    let mut total: usize = 0;
    for block in s.chunks(BLOCK) {
        total += wide(block_size(block));
    }
    total
}

// k numbers, one after the other; by blocks as long as these have short numbers only.
#[tactic(auto, using(crate::proofs::Looking::numbers_turn, crate::proofs::Looking::numbers_stop))]
pub fn look_numbers(s: &[u8], at: usize, k: usize) -> Result<usize, Refusal>
    ensures { result ≡ looked (repeated k (number s.now) at) }
{
    let front = skip_blocks(s, at, k);
    let mut here = front.next;
    for _ in front.numbers..k {
        here = read_number(s, here)?.next;
    }
    Ok(here)
}

// m rows of so many numbers each.
pub fn look_rows(s: &[u8], at: usize, m: u32, width: u32) -> Result<usize, Refusal>
    ensures { result ≡ looked (repeated (width * m) (number s.now) at) }
{
    let rows = m as usize;
    let numbers = width as usize;
    look_numbers(s, at, numbers * rows)
}

// The number at a place, where a look has passed over it.
pub fn take_number(s: &[u8], at: usize) -> Taken
    ensures { (result.value ≡ value_at s.now at)
        × (result.next ≡ next_at s.now at) }
{
    match read_number(s, at) {
        Ok(taken) => taken,
        Err(_) => Taken { value: 0, next: at },
    }
}
