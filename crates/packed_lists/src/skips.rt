// Going over many numbers at once. Most take one or two bytes, and whether all numbers of a block of bytes do shows in
// each byte and the next: so a block has no branch for each number, and the compiler takes several bytes at a time.
ghost use Rattle.std.specs.Prelude.{◌≡◌, ◌+◌, ◌≤◌, length};
ghost use Rattle.packed_lists.specs.Skips.{Skips, ending, unended};

use packed::has_left;

// How many bytes a block has.
const BLOCK: usize = 32;

// How many numbers were gone over, and the place behind them.
#[derive(Clone, Copy)]
pub(crate) struct Skipped {
    pub(crate) numbers: usize,
    pub(crate) next: usize,
}

// 1 for a byte that ends a number.
fn ending_byte(b: u8) -> u8
    ensures { (result ≡ ending b) × (result ≤ 1) }
{
    if b < 128 { 1 } else { 0 }
}

// 1 for a byte that another has to follow, and the next one ends no number of two bytes in shortest form.
fn unended_byte(b: u8, next: u8) -> u8
    ensures { (result ≡ unended b next) × (result ≤ 1) }
{
    if b < 128 {
        return 0;
    }
    if next == 0 {
        return 1;
    }
    if next < 128 { 0 } else { 1 }
}

// The numbers that end in the block at a place, where each takes one or two bytes, and else none.
fn skip_block(s: &[u8], at: usize) -> Skipped
    requires { at + 33 ≤ length s.now }
    ensures { Skips s.now at result.numbers result.next × (result.numbers ≤ 32) }
{
    let mut count: u8 = 0;
    let mut unended: u8 = 0;
    for i in 0..BLOCK {
        count += ending_byte(s[at + i]);
        unended += unended_byte(s[at + i], s[at + i + 1]);
    }
    if 0 < unended {
        return Skipped {
            numbers: 0,
            next: at,
        };
    }
    let last = ending_byte(s[at + 31]) as usize;
    Skipped {
        numbers: count as usize,
        next: at + 31 + last,
    }
}

// Blocks of numbers, as long as so many are to be gone over and the bytes have one, up to the first block with a longer number.
pub(crate) fn skip_blocks(s: &[u8], at: usize, k: usize) -> Skipped
    ensures { Skips s.now at result.numbers result.next × (result.numbers ≤ k) }
{
    let mut here = at;
    let mut n = 0;
    while BLOCK <= k - n && has_left(s.len(), here, 33) {
        let block = skip_block(s, here);
        if block.numbers == 0 {
            break;
        }
        here = block.next;
        n += block.numbers;
    }
    Skipped {
        numbers: n,
        next: here,
    }
}
