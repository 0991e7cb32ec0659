// What is printed of the lent slices. Before a call they hold a pattern; how many places hold it
// afterwards is printed as "kept".
ghost use Rattle.std.specs.Prelude.{◌≡◌, ◌<◌, length, min};

use packed_delays::pack_delay;
use print::refused;
use std::io::{self, Write};
use timing::Refusal;

// Longer slices are printed by a checksum.
const LONGEST: usize = 24;

// What stands in a lent slice.
pub(crate) trait Item: Copy + PartialEq {
    const PATTERN: Self;

    // The number that is printed for it.
    fn code(self) -> u32;

    fn say<W: Write>(self, out: &mut W) -> io::Result<()> {
        write!(out, " {}", self.code())
    }
}

impl Item for u32 {
    const PATTERN: u32 = 0xA5A5A5A5;

    fn code(self) -> u32 {
        self
    }
}

// A delay, by its packed number.
impl Item for i32 {
    // Packed, it is the pattern of the words.
    const PATTERN: i32 = -1389548243;

    fn code(self) -> u32 {
        pack_delay(self)
    }
}

impl Item for u8 {
    const PATTERN: u8 = 0xA5;

    fn code(self) -> u32 {
        u32::from(self)
    }

    fn say<W: Write>(self, out: &mut W) -> io::Result<()> {
        write!(out, " {self:02x}")
    }
}

// The first places of a table or a room, or all of them, to lend; each holds the pattern.
pub(crate) fn full<T: Item>(table: &mut [T], count: usize) -> &mut [T]
    ensures { length result.now ≡ min count (length table.old) }
{
    let len = count.min(table.len());
    for k in 0..len {
        table[k] = T::PATTERN;
    }
    &mut table[..len]
}

// A checksum and one number more: the digits of a number to base 257, by its remainder.
fn mixed(h: u32, x: u32) -> u32
    ensures { result < 4294967291 }
{
    ((257 * u64::from(h) + u64::from(x) + 1) % 4294967291) as u32
}

fn say_items<W: Write, T: Item>(out: &mut W, s: &[T]) -> io::Result<()> {
    if LONGEST < s.len() {
        let sum = s.iter().fold(0, |h, x| mixed(h, x.code()));
        return write!(out, " checksum {sum}");
    }
    for x in s {
        x.say(out)?;
    }
    Ok(())
}

// How many places hold the pattern.
fn kept<T: Item>(s: &[T]) -> usize {
    s.iter().filter(|x| **x == T::PATTERN).count()
}

// The places of a lent slice that were filled, if there are any; those behind them that are as before are counted.
pub(crate) fn table<W: Write, T: Item>(
    out: &mut W,
    s: &[T],
    filled: usize,
    count: &mut usize,
) -> io::Result<()> {
    let (filled, rest) = s.split_at(filled.min(s.len()));
    if !filled.is_empty() {
        write!(out, ";")?;
        say_items(out, filled)?;
    }
    *count = count.saturating_add(kept(rest));
    Ok(())
}

pub(crate) fn say_kept<W: Write>(out: &mut W, count: usize) -> io::Result<()> {
    writeln!(out, "; kept {count}")
}

// What a writer answered, the bytes in the room, and how many of it are as before.
pub(crate) fn written<W: Write>(
    out: &mut W,
    answer: Result<usize, Refusal>,
    room: &[u8],
) -> io::Result<()> {
    let (bytes, rest) = room.split_at(answer.unwrap_or(0).min(room.len()));
    match answer {
        Ok(end) => {
            write!(out, "end {end}:")?;
            say_items(out, bytes)?;
        }
        Err(r) => refused(out, r)?,
    }
    say_kept(out, kept(rest))
}
