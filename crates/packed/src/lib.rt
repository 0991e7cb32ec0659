// One number to bytes and back.
#![tactic(auto)]

ghost use Rattle.std.specs.Prelude.{◌≡◌, ℕ, ◌+◌, ◌≤◌, cond, ltb, leb, length, drop};
ghost use mathlib.Core.List.{[], ◌∷◌, flat_map};
ghost use Rattle.timing.specs.Numbers.{packed, groups_in, read_number, write_answer, written_room};

use timing::{Groups, NoNumber, Refusal, Taken};
use verdicts::refuse;

// The number at a place, with at most `g` groups after its first. The highest group comes back
// first, so that each turn adds one group below what is known.
fn groups(s: &[u8], at: usize, g: usize) -> Result<Groups, NoNumber>
    requires { g ≤ 4 }
    ensures { result ≡ groups_in 15 g (drop at s.now) }
{
    if s.len() <= at {
        return Err(NoNumber::Ended);
    }
    let b = s[at] as u32;
    if g == 0 {
        if b <= 15 {
            return Ok(Groups { value: b, size: 1 });
        }
        return Err(NoNumber::Unfit);
    }
    if b < 128 {
        return Ok(Groups { value: b, size: 1 });
    }
    let higher = groups(s, at + 1, g - 1)?;
    if higher.value == 0 {
        return Err(NoNumber::Unfit);
    }
    Ok(Groups {
        value: b - 128 + 128 * higher.value,
        size: higher.size + 1,
    })
}

// Reads the number at a place of the bytes, however many groups it has.
fn read_groups(s: &[u8], at: usize) -> Result<Taken, Refusal>
    ensures { result ≡ read_number s.now at }
{
    match groups(s, at, 4) {
        Ok(found) => Ok(Taken {
            value: found.value,
            next: at + found.size,
        }),
        Err(NoNumber::Ended) => Err(refuse(1, s.len())),
        Err(NoNumber::Unfit) => Err(refuse(2, at)),
    }
}

// Reads the number at a place of the bytes. The one or two bytes that most numbers take are spelled out, so that these
// pass through no recursion.
pub fn read_number(s: &[u8], at: usize) -> Result<Taken, Refusal>
    ensures { result ≡ read_number s.now at }
{
    if at < s.len() {
        let low = s[at] as u32;
        if low < 128 {
            return Ok(Taken {
                value: low,
                next: at + 1,
            });
        }
        if at + 1 < s.len() {
            let high = s[at + 1] as u32;
            if 0 < high {
                if high < 128 {
                    return Ok(Taken {
                        value: low - 128 + 128 * high,
                        next: at + 2,
                    });
                }
            }
        }
    }
    read_groups(s, at)
}

// Puts the groups of `x` into the room from a place on, where they fit: the lowest first, and the top bit set while more follow.
fn put_groups(room: &mut [u8], at: usize, x: u32) -> usize
    requires { at + length (packed x) ≤ length room.old }
    ensures { (result ≡ at + length (packed x))
        × (room.new ≡ written_room room.old at (packed x)) }
{
    let mut next = at;
    let mut v = x;
    while 128 <= v {
        room[next] = (v % 128 + 128) as u8;
        v /= 128;
        next += 1;
    }
    room[next] = v as u8;
    next + 1
}

// The same, with the one or two bytes that most numbers take spelled out, so that these pass through no loop.
fn put_number(room: &mut [u8], at: usize, x: u32) -> usize
    requires { at + length (packed x) ≤ length room.old }
    ensures { (result ≡ at + length (packed x))
        × (room.new ≡ written_room room.old at (packed x)) }
{
    if x < 128 {
        room[at] = x as u8;
        return at + 1;
    }
    room[at] = (x % 128 + 128) as u8;
    if x < 16384 {
        room[at + 1] = (x / 128) as u8;
        return at + 2;
    }
    put_groups(room, at + 1, x / 128)
}

// Whether a room of `len` bytes has so many left from a place on.
pub fn has_left(len: usize, at: usize, count: usize) -> bool
    ensures { result ≡ leb (at + count) len }
{
    if len < at {
        return false;
    }
    count <= len - at
}

// Whether the packed form of `x` fits. Five bytes hold any number, so that its size is asked for at the room's end only.
fn holds(len: usize, at: usize, x: u32) -> bool
    ensures { result ≡ leb (at + length (packed x)) len }
{
    if has_left(len, at, 5) {
        return true;
    }
    has_left(len, at, number_size(x))
}

// Writes the packed form of `x` from a place of the room on, or refuses and leaves the room as it is.
pub fn write_number(room: &mut [u8], at: usize, x: u32) -> Result<usize, Refusal>
    ensures { (result ≡ write_answer room.old at (packed x))
        × (room.new ≡ written_room room.old at (packed x)) }
{
    if holds(room.len(), at, x) {
        Ok(put_number(room, at, x))
    } else {
        Err(refuse(35, 0))
    }
}

// The same test for three numbers one after the other.
fn holds_row(len: usize, at: usize, a: u32, b: u32, c: u32) -> bool
    ensures { result ≡ leb (at + length (flat_map packed (a ∷ b ∷ c ∷ []))) len }
{
    if has_left(len, at, 15) {
        return true;
    }
    has_left(len, at, number_size(a) + number_size(b) + number_size(c))
}

fn put_row(room: &mut [u8], at: usize, a: u32, b: u32, c: u32) -> usize
    requires { at + length (flat_map packed (a ∷ b ∷ c ∷ [])) ≤ length room.old }
    ensures { let bytes = flat_map packed (a ∷ b ∷ c ∷ []) in
        (result ≡ at + length bytes) × (room.new ≡ written_room room.old at bytes) }
{
    let next = put_number(room, at, a);
    let next = put_number(room, next, b);
    put_number(room, next, c)
}

// Writes three numbers one after the other, or refuses and leaves the room as it is.
pub fn write_row(room: &mut [u8], at: usize, a: u32, b: u32, c: u32) -> Result<usize, Refusal>
    ensures { let bytes = flat_map packed (a ∷ b ∷ c ∷ []) in
        (result ≡ write_answer room.old at bytes)
        × (room.new ≡ written_room room.old at bytes) }
{
    if holds_row(room.len(), at, a, b, c) {
        Ok(put_row(room, at, a, b, c))
    } else {
        Err(refuse(35, 0))
    }
}

// 1 for a number that is not below a bound, and 0 for one that is.
fn reaches(x: u32, bound: u32) -> usize
    ensures { (result ≡ cond (ltb x bound) 0 1) × (result ≤ 1) }
{
    if x < bound { 0 } else { 1 }
}

// How many bytes a number takes: one more for each power of 128 that it reaches. It is a sum, since a compiler takes
// the sums of several numbers at a time, and guesses no branch.
pub fn number_size(x: u32) -> usize
    ensures { result ≡ length (packed x) }
{
    1 + reaches(x, 128) + reaches(x, 16384) + reaches(x, 2097152) + reaches(x, 268435456)
}
