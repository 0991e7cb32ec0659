// Slices read for all indices and counts: what is not there is 0, and a front ends where the slice ends. An
// index that comes out of a table then needs no proof. Beside them: a slice
// zeroed, one filled, the smaller of two counts, and a number as a count.
#![tactic(auto)]

ghost use Rattle.std.specs.Prelude.{◌≤◌, min, ◌≡◌, pos, length, get_or, take, replicate};

// The entry at an index, or what stands for one past the end.
fn entry_or<T: Copy>(s: &[T], i: usize, missing: T) -> T
    ensures { result ≡ get_or s.now i missing }
{
    if i < s.len() { s[i] } else { missing }
}

// The number at an index, or 0 past the end.
pub fn number_at(s: &[u32], i: usize) -> u32
    ensures { result ≡ get_or s.now i 0 }
{
    entry_or(s, i, 0)
}

// The delay at an index, or 0 past the end.
pub fn delay_at(delays: &[i32], i: usize) -> i32
    ensures { result ≡ get_or delays.now i (pos 0) }
{
    entry_or(delays, i, 0)
}

// The time at an index, or 0 past the end.
pub fn time_at(times: &[i64], i: usize) -> i64
    ensures { result ≡ get_or times.now i (pos 0) }
{
    entry_or(times, i, 0)
}

// The first entries of a slice, or all of them.
pub fn front<'a, T>(s: &'a [T], count: usize) -> &'a [T]
    ensures { result.now ≡ take count s.now }
{
    &s[..count.min(s.len())]
}

// Zeroes a whole slice.
pub fn zero(t: &mut [u32])
    ensures { t.new ≡ replicate (length t.old) 0 }
{
    t.fill(0);
}

// Fills a whole slice of times with one time.
pub fn fill(times: &mut [i64], t: i64)
    ensures { times.new ≡ replicate (length times.old) t }
{
    times.fill(t);
}

// The smaller of two counts.
pub fn least(a: usize, b: usize) -> usize
    ensures { (result ≡ min a b) × (result ≤ a) × (result ≤ b) }
{
    a.min(b)
}

// A number as a count or an index: a cast in a call of its own asks its caller for no proof.
pub fn wide(x: u32) -> usize
    ensures { result ≡ x }
{
    x as usize
}
