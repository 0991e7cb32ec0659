// The writer.
ghost use Rattle.std.specs.Prelude.{◌≡◌, ◌+◌, ◌≤◌, ◌<◌, ◌^◌, pos, length, get_or};
ghost use mathlib.Core.List.{[], ◌∷◌, map, flat_map};
ghost use Rattle.timing.specs.Lists.{sum};
ghost use Rattle.timing.specs.Numbers.{packed};
ghost use Rattle.timing.specs.Delays.{packed_delay};
ghost use Rattle.timing.specs.Marks.{cut};
ghost use Rattle.timing.specs.Decks.{edge_numbers, path_numbers, deck_numbers, packed_deck};
ghost use Rattle.packed_lists.specs.Writing.{size, Wrote};
ghost use Rattle.deck_writer.specs.Writing.{deck_of, Fit, tail_numbers};

use packed::write_number;

// How many bytes a number takes, and numbers: the bounds are for the sums.
#[tactic(auto, using(crate::proofs::Writing::number_most))]
fn number_size(x: u32) -> usize
    ensures { (result ≡ length (packed x)) × (result ≤ 5) }
{
    packed::number_size(x)
}

#[tactic(auto, using(packed_lists::proofs::Sizes::size_most), unfolding(packed_lists::specs::Writing::bytes_of))]
fn numbers_size(s: &[u32]) -> usize
    requires { length s.now ≤ 16384 }
    ensures { (result ≡ size s.now) × (result ≤ 81920) }
{
    packed_lists::numbers_size(s)
}

// The number that stands for the delay at an index.
fn delay_number(s: &[i32], k: usize) -> u32
    requires { k < length s.now }
    ensures { result ≡ packed_delay (get_or s.now k (pos 0)) }
{
    packed_delays::pack_delay(s[k])
}

fn delays_size(s: &[i32]) -> usize
    requires { length s.now ≤ 16384 }
    ensures { (result ≡ size (map packed_delay s.now)) × (result ≤ 81920) }
{
    let mut total: usize = 0;
    for k in 0..s.len() {
        total += number_size(delay_number(s, k));
    }
    total
}

// A number, where the room is known to have the bytes for it.
fn put(room: &mut [u8], at: usize, x: u32) -> usize
    requires { at + size (x ∷ []) ≤ length room.old }
    ensures { Wrote room.old room.new at result (x ∷ []) }
{
    write_number(room, at, x).unwrap()
}

fn put_two(room: &mut [u8], at: usize, x: u32, y: u32) -> usize
    requires { at + size (x ∷ y ∷ []) ≤ length room.old }
    ensures { Wrote room.old room.new at result (x ∷ y ∷ []) }
{
    let at = put(room, at, x);
    put(room, at, y)
}

// An edge: its nodes, then its delays.
fn put_row(room: &mut [u8], at: usize, start: u32, end: u32, early: u32, late: u32) -> usize
    requires { at + size (start ∷ end ∷ early ∷ late ∷ []) ≤ length room.old }
    ensures { Wrote room.old room.new at result (start ∷ end ∷ early ∷ late ∷ []) }
{
    let at = put_two(room, at, start, end);
    put_two(room, at, early, late)
}

fn put_edges(
    room: &mut [u8],
    mut at: usize,
    starts: &[u32],
    ends: &[u32],
    early: &[i32],
    late: &[i32],
) -> usize
    requires ends_len { (length ends.now ≡ length starts.now)
        × (length early.now ≡ length starts.now)
        × (length late.now ≡ length starts.now) }
    requires late_in_bounds { at + size (edge_numbers starts.now ends.now early.now late.now) ≤ length room.old }
    ensures { let numbers = edge_numbers starts.now ends.now early.now late.now in
        Wrote room.old room.new at result numbers }
{
    for k in 0..starts.len() {
        at = put_row(
            room,
            at,
            starts[k],
            ends[k],
            delay_number(early, k),
            delay_number(late, k),
        );
    }
    at
}

// Numbers, one after the other.
fn put_numbers(room: &mut [u8], mut at: usize, s: &[u32]) -> usize
    requires { at + size s.now ≤ length room.old }
    ensures { Wrote room.old room.new at result s.now }
{
    for x in s {
        at = put(room, at, *x);
    }
    at
}

// Numbers behind their count: a path, or the marked nodes.
fn put_counted(room: &mut [u8], at: usize, s: &[u32]) -> usize
    requires len_fits { length s.now < 2 ^ 32 }
    requires s_in_bounds { at + size (length s.now ∷ s.now) ≤ length room.old }
    ensures { Wrote room.old room.new at result (length s.now ∷ s.now) }
{
    let at = put(room, at, s.len() as u32);
    put_numbers(room, at, s)
}

fn put_paths(room: &mut [u8], mut at: usize, listed: &[u32], lengths: &[u32]) -> usize
    requires lengths_value { sum lengths.now ≡ length listed.now }
    requires lengths_in_bounds { at + size (flat_map path_numbers (cut listed.now lengths.now)) ≤ length room.old }
    ensures { let numbers = flat_map path_numbers (cut listed.now lengths.now) in
        Wrote room.old room.new at result numbers }
{
    let mut from = 0;
    for count in lengths {
        let to = from + *count as usize;
        at = put_counted(room, at, &listed[from..to]);
        from = to;
    }
    at
}

fn put_design(
    room: &mut [u8],
    at: usize,
    n: u32,
    starts: &[u32],
    ends: &[u32],
    early: &[i32],
    late: &[i32],
) -> usize
    requires ends_len { (length ends.now ≡ length starts.now)
        × (length early.now ≡ length starts.now)
        × (length late.now ≡ length starts.now)
        × (length starts.now ≤ 16384) }
    requires edges_in_bounds { let edges = edge_numbers starts.now ends.now early.now late.now in
        at + size (n ∷ length starts.now ∷ edges) ≤ length room.old }
    ensures { let edges = edge_numbers starts.now ends.now early.now late.now in
        Wrote room.old room.new at result (n ∷ length starts.now ∷ edges) }
{
    let at = put(room, at, n);
    let at = put(room, at, starts.len() as u32);
    put_edges(room, at, starts, ends, early, late)
}

fn put_list(room: &mut [u8], at: usize, listed: &[u32], lengths: &[u32]) -> usize
    requires lengths_value { (sum lengths.now ≡ length listed.now) × (length lengths.now ≤ 1024) }
    requires paths_in_bounds { let paths = flat_map path_numbers (cut listed.now lengths.now) in
        at + size (length lengths.now ∷ paths) ≤ length room.old }
    ensures { let paths = flat_map path_numbers (cut listed.now lengths.now) in
        Wrote room.old room.new at result (length lengths.now ∷ paths) }
{
    let at = put(room, at, lengths.len() as u32);
    put_paths(room, at, listed, lengths)
}

// The marked nodes, then T.
fn put_tail(room: &mut [u8], at: usize, marked: &[u32], allowed: u32) -> usize
    requires marked_len_bound { length marked.now ≤ 4096 }
    requires allowed_in_bounds { at + size (tail_numbers marked.now allowed) ≤ length room.old }
    ensures { Wrote room.old room.new at result (tail_numbers marked.now allowed) }
{
    let at = put_counted(room, at, marked);
    put(room, at, allowed)
}

// How many bytes the edges take: each number is counted once, in any order.
#[tactic(auto, using(crate::proofs::Writing::size_edges))]
fn edges_size(starts: &[u32], ends: &[u32], early: &[i32], late: &[i32]) -> usize
    requires { (length ends.now ≡ length starts.now)
        × (length early.now ≡ length starts.now)
        × (length late.now ≡ length starts.now)
        × (length starts.now ≤ 16384) }
    ensures { let numbers = edge_numbers starts.now ends.now early.now late.now in
        (result ≡ size numbers) × (result ≤ 327680) }
{
    numbers_size(starts) + numbers_size(ends) + delays_size(early) + delays_size(late)
}

// How many bytes the deck takes, likewise.
#[tactic(auto, using(crate::proofs::Writing::size_deck))]
pub(crate) fn deck_size(
    n: u32,
    starts: &[u32],
    ends: &[u32],
    early: &[i32],
    late: &[i32],
    marked: &[u32],
    listed: &[u32],
    lengths: &[u32],
    allowed: u32,
) -> usize
    requires { Fit (deck_of n starts.now ends.now early.now late.now
        marked.now listed.now lengths.now allowed) }
    ensures { let d = deck_of n starts.now ends.now early.now late.now
        marked.now listed.now lengths.now allowed in
        result ≡ length (packed_deck d) }
{
    let counts = number_size(n)
        + number_size(starts.len() as u32)
        + number_size(lengths.len() as u32)
        + number_size(allowed);
    let edges = edges_size(starts, ends, early, late);
    let paths = numbers_size(lengths) + numbers_size(listed);
    let marked_size = number_size(marked.len() as u32) + numbers_size(marked);
    counts + edges + paths + marked_size
}

pub(crate) fn put_deck(
    n: u32,
    starts: &[u32],
    ends: &[u32],
    early: &[i32],
    late: &[i32],
    marked: &[u32],
    listed: &[u32],
    lengths: &[u32],
    allowed: u32,
    room: &mut [u8],
) -> usize
    requires { let d = deck_of n starts.now ends.now early.now late.now
        marked.now listed.now lengths.now allowed in
        Fit d × (length (packed_deck d) ≤ length room.old) }
    ensures { let d = deck_of n starts.now ends.now early.now late.now
        marked.now listed.now lengths.now allowed in
        Wrote room.old room.new 0 result (deck_numbers d) }
{
    let at = put_design(room, 0, n, starts, ends, early, late);
    let at = put_list(room, at, listed, lengths);
    put_tail(room, at, marked, allowed)
}
