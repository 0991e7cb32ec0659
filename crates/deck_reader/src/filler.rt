// The second go of the reader: the tables are filled. The look has passed, so that every number is there. Each
// function works on a plain slice and place.
ghost use Rattle.std.specs.Prelude.{◌≡◌, ◌+◌, ◌≤◌, ◌<◌, length, set};
ghost use Rattle.std.proofs.lemmas.List.Edits.{sets};
ghost use Rattle.timing.specs.Lists.{placed};
ghost use Rattle.timing.specs.Delays.{delay_of};
ghost use Rattle.timing.specs.Looks.{value_at, next_at};
ghost use Rattle.deck_reader.specs.Reading.{numbers_from, numbers_end, counted_from, counted_end, edges_from, lengths_from, paths_end};
ghost use Rattle.deck_reader.specs.Reading.{behind_two, edge_row_at, edge_row_end, rows_end};
ghost use Rattle.deck_reader.specs.Reading.{starts_from, ends_from, early_from, late_from};
ghost use Rattle.deck_reader.specs.Reading.{edge_count, count_place, design_from, list_from, list_end, marked_from, lists_end};

use super::{DesignRead, ListRead, ListsRead};
use entries::wide;
use packed_delays::unpack_delay;
use packed_lists::take_number;
use timing::Taken;

// Two numbers, one after the other, and the place behind them.
#[derive(Clone, Copy)]
struct Pair {
    first: u32,
    second: u32,
    next: usize,
}

// Without the hint it is a call of its own, and a deck is read a tenth slower.
#[inline(always)]
fn take_pair(s: &[u8], at: usize) -> Pair
    ensures { (result.first ≡ value_at s.now at)
        × (result.second ≡ value_at s.now (next_at s.now at))
        × (result.next ≡ behind_two s.now at) }
{
    let first = take_number(s, at);
    let second = take_number(s, first.next);
    Pair {
        first: first.value,
        second: second.value,
        next: second.next,
    }
}

// An edge, to index i of its four tables.
fn fill_row(
    s: &[u8],
    at: usize,
    i: usize,
    starts: &mut [u32],
    ends: &mut [u32],
    early: &mut [i32],
    late: &mut [i32],
) -> usize
    requires { (i < length starts.old)
        × (i < length ends.old)
        × (i < length early.old)
        × (i < length late.old) }
    ensures { let row = edge_row_at s.now at in
        (result ≡ edge_row_end s.now at)
        × (starts.new ≡ set starts.old i row.start)
        × (ends.new ≡ set ends.old i row.end)
        × (early.new ≡ set early.old i (delay_of row.early))
        × (late.new ≡ set late.old i (delay_of row.late)) }
{
    let nodes = take_pair(s, at);
    let delays = take_pair(s, nodes.next);
    starts[i] = nodes.first;
    ends[i] = nodes.second;
    early[i] = unpack_delay(delays.first);
    late[i] = unpack_delay(delays.second);
    delays.next
}

fn fill_rows(
    s: &[u8],
    at: usize,
    m: usize,
    starts: &mut [u32],
    ends: &mut [u32],
    early: &mut [i32],
    late: &mut [i32],
) -> usize
    requires { (m ≤ length starts.old)
        × (m ≤ length ends.old)
        × (m ≤ length early.old)
        × (m ≤ length late.old) }
    ensures { (result ≡ rows_end s.now m at)
        × (starts.new ≡ sets starts.old 0 (starts_from s.now m at))
        × (ends.new ≡ sets ends.old 0 (ends_from s.now m at))
        × (early.new ≡ sets early.old 0 (early_from s.now m at))
        × (late.new ≡ sets late.old 0 (late_from s.now m at)) }
{
    let mut at = at;
    for i in 0..m {
        at = fill_row(s, at, i, starts, ends, early, late);
    }
    at
}

// Numbers, to a table behind those that fill it so far.
fn fill_numbers(s: &[u8], at: usize, count: usize, listed: &mut [u32], filled: usize) -> usize
    requires { filled + count ≤ length listed.old }
    ensures { (result ≡ numbers_end s.now count at)
        × (listed.new ≡ sets listed.old filled (numbers_from s.now count at)) }
{
    let mut at = at;
    for i in 0..count {
        let number = take_number(s, at);
        listed[filled + i] = number.value;
        at = number.next;
    }
    at
}

// Numbers behind their count, a path or the marked nodes, to a table behind those that fill it so far.
fn fill_counted(s: &[u8], at: usize, table: &mut [u32], filled: usize) -> Taken
    requires { filled + value_at s.now at ≤ length table.old }
    ensures { (result.value ≡ value_at s.now at)
        × (result.next ≡ counted_end s.now at)
        × (table.new ≡ sets table.old filled (counted_from s.now at)) }
{
    let count = take_number(s, at);
    let next = fill_numbers(s, count.next, wide(count.value), table, filled);
    Taken {
        value: count.value,
        next,
    }
}

// A path: its edges behind those that are there, its length to index k.
fn fill_path(
    s: &[u8],
    at: usize,
    listed: &mut [u32],
    filled: usize,
    lengths: &mut [u32],
    k: usize,
) -> Taken
    requires { (filled + value_at s.now at ≤ length listed.old) × (k < length lengths.old) }
    ensures { (result.value ≡ value_at s.now at)
        × (result.next ≡ counted_end s.now at)
        × (listed.new ≡ sets listed.old filled (counted_from s.now at))
        × (lengths.new ≡ set lengths.old k (value_at s.now at)) }
{
    let path = fill_counted(s, at, listed, filled);
    lengths[k] = path.value;
    path
}

fn fill_paths(
    s: &[u8],
    at: usize,
    count: usize,
    listed: &mut [u32],
    lengths: &mut [u32],
) -> ListRead
    requires { (length (edges_from s.now count at) ≤ length listed.old) × (count ≤ length lengths.old) }
    ensures { let edges = edges_from s.now count at in
        (result.paths ≡ count)
        × (result.listed ≡ length edges)
        × (result.next ≡ paths_end s.now count at)
        × (listed.new ≡ sets listed.old 0 edges)
        × (lengths.new ≡ sets lengths.old 0 (lengths_from s.now count at)) }
{
    let mut at = at;
    let mut filled = 0;
    for k in 0..count {
        let path = fill_path(s, at, listed, filled, lengths, k);
        at = path.next;
        filled += wide(path.value);
    }
    ListRead {
        paths: count,
        listed: filled,
        next: at,
    }
}

// The design at a place.
pub(crate) fn fill_design(
    s: &[u8],
    at: usize,
    starts: &mut [u32],
    ends: &mut [u32],
    early: &mut [i32],
    late: &mut [i32],
) -> DesignRead
    requires { (edge_count s.now at ≤ length starts.old)
        × (length ends.old ≡ length starts.old)
        × (length early.old ≡ length starts.old)
        × (length late.old ≡ length starts.old) }
    ensures { let d = design_from s.now at in
        (result.nodes ≡ d.nodes)
        × (result.edges ≡ edge_count s.now at)
        × (result.next ≡ count_place s.now at)
        × (starts.new ≡ placed d.starts starts.old)
        × (ends.new ≡ placed d.ends ends.old)
        × (early.new ≡ placed d.early early.old)
        × (late.new ≡ placed d.late late.old) }
{
    let counts = take_pair(s, at);
    let edges = wide(counts.second);
    let next = fill_rows(s, counts.next, edges, starts, ends, early, late);
    DesignRead {
        nodes: counts.first,
        edges,
        next,
    }
}

// The list at a place.
fn fill_list(s: &[u8], at: usize, listed: &mut [u32], lengths: &mut [u32]) -> ListRead
    requires { (length (list_from s.now at).edges ≤ length listed.old)
        × (value_at s.now at ≤ length lengths.old) }
    ensures { let list = list_from s.now at in
        (result.paths ≡ value_at s.now at)
        × (result.listed ≡ length list.edges)
        × (result.next ≡ list_end s.now at)
        × (listed.new ≡ placed list.edges listed.old)
        × (lengths.new ≡ placed list.lengths lengths.old) }
{
    let count = take_number(s, at);
    fill_paths(s, count.next, wide(count.value), listed, lengths)
}

// The two lists at a place: the paths, and the marked nodes.
pub(crate) fn fill_lists(
    s: &[u8],
    at: usize,
    listed: &mut [u32],
    lengths: &mut [u32],
    marked: &mut [u32],
) -> ListsRead
    requires { (length (list_from s.now at).edges ≤ length listed.old)
        × (value_at s.now at ≤ length lengths.old)
        × (value_at s.now (list_end s.now at) ≤ length marked.old) }
    ensures { let list = list_from s.now at in
        (result.paths ≡ value_at s.now at)
        × (result.listed ≡ length list.edges)
        × (result.marked ≡ value_at s.now (list_end s.now at))
        × (result.next ≡ lists_end s.now at)
        × (listed.new ≡ placed list.edges listed.old)
        × (lengths.new ≡ placed list.lengths lengths.old)
        × (marked.new ≡ placed (marked_from s.now at) marked.old) }
{
    let list = fill_list(s, at, listed, lengths);
    let nodes = fill_counted(s, list.next, marked, 0);
    ListsRead {
        paths: list.paths,
        listed: list.listed,
        marked: wide(nodes.value),
        next: nodes.next,
    }
}
