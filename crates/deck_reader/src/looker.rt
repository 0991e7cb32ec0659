// The first go of the reader: everything is parsed and tested, and nothing is written. Each function works on a
// plain slice and place.
ghost use Rattle.std.specs.Prelude.{◌≡◌, ◌≤◌};
ghost use Rattle.timing.specs.Decks.{paths as paths_of};
ghost use Rattle.timing.specs.Looks.{looked, number_of, value_at};
ghost use Rattle.deck_reader.specs.Reading.{verdict_of, nodes_in, count_in, path_in, edges_in, design_in, list_in};
ghost use Rattle.deck_reader.specs.Reading.{marked_count_in, marked_in, lists_in, tail_in};

use entries::wide;
use packed::read_number;
use packed_lists::{look_numbers, look_rows, take_number};
use timing::{MAX_EDGES, MAX_LISTED_EDGES, MAX_NODES, MAX_PATHS, Refusal, Taken, Verdict};
use verdicts::{marked_count, refuse, unless};

// n and its limit. The nodes have no table.
fn look_nodes(s: &[u8], at: usize) -> Result<Taken, Refusal>
    ensures { result ≡ number_of (nodes_in s.now at) }
{
    let n = read_number(s, at)?;
    unless(10, n.value <= MAX_NODES)?;
    Ok(n)
}

// A count and its tests: the limit of document 01, then the lent table.
fn look_count(
    s: &[u8],
    at: usize,
    sum: usize,
    test: u32,
    limit: usize,
    table: usize,
) -> Result<Taken, Refusal>
    requires { sum ≤ 8192 }
    ensures { result ≡ number_of (count_in s.now sum test limit table at) }
{
    let count = read_number(s, at)?;
    let total = sum + wide(count.value);
    unless(test, total <= limit)?;
    unless(36, total <= table)?;
    Ok(count)
}

// A path: its length and the place behind it.
fn look_path(s: &[u8], at: usize, sum: usize, table: usize) -> Result<Taken, Refusal>
    requires { sum ≤ 8192 }
    ensures { result ≡ number_of (path_in s.now table sum at) }
{
    let length = look_count(s, at, sum, 21, MAX_LISTED_EDGES, table)?;
    let next = look_numbers(s, length.next, wide(length.value))?;
    Ok(Taken {
        value: length.value,
        next,
    })
}

// The paths; their lengths are summed as they are met.
fn look_paths(s: &[u8], at: usize, count: usize, table: usize) -> Result<usize, Refusal>
    ensures { result ≡ looked (paths_of s.now table count 0 at) }
{
    let mut at = at;
    let mut sum: usize = 0;
    for _ in 0..count {
        let path = look_path(s, at, sum, table)?;
        at = path.next;
        sum += wide(path.value);
    }
    Ok(at)
}

// The count of edges, and the edges, each of four numbers.
fn look_edges(s: &[u8], at: usize, edges: usize) -> Result<usize, Refusal>
    ensures { result ≡ looked (edges_in s.now edges at) }
{
    let count = look_count(s, at, 0, 11, MAX_EDGES, edges)?;
    look_rows(s, count.next, count.value, 4)
}

// The design: n, and the edges.
pub(crate) fn look_design(s: &[u8], at: usize, edges: usize) -> Result<usize, Refusal>
    ensures { result ≡ looked (design_in s.now edges at) }
{
    let n = look_nodes(s, at)?;
    look_edges(s, n.next, edges)
}

// The list: the count of paths, and the paths.
fn look_list(s: &[u8], at: usize, listed: usize, paths: usize) -> Result<usize, Refusal>
    ensures { result ≡ looked (list_in s.now listed paths at) }
{
    let count = look_count(s, at, 0, 20, MAX_PATHS, paths)?;
    look_paths(s, count.next, wide(count.value), listed)
}

// The count of marked nodes and its tests: at most n, then the lent table.
fn look_marked_count(s: &[u8], at: usize, n: u32, table: usize) -> Result<Taken, Refusal>
    ensures { result ≡ number_of (marked_count_in s.now n table at) }
{
    let count = read_number(s, at)?;
    let marked = wide(count.value);
    marked_count(n, marked)?;
    unless(36, marked <= table)?;
    Ok(count)
}

// The count of marked nodes, and their numbers.
fn look_marked(s: &[u8], at: usize, n: u32, table: usize) -> Result<usize, Refusal>
    ensures { result ≡ looked (marked_in s.now n table at) }
{
    let count = look_marked_count(s, at, n, table)?;
    look_numbers(s, count.next, wide(count.value))
}

// The two lists: the paths, and the marked nodes. n is taken from the front of the bytes, where the design was looked at.
pub(crate) fn look_lists(
    s: &[u8],
    at: usize,
    listed: usize,
    paths: usize,
    marked: usize,
) -> Result<usize, Refusal>
    ensures { let n = value_at s.now 0 in
        result ≡ looked (lists_in s.now n listed paths marked at) }
{
    let behind = look_list(s, at, listed, paths)?;
    let n = take_number(s, 0);
    look_marked(s, behind, n.value, marked)
}

// T, and 3.
pub(crate) fn look_tail(s: &[u8], at: usize) -> Verdict
    ensures { result ≡ verdict_of (tail_in s.now at) }
{
    let allowed = read_number(s, at)?;
    if allowed.next < s.len() {
        return Err(refuse(3, allowed.next));
    }
    Ok(())
}
