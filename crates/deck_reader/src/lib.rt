// Reading a deck of bytes into lent tables.
#![tactic(auto)]

ghost use Rattle.std.specs.Prelude.{◌≡◌, length};
ghost use Rattle.timing.specs.Calls.{filled, deck_read, deck_answer};

use timing::{DeckCounts, Refusal};

mod filler;
mod looker;
mod reader;

// n, the count of edges, and the place behind the design.
#[derive(Clone, Copy)]
struct DesignRead {
    nodes: u32,
    edges: usize,
    next: usize,
}

// The count of paths, how many edges they list, and the place behind the list.
#[derive(Clone, Copy)]
struct ListRead {
    paths: usize,
    listed: usize,
    next: usize,
}

// The same with the count of marked nodes, and the place behind these.
#[derive(Clone, Copy)]
struct ListsRead {
    paths: usize,
    listed: usize,
    marked: usize,
    next: usize,
}

// Reads a deck into the tables. Everything is looked at first, so that a refusal changes no table.
pub fn read_deck(
    s: &[u8],
    starts: &mut [u32],
    ends: &mut [u32],
    early: &mut [i32],
    late: &mut [i32],
    listed: &mut [u32],
    lengths: &mut [u32],
    marked: &mut [u32],
) -> Result<DeckCounts, Refusal>
    ensures { let o = deck_read s.now
        (length starts.old) (length ends.old)
        (length early.old) (length late.old)
        (length listed.old) (length lengths.old) (length marked.old) in
        (result ≡ deck_answer o)
        × (starts.new ≡ filled (λ d. d.design.starts) o starts.old)
        × (ends.new ≡ filled (λ d. d.design.ends) o ends.old)
        × (early.new ≡ filled (λ d. d.design.early) o early.old)
        × (late.new ≡ filled (λ d. d.design.late) o late.old)
        × (listed.new ≡ filled (λ d. d.list.edges) o listed.old)
        × (lengths.new ≡ filled (λ d. d.list.lengths) o lengths.old)
        × (marked.new ≡ filled (λ d. d.design.marked) o marked.old) }
{
    sizes::edge_sizes(starts.len(), ends.len(), early.len(), late.len())?;
    reader::look_deck(s, starts.len(), listed.len(), lengths.len(), marked.len())?;
    Ok(reader::fill_deck(s, starts, ends, early, late, listed, lengths, marked))
}
