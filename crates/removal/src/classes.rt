// The automaton of a list of paths, as tables in the scratch: its classes (`specs/Classes`), the children and the failure link of each, and
// where each stands among the marks at its node. They depend on the list and on where edges start, and on no graph.
ghost use Rattle.std.specs.Prelude.{◌≡◌, List, [], ℕ, suc, ◌+◌, ◌≤◌, length, get_or, replicate};
ghost use Rattle.removal.specs.Table.{table, Frame};
ghost use Rattle.removal.specs.Classes.{marks_at};
ghost use Rattle.removal.specs.Tables.{Laid, Startable, Started, Makeable, Made, Stepped};

use crate::kids::make_kids;
use crate::levels::number_classes;
use crate::links::link_classes;
use crate::marks::{place_marks, sum_before};
use entries::zero;

// Where the tables of a list stand in the scratch: `scratch[kid + u]` is entry u of `kid`. How many entries each has goes by the number of
// listed edges.
#[derive(Clone, Copy)]
pub(crate) struct Lists {
    pub(crate) edges: usize,
    pub(crate) kid: usize,
    pub(crate) kids: usize,
    pub(crate) fail: usize,
    pub(crate) loc: usize,
    pub(crate) one: usize,
    pub(crate) marks: usize,
}

// The tables of a list of so many edges, one after the other.
pub(crate) fn lay_lists(edges: usize) -> Lists
    requires { edges ≤ 16384 }
    ensures { Laid result × (result.edges ≡ edges) }
{
    let kids = edges + 1;
    let fail = kids + edges;
    let loc = fail + edges + 1;
    let one = loc + edges;
    Lists {
        edges,
        kid: 0,
        kids,
        fail,
        loc,
        one,
        marks: one + edges,
    }
}

// Zeroes the n words from base on.
pub(crate) fn clear(s: &mut [u32], base: usize, n: usize)
    requires { base + n ≤ length s.old }
    ensures { (table s.new base n ≡ replicate n 0)
        × Frame s.old s.new base n }
{
    zero(&mut s[base..base + n]);
}

// The classes of at most so many paths, with a few words for each path to work in.
fn number_within<const PATHS: usize>(
    listed: &[u32],
    lengths: &[u32],
    s: &mut [u32],
    l: Lists,
) -> usize
    requires { Startable l listed.now lengths.now s.old × (length lengths.now ≤ PATHS) × (PATHS ≤ 2048) }
    ensures { Started l listed.now lengths.now s.old s.new result }
{
    let mut ends = [0u32; PATHS];
    let mut who = [0u32; PATHS];
    let mut items = [0u64; PATHS];
    let mut spare = [0u64; PATHS];
    number_classes(
        listed, lengths, s, l, &mut ends, &mut who, &mut items, &mut spare,
    )
}

// The classes. To clear the words for 2,048 paths, as many as two lists have, takes longer than all else in a short list.
fn number_listed(listed: &[u32], lengths: &[u32], s: &mut [u32], l: Lists) -> usize
    requires { Startable l listed.now lengths.now s.old }
    ensures { Started l listed.now lengths.now s.old s.new result }
{
    if lengths.len() <= 64 {
        return number_within::<64>(listed, lengths, s, l);
    }
    number_within::<2048>(listed, lengths, s, l)
}

// All tables of a list, at the places that `l` says. `roots` gets the class of each edge alone, and `first` how many marks there are at the nodes below each.
pub(crate) fn list_tables(
    l: Lists,
    starts: &[u32],
    listed: &[u32],
    lengths: &[u32],
    s: &mut [u32],
    roots: &mut [u16],
    first: &mut [u32],
)
    requires { Makeable l starts.now listed.now lengths.now s.old roots.old first.old }
    ensures { Made l starts.now listed.now lengths.now s.old roots.old
        first.old s.new roots.new first.new }
{
    clear(s, l.loc, l.edges + 1);
    let count = number_listed(listed, lengths, s, l);
    make_kids(s, l, count);
    link_classes(starts, s, l, count, roots, first);
    sum_before(first);
    place_marks(starts, s, l, count, first);
}
