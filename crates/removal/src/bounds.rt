// What is reached bounds what is shown, and with that the result.
ghost use Rattle.std.specs.Prelude.{◌≡◌, ◌<◌, take};
ghost use Rattle.removal.specs.Rows.{slots_in, Ready};
ghost use Rattle.removal.specs.Fill.{Fits};
ghost use Rattle.removal.specs.Bounds.{reached_to};

use crate::rows::Layout;
use timing::GraphCounts;

// How many slots of copy c are reached.
fn count_reached(l: Layout, scratch: &[u32], c: usize) -> usize
    requires { Ready l scratch.now × (c < l.copies) }
    ensures { result ≡ reached_to l scratch.now c (slots_in l (take l.slots scratch.now) c) }
{
    let from = scratch[l.base + c] as usize;
    let to = scratch[l.base + c + 1] as usize;
    // The chain `filter(..).count()` is slower: it is not compiled to vector code.
    let mut count = 0;
    for flag in &scratch[from..to] {
        if *flag != 0 {
            count += 1;
        }
    }
    count
}

// No more slots are shown than are reached, and no more edges come to each than come into its copy.
pub(crate) fn bound_all(l: Layout, scratch: &[u32]) -> GraphCounts
    requires { Ready l scratch.now }
    ensures { Fits l scratch.now result.copies result.edges }
{
    let mut copies = 0;
    let mut edges = 0;
    let mut from = 0;
    for c in 0..l.copies {
        let to = scratch[l.into + c] as usize;
        let reached = count_reached(l, scratch, c);
        copies += reached;
        edges += reached * (to - from);
        from = to;
    }
    GraphCounts { copies, edges }
}
