// Which slots are shown: the second pass over the slots, from the lowest copy on.
ghost use Rattle.std.specs.Prelude.{◌≡◌, ◌+◌, ◌*◌, ◌<◌, ◌≤◌, length, take};
ghost use Rattle.timing.specs.Lists.{one_if};
ghost use Rattle.removal.specs.Slots.{slot_base};
ghost use Rattle.removal.specs.Rows.{slots_in, Ready, Idle, run_from, run_to};
ghost use Rattle.removal.specs.Patches.{NamesIn};
ghost use Rattle.removal.specs.Show.{shown_at, EdgesMeet, RowLent, PatchedRow, RowMet, SlotRoom, SlotShown, WorkKept, RowShown, PassedTo, AllShown, FlagsReset};

use crate::patches::{collect, note_places};
use crate::rows::{Layout, run_from};
use timing::GraphCounts;

// 1 if the slot at a place is shown, and else 0.
fn shown(scratch: &[u32], place: usize) -> usize
    requires { place < length scratch.now }
    ensures { result ≡ one_if (shown_at scratch.now place) }
{
    if 2 <= scratch[place] { 1 } else { 0 }
}

// How many edges into copy c, which stand from p0 on and before p1, come from shown slots to its slot of the empty mark.
pub(crate) fn shown_defaults(l: Layout, scratch: &[u32], c: usize, p0: usize, p1: usize) -> usize
    requires { Ready l scratch.now × (c < l.copies)
        × (p0 ≡ run_from l (take l.slots scratch.now) c) × (p1 ≡ run_to l (take l.slots scratch.now) c) }
    ensures { EdgesMeet l scratch.now c 0 result }
{
    let mut count = 0;
    for q in p0..p1 {
        let place = scratch[l.default + q] as usize;
        count += shown(scratch, place);
    }
    count
}

// How many come to slot j of copy c, which has k patches, where so many come to that of the empty mark.
fn patched_edges(l: Layout, scratch: &[u32], c: usize, j: usize, k: usize, defaults: usize) -> usize
    requires { PatchedRow l scratch.now c j k defaults }
    ensures { EdgesMeet l scratch.now c j result }
{
    let mut count = defaults;
    for i in 0..k {
        let q = scratch[l.patch + i] as usize;
        let default = scratch[l.default + q] as usize;
        let place = scratch[l.lead + i] as usize;
        count = count + shown(scratch, place) - shown(scratch, default);
    }
    count
}

// The row of slot j of copy c: how many patches it has, and how many edges come to it from shown slots.
#[derive(Clone, Copy)]
pub(crate) struct Row {
    pub(crate) patches: usize,
    pub(crate) edges: usize,
}

pub(crate) fn row_of(
    l: Layout,
    scratch: &mut [u32],
    pos: &[u16],
    c: usize,
    j: usize,
    p0: usize,
    p1: usize,
    defaults: usize,
) -> Row
    requires { RowLent l scratch.old pos.now c j p0 p1 defaults }
    ensures { RowMet l scratch.old scratch.new c j result.patches result.edges }
{
    if j == 0 {
        return Row {
            patches: 0,
            edges: defaults,
        };
    }
    let patches = collect(l, scratch, pos, c, j, p0, p1);
    let edges = patched_edges(l, scratch, c, j, patches, defaults);
    Row { patches, edges }
}

// Shows slot j of copy c, which is reached, if paths start at c or so many edges, and not none, come to it from shown slots.
pub(crate) fn show_slot(
    l: Layout,
    scratch: &mut [u32],
    c: usize,
    j: usize,
    p0: usize,
    p1: usize,
    edges: usize,
    counts: GraphCounts,
) -> GraphCounts
    requires { SlotRoom l scratch.old c j p0 p1 counts.copies counts.edges × EdgesMeet l scratch.old c j edges }
    ensures { SlotShown l scratch.old scratch.new c j counts.copies counts.edges result.copies result.edges
        × WorkKept l scratch.old scratch.new }
{
    if edges == 0 && p0 < p1 {
        return counts;
    }
    let at = scratch[l.base + c] as usize + j;
    scratch[at] = (counts.copies + 2) as u32;
    GraphCounts {
        copies: counts.copies + 1,
        edges: counts.edges + edges,
    }
}

// Shows slot j of copy c if it is reached and paths start at c or come to it from shown slots.
fn show_row(
    l: Layout,
    scratch: &mut [u32],
    pos: &[u16],
    c: usize,
    j: usize,
    p0: usize,
    p1: usize,
    defaults: usize,
    counts: GraphCounts,
) -> GraphCounts
    requires { RowLent l scratch.old pos.now c j p0 p1 defaults
        × (counts.copies ≤ slot_base (slots_in l (take l.slots scratch.old)) c + j)
        × (counts.edges ≤ counts.copies * 65536) }
    ensures { RowShown l scratch.old scratch.new c j defaults
        counts.copies counts.edges result.copies result.edges }
{
    let at = scratch[l.base + c] as usize + j;
    if scratch[at] == 0 {
        return counts;
    }
    let row = row_of(l, scratch, pos, c, j, p0, p1, defaults);
    show_slot(l, scratch, c, j, p0, p1, row.edges, counts)
}

// Shows the slots of copy c; those of the lower copies are done.
fn show_copy(
    l: Layout,
    scratch: &mut [u32],
    pos: &mut [u16],
    c: usize,
    counts: GraphCounts,
) -> GraphCounts
    requires { Ready l scratch.old × Idle l scratch.old × NamesIn l scratch.old (length pos.old)
        × (c < l.copies)
        × (counts.copies ≤ slot_base (slots_in l (take l.slots scratch.old)) c)
        × (counts.edges ≤ counts.copies * 65536) }
    ensures { PassedTo l scratch.old scratch.new c
        counts.copies counts.edges (c + 1) 0 result.copies result.edges
        × Idle l scratch.new
        × (length pos.new ≡ length pos.old) }
{
    let p0 = run_from(l, scratch, c);
    let p1 = scratch[l.into + c] as usize;
    let count = scratch[l.base + c + 1] as usize - scratch[l.base + c] as usize;
    if 1 < count {
        note_places(l, scratch, pos, c, p0, p1);
    }
    let defaults = shown_defaults(l, scratch, c, p0, p1);
    let mut so_far = counts;
    for j in 0..count {
        so_far = show_row(l, scratch, pos, c, j, p0, p1, defaults, so_far);
    }
    so_far
}

// Shows the slots of all copies, and numbers them: the flag of a shown slot is 2 and its number.
pub(crate) fn show_all(l: Layout, scratch: &mut [u32], pos: &mut [u16]) -> GraphCounts
    requires { Ready l scratch.old × Idle l scratch.old × NamesIn l scratch.old (length pos.old) }
    ensures { AllShown l scratch.old scratch.new result.copies result.edges
        × Idle l scratch.new
        × (length pos.new ≡ length pos.old) }
{
    let mut counts = GraphCounts {
        copies: 0,
        edges: 0,
    };
    for c in 0..l.copies {
        counts = show_copy(l, scratch, pos, c, counts);
    }
    counts
}

// From what is shown back to what is reached: every flag that is not 0 is 1 again. A loop with no branch, so that it is compiled to vector code.
pub(crate) fn reset_flags(l: Layout, scratch: &mut [u32])
    requires { Ready l scratch.old }
    ensures { FlagsReset l scratch.old scratch.new }
{
    let end = scratch[l.base + l.copies] as usize;
    for flag in scratch[l.slots..end].iter_mut() {
        *flag = (*flag).min(1);
    }
}
