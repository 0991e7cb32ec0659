// Which slots are reached: the first pass over the slots, from the highest copy down.
ghost use Rattle.std.specs.Prelude.{◌≡◌, ◌<◌, ◌≤◌, length, take};
ghost use Rattle.removal.specs.Rows.{dead_place, Ready, Idle, run_to};
ghost use Rattle.removal.specs.Patches.{NamesIn, Rowed};
ghost use Rattle.removal.specs.Reach.{flag_of, end_set, RowsReached, AllZero, Uncovered, CopyPushed};
ghost use Rattle.removal.specs.Push.{flag_set, Pushable, PatchesPushed, CoverFits, MarkPushed, Marking, MarksPushed, Defaulting, DefaultsPushed};

use crate::patches::{collect, note_places};
use crate::rows::{Layout, run_from};

// Flags the slot at a place as reached; the place of what is dead is no slot.
fn flag(l: Layout, scratch: &mut [u32], place: usize)
    requires { (place ≡ dead_place l → ⊥) → place < length scratch.old }
    ensures { scratch.new ≡ flag_set l scratch.old place }
{
    if place != l.lists.loc {
        scratch[place] = 1;
    }
}

// Flags where the patches of a row lead, and counts each for its edge.
fn push_patches(l: Layout, scratch: &mut [u32], k: usize)
    requires { Pushable l scratch.old k }
    ensures { PatchesPushed l scratch.old scratch.new k }
{
    for i in 0..k {
        let q = scratch[l.patch + i] as usize;
        let place = scratch[l.lead + i] as usize;
        scratch[l.cover + q] += 1;
        flag(l, scratch, place);
    }
}

// Flags where the patches of slot j lead, which is reached.
fn push_mark(l: Layout, scratch: &mut [u32], pos: &[u16], c: usize, j: usize, p0: usize, p1: usize)
    requires { Rowed l scratch.old pos.now c j p0 p1 × (0 < j) × CoverFits l scratch.old c }
    ensures { MarkPushed l (take l.slots scratch.old) scratch.old scratch.new c j }
{
    let k = collect(l, scratch, pos, c, j, p0, p1);
    push_patches(l, scratch, k);
}

// Flags where the patches of all reached slots of copy c lead. Gives how many of its slots are reached.
fn push_marks(
    l: Layout,
    scratch: &mut [u32],
    pos: &[u16],
    c: usize,
    count: usize,
    p0: usize,
    p1: usize,
) -> u32
    requires { Marking l scratch.old pos.now c count p0 p1 }
    ensures { MarksPushed l (take l.slots scratch.old) scratch.old scratch.new c count result }
{
    let at = scratch[l.base + c] as usize;
    let mut reached = scratch[at];
    for j in 1..count {
        if scratch[at + j] != 0 {
            push_mark(l, scratch, pos, c, j, p0, p1);
            reached += 1;
        }
    }
    reached
}

// Flags the default of each edge that some reached slot does not patch.
fn push_defaults(l: Layout, scratch: &mut [u32], p0: usize, p1: usize, reached: u32)
    requires { Defaulting l scratch.old p0 p1 }
    ensures { DefaultsPushed l (take l.slots scratch.old) scratch.old scratch.new p0 p1 reached }
{
    for q in p0..p1 {
        if scratch[l.cover + q] < reached {
            let place = scratch[l.default + q] as usize;
            flag(l, scratch, place);
        }
    }
}

// Flags what the slots of copy c reach.
fn push_copy(l: Layout, scratch: &mut [u32], pos: &mut [u16], c: usize)
    requires { Ready l scratch.old × Idle l scratch.old × NamesIn l scratch.old (length pos.old) × (c < l.copies)
        × Uncovered l scratch.old (run_to l (take l.slots scratch.old) c)
        × (flag_of l (take l.slots scratch.old) scratch.old c 0 ≤ 1) }
    ensures { CopyPushed l (take l.slots scratch.old) scratch.old scratch.new c
        × (length pos.new ≡ length pos.old) }
{
    let p0 = run_from(l, scratch, c);
    let p1 = scratch[l.into + c] as usize;
    let at = scratch[l.base + c] as usize;
    let count = scratch[l.base + c + 1] as usize - at;
    if count == 1 {
        let reached = scratch[at];
        push_defaults(l, scratch, p0, p1, reached);
        return;
    }
    note_places(l, scratch, pos, c, p0, p1);
    let reached = push_marks(l, scratch, pos, c, count, p0, p1);
    push_defaults(l, scratch, p0, p1, reached);
}

// Flags slot 0 of copy c if paths end there: what is left of such a path is empty, and so is its mark. Paths may
// go on from there too.
fn flag_endpoint(l: Layout, endpoint: &[u32], scratch: &mut [u32], c: usize)
    requires { Ready l scratch.old × (c < l.copies) × (c < length endpoint.now) }
    ensures { scratch.new ≡ end_set l endpoint.now scratch.old c }
{
    if endpoint[c] == 1 {
        let at = scratch[l.base + c] as usize;
        scratch[at] = 1;
    }
}

// Flags the slots of all copies that are reached, from the highest copy down. Edges go from lower
// copies to higher ones, so all slots of a copy that are reached are flagged when its turn comes.
pub(crate) fn reach_all(l: Layout, endpoint: &[u32], scratch: &mut [u32], pos: &mut [u16])
    requires { Ready l scratch.old × Idle l scratch.old × NamesIn l scratch.old (length pos.old)
        × (length endpoint.now ≡ l.copies)
        × AllZero l (take l.slots scratch.old) scratch.old × Uncovered l scratch.old l.edges }
    ensures { RowsReached l endpoint.now (take l.slots scratch.old) scratch.old scratch.new 0
        × Idle l scratch.new
        × (length pos.new ≡ length pos.old) }
{
    for c in (0..l.copies).rev() {
        flag_endpoint(l, endpoint, scratch, c);
        push_copy(l, scratch, pos, c);
    }
}
