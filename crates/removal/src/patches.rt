// The patches of a row. From a mark, most edges into its copy lead where they lead from the empty mark: to their default. The patches are
// those over which a class that the mark begins with has a child: they are found from the children, and not by looking at every edge.
ghost use Rattle.std.specs.Prelude.{◌≡◌, ◌<◌, length, take};
ghost use Rattle.removal.specs.Rows.{Ready, run_from, run_to};
ghost use Rattle.removal.specs.Patches.{NamesIn, Noted, Rowed, Collected, child_place, Placed, Searching, Telling, Tried};
ghost use Rattle.removal.specs.Patches.{kids_from, kids_to, KidsTell, TriedKids, MarkClass, All, Forgettable, Forgotten};

use crate::rows::Layout;

// Notes for the edges into a copy, which stand from p0 on and before p1, where each name stands.
pub(crate) fn note_places(
    l: Layout,
    scratch: &[u32],
    pos: &mut [u16],
    c: usize,
    p0: usize,
    p1: usize,
)
    requires { Ready l scratch.now × NamesIn l scratch.now (length pos.old) × (c < l.copies)
        × (p0 ≡ run_from l (take l.slots scratch.now) c) × (p1 ≡ run_to l (take l.slots scratch.now) c) }
    ensures { (length pos.new ≡ length pos.old)
        × Noted l scratch.now pos.new c }
{
    for q in p0..p1 {
        let e = scratch[l.name + q] as usize;
        pos[e] = q as u16;
    }
}

// The place to which edge q leads where it and the mark at its end begin with class u, and with none that is longer.
fn child_place(l: Layout, scratch: &[u32], u: usize, q: usize) -> u32
    requires { Placed l scratch.now u q }
    ensures { result ≡ child_place l (take l.slots scratch.now) u q }
{
    let x = scratch[l.lists.loc + u];
    if x == 32767 {
        return l.lists.loc as u32;
    }
    let a = scratch[l.start + q] as usize;
    scratch[l.base + a] + x
}

// Notes the patch that child w of a class is, if its edge comes into the copy and no class that is longer has patched it.
// The copy and the slot are passed for what the contract says alone, here, in `collect_kids` and in `gather`.
fn note_patch(
    l: Layout,
    scratch: &mut [u32],
    pos: &[u16],
    w: u32,
    c: usize,
    j: usize,
    p0: usize,
    p1: usize,
    so_far: usize,
) -> usize
    requires { Searching l scratch.old pos.now c j p0 p1 so_far
        × Telling l (take l.slots scratch.old) scratch.old c j w }
    ensures { Tried l scratch.old scratch.new c j w result }
{
    let e = (w / 32768) as usize;
    if pos.len() <= e {
        return so_far;
    }
    let q = pos[e] as usize;
    if q < p0 {
        return so_far;
    }
    if p1 <= q {
        return so_far;
    }
    if scratch[l.name + q] as usize != e {
        return so_far;
    }
    if scratch[l.seen + q] != 0 {
        return so_far;
    }
    let place = child_place(l, scratch, (w % 32768) as usize, q);
    scratch[l.seen + q] = 1;
    scratch[l.patch + so_far] = q as u32;
    scratch[l.lead + so_far] = place;
    so_far + 1
}

// The patches that the children of class u are.
fn collect_kids(
    l: Layout,
    scratch: &mut [u32],
    pos: &[u16],
    u: usize,
    c: usize,
    j: usize,
    p0: usize,
    p1: usize,
    so_far: usize,
) -> usize
    requires { Searching l scratch.old pos.now c j p0 p1 so_far
        × KidsTell l (take l.slots scratch.old) scratch.old c j u (kids_from l (take l.slots scratch.old) u) }
    ensures { TriedKids l scratch.old scratch.new c j u (kids_to l (take l.slots scratch.old) u) result }
{
    let end = scratch[l.lists.kid + u] as usize;
    let first = scratch[l.lists.kid + u - 1] as usize;
    let mut k = so_far;
    for i in first..end {
        let w = scratch[l.lists.kids + i];
        k = note_patch(l, scratch, pos, w, c, j, p0, p1, k);
    }
    k
}

// The patches that the classes on the chain of class f are, that of the mark of slot j of copy c: the longest first.
fn gather(
    l: Layout,
    scratch: &mut [u32],
    pos: &[u16],
    f: usize,
    c: usize,
    j: usize,
    p0: usize,
    p1: usize,
) -> usize
    requires { Searching l scratch.old pos.now c j p0 p1 0 × MarkClass l (take l.slots scratch.old) c j f }
    ensures { All l scratch.old scratch.new c j result }
{
    let mut k = 0;
    let mut u = f;
    while u != 0 {
        k = collect_kids(l, scratch, pos, u, c, j, p0, p1, k);
        u = scratch[l.lists.fail + u] as usize;
    }
    k
}

// No edge is seen any more.
fn forget(l: Layout, scratch: &mut [u32], k: usize)
    requires { Forgettable l scratch.old k }
    ensures { Forgotten l scratch.old scratch.new k }
{
    for i in 0..k {
        let q = scratch[l.patch + i] as usize;
        scratch[l.seen + q] = 0;
    }
}

// All patches of the row of slot j of copy c: how many there are. Every other edge leads to its default.
pub(crate) fn collect(
    l: Layout,
    scratch: &mut [u32],
    pos: &[u16],
    c: usize,
    j: usize,
    p0: usize,
    p1: usize,
) -> usize
    requires { Rowed l scratch.old pos.now c j p0 p1 × (0 < j) }
    ensures { Collected l scratch.old scratch.new c j result }
{
    let number = scratch[l.first + c] as usize + j;
    let f = scratch[l.lists.marks + number] as usize;
    let k = gather(l, scratch, pos, f, c, j, p0, p1);
    forget(l, scratch, k);
    k
}
