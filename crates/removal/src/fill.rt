// The result, written to the room: a pass over the slots that shows them as the second pass does, and writes those that are shown.
ghost use Rattle.std.specs.Prelude.{◌≡◌, ◌+◌, ◌-◌, ◌≤◌, ◌<◌, length, get_or, take};
ghost use Rattle.timing.specs.Lists.{upto};
ghost use Rattle.removal.specs.Slots.{slots};
ghost use Rattle.removal.specs.Rows.{slots_in};
ghost use Rattle.removal.specs.Patches.{patch_at, lead_at};
ghost use Rattle.removal.specs.Result.{slot_at, slot_endpoint};
ghost use Rattle.removal.specs.Show.{AllShown, EdgesMeet};
ghost use Rattle.removal.specs.Fill.{shown_flag, RowRoom, RowWritten, default_from, default_at, RowRead, RowFull, row_edges, Edged, EdgesRoom, EdgesFilled};
ghost use Rattle.removal.specs.Fill.{Filling, RowHeld, RowKept, Filled, one_slot, slots_to, RowsFlagged, Fillable, ResultFilled};

use crate::patches::note_places;
use crate::rows::{Layout, run_from};
use crate::show::{row_of, show_slot, shown_defaults};
use timing::GraphCounts;

// The flag of the slot at a place if it is shown, and else 0.
fn shown_flag(scratch: &[u32], place: usize) -> u32
    requires { place < length scratch.now }
    ensures { result ≡ shown_flag (get_or scratch.now place 0) }
{
    let v = scratch[place];
    if 2 <= v { v } else { 0 }
}

// The row of the empty mark: the flag from which each edge comes.
fn load_row(l: Layout, scratch: &mut [u32], p0: usize, p1: usize)
    requires { RowRoom l scratch.old (p1 - p0) (λ i. p0 + i) (default_from l scratch.old p0) × (p0 ≤ p1) }
    ensures { RowWritten l scratch.old scratch.new (p1 - p0)
        (λ i. p0 + i) (default_from l scratch.old p0) }
{
    for q in p0..p1 {
        let place = scratch[l.default + q] as usize;
        scratch[l.comes + q] = shown_flag(scratch, place);
    }
}

// From the row of the empty mark to the row with k patches.
fn patch_row(l: Layout, scratch: &mut [u32], k: usize)
    requires { RowRoom l scratch.old k (patch_at l scratch.old) (lead_at l scratch.old) }
    ensures { RowWritten l scratch.old scratch.new k
        (patch_at l scratch.old) (lead_at l scratch.old) }
{
    for i in 0..k {
        let q = scratch[l.patch + i] as usize;
        let place = scratch[l.lead + i] as usize;
        scratch[l.comes + q] = shown_flag(scratch, place);
    }
}

// And back.
fn unpatch_row(l: Layout, scratch: &mut [u32], k: usize)
    requires { RowRoom l scratch.old k (patch_at l scratch.old) (default_at l scratch.old) }
    ensures { RowWritten l scratch.old scratch.new k
        (patch_at l scratch.old) (default_at l scratch.old) }
{
    for i in 0..k {
        let q = scratch[l.patch + i] as usize;
        let place = scratch[l.default + q] as usize;
        scratch[l.comes + q] = shown_flag(scratch, place);
    }
}

// Writes the edges of the row at hand from place k of the room on; their end has this number.
fn write_row(
    l: Layout,
    scratch: &[u32],
    p0: usize,
    p1: usize,
    number: u32,
    room_from: &mut [u32],
    room_to: &mut [u32],
    room_via: &mut [u32],
    k: usize,
)
    requires { RowRead l scratch.now p0 p1 number room_from.old room_to.old room_via.old k }
    ensures { Edged (row_edges l scratch.now number (upto (p1 - p0) p0)) k
        room_from.old room_to.old room_via.old
        room_from.new room_to.new room_via.new
        (k + length (row_edges l scratch.now number (upto (p1 - p0) p0))) }
{
    let mut at = k;
    for q in p0..p1 {
        let v = scratch[l.comes + q];
        if v != 0 {
            room_from[at] = v - 2;
            room_to[at] = number;
            room_via[at] = scratch[l.name + q];
            at += 1;
        }
    }
}

// The same where every edge of the row comes from a shown slot: a loop with no test.
fn write_full(
    l: Layout,
    scratch: &[u32],
    p0: usize,
    p1: usize,
    number: u32,
    room_from: &mut [u32],
    room_to: &mut [u32],
    room_via: &mut [u32],
    k: usize,
)
    requires row_read { RowRead l scratch.now p0 p1 number room_from.old room_to.old room_via.old k }
    requires row_full { RowFull l scratch.now p0 p1 }
    ensures { Edged (row_edges l scratch.now number (upto (p1 - p0) p0)) k
        room_from.old room_to.old room_via.old
        room_from.new room_to.new room_via.new
        (k + length (row_edges l scratch.now number (upto (p1 - p0) p0))) }
{
    for i in 0..p1 - p0 {
        room_from[k + i] = scratch[l.comes + p0 + i] - 2;
        room_to[k + i] = number;
        room_via[k + i] = scratch[l.name + p0 + i];
    }
}

// The same of a row in which so many edges come from shown slots.
fn write_edges(
    l: Layout,
    scratch: &[u32],
    p0: usize,
    p1: usize,
    edges: usize,
    number: u32,
    room_from: &mut [u32],
    room_to: &mut [u32],
    room_via: &mut [u32],
    k: usize,
)
    requires row_read { RowRead l scratch.now p0 p1 number room_from.old room_to.old room_via.old k }
    requires p0_len { length (row_edges l scratch.now number (upto (p1 - p0) p0)) ≡ edges }
    ensures { Edged (row_edges l scratch.now number (upto (p1 - p0) p0)) k
        room_from.old room_to.old room_via.old
        room_from.new room_to.new room_via.new
        (k + length (row_edges l scratch.now number (upto (p1 - p0) p0))) }
{
    if edges == p1 - p0 {
        write_full(l, scratch, p0, p1, number, room_from, room_to, room_via, k);
    } else {
        write_row(l, scratch, p0, p1, number, room_from, room_to, room_via, k);
    }
}

// Writes the edges into slot j of copy c, whose patches are collected, which is shown and has this number, from place k of the room on:
// so many come from shown slots. The row at hand is that of the empty mark, before and after.
fn fill_edges(
    l: Layout,
    scratch: &mut [u32],
    c: usize,
    j: usize,
    p0: usize,
    p1: usize,
    patches: usize,
    edges: usize,
    number: u32,
    room_from: &mut [u32],
    room_to: &mut [u32],
    room_via: &mut [u32],
    k: usize,
)
    requires edges_room { EdgesRoom l scratch.old c j p0 p1 patches room_from.old room_to.old room_via.old k }
    requires edges_meet { EdgesMeet l scratch.old c j edges }
    ensures { EdgesFilled l scratch.old scratch.new c j number
        room_from.old room_to.old room_via.old
        room_from.new room_to.new room_via.new k }
{
    patch_row(l, scratch, patches);
    write_edges(
        l, scratch, p0, p1, edges, number, room_from, room_to, room_via, k,
    );
    unpatch_row(l, scratch, patches);
}

// The endpoint number of slot j of copy c. Paths that end at c have the empty mark there, and slot 0 is the slot of the
// empty mark: no path ends at any other slot.
fn slot_endpoint(endpoint: &[u32], c: usize, j: usize) -> u32
    requires { c < length endpoint.now }
    ensures { result ≡ slot_endpoint endpoint.now (slot_at c j) }
{
    if j == 0 { endpoint[c] } else { 0 }
}

// Shows slot j of copy c as the second pass does, and if it is shown writes it: its node, its endpoint number, and the edges into it.
fn fill_slot(
    l: Layout,
    nodes: &[u32],
    endpoint: &[u32],
    scratch: &mut [u32],
    pos: &[u16],
    c: usize,
    j: usize,
    p0: usize,
    p1: usize,
    defaults: usize,
    room_nodes: &mut [u32],
    room_endpoint: &mut [u32],
    room_from: &mut [u32],
    room_to: &mut [u32],
    room_via: &mut [u32],
    counts: GraphCounts,
) -> GraphCounts
    requires filling { Filling l nodes.now endpoint.now scratch.old (length pos.now)
        room_nodes.old room_endpoint.old room_from.old room_to.old room_via.old
        c j counts.copies counts.edges }
    requires row_held { RowHeld l scratch.old pos.now c p0 p1 defaults × (j < slots (slots_in l (take l.slots scratch.old)) c) }
    ensures { Filled l nodes.now endpoint.now scratch.old scratch.new
        c j counts.copies counts.edges c (j + 1) result.copies result.edges (one_slot c j)
        room_nodes.old room_endpoint.old room_from.old room_to.old room_via.old
        room_nodes.new room_endpoint.new room_from.new room_to.new room_via.new
        × RowKept l scratch.old scratch.new c j }
{
    let at = scratch[l.base + c] as usize + j;
    if scratch[at] == 0 {
        return counts;
    }
    let row = row_of(l, scratch, pos, c, j, p0, p1, defaults);
    let next = show_slot(l, scratch, c, j, p0, p1, row.edges, counts);
    let number = counts.copies;
    if next.copies == number {
        return counts;
    }
    room_nodes[number] = nodes[c];
    room_endpoint[number] = slot_endpoint(endpoint, c, j);
    fill_edges(
        l,
        scratch,
        c,
        j,
        p0,
        p1,
        row.patches,
        row.edges,
        number as u32,
        room_from,
        room_to,
        room_via,
        counts.edges,
    );
    next
}

// Shows and writes the slots of copy c; those of the lower copies are done.
fn fill_copy(
    l: Layout,
    nodes: &[u32],
    endpoint: &[u32],
    scratch: &mut [u32],
    pos: &mut [u16],
    c: usize,
    room_nodes: &mut [u32],
    room_endpoint: &mut [u32],
    room_from: &mut [u32],
    room_to: &mut [u32],
    room_via: &mut [u32],
    counts: GraphCounts,
) -> GraphCounts
    requires filling { Filling l nodes.now endpoint.now scratch.old (length pos.old)
        room_nodes.old room_endpoint.old room_from.old room_to.old room_via.old
        c 0 counts.copies counts.edges }
    requires c_lt_copies { c < l.copies }
    ensures { Filled l nodes.now endpoint.now scratch.old scratch.new
        c 0 counts.copies counts.edges (c + 1) 0 result.copies result.edges
        (slots_to c (slots (slots_in l (take l.slots scratch.old)) c))
        room_nodes.old room_endpoint.old room_from.old room_to.old room_via.old
        room_nodes.new room_endpoint.new room_from.new room_to.new room_via.new
        × (length pos.new ≡ length pos.old) }
{
    let p0 = run_from(l, scratch, c);
    let p1 = scratch[l.into + c] as usize;
    let count = scratch[l.base + c + 1] as usize - scratch[l.base + c] as usize;
    if 1 < count {
        note_places(l, scratch, pos, c, p0, p1);
    }
    let defaults = shown_defaults(l, scratch, c, p0, p1);
    load_row(l, scratch, p0, p1);
    let mut so_far = counts;
    for j in 0..count {
        so_far = fill_slot(
            l,
            nodes,
            endpoint,
            scratch,
            pos,
            c,
            j,
            p0,
            p1,
            defaults,
            room_nodes,
            room_endpoint,
            room_from,
            room_to,
            room_via,
            so_far,
        );
    }
    so_far
}

// Writes the whole result to the front of the room. The flags say what is reached; afterwards those of the shown slots are 2 and their numbers.
pub(crate) fn fill_all(
    l: Layout,
    nodes: &[u32],
    endpoint: &[u32],
    scratch: &mut [u32],
    pos: &mut [u16],
    room_nodes: &mut [u32],
    room_endpoint: &mut [u32],
    room_from: &mut [u32],
    room_to: &mut [u32],
    room_via: &mut [u32],
) -> GraphCounts
    requires fillable { Fillable l nodes.now endpoint.now scratch.old pos.old
        room_nodes.old room_endpoint.old room_from.old room_to.old room_via.old }
    requires rows_flagged { RowsFlagged l scratch.old endpoint.now }
    ensures { AllShown l scratch.old scratch.new result.copies result.edges
        × ResultFilled l nodes.now endpoint.now scratch.old
        room_nodes.old room_endpoint.old room_from.old
        room_to.old room_via.old room_nodes.new room_endpoint.new
        room_from.new room_to.new room_via.new }
{
    let mut counts = GraphCounts {
        copies: 0,
        edges: 0,
    };
    for c in 0..l.copies {
        counts = fill_copy(
            l,
            nodes,
            endpoint,
            scratch,
            pos,
            c,
            room_nodes,
            room_endpoint,
            room_from,
            room_to,
            room_via,
            counts,
        );
    }
    counts
}
