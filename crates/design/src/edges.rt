// 12 to 15: each passes over every edge of the design.
ghost use Rattle.std.specs.Prelude.{◌≡◌, ◌&&◌, [], ltb, leb, pos, nat_abs, length, get_or};
ghost use Rattle.std.specs.Int.Signed.{lt_z};
ghost use Rattle.timing.specs.Lists.{upto};
ghost use Rattle.timing.specs.Refusals.{first_bad};
ghost use Rattle.timing.specs.Graphs.{design};
ghost use Rattle.timing.specs.Tests.{strays, falls, out_of_range, early_above_late};

use crate::scan::first_bad;
use entries::{delay_at, number_at};
use timing::{MAX_DELAY, Verdict};

// Both ends of edge k are nodes.
fn known(n: u32, starts: &[u32], ends: &[u32], k: usize) -> bool
    ensures { result ≡ (ltb (get_or starts.now k 0) n && ltb (get_or ends.now k 0) n) }
{
    let end = number_at(ends, k);
    if number_at(starts, k) < n {
        return end < n;
    }
    false
}

// 12: an edge names a node not below n.
pub(crate) fn all_known(n: u32, starts: &[u32], ends: &[u32]) -> Verdict
    ensures { let D = design n starts.now ends.now [] [] [] in
        result ≡ first_bad 12 (strays D) 0 (upto (length starts.now) 0) }
{
    first_bad(12, starts.len(), |k| !known(n, starts, ends, k))
}

fn rises(starts: &[u32], ends: &[u32], k: usize) -> bool
    ensures { result ≡ ltb (get_or starts.now k 0) (get_or ends.now k 0) }
{
    number_at(starts, k) < number_at(ends, k)
}

// 13: an edge does not rise.
pub(crate) fn all_rise(starts: &[u32], ends: &[u32]) -> Verdict
    ensures { let D = design 0 starts.now ends.now [] [] [] in
        result ≡ first_bad 13 (falls D) 0 (upto (length starts.now) 0) }
{
    first_bad(13, starts.len(), |k| !rises(starts, ends, k))
}

fn in_range(delays: &[i32], k: usize) -> bool
    ensures { result ≡ leb (nat_abs (get_or delays.now k (pos 0))) 1000000 }
{
    let d = delay_at(delays, k);
    if d < -MAX_DELAY {
        return false;
    }
    d <= MAX_DELAY
}

// Both delays of edge k are in range.
fn both_in_range(early: &[i32], late: &[i32], k: usize) -> bool
    ensures { result ≡ (leb (nat_abs (get_or early.now k (pos 0))) 1000000
        && leb (nat_abs (get_or late.now k (pos 0))) 1000000) }
{
    if in_range(early, k) {
        return in_range(late, k);
    }
    false
}

// 14: a delay of one of the m edges is out of range.
pub(crate) fn all_in_range(m: usize, early: &[i32], late: &[i32]) -> Verdict
    ensures { let D = design 0 [] [] early.now late.now [] in
        result ≡ first_bad 14 (out_of_range D) 0 (upto m 0) }
{
    first_bad(14, m, |k| !both_in_range(early, late, k))
}

fn early_above_late(early: &[i32], late: &[i32], k: usize) -> bool
    ensures { result ≡ lt_z (get_or late.now k (pos 0)) (get_or early.now k (pos 0)) }
{
    delay_at(late, k) < delay_at(early, k)
}

// 15: the early delay of one of the m edges is above its late delay.
pub(crate) fn all_ordered(m: usize, early: &[i32], late: &[i32]) -> Verdict
    ensures { let D = design 0 [] [] early.now late.now [] in
        result ≡ first_bad 15 (early_above_late D) 0 (upto m 0) }
{
    first_bad(15, m, |k| early_above_late(early, late, k))
}
