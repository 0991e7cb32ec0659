// The arrival of one copy, from those of the copies before it.
ghost use Rattle.std.specs.Prelude.{◌≡◌, ◌≤◌, nat_abs, ◌+ℤ◌, set};
ghost use Rattle.timing.specs.Times.{largest};
ghost use Rattle.times.specs.Passes.{Over};
ghost use Rattle.times.specs.Fanins.{over, best_over, ends_here, Fanin, Ready};

use entries::wide;
use extremes::larger;

// Edge `k` is there and ends at copy `c`.
fn ends_at(to: &[u32], k: usize, c: usize) -> bool
    ensures { result ≡ ends_here to.now k c }
{
    k < to.len() && wide(to[k]) == c
}

// A time and a delay: the sum of 64 bits is that of ℤ.
fn delayed(t: i64, d: i32) -> i64
    requires { (nat_abs t ≤ 20000000000) × (nat_abs d ≤ 1000000) }
    ensures { result ≡ t +ℤ d }
{
    t + d as i64
}

// What edge `k` gives its end.
fn over_edge(late: &[i32], from: &[u32], via: &[u32], arrivals: &[i64], k: usize) -> i64
    requires { Over late.now from.now via.now arrivals.now k }
    ensures { result ≡ over late.now from.now via.now arrivals.now k }
{
    let a = wide(from[k]);
    let name = wide(via[k]);
    delayed(arrivals[a], late[name])
}

// Gives copy `c` its arrival: the largest over the edges into it, which stand from `first` on, or 0 where
// there is none. Answers the place behind these.
pub(crate) fn arrive(
    late: &[i32],
    from: &[u32],
    to: &[u32],
    via: &[u32],
    arrivals: &mut [i64],
    c: usize,
    first: usize,
) -> usize
    requires { Ready late.now from.now to.now via.now arrivals.old c first }
    ensures { let ats = arrivals.old in
        let t = best_over largest late.now from.now via.now ats first result in
        Fanin to.now c first result × (arrivals.new ≡ set ats c t) }
{
    if ends_at(to, first, c) {
        let mut t = over_edge(late, from, via, arrivals, first);
        let mut k = first + 1;
        // No `for`: where the run of edges into c ends is found by reading it, and the next copy goes on from there.
        while ends_at(to, k, c) {
            t = larger(t, over_edge(late, from, via, arrivals, k));
            k += 1;
        }
        arrivals[c] = t;
        return k;
    }
    arrivals[c] = 0;
    first
}
