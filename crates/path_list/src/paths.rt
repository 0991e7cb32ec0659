// 22, 23 and 24 of a list of paths: each passes over every path. A path is the front of what the paths before it leave of the flat
// list; where the lengths pass the flat list, it ends there.
ghost use Rattle.std.specs.Prelude.{◌≡◌, ◌+◌, ◌<◌, List, [], ℕ, Option, None, length, take};
ghost use Rattle.std.specs.Fn.{FnReturnsAt};
ghost use Rattle.timing.specs.Refusals.{first_fault};
ghost use Rattle.timing.specs.Graphs.{design};
ghost use Rattle.timing.specs.Marks.{path_list, paths_of};
ghost use Rattle.timing.specs.Tests.{meets, empty_at, first_unknown, first_break};

use entries::{least, number_at};
use timing::Verdict;
use verdicts::unless_fault;

// A test over every path, by what finds the first fault of one: the first path that has a fault is refused.
fn first_fault<F: Fn(&[u32]) -> Option<usize>>(
    number: u32,
    listed: &[u32],
    lengths: &[u32],
    fault: F,
) -> Verdict
    requires { F.IsAlwaysCallable fault }
    ensures { (f : List ℕ → Option ℕ) → ((path : List ℕ) (r : Option ℕ) → FnReturnsAt F.Fn fault path r → r ≡ f path)
        → result ≡ first_fault number f 0 (paths_of (path_list listed.now lengths.now)) }
{
    let mut rest = listed;
    for (p, k) in lengths.iter().enumerate() {
        let (path, after) = rest.split_at(least(*k as usize, rest.len()));
        unless_fault(number, p, fault(path))?;
        rest = after;
    }
    Ok(())
}

// 22: a path is empty.
pub(crate) fn filled(listed: &[u32], lengths: &[u32]) -> Verdict
    ensures { result ≡ first_fault 22 empty_at 0 (paths_of (path_list listed.now lengths.now)) }
{
    first_fault(22, listed, lengths, |path| {
        if path.is_empty() { Some(0) } else { None }
    })
}

// The first edge of a path that is none of the m edges.
fn first_unknown(m: usize, path: &[u32]) -> Option<usize>
    ensures { result ≡ first_unknown m 0 path.now }
{
    path.iter().position(|k| m <= *k as usize)
}

// 23: a path names an edge not below m.
pub(crate) fn named(m: usize, listed: &[u32], lengths: &[u32]) -> Verdict
    ensures { result ≡ first_fault 23 (first_unknown m 0) 0 (paths_of (path_list listed.now lengths.now)) }
{
    first_fault(23, listed, lengths, |path| first_unknown(m, path))
}

// The join test of a path up to its edge i, where the edges before i are known to join: the index of the first that does not
// start where the one before ends, or that all join.
fn join_test(starts: &[u32], ends: &[u32], path: &[u32], i: usize) -> Option<usize>
    requires { let D = design 0 starts.now ends.now [] [] [] in
        (0 < i) × (i < length path.now) × (first_break (meets D) 0 (take i path.now) ≡ None) }
    ensures { let D = design 0 starts.now ends.now [] [] [] in
        result ≡ first_break (meets D) 0 (take (i + 1) path.now) }
{
    let j = path[i - 1] as usize;
    let k = path[i] as usize;
    if number_at(ends, j) == number_at(starts, k) {
        None
    } else {
        Some(i)
    }
}

// 24: the edges of a path do not join; the search stops at the first such place.
pub(crate) fn joined(starts: &[u32], ends: &[u32], listed: &[u32], lengths: &[u32]) -> Verdict
    ensures { let D = design 0 starts.now ends.now [] [] [] in
        result ≡ first_fault 24 (first_break (meets D) 0) 0 (paths_of (path_list listed.now lengths.now)) }
{
    let mut rest = listed;
    let mut verdict = Ok(());
    'paths: for (p, k) in lengths.iter().enumerate() {
        let (path, after) = rest.split_at(least(*k as usize, rest.len()));
        for i in 1..path.len() {
            verdict = unless_fault(24, p, join_test(starts, ends, path, i));
            if verdict.is_err() {
                break 'paths;
            }
        }
        rest = after;
    }
    verdict
}
