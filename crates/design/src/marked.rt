// 16: a pass over the marked nodes of the design, behind those that a quick pass finds to pass.
ghost use Rattle.std.specs.Prelude.{◌≡◌, [], length};
ghost use Rattle.timing.specs.Lists.{upto};
ghost use Rattle.timing.specs.Refusals.{first_bad};
ghost use Rattle.timing.specs.Graphs.{design};
ghost use Rattle.timing.specs.Tests.{rises_not, wrong_marked};

use crate::quick;
use crate::scan::first_bad_from;
use entries::number_at;
use timing::Verdict;

// There is a marked node before the one at index i, and that one is not below it.
fn rises_not(marked: &[u32], i: usize) -> bool
    ensures { result ≡ rises_not marked.now i }
{
    if i == 0 {
        return false;
    }
    number_at(marked, i) <= number_at(marked, i - 1)
}

fn wrong(n: u32, marked: &[u32], i: usize) -> bool
    ensures { result ≡ wrong_marked (design n [] [] [] [] marked.now) i }
{
    if number_at(marked, i) < n {
        return rises_not(marked, i);
    }
    true
}

// 16: a marked node is not below n, or does not rise.
pub(crate) fn all_rise(n: u32, marked: &[u32]) -> Verdict
    ensures { let D = design n [] [] [] [] marked.now in
        result ≡ first_bad 16 (wrong_marked D) 0 (upto (length marked.now) 0) }
{
    let passed = quick::marked_passed(n, marked);
    first_bad_from(16, passed, marked.len(), |i| wrong(n, marked, i))
}
