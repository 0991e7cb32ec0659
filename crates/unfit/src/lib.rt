// The tests of unfit input, whole: of a design, of a list of paths with its design, and of a deck.
#![tactic(auto)]

ghost use Rattle.std.specs.Prelude.{◌≡◌};
ghost use Rattle.timing.specs.Graphs.{design};
ghost use Rattle.timing.specs.Marks.{path_list};
ghost use Rattle.timing.specs.Calls.{test_design, test_list, test_deck};

use design::and_design_tests;
use path_list::and_list_tests;
use sizes::{and_list_sizes, design_sizes};
use timing::{MAX_ALLOWED_TIME, Verdict};
use verdicts::and_unless;

// Tests a design: 30, and 10 to 16.
pub fn test_design(
    n: u32,
    starts: &[u32],
    ends: &[u32],
    early: &[i32],
    late: &[i32],
    marked: &[u32],
) -> Verdict
    ensures { let D = design n starts.now ends.now early.now late.now
        marked.now in
        result ≡ test_design D }
{
    let sizes = design_sizes(starts, ends, early, late);
    and_design_tests(sizes, n, starts, ends, early, late, marked)
}

// Tests a design and a list of paths: 30, 10 to 16, and 20 to 24.
pub fn test_list(
    n: u32,
    starts: &[u32],
    ends: &[u32],
    early: &[i32],
    late: &[i32],
    marked: &[u32],
    listed: &[u32],
    lengths: &[u32],
) -> Verdict
    ensures { let D = design n starts.now ends.now early.now late.now
        marked.now in
        let L = path_list listed.now lengths.now in
        result ≡ test_list D L }
{
    let slices = design_sizes(starts, ends, early, late);
    let sizes = and_list_sizes(slices, listed, lengths);
    let fit = and_design_tests(sizes, n, starts, ends, early, late, marked);
    and_list_tests(fit, starts, ends, listed, lengths)
}

// Tests a deck: a design, a list of paths and T.
pub fn test_deck(
    n: u32,
    starts: &[u32],
    ends: &[u32],
    early: &[i32],
    late: &[i32],
    marked: &[u32],
    listed: &[u32],
    lengths: &[u32],
    allowed: u32,
) -> Verdict
    ensures { let D = design n starts.now ends.now early.now late.now
        marked.now in
        let L = path_list listed.now lengths.now in
        result ≡ test_deck D L allowed }
{
    let fit = test_list(n, starts, ends, early, late, marked, listed, lengths);
    and_unless(fit, 25, allowed <= MAX_ALLOWED_TIME)
}
