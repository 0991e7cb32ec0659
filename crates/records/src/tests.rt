// What the two calls test, in document 01's order.
ghost use Rattle.std.specs.Prelude.{◌≡◌};
ghost use Rattle.timing.specs.Refusals.{◌then◌};
ghost use Rattle.timing.specs.Tests.{same_sizes, time_sizes, node_count};

use sizes::time_sizes;
use timing::Verdict;
use verdicts::{same_sizes, unless};

pub(crate) fn record_tests(
    n: u32,
    copies: usize,
    arrivals: usize,
    requireds: usize,
    slacks: usize,
    earliests: usize,
) -> Verdict
    ensures { result ≡ (time_sizes copies arrivals requireds slacks earliests then node_count n) }
{
    time_sizes(copies, arrivals, requireds, slacks, earliests)?;
    unless(10, n <= timing::MAX_NODES)
}

// The five lent slices have one place for each node.
pub(crate) fn records_tests(
    n: u32,
    copies: usize,
    arrivals: usize,
    requireds: usize,
    slacks: usize,
    earliests: usize,
    known: usize,
    na: usize,
    nr: usize,
    ns: usize,
    ne: usize,
) -> Verdict
    ensures { result ≡ (time_sizes copies arrivals requireds slacks earliests
        then same_sizes n n known
        then time_sizes n na nr ns ne
        then node_count n) }
{
    let places = n as usize;
    time_sizes(copies, arrivals, requireds, slacks, earliests)?;
    same_sizes(places, places, known)?;
    time_sizes(places, na, nr, ns, ne)?;
    unless(10, n <= timing::MAX_NODES)
}
