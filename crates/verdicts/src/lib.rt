// Refusals, and tests one after the other: the first that does not pass is the verdict.
#![tactic(auto)]

ghost use Rattle.std.specs.Prelude.{◌≡◌, ℕ, ◌<◌, Bool, true, false, MatchOption};
ghost use Rattle.timing.specs.Answers.{Passed};
ghost use Rattle.timing.specs.Lists.{upto};
ghost use Rattle.timing.specs.Refusals.{refusal, refusal_within, unless_fault, first_bad, ◌then◌};
ghost use Rattle.timing.specs.Refusals.{unless as passed_if};
ghost use Rattle.timing.specs.WellFormed.{zero_or_one};
ghost use Rattle.timing.specs.Tests.{same_sizes, marked_count, room_sizes};

use timing::{Refusal, Verdict};

// Every refusal is made here.
pub fn refuse_within(number: u32, place: usize, index: usize) -> Refusal
    ensures { result ≡ refusal_within number place index }
{
    Refusal {
        number,
        place,
        index,
    }
}

// One with a single place.
pub fn refuse(number: u32, place: usize) -> Refusal
    ensures { result ≡ refusal number place }
{
    refuse_within(number, place, 0)
}

// A test whose place is 0.
pub fn unless(number: u32, fit: bool) -> Verdict
    ensures { result ≡ passed_if number fit }
{
    if fit { Ok(()) } else { Err(refuse(number, 0)) }
}

// A further test whose place is 0, after those that gave the verdict. Public functions that are handed the verdict before them keep it as
// a parameter, as their contracts say; within a crate the tests follow one another by `?`.
pub fn and_unless(before: Verdict, number: u32, fit: bool) -> Verdict
    ensures { result ≡ (before then passed_if number fit) }
{
    before?;
    unless(number, fit)
}

// A test of one path, from where its first fault is; `place` says which path.
pub fn unless_fault(number: u32, place: usize, fault: Option<usize>) -> Verdict
    ensures { result ≡ unless_fault number place fault }
{
    match fault {
        Some(index) => Err(refuse_within(number, place, index)),
        None => Ok(()),
    }
}

// One test, and the next where it passes.
pub fn then(first: Verdict, next: Verdict) -> Verdict
    ensures { result ≡ (first then next) }
{
    first.and(next)
}

// 30 for three lent slices that belong together, by their lengths.
pub fn same_sizes(a: usize, b: usize, c: usize) -> Verdict
    ensures { result ≡ same_sizes a b c }
{
    unless(30, a == b && a == c)
}

// 30 for the five slices of a graph, or of a room for one, by their lengths.
pub fn graph_sizes(nodes: usize, endpoint: usize, from: usize, to: usize, via: usize) -> Verdict
    ensures { result ≡ room_sizes (record { nodes = nodes; endpoints = endpoint; starts = from; ends = to; names = via }) }
{
    let copies = same_sizes(nodes, nodes, endpoint);
    let edges = same_sizes(from, to, via);
    then(copies, edges)
}

// 16 for more marked nodes than the n that there are, by their count: one of them is wrong.
pub fn marked_count(n: u32, count: usize) -> Verdict
    ensures { result ≡ marked_count n count }
{
    let n = n as usize;
    if count <= n {
        Ok(())
    } else {
        Err(refuse(16, n))
    }
}

// Whether each endpoint number is 0 or 1, for 32. The loop has no branch, so that it is compiled to vector code.
pub fn zero_or_one(endpoint: &[u32]) -> bool
    ensures { result ≡ zero_or_one endpoint.now }
{
    let mut pass = true;
    for e in endpoint {
        pass &= *e <= 1;
    }
    pass
}

// A test over everything, by the place of the first that was found to be bad. The caller looks for it, as by
// `(0..count).find(|k| bad(*k))`: what calls a closure that it is handed has a `requires`, and a public function has none.
pub fn first_bad(number: u32, found: Option<usize>) -> Verdict
    ensures answer { MatchOption found (result ≡ Passed) (λ k. result ≡ Err (refusal number k)) }
    ensures over_all { (b : ℕ → Bool) (count : ℕ)
        → MatchOption found ((k : ℕ) → k < count → b k ≡ false) (λ i. (i < count) × (b i ≡ true) × ((k : ℕ) → k < i → b k ≡ false))
        → result ≡ first_bad number b 0 (upto count 0) }
{
    match found {
        Some(place) => Err(refuse(number, place)),
        None => Ok(()),
    }
}

#[cfg(test)]
mod tests {
    use super::*;

    // As a caller that holds a closure asks; the contract is that of a function which is handed one.
    fn over_all<F: Fn(usize) -> bool>(number: u32, count: usize, bad: F) -> Verdict
        requires { F.IsAlwaysCallable bad }
        ensures { (b : ℕ → Bool) → ((k : ℕ) (r : Bool) → k < count → F.post bad k r → r ≡ b k)
            → result ≡ first_bad number b 0 (upto count 0) }
    {
        first_bad(number, (0..count).find(|k| bad(*k)))
    }

    #[test]
    fn place_is_that_of_the_first_bad(rt: HostRuntime) {
        let numbers = [3, 9, 1, 9, 4];
        for (count, least, place) in [
            (5, 10, None),
            (5, 9, Some(1)),
            (5, 3, Some(0)),
            (3, 9, Some(1)),
            (1, 9, None),
            (0, 0, None),
        ] {
            let verdict = over_all(12, count, |k| k < 5 && numbers[k] >= least);
            let told = verdict.err().map(|r| (r.number, r.place, r.index));
            assert_eq!(rt; told, place.map(|k| (12, k, 0)), "{count} from {least}");
        }
    }
}
