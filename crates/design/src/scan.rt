// What tests 12 to 16 share: a pass over everything, whose answer is the first that is bad.
ghost use Rattle.std.specs.Prelude.{◌≡◌, ℕ, ◌<◌, Bool, false};
ghost use Rattle.timing.specs.Lists.{upto};
ghost use Rattle.timing.specs.Refusals.{first_bad};

use timing::Verdict;
use verdicts::refuse;

// A test over everything, from a place on before which nothing is bad: the place is that of the first that is.
pub(crate) fn first_bad_from<F: Fn(usize) -> bool>(
    number: u32,
    from: usize,
    count: usize,
    bad: F,
) -> Verdict
    requires { F.IsAlwaysCallable bad }
    ensures { (b : ℕ → Bool) → ((k : ℕ) (r : Bool) → k < count → F.post bad k r → r ≡ b k)
        → ((k : ℕ) → k < from → b k ≡ false)
        → result ≡ first_bad number b 0 (upto count 0) }
{
    for k in from..count {
        let found = bad(k);
        if found {
            return Err(refuse(number, k));
        }
    }
    Ok(())
}

// A test over everything.
pub(crate) fn first_bad<F: Fn(usize) -> bool>(number: u32, count: usize, bad: F) -> Verdict
    requires { F.IsAlwaysCallable bad }
    ensures { (b : ℕ → Bool) → ((k : ℕ) (r : Bool) → k < count → F.post bad k r → r ≡ b k)
        → result ≡ first_bad number b 0 (upto count 0) }
{
    first_bad_from(number, 0, count, bad)
}
