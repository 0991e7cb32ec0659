// The search for a child of a class.
ghost use Rattle.std.specs.Prelude.{List, ℕ, ◌≤◌};
ghost use Rattle.removal.specs.Classes.{class_count, Child};
ghost use Rattle.removal.specs.Tables.{OfSome, Searchable};

use crate::classes::Lists;

// The class of edge e and then class u, which is not class 0; or 0. Found by halving.
pub(crate) fn kid_of(s: &[u32], l: Lists, u: usize, e: u32) -> u32
    requires { (1 ≤ u) × OfSome (λ L. (u ≤ class_count L) × Searchable L l s.now) }
    ensures { (L : List (List ℕ)) → u ≤ class_count L → Searchable L l s.now → Child L u e result }
{
    let end = s[l.kid + u] as usize;
    let mut lo = s[l.kid + u - 1] as usize;
    let mut hi = end;
    while lo < hi {
        let mid = lo + (hi - lo) / 2;
        if s[l.kids + mid] / 32768 < e {
            lo = mid + 1;
        } else {
            hi = mid;
        }
    }
    if lo < end {
        let w = s[l.kids + lo];
        if w / 32768 == e {
            return w % 32768;
        }
    }
    0
}
