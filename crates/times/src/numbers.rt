// Signed numbers. Each operation of the machine is a function of its own, whose contract is the
// operation of ℤ: its callers never see what a sum of 64 bits may do.
ghost use Rattle.std.specs.Prelude.{◌≡◌, ◌≤◌, pos, neg_ℤ, nat_abs, ◌+ℤ◌};

// A delay as a time.
pub(crate) fn time_of(d: i32) -> i64
    ensures { result ≡ d }
{
    d as i64
}

// A delay negated: what a required time changes by from the end of an edge to its start.
pub(crate) fn negated(d: i32) -> i64
    ensures { result ≡ neg_ℤ d }
{
    -time_of(d)
}

pub(crate) fn signed(t: u32) -> i64
    ensures { result ≡ pos t }
{
    t as i64
}

pub(crate) fn sum(a: i64, b: i64) -> i64
    requires { (nat_abs a ≤ 20000000000) × (nat_abs b ≤ 20000000000) }
    ensures { result ≡ a +ℤ b }
{
    a + b
}
