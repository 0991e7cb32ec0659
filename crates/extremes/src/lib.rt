// The larger and the smaller of two times.
#![tactic(auto)]

ghost use Rattle.std.specs.Prelude.{◌≡◌};
ghost use Rattle.timing.specs.Times.{larger as larger_time, smaller as smaller_time};

pub fn larger(a: i64, b: i64) -> i64
    ensures { result ≡ larger_time a b }
{
    a.max(b)
}

pub fn smaller(a: i64, b: i64) -> i64
    ensures { result ≡ smaller_time a b }
{
    a.min(b)
}
