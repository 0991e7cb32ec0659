// The numbers that stand for delays in packed bytes.
#![tactic(auto)]

ghost use Rattle.std.specs.Prelude.{◌≡◌, ℕ, ℤ};
ghost use Rattle.timing.specs.Delays.{packed_delay, delay_of};

// A delay as the number that stands for it.
pub fn pack_delay(d: i32) -> u32
    ensures { result ≡ packed_delay d }
{
    if d < 0 {
        let m = -(d + 1);
        let n = m as u32;
        2 * n + 1
    } else {
        let n = d as u32;
        2 * n
    }
}

// The delay that a number stands for.
pub fn unpack_delay(x: u32) -> i32
    ensures { result ≡ delay_of x }
{
    let h = (x / 2) as i32;
    if x % 2 == 0 { h } else { -h - 1 }
}
