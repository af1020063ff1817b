//! IEEE 754 remainder by 2.0 * PI (docs/RULES.md, 'The remainder').

ghost use Rattle.std.specs.Prelude.{◌≡◌, ◌*◌, ◌%◌, ◌^◌, ◌<◌};
ghost use Rattle.std.specs.Float.{binary32};
ghost use Rattle.std.specs.Float.Ieee.{rem};
ghost use Rattle.ieee754.specs.Remainder.{remainder_by, tau};

use crate::bits::to_bits;

// (m * 2^k) % 13176795, a doubling at a time.
#[tactic(auto, using(crate::proofs::Beyond::doubled_rest))]
fn doubled_rest(m: u32, k: u32) -> u32
    ensures value { result ≡ m * 2 ^ k % 13176795 }
    ensures bound { result < 13176795 }
{
    let mut r = m % 13176795;
    for _ in 0..k {
        r = r * 2 % 13176795;
    }
    r
}

// x % (2.0 * PI), which is exact, by whole numbers: 2.0 * PI is 13176795 / 2^21. Below 4.0 it is x.
// No `%`: it calls C's fmodf in a version that a machine may lack, and then no program starts.
fn rest(x: f32) -> f32
    ensures { result ≡ rem binary32 x tau }
{
    let b = to_bits(x);
    let size = b % 0x8000_0000;
    if size < 0x4080_0000 {
        return x;
    }
    if size >= 0x7f80_0000 {
        return 0.0 / 0.0;
    }
    let r = doubled_rest(size % 0x80_0000 + 0x80_0000, size / 0x80_0000 - 129);
    let y = r as f32 * 4.7683715820312e-7;
    if b < 0x8000_0000 { y } else { -y }
}

/// C's remainderf(x, 2.0 * PI): x less the nearest multiple, the even one at a tie.
pub fn remainder(x: f32) -> f32
    ensures { result ≡ remainder_by binary32 x tau }
{
    // The rest has x's sign and is less than 2.0 * PI. What lies beyond PI is nearer to the next
    // multiple; PI itself is reached only by x = PI and x = -PI, whose nearest even multiple is 0.
    let r = rest(x);
    if r > 3.1415927 {
        return r - 6.2831855;
    }
    if r < -3.1415927 {
        return r + 6.2831855;
    }
    r
}
